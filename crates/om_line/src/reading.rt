//! Reads the line table at an offset of `.debug_line`: DWARF 4, section 6.2.4.

ghost use Rattle.std.specs.Prelude.{◌≡◌, ◌≢◌, ◌⊎◌, ◌+◌, ◌<◌, ◌≤◌, ◌^◌, if◌then◌else◌, nat_le, length, drop, Some, None, IfOk, IfErr};
ghost use Rattle.std.specs.Option.{option_copied};
ghost use Rattle.om_line.specs.Files.{head_files};
ghost use Rattle.om_line.specs.Heads.{head_of, header_length, is_lawful};
ghost use Rattle.om_line.specs.Lines as spec;
ghost use Rattle.om_line.specs.Opening.{IsTable, head_fault};

use crate::fault::LineFault;
use crate::files::head_files;
use crate::head::{Head, head_in, header_length, table_fault, unit_length};
use crate::lines::{Lines, run};
use om_base::{Items, Name};
use std::alloc::Global;

/// A table of which the head was read.
#[derive(Debug, Drop)]
pub struct Table<'a> {
    pub head: Head<'a>,
    /// The files that the head tells of.
    pub files: Items<Name<'a>>,
    pub program: &'a [u8],
    /// Where it ends in its section, and its program too.
    pub end: u32,
}

/// The program of a table, if it begins in the table.
fn program_in(table: &[u8]) -> Option<&[u8]>
    ensures { option_copied result ≡ (if nat_le (10 + header_length table.now) (length table.now) then Some (spec.program_of table.now) else None) }
{
    table.get(10 + header_length(table) as usize..)
}

/// The table of these bytes, which begin at `at`.
#[tactic(auto, unfolding(crate::specs::Lines::header_fault, crate::specs::Heads::head_in))]
fn table_of<'a>(alloc: Global, at: u32, table: &'a [u8]) -> Result<Table<'a>, LineFault>
    requires { at + length table.now < 2 ^ 32 }
    ensures head { IfOk result (λ it. it.head ≡ head_of table.now) }
    ensures range { IfOk result (λ it. it.head.line_range ≢ 0) }
    ensures files { IfOk result (λ it. head_files (spec.behind_head table.now) ≡ Some it.files) }
    ensures program { IfOk result (λ it. it.program.now ≡ spec.program_of table.now) }
    ensures begins { IfOk result (λ it. 10 + header_length table.now ≤ length table.now) }
    ensures end { IfOk result (λ it. it.end ≡ at + length table.now) }
    ensures lawful { IfOk result (λ it. spec.header_fault at table.now ≡ None) }
    ensures fault { IfErr result (λ fault. (fault ≡ LineFault.NoMemory) ⊎ (spec.header_fault at table.now ≡ Some fault)) }
{
    let Some((head, rest)) = head_in(table) else {
        return Err(LineFault::Short { at });
    };
    let Some(files) = head_files(alloc, rest)? else {
        return Err(LineFault::Short { at });
    };
    let Some(program) = program_in(table) else {
        return Err(LineFault::Short { at });
    };
    if !head.is_lawful() {
        return Err(LineFault::Header { at });
    }
    let end = at + table.len() as u32;
    Ok(Table {
        head,
        files,
        program,
        end,
    })
}

/// The bytes of a section from an offset on, none behind its end.
fn from_offset(section: &[u8], at: u32) -> &[u8]
    ensures { result.now ≡ drop at section.now }
{
    section.get(at as usize..).unwrap_or(&[])
}

/// The table that begins at the offset `at` of the section `.debug_line`.
pub fn table_at<'a>(alloc: Global, section: &'a [u8], at: u32) -> Result<Table<'a>, LineFault>
    requires { length section.now < 2 ^ 32 }
    ensures table { IfOk result (λ table. IsTable section.now at table) }
    ensures fault { IfErr result (λ fault. (fault ≡ LineFault.NoMemory) ⊎ (head_fault section.now at ≡ Some fault)) }
{
    let bytes = from_offset(section, at);
    if let Some(fault) = table_fault(at, bytes) {
        return Err(fault);
    }
    let length = 4 + unit_length(bytes) as usize;
    table_of(alloc, at, &bytes[..length])
}

impl<'a> Lines<'a> {
    /// Reads the table that begins at the offset `at` of the section `.debug_line`.
    ///
    /// Takes time and memory in the size of the table: no count that it tells is believed.
    pub fn read(alloc: Global, section: &'a [u8], at: u32) -> Result<Lines<'a>, LineFault>
        requires { length section.now < 2 ^ 32 }
        ensures lines { IfOk result (λ lines. lines ≡ spec.lines_at section.now at) }
        ensures lawful { IfOk result (λ lines. spec.fault_at section.now at ≡ None) }
        ensures fault { IfErr result (λ fault. (fault ≡ LineFault.NoMemory) ⊎ (spec.fault_at section.now at ≡ Some fault)) }
    {
        let table = match table_at(alloc, section, at) {
            Ok(table) => table,
            Err(fault) => return Err(fault),
        };
        let Table {
            head,
            files,
            program,
            end,
        } = table;
        match run(alloc, &head, files, end, program) {
            Ok(ran) => Ok(ran.lines),
            Err(fault) => Err(fault),
        }
    }
}
