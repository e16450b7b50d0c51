//! The rows and files of a line table: DWARF 4, section 6.2.

ghost use Rattle.std.specs.Prelude.{◌≡◌, ◌≢◌, ◌⊎◌, ◌+◌, ◌-◌, ◌≤◌, ◌<◌, ◌^◌, ◌&&◌, [], ◌∷◌, ◌++◌, length, All, Some, None, IfOk, IfErr, OnOk, option_to_list};
ghost use Rattle.std.specs.Option.{option_map};
ghost use Rattle.om_line.specs.Claims.{claims_of};
ghost use Rattle.om_line.specs.Instructions.{broken_in, instructions_in};
ghost use Rattle.om_line.specs.Lines as spec;
ghost use Rattle.om_line.specs.Running.{after, begin, files_from, made, named, rows_from};
ghost use Rattle.om_line.specs.Sharing.{IsStart, are_relative, is_relative};

use crate::decoding::instruction_in;
use crate::fault::LineFault;
use crate::head::Head;
use crate::instruction::Instruction;
use crate::registers::Registers;
use crate::row::LineRow;
use crate::start::Start;
use om_base::{Items, Name, NoMemory, Span};
use om_claims::Claim;
use std::alloc::Global;

/// What a line table tells.
#[derive(Debug, Drop)]
pub struct Lines<'a> {
    /// The rows, in the order in which the program makes them.
    pub rows: Items<LineRow>,
    /// The names of the files, those of the head before those that the program adds.
    pub files: Items<Name<'a>>,
}

/// What a line program makes, and where its instructions stand.
#[derive(Debug, Drop)]
pub struct Ran<'a> {
    pub lines: Lines<'a>,
    /// The instructions, first to last.
    pub starts: Items<Start>,
    /// Whether none of them sets the address or ends a sequence.
    pub is_relative: bool,
}

/// A line program that runs.
#[derive(Debug, Drop)]
struct Running<'a> {
    registers: Registers,
    rows: Items<LineRow>,
    files: Items<Name<'a>>,
    starts: Items<Start>,
    is_relative: bool,
}

impl<'a> Running<'a> {
    /// Runs an instruction, from which so many bytes are left to the program's end.
    fn run(&mut self, head: &Head, rest: u32, instruction: Instruction<'a>) -> Result<(), NoMemory>
        requires { head.now.line_range ≢ 0 }
        ensures registers { OnOk result (self.new.registers ≡ after head.now self.old.registers instruction.entry) }
        ensures rows { OnOk result (self.new.rows ≡ self.old.rows ++ option_to_list (made head.now self.old.registers instruction.entry)) }
        ensures files { OnOk result (self.new.files ≡ self.old.files ++ option_to_list (named instruction.entry)) }
        ensures starts { OnOk result (self.new.starts ≡ self.old.starts ++ record { rest = rest; address = self.old.registers.address; rows = length self.old.rows } ∷ []) }
        ensures relative { OnOk result (self.new.is_relative ≡ (self.old.is_relative && is_relative instruction.entry)) }
    {
        self.starts.push(Start {
            rest,
            address: self.registers.address,
            rows: self.rows.len(),
        })?;
        self.is_relative = self.is_relative && instruction.is_relative();
        if let Some(row) = self.registers.made(head, &instruction) {
            self.rows.push(row)?;
        }
        self.registers = self.registers.after(head, &instruction);
        if let Instruction::DefineFile(name) = instruction {
            self.files.push(name)?;
        }
        Ok(())
    }
}

/// What a program makes, with the files before it. The program ends at the offset `end` of its section.
pub fn run<'a>(
    alloc: Global,
    head: &Head<'a>,
    files: Items<Name<'a>>,
    end: u32,
    program: &'a [u8],
) -> Result<Ran<'a>, LineFault>
    requires range { head.now.line_range ≢ 0 }
    requires end { length program.now ≤ end }
    ensures whole { IfOk result (λ ran. broken_in head.now program.now ≡ None) }
    ensures rows { IfOk result (λ ran. ran.lines.rows ≡ rows_from head.now begin (instructions_in head.now program.now)) }
    ensures files { IfOk result (λ ran. ran.lines.files ≡ files.entry ++ files_from (instructions_in head.now program.now)) }
    ensures starts { IfOk result (λ ran. All (IsStart head.now program.now) ran.starts) }
    ensures relative { IfOk result (λ ran. ran.is_relative ≡ are_relative (instructions_in head.now program.now)) }
    ensures fault { IfErr result (λ fault. (fault ≡ LineFault.NoMemory)
        ⊎ (option_map (λ rest. LineFault.Opcode (end - length rest)) (broken_in head.now program.now) ≡ Some fault)) }
{
    let mut running = Running {
        registers: Registers::begin(),
        rows: Items::new(alloc),
        files,
        starts: Items::new(alloc),
        is_relative: true,
    };
    let mut rest = program;
    while !rest.is_empty() {
        let Ok((instruction, behind)) = instruction_in(head, rest) else {
            let at = end - rest.len() as u32;
            return Err(LineFault::Opcode { at });
        };
        running.run(head, rest.len() as u32, instruction)?;
        rest = behind;
    }
    Ok(Ran {
        lines: Lines {
            rows: running.rows,
            files: running.files,
        },
        starts: running.starts,
        is_relative: running.is_relative,
    })
}

/// The addresses of a row before others.
fn span_of(row: &LineRow, rows: &[LineRow]) -> Span
    ensures { result ≡ spec.span_of row.now rows.now }
{
    let lo = u64::from(row.addr);
    let hi = match rows.first() {
        Some(next) if !row.end => u64::from(next.addr),
        _ => lo,
    };
    Span { lo, hi }
}

impl<'a> Lines<'a> {
    /// Adds what each row claims, in their order: the addresses from its own up to the next row's, or
    /// none where it ends a sequence or is the last.
    pub fn add_claims(&self, claims: &mut Items<Claim>) -> Result<(), NoMemory>
        ensures { OnOk result (claims.new ≡ claims.old ++ claims_of self.now.rows) }
    {
        let mut rest = self.rows.as_slice();
        while let Some((row, rows)) = rest.split_first() {
            let span = span_of(row, rows);
            claims.push(Claim { span, depth: 0 })?;
            rest = rows;
        }
        Ok(())
    }

    /// The name of the file of a number. Those of the head are numbered from 1 on, and those that the
    /// program adds after them.
    pub fn file(&self, number: u32) -> Option<Name<'a>>
        ensures { result ≡ spec.file_of self.now.files number }
    {
        if number == 0 {
            return None;
        }
        let name = self.files.as_slice().get(number as usize - 1)?;
        Some(Name::of(name.bytes()))
    }
}
