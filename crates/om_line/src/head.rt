//! The head of a line table: DWARF 4, section 6.2.4.

ghost use Rattle.std.specs.Prelude.{◌≡◌, ◌+◌, ◌≤◌, length, None};
ghost use Rattle.std.specs.Option.{option_map};
ghost use Rattle.om_line.specs.Heads as spec;

use crate::fault::LineFault;
use om_base::{u8_at, u16_at, u32_at};
use std::marker::Model;

/// The least length that marks DWARF's 64-bit format or is reserved.
const LEAST_RESERVED_LENGTH: u32 = 0xffff_fff0;

/// What the head says of instructions.
#[derive(Debug, Drop)]
pub struct Head<'a> {
    /// How many bytes an instruction of the machine has at least.
    pub minimum_instruction_length: u8,
    /// How many operations an instruction of the machine has at most, 1 before version 4.
    pub maximum_operations: u8,
    /// The least growth of the line by a special opcode.
    pub line_base: i8,
    /// How many growths of the line special opcodes have.
    pub line_range: u8,
    /// The first special opcode.
    pub opcode_base: u8,
    /// How many operands each opcode below the base has, from opcode 1 on.
    pub operand_counts: &'a [u8],
}

// Clauses see the counts as bytes.
impl<'a> Model for Head<'a> {
    ghost use Rattle.om_line.specs.Head.{Head};

    ghost Value = { Head };

    ghost view = { λ it. record {
      minimum_instruction_length = it.minimum_instruction_length;
      maximum_operations = it.maximum_operations;
      line_base = it.line_base;
      line_range = it.line_range;
      opcode_base = it.opcode_base;
      operand_counts = it.operand_counts.now;
    } };
}

/// The number of one byte of a head, 0 where the head ends before.
fn byte_at(bytes: &[u8], at: usize) -> u8
    ensures { result ≡ spec.field 1 bytes.now at }
{
    match u8_at(bytes, at) {
        Ok(byte) => byte,
        Err(_) => 0,
    }
}

/// How many bytes of the table in front of `bytes` stand behind its length.
pub fn unit_length(bytes: &[u8]) -> u32
    ensures { result ≡ spec.unit_length bytes.now }
{
    match u32_at(bytes, 0) {
        Ok(length) => length,
        Err(_) => 0,
    }
}

/// The version of the table in front of `bytes`.
fn version(bytes: &[u8]) -> u16
    ensures { result ≡ spec.version bytes.now }
{
    match u16_at(bytes, 4) {
        Ok(version) => version,
        Err(_) => 0,
    }
}

/// How many bytes stand between the header length and the program of a table.
pub fn header_length(table: &[u8]) -> u32
    ensures { result ≡ spec.header_length table.now }
{
    match u32_at(table, 6) {
        Ok(length) => length,
        Err(_) => 0,
    }
}

/// How many bytes the head of version 4 has more than that of the versions 2 and 3.
fn more_bytes(table: &[u8]) -> usize
    ensures { result ≡ spec.more_bytes table.now }
{
    if version(table) == 4 { 1 } else { 0 }
}

/// Why the table that begins at `at`, in front of `bytes`, isn't there or isn't read. Where it is, the
/// whole table is there.
#[tactic(auto, unfolding(crate::specs::Heads::table_fault))]
pub fn table_fault(at: u32, bytes: &[u8]) -> Option<LineFault>
    ensures fault { result ≡ spec.table_fault at bytes.now }
    ensures whole { result ≡ None → 4 + spec.unit_length bytes.now ≤ length bytes.now }
{
    if bytes.len() < 4 {
        return Some(LineFault::Short { at });
    }
    let length = unit_length(bytes);
    if length >= LEAST_RESERVED_LENGTH {
        return Some(LineFault::Header { at });
    }
    if bytes.len() < 4 + length as usize || length < 2 {
        return Some(LineFault::Short { at });
    }
    let version = version(bytes);
    if version < 2 || 4 < version {
        return Some(LineFault::Version { at });
    }
    None
}

/// How many operations an instruction of the machine has at most.
fn maximum_operations(table: &[u8]) -> u8
    ensures { result ≡ spec.maximum_operations table.now }
{
    if version(table) == 4 {
        byte_at(table, 11)
    } else {
        1
    }
}

/// What the head of a table says of instructions, and the bytes of its directories and files and all
/// behind; none where the head passes the table.
#[tactic(auto, unfolding(crate::specs::Heads::head_in))]
pub fn head_in<'a>(table: &'a [u8]) -> Option<(Head<'a>, &'a [u8])>
    ensures { option_map (λ x. (x.0, x.1.now)) result ≡ spec.head_in table.now }
{
    let more = more_bytes(table);
    let opcode_base = byte_at(table, 14 + more);
    let counts = table.get(15 + more..).unwrap_or(&[]);
    let count = usize::from(opcode_base.saturating_sub(1));
    if table.len() < 15 + more + count {
        return None;
    }
    let (operand_counts, rest) = counts.split_at(count);
    let head = Head {
        minimum_instruction_length: byte_at(table, 10),
        maximum_operations: maximum_operations(table),
        line_base: byte_at(table, 12 + more).cast_signed(),
        line_range: byte_at(table, 13 + more),
        opcode_base,
        operand_counts,
    };
    Some((head, rest))
}

impl<'a> Head<'a> {
    /// Whether the instructions can be run.
    pub fn is_lawful(&self) -> bool
        ensures { result ≡ spec.is_lawful self.now }
    {
        self.maximum_operations == 1 && self.line_range != 0 && self.opcode_base != 0
    }
}
