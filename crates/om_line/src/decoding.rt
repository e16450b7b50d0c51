//! Reads the instructions of a line program: DWARF 4, sections 6.2.5.1 to 6.2.5.3 and section 7.21.

ghost use Rattle.std.specs.Prelude.{◌≡◌, ◌-◌};
ghost use Rattle.std.specs.List.{slice_index};
ghost use Rattle.om_base.specs.Reading.{Gives};
ghost use Rattle.om_line.specs.Instructions as spec;

use crate::fields::{
    Broken, behind_numbers, first_sleb, first_string, first_u8, first_u16, first_u32, first_uleb,
};
use crate::head::Head;
use crate::instruction::Instruction;
use om_base::Name;

/// The name of the file in front, and the bytes behind the numbers that follow it.
#[tactic(auto, unfolding(crate::specs::Instructions::file_in))]
pub fn file_in(bytes: &[u8]) -> Result<(&[u8], &[u8]), Broken>
    ensures { Gives (λ x. (x.0.now, x.1.now)) result (spec.file_in bytes.now) }
{
    let (name, rest) = first_string(bytes)?;
    let rest = behind_numbers(3, rest)?;
    Ok((name, rest))
}

/// What a field is read as: an instruction by it, and the bytes behind it.
macro_rules! says {
    ($field:ident in $reads:expr => $value:expr) => {{
        let ($field, rest) = $reads?;
        Ok(($value, rest))
    }};
}

/// How many operands a standard opcode has, as the head tells.
fn operand_count(head: &Head, opcode: u8) -> u8
    ensures { result ≡ slice_index head.now.operand_counts (opcode - 1) }
{
    match head
        .operand_counts
        .get(usize::from(opcode.saturating_sub(1)))
    {
        Some(count) => *count,
        None => 0,
    }
}

/// The instruction of a standard opcode, by its operands.
#[tactic(auto, unfolding(crate::specs::Instructions::standard))]
fn standard<'a>(
    head: &Head<'a>,
    opcode: u8,
    bytes: &'a [u8],
) -> Result<(Instruction<'a>, &'a [u8]), Broken>
    ensures { Gives (λ x. (x.0, x.1.now)) result (spec.standard head.now opcode bytes.now) }
{
    match opcode {
        1 => Ok((Instruction::Copy, bytes)),
        2 => says!(count in first_uleb(bytes) => Instruction::AdvancePc(count)),
        3 => says!(by in first_sleb(bytes) => Instruction::AdvanceLine(by)),
        4 => says!(file in first_uleb(bytes) => Instruction::SetFile(file)),
        5 | 12 => says!(_column in first_uleb(bytes) => Instruction::Nothing),
        6 | 7 | 10 | 11 => Ok((Instruction::Nothing, bytes)),
        8 => Ok((Instruction::ConstAddPc, bytes)),
        9 => says!(more in first_u16(bytes) => Instruction::FixedAdvancePc(more)),
        _ => {
            let rest = behind_numbers(operand_count(head, opcode), bytes)?;
            Ok((Instruction::Nothing, rest))
        }
    }
}

/// The address that an extended opcode sets.
fn set_address<'a>(operands: &[u8]) -> Result<Instruction<'a>, Broken>
    ensures { result ≡ spec.address_in operands.now }
{
    if operands.len() != 4 {
        return Err(Broken);
    }
    let (address, _) = first_u32(operands)?;
    Ok(Instruction::SetAddress(address))
}

/// The instruction of an extended opcode with its operands.
#[tactic(auto, unfolding(crate::specs::Instructions::extended_by))]
fn extended_by<'a>(bytes: &'a [u8]) -> Result<Instruction<'a>, Broken>
    ensures { result ≡ spec.extended_by bytes.now }
{
    let Some((opcode, operands)) = bytes.split_first() else {
        return Err(Broken);
    };
    match *opcode {
        1 => Ok(Instruction::EndSequence),
        2 => set_address(operands),
        3 => {
            let (name, _) = file_in(operands)?;
            Ok(Instruction::DefineFile(Name::of(name)))
        }
        _ => Ok(Instruction::Nothing),
    }
}

/// The extended instruction of so many bytes.
#[tactic(auto, unfolding(crate::specs::Instructions::extended_of))]
fn extended_of<'a>(size: u64, bytes: &'a [u8]) -> Result<(Instruction<'a>, &'a [u8]), Broken>
    ensures { Gives (λ x. (x.0, x.1.now)) result (spec.extended_of size bytes.now) }
{
    if size > bytes.len() as u64 {
        return Err(Broken);
    }
    let (told, rest) = bytes.split_at(size as usize);
    let instruction = extended_by(told)?;
    Ok((instruction, rest))
}

/// The instruction in front, and the bytes behind it.
#[tactic(auto, unfolding(crate::specs::Instructions::instruction_in))]
pub fn instruction_in<'a>(
    head: &Head<'a>,
    bytes: &'a [u8],
) -> Result<(Instruction<'a>, &'a [u8]), Broken>
    ensures { Gives (λ x. (x.0, x.1.now)) result (spec.instruction_in head.now bytes.now) }
{
    let (opcode, rest) = first_u8(bytes)?;
    if opcode >= head.opcode_base {
        return Ok((Instruction::Special(opcode - head.opcode_base), rest));
    }
    if opcode == 0 {
        let (size, rest) = first_uleb(rest)?;
        return extended_of(size, rest);
    }
    standard(head, opcode, rest)
}
