//! Which bytes spell which call frame instruction: DWARF 4, section 6.4.2 and section 7.23.

ghost use Rattle.std.specs.Prelude.{◌≡◌};
ghost use Rattle.om_base.specs.Reading.{Gives};
ghost use Rattle.om_cfi.specs.Instructions.{item_in, known, opcode_in};

use crate::fields::{Short, first_block, first_sleb, first_u8, first_u16, first_u32, first_uleb};
use crate::instruction::{Instruction, Item, Offset};

/// What a field is read as: a value of it, and the bytes behind it.
macro_rules! value {
    ($field:ident in $reads:expr => $value:expr) => {{
        let ($field, rest) = $reads?;
        Ok(($value, rest))
    }};
}

/// The instruction of an opcode of eight bits, none where it isn't known.
#[tactic(auto, unfolding(crate::specs::Instructions::opcode_in))]
fn with_opcode(opcode: u8, bytes: &[u8]) -> Result<(Item, &[u8]), Short>
    ensures { Gives (λ x. (x.0, x.1.now)) result (opcode_in opcode bytes.now) }
{
    match opcode {
        0x00 => Ok((Item::Known(Instruction::Nothing), bytes)),
        0x01 => value!(to in first_u32(bytes) => Item::Known(Instruction::SetLocation(to))),
        0x02 => value!(by in first_u8(bytes) => Item::Known(Instruction::Advance(u32::from(by)))),
        0x03 => value!(by in first_u16(bytes) => Item::Known(Instruction::Advance(u32::from(by)))),
        0x04 => value!(by in first_u32(bytes) => Item::Known(Instruction::Advance(by))),
        0x06 | 0x07 | 0x08 => {
            value!(_register in first_uleb(bytes) => Item::Known(Instruction::Nothing))
        }
        0x05 | 0x09 | 0x14 => {
            let (_register, rest) = first_uleb(bytes)?;
            value!(_offset in first_uleb(rest) => Item::Known(Instruction::Nothing))
        }
        0x11 | 0x15 => {
            let (_register, rest) = first_uleb(bytes)?;
            value!(_offset in first_sleb(rest) => Item::Known(Instruction::Nothing))
        }
        0x0a => Ok((Item::Known(Instruction::Save), bytes)),
        0x0b => Ok((Item::Known(Instruction::Restore), bytes)),
        0x0c => {
            let (register, rest) = first_uleb(bytes)?;
            value!(offset in first_uleb(rest) => Item::Known(Instruction::Define { register, offset: Offset::Plain(offset) }))
        }
        0x12 => {
            let (register, rest) = first_uleb(bytes)?;
            value!(offset in first_sleb(rest) => Item::Known(Instruction::Define { register, offset: Offset::Scaled(offset) }))
        }
        0x0d =>
            value!(register in first_uleb(bytes) => Item::Known(Instruction::Register(register))),
        0x0e =>
            value!(offset in first_uleb(bytes) => Item::Known(Instruction::Offset(Offset::Plain(offset)))),
        0x13 =>
            value!(offset in first_sleb(bytes) => Item::Known(Instruction::Offset(Offset::Scaled(offset)))),
        0x0f => value!(_size in first_block(bytes) => Item::Known(Instruction::Forget)),
        0x10 | 0x16 => {
            let (_register, rest) = first_uleb(bytes)?;
            value!(_size in first_block(rest) => Item::Known(Instruction::Nothing))
        }
        _ => Ok((Item::Unknown, &[])),
    }
}

/// The instruction of an opcode.
#[tactic(auto, unfolding(crate::specs::Instructions::known))]
fn known(opcode: u8, bytes: &[u8]) -> Result<(Item, &[u8]), Short>
    ensures { Gives (λ x. (x.0, x.1.now)) result (known opcode bytes.now) }
{
    match opcode / 64 {
        0 => with_opcode(opcode, bytes),
        1 => Ok((
            Item::Known(Instruction::Advance(u32::from(opcode % 64))),
            bytes,
        )),
        2 => value!(_offset in first_uleb(bytes) => Item::Known(Instruction::Nothing)),
        _ => Ok((Item::Known(Instruction::Nothing), bytes)),
    }
}

/// What an opcode and the bytes behind it say, and the bytes behind that: none where nothing is looked
/// at any more.
#[tactic(auto, unfolding(crate::specs::Instructions::item_in))]
pub fn item_in(opcode: u8, bytes: &[u8]) -> (Item, &[u8])
    ensures item { result.0 ≡ (item_in opcode bytes.now).0 }
    ensures rest { result.1.now ≡ (item_in opcode bytes.now).1 }
{
    match known(opcode, bytes) {
        Ok(read) => read,
        Err(Short) => (Item::Broken, &[]),
    }
}
