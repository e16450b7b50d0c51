//! Reads a location expression of one operation: DWARF 4, sections 2.5.1 and 2.6.1.1, with the opcodes
//! of section 7.7.1.

ghost use Rattle.std.specs.Prelude.{◌≡◌};
ghost use Rattle.om_base.specs.Leb.{sleb_of};
ghost use Rattle.om_base.specs.Reading.{number_of};
ghost use Rattle.om_loc.specs.Places.{filling, place_of, said_by, with_none};

use crate::constants::{
    DW_OP_ADDR, DW_OP_BREG0, DW_OP_BREG31, DW_OP_CALL_FRAME_CFA, DW_OP_FBREG, DW_OP_REG0,
    DW_OP_REG31,
};
use crate::place::Place;
use om_base::{sleb, u32_at};

/// The address that all of the operands are.
#[tactic(auto, unfolding(crate::specs::Places::filling), using(crate::proofs::OperandLemmas::not_four))]
fn address_in(operands: &[u8]) -> Option<u32>
    ensures { result ≡ filling (number_of 4) operands.now }
{
    if operands.len() != 4 {
        return None;
    }
    u32_at(operands, 0).ok()
}

/// The signed LEB128 number that all of the operands are.
#[tactic(auto, unfolding(crate::specs::Places::filling), using(crate::proofs::OperandLemmas::not_all))]
fn offset_in(operands: &[u8]) -> Option<i64>
    ensures { result ≡ filling sleb_of operands.now }
{
    let Ok((offset, end)) = sleb(operands, 0) else {
        return None;
    };
    if end != operands.len() {
        return None;
    }
    Some(offset)
}

/// A place that is said without operands.
fn alone(place: Place, operands: &[u8]) -> Option<Place>
    ensures { result ≡ with_none place operands.now }
{
    if operands.is_empty() {
        Some(place)
    } else {
        None
    }
}

/// The place that an operation with its operands says, where it says one.
#[tactic(auto, unfolding(crate::specs::Places::said_by))]
fn said(opcode: u8, operands: &[u8]) -> Option<Place>
    ensures { result ≡ said_by opcode operands.now }
{
    match opcode {
        DW_OP_ADDR => Some(Place::Fixed(address_in(operands)?)),
        DW_OP_REG0..=DW_OP_REG31 => alone(Place::Reg(opcode - DW_OP_REG0), operands),
        DW_OP_BREG0..=DW_OP_BREG31 => {
            let offset = offset_in(operands)?;
            Some(Place::RegPlus(opcode - DW_OP_BREG0, offset))
        }
        DW_OP_FBREG => Some(Place::Frame(offset_in(operands)?)),
        DW_OP_CALL_FRAME_CFA => alone(Place::Cfa, operands),
        _ => None,
    }
}

/// Where a variable or a frame base is, by its location expression.
///
/// [`Place::Gone`] where the expression isn't one of these operations and nothing else, or its operand
/// breaks off or has more than 64 bits. Takes no memory.
#[tactic(auto, unfolding(crate::specs::Places::place_of))]
pub fn read_place(expression: &[u8]) -> Place
    ensures { result ≡ place_of expression.now }
{
    let Some((opcode, operands)) = expression.split_first() else {
        return Place::Gone;
    };
    said(*opcode, operands).unwrap_or(Place::Gone)
}
