//! Rules for the canonical frame address, and what they count by: DWARF 4, section 6.4.1 and section 6.4.2.

ghost use Rattle.std.specs.Prelude.{◌≡◌};
ghost use Rattle.om_cfi.specs.Rules as spec;
ghost use Rattle.om_cfi.specs.Rules.{if_fits, moved, offset_by};

use crate::instruction::{Instruction, Offset};

/// A rule: the content of a register, and so much more.
#[derive(Clone, Copy, Debug, PartialEq, Eq)]
pub struct Rule {
    pub register: u64,
    pub offset: i64,
}

/// What the instructions of an entry count by.
#[derive(Clone, Copy, Debug, PartialEq, Eq)]
pub struct Factors {
    /// What an advance of the location counts by.
    pub code_alignment: u64,
    /// What a signed offset counts by.
    pub data_alignment: i64,
}

/// A number of 64 bits.
fn if_fits(value: i128) -> Option<i64>
    ensures { result ≡ if_fits value }
{
    if value < i64::MIN as i128 || value > i64::MAX as i128 {
        return None;
    }
    Some(value as i64)
}

/// An offset in bytes.
pub fn offset_by(factors: &Factors, offset: Offset) -> Option<i64>
    ensures { result ≡ offset_by factors.now.data_alignment offset }
{
    match offset {
        Offset::Plain(n) => if_fits(n as i128),
        Offset::Scaled(z) => if_fits(z as i128 * factors.data_alignment as i128),
    }
}

/// The location behind an instruction.
pub fn moved(code: u64, location: u32, instruction: Instruction) -> u32
    ensures { result ≡ moved code location instruction }
{
    match instruction {
        Instruction::Advance(units) => {
            let to = u128::from(location) + u128::from(units) * u128::from(code);
            (to % (1 << 32)) as u32
        }
        Instruction::SetLocation(to) => to,
        _ => location,
    }
}

/// A rule of one of the 32 registers.
pub fn told(rule: Rule) -> Option<(u8, i64)>
    ensures { result ≡ spec.told rule }
{
    if rule.register < 32 {
        Some((rule.register as u8, rule.offset))
    } else {
        None
    }
}
