//! The number that a variable holds.

ghost use Rattle.std.specs.Prelude.{◌≡◌, ◌-◌, ◌*◌, ◌^◌, true};
ghost use Rattle.om_eval.specs.Meaning.{owned};
ghost use Rattle.om_mem.specs.Contents.{loaded};
ghost use Rattle.om_view.specs.Variable as spec;
ghost use Rattle.om_view.specs.Variable.{is_read};

use om_eval::Value;
use om_loc::Place;
use om_mem::Memory;
use om_names::{Held, Kind};
use om_step::Machine;

/// The little-endian number of 8 bytes from an address on; none where a byte of it isn't in a region.
#[tactic(auto, using(crate::proofs::LongLemmas::loaded_halves))]
fn long_at(memory: &Memory, address: u32) -> Option<u64>
    ensures { result ≡ loaded memory.now.contents address 8 }
{
    let low = memory.number(address, 4)?;
    let high = memory.number(address.wrapping_add(4), 4)?;
    Some(u64::from(high) * 0x1_0000_0000 + u64::from(low))
}

/// The little-endian number of so many bytes at an address; none where numbers of that size aren't read, or a byte
/// of it isn't in a region.
#[tactic(auto, unfolding(crate::specs::Variable::read_at))]
fn read_at(memory: &Memory, address: u32, size: u8) -> Option<u64>
    ensures { result ≡ spec.read_at memory.now.contents address size }
{
    match size {
        1 => Some(u64::from(memory.number(address, 1)?)),
        2 => Some(u64::from(memory.number(address, 2)?)),
        4 => Some(u64::from(memory.number(address, 4)?)),
        8 => long_at(memory, address),
        _ => None,
    }
}

/// How many numbers of so many bytes with a sign aren't negative, where numbers of that size are read.
fn half_of(size: u8) -> u64
    ensures { is_read size ≡ true → result ≡ 2 ^ (8 * size - 1) }
{
    match size {
        1 => 0x80,
        2 => 0x8000,
        4 => 0x8000_0000,
        _ => 0x8000_0000_0000_0000,
    }
}

/// The number that bytes of a kind stand for, of which the number without a sign is given.
fn with_sign(kind: Kind, number: u64) -> i128
    ensures { is_read kind.size ≡ true → result ≡ spec.with_sign kind number }
{
    let half = half_of(kind.size);
    if kind.signed && number >= half {
        i128::from(number) - 2 * i128::from(half)
    } else {
        i128::from(number)
    }
}

/// The number of a kind at an address, if there is one.
#[tactic(auto, unfolding(crate::specs::Variable::number_at), using(crate::proofs::LongLemmas::is_read_at))]
fn number_at(memory: &Memory, address: u32, kind: Kind) -> Option<i128>
    ensures { result ≡ spec.number_at memory.now.contents address kind }
{
    let number = read_at(memory, address, kind.size)?;
    Some(with_sign(kind, number))
}

/// An address, so many bytes further, modulo 2^32.
fn moved(address: u32, offset: &i64) -> u32
    ensures { result ≡ spec.moved address offset.now }
{
    let distance = (offset.unsigned_abs() % 0x1_0000_0000) as u32;
    if *offset < 0 {
        address.wrapping_sub(distance)
    } else {
        address.wrapping_add(distance)
    }
}

/// The content of a register, if there is such a one.
fn content(machine: &Machine, number: u8) -> Option<u32>
    ensures { result ≡ spec.content machine.now.state number }
{
    if number >= 32 {
        return None;
    }
    Some(machine.reg(number))
}

/// The address that a register and an offset give.
fn based(machine: &Machine, number: u8, offset: &i64) -> Option<u32>
    ensures { result ≡ spec.based machine.now.state number offset.now }
{
    match content(machine, number) {
        Some(address) => Some(moved(address, offset)),
        None => None,
    }
}

/// The frame base that a place says, where this is the rule for the canonical frame address.
fn base_of(machine: &Machine, rule: &Option<(u8, i64)>, place: &Place) -> Option<u32>
    ensures { result ≡ spec.base_of machine.now.state rule.now place.now }
{
    match place {
        Place::Cfa => match rule {
            Some((number, offset)) => based(machine, *number, offset),
            None => None,
        },
        Place::Reg(number) => content(machine, *number),
        Place::RegPlus(number, offset) => based(machine, *number, offset),
        _ => None,
    }
}

/// The address of a variable, if it has one.
#[tactic(auto, unfolding(crate::specs::Variable::address_in))]
fn address_in(machine: &Machine, rule: &Option<(u8, i64)>, held: &Held) -> Option<u32>
    ensures { result ≡ spec.address_in machine.now.state rule.now held.now }
{
    match &held.place {
        Place::Fixed(address) => Some(*address),
        Place::RegPlus(number, offset) => based(machine, *number, offset),
        Place::Frame(offset) => match base_of(machine, rule, &held.base) {
            Some(base) => Some(moved(base, offset)),
            None => None,
        },
        _ => None,
    }
}

/// So many low bytes of a register's content, if numbers of that size can be in one.
#[tactic(auto, unfolding(crate::specs::Variable::low_bytes))]
fn low_bytes(bits: u32, size: u8) -> Option<u32>
    ensures { result ≡ spec.low_bytes bits size }
{
    match size {
        1 => Some(bits % 0x100),
        2 => Some(bits % 0x1_0000),
        4 => Some(bits),
        _ => None,
    }
}

/// The number of a kind in a register's content.
#[tactic(auto, unfolding(crate::specs::Variable::number_of_register), using(crate::proofs::LongLemmas::is_low_bytes))]
fn number_of_register(bits: u32, kind: Kind) -> Option<i128>
    ensures { result ≡ spec.number_of_register bits kind }
{
    let number = low_bytes(bits, kind.size)?;
    Some(with_sign(kind, u64::from(number)))
}

/// The number that a variable holds, if it is in a register or has an address, and each byte is there.
#[tactic(auto, unfolding(crate::specs::Variable::number_in))]
fn number_in(machine: &Machine, rule: &Option<(u8, i64)>, held: &Held) -> Option<i128>
    ensures { result ≡ spec.number_in machine.now.state rule.now held.now }
{
    if let Place::Reg(number) = held.place {
        let Some(bits) = content(machine, number) else {
            return None;
        };
        return number_of_register(bits, held.kind);
    }
    let Some(address) = address_in(machine, rule, held) else {
        return None;
    };
    number_at(machine.memory(), address, held.kind)
}

/// The number that a variable holds, if one is meant, where this is the rule for the canonical frame address.
#[inline(never)] // so that a row of other columns doesn't pay for it
#[tactic(auto, unfolding(crate::specs::Variable::held_number))]
pub fn held_number(machine: &Machine, rule: &Option<(u8, i64)>, held: Option<Held>) -> Option<i128>
    ensures { result ≡ spec.held_number machine.now.state rule.now held }
{
    match held {
        Some(held) => number_in(machine, rule, &held),
        None => None,
    }
}

/// The value of a number, NULL where there is none.
pub fn number(number: Option<i128>) -> Value<'static>
    ensures { owned result ≡ spec.value_of number }
{
    match number {
        Some(number) => Value::Int(number),
        None => Value::Null,
    }
}
