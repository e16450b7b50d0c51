//! The addresses of an entry's code: DWARF 4, section 2.17.

ghost use Rattle.std.specs.Prelude.{◌≡◌, ◌+◌, ◌^◌, [], min, Some, unwrap_or, IfOk};
ghost use Rattle.std.specs.Option.{option_map};
ghost use Rattle.om_die.specs.Shown as shown;
ghost use Rattle.om_names.specs.Ranges.{base_of, end_in, listed, low_pc, own_range, ranges_by, ranges_offset};

use om_base::{Items, NoMemory, Span};
use om_die::{
    AttrValue, DW_AT_HIGH_PC, DW_AT_LOW_PC, DW_AT_RANGES, Die, DieFault, Unit, read_ranges,
};
use std::alloc::Global;

/// The number of addresses.
const ADDRESSES: u64 = 4_294_967_296;

/// An entry's lowest address.
fn low_pc(die: &Die) -> Option<u32>
    ensures { result ≡ low_pc die.now }
{
    match die.attribute(DW_AT_LOW_PC) {
        Some(AttrValue::Addr(address)) => Some(address),
        _ => None,
    }
}

/// The end of a range of so many addresses.
fn end_after(low: u32, size: u64) -> u64
    ensures { result ≡ min (low + size) (2 ^ 32) }
{
    u64::from(low).saturating_add(size).min(ADDRESSES)
}

/// The end of a range that begins at `low`, by the value of `DW_AT_high_pc`.
fn end_of(low: u32, value: &AttrValue) -> Option<u64>
    ensures { result ≡ option_map (λ high. min high (2 ^ 32)) (end_in low (Some (shown.value_of value.now))) }
{
    match value {
        AttrValue::Addr(address) => Some(u64::from(*address)),
        AttrValue::Number(size) => Some(end_after(low, *size)),
        AttrValue::Signed(size) => {
            if *size < 0 {
                return None;
            }
            Some(end_after(low, *size as u64))
        }
        _ => None,
    }
}

/// The one range of an entry that has both a lowest and a highest address.
pub fn own_range(die: &Die) -> Option<Span>
    ensures { result ≡ own_range die.now }
{
    let Some(low) = low_pc(die) else {
        return None;
    };
    let Some(value) = die.attribute(DW_AT_HIGH_PC) else {
        return None;
    };
    let Some(hi) = end_of(low, &value) else {
        return None;
    };
    let lo = u64::from(low);
    Some(Span { lo, hi })
}

/// Where the list of an entry's ranges begins in `.debug_ranges`.
pub fn ranges_offset(die: &Die) -> Option<u32>
    ensures { result ≡ ranges_offset die.now }
{
    match die.attribute(DW_AT_RANGES) {
        Some(AttrValue::Offset(offset)) => Some(offset),
        Some(AttrValue::Number(offset)) => u32::try_from(offset).ok(),
        _ => None,
    }
}

/// The address from which a unit's range lists count.
pub fn base_of(unit: &Unit) -> u32
    ensures { result ≡ base_of unit.now }
{
    let Some(die) = unit.dies.as_slice().first() else {
        return 0;
    };
    low_pc(die).unwrap_or(0)
}

/// The ranges of the list at an offset, none where it has no end.
pub fn listed(
    alloc: Global,
    section: &[u8],
    base: u32,
    offset: Option<u32>,
) -> Result<Items<Span>, NoMemory>
    ensures { IfOk result (λ ranges. ranges ≡ unwrap_or (listed section.now base offset) []) }
{
    let Some(offset) = offset else {
        return Ok(Items::new(alloc));
    };
    match read_ranges(alloc, section, offset, base) {
        Ok(ranges) => Ok(ranges),
        Err(DieFault::NoMemory) => Err(NoMemory),
        Err(_) => Ok(Items::new(alloc)),
    }
}

/// The ranges of an entry, in a unit whose range lists count from `base`; none where its list has no
/// end.
pub fn ranges_of(
    alloc: Global,
    section: &[u8],
    base: u32,
    die: &Die,
) -> Result<Items<Span>, NoMemory>
    ensures { IfOk result (λ ranges. ranges ≡ unwrap_or (ranges_by section.now base die.now (own_range die.now)) []) }
{
    let Some(range) = own_range(die) else {
        return listed(alloc, section, base, ranges_offset(die));
    };
    let mut ranges = Items::new(alloc);
    ranges.push(range)?;
    Ok(ranges)
}
