//! Range lists of `.debug_ranges`: DWARF 4, section 2.17.3.

ghost use Rattle.std.specs.Prelude.{◌≡◌, ◌+◌, ◌%◌, ◌^◌, drop};
ghost use Rattle.std.specs.Option.{option_map};
ghost use Rattle.om_die.specs.RangeLists as spec;
ghost use Rattle.om_die.specs.RangeLists.{range_list, IsRangesAnswer};

use crate::fault::DieFault;
use crate::fields::first_u32;
use om_base::{Items, Span};
use std::alloc::Global;

/// The first word of an entry that chooses a base address.
const CHOOSES_BASE: u32 = u32::MAX;

/// The ranges of the list that begins at `at`, in their order, with `base` as the base address up to
/// an entry that chooses another.
///
/// A range whose end isn't above its beginning is empty, and stays in the list. Refused by `Short`
/// where the list has no end in the section.
pub fn read_ranges(
    alloc: Global,
    section: &[u8],
    at: u32,
    base: u32,
) -> Result<Items<Span>, DieFault>
    ensures { IsRangesAnswer at (range_list base (drop at section.now)) result }
{
    let mut ranges = Items::new(alloc);
    let mut base = base;
    let mut rest = section.get(at as usize..).unwrap_or(&[]);
    while let Some((begin, end, behind)) = first_entry(rest) {
        rest = behind;
        if is_end(begin, end) {
            return Ok(ranges);
        }
        if begin == CHOOSES_BASE {
            base = end;
        } else {
            ranges.push(range(base, begin, end))?;
        }
    }
    Err(DieFault::Short { at })
}

/// The two words of the entry in front, and the bytes behind it; none where it isn't whole.
#[tactic(auto, unfolding(crate::specs::RangeLists::first_entry))]
fn first_entry(bytes: &[u8]) -> Option<(u32, u32, &[u8])>
    ensures { option_map (λ x. ((x.0, x.1), x.2.now)) result ≡ spec.first_entry bytes.now }
{
    let Ok((first, rest)) = first_u32(bytes) else {
        return None;
    };
    let Ok((second, rest)) = first_u32(rest) else {
        return None;
    };
    Some((first, second, rest))
}

/// Whether an entry ends its list.
fn is_end(begin: u32, end: u32) -> bool
    ensures { result ≡ spec.is_end (begin, end) }
{
    begin == 0 && end == 0
}

/// The range of an entry, from a base address on, modulo 2^32.
fn range(base: u32, begin: u32, end: u32) -> Span
    ensures { result ≡ record { lo = (begin + base) % 2 ^ 32; hi = (end + base) % 2 ^ 32 } }
{
    Span {
        lo: u64::from(begin.wrapping_add(base)),
        hi: u64::from(end.wrapping_add(base)),
    }
}
