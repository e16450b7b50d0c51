//! Where the range lists of `.debug_ranges` end: DWARF 4, section 2.17.3.
//!
//! The entries of a list have 8 bytes each, and one of zeros ends it. So a list has an end where such
//! an entry stands behind its beginning, at a distance of a multiple of 8; and to know it of any list,
//! one place is kept for each remainder.

ghost use Rattle.std.specs.Prelude.{◌≡◌, ℕ, ◌+◌, ◌<◌, ◌^◌, List, drop, is_some, IfOk};
ghost use Rattle.om_die.specs.RangeLists.{range_list};
ghost use Rattle.om_names.specs.ListEnds.{AreEnds, IsLastEnd, is_end_at, is_zero_at};

use om_base::{Items, NoMemory, u32_at};
use std::alloc::Global;

/// The size of an entry in bytes.
const ENTRY_SIZE: usize = 8;

/// The ends of range lists.
#[derive(Debug, Drop)]
pub struct ListEnds {
    /// Where the last entry of zeros stands, of those whose places have each remainder by 8.
    pub last: Items<Option<usize>>,
}

/// Whether four zeros stand at a place.
#[tactic(auto, unfolding(om_base::specs::Numbers::number_at))]
fn is_zero_at(section: &[u8], at: usize) -> bool
    ensures { result ≡ is_zero_at section.now at }
{
    match u32_at(section, at) {
        Ok(number) => number == 0,
        Err(_) => false,
    }
}

/// Whether an entry of zeros stands at a place.
fn is_end_at(section: &[u8], at: usize) -> bool
    requires { at + 4 < 2 ^ 64 }
    ensures { result ≡ is_end_at section.now at }
{
    is_zero_at(section, at) && is_zero_at(section, at + 4)
}

/// Where the last entry of zeros stands, of those whose places have a remainder by 8.
fn last_end(section: &[u8], remainder: usize) -> Option<usize>
    requires { remainder < 8 }
    ensures { IsLastEnd section.now remainder result }
{
    let mut last = None;
    for entry in 0..section.len() / ENTRY_SIZE {
        let at = remainder + ENTRY_SIZE * entry;
        if is_end_at(section, at) {
            last = Some(at);
        }
    }
    last
}

/// The ends of the range lists of a section.
pub fn list_ends(alloc: Global, section: &[u8]) -> Result<ListEnds, NoMemory>
    ensures { IfOk result (λ ends. AreEnds section.now ends) }
{
    let mut last = Items::new(alloc);
    for remainder in 0..ENTRY_SIZE {
        last.push(last_end(section, remainder))?;
    }
    Ok(ListEnds { last })
}

impl ListEnds {
    /// Whether the list that begins at an offset has an end.
    pub fn has_end(&self, offset: u32) -> bool
        ensures { (section : List ℕ) (base : ℕ) → AreEnds section self.now → result ≡ is_some (range_list base (drop offset section)) }
    {
        let Some(last) = self.last.as_slice().get(offset as usize % ENTRY_SIZE) else {
            return false;
        };
        match last {
            Some(at) => offset as usize <= *at,
            None => false,
        }
    }
}
