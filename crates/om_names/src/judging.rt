//! Which range lists have no end.

ghost use Rattle.std.specs.Prelude.{◌≡◌, ℕ, List, map};
ghost use Rattle.om_base.specs.Firsts.{first_of};
ghost use Rattle.om_die.specs.declared.unit.Unit.{Unit};
ghost use Rattle.om_names.specs.ListEnds.{AreEnds};
ghost use Rattle.om_names.specs.Information.{entries_of};
ghost use Rattle.om_names.specs.Ranges.{range_fault};
ghost use Rattle.om_names.specs.EntryByEntry.{entry_in, fault_in, has_ranges, list_offset};

use crate::list_ends::ListEnds;
use crate::ranges::{own_range, ranges_offset};
use om_die::{DW_TAG_LEXICAL_BLOCK, DW_TAG_SUBPROGRAM, Die, DieFault, Unit, Units};

/// Whether the ranges of an entry are read.
fn has_ranges(die: &Die) -> bool
    ensures { result ≡ has_ranges die.now }
{
    die.tag == DW_TAG_SUBPROGRAM || die.tag == DW_TAG_LEXICAL_BLOCK
}

/// Where the list begins that an entry's ranges are read from, if it has one.
#[tactic(auto, unfolding(crate::specs::EntryByEntry::list_offset))]
fn list_offset(die: &Die) -> Option<u32>
    ensures { result ≡ list_offset die.now }
{
    if !has_ranges(die) {
        return None;
    }
    match own_range(die) {
        Some(_) => None,
        None => ranges_offset(die),
    }
}

/// That the list of an entry's ranges has no end.
fn range_fault(ends: &ListEnds, die: &Die) -> Option<DieFault>
    ensures { (section : List ℕ) (unit : Unit) → AreEnds section ends.now → result ≡ range_fault section (entry_in unit die.now) }
{
    let Some(at) = list_offset(die) else {
        return None;
    };
    if ends.has_end(at) {
        return None;
    }
    Some(DieFault::Short { at })
}

/// The first list of a unit that has no end.
fn fault_in(ends: &ListEnds, unit: &Unit) -> Option<DieFault>
    ensures { (section : List ℕ) → AreEnds section ends.now → result ≡ fault_in section unit.now }
{
    for die in unit.dies.as_slice() {
        if let Some(fault) = range_fault(ends, die) {
            return Some(fault);
        }
    }
    None
}

/// The first list of all units that has no end.
pub fn first_fault(ends: &ListEnds, units: &Units) -> Option<DieFault>
    ensures { (section : List ℕ) → AreEnds section ends.now → result ≡ first_of (map (range_fault section) (entries_of units.now)) }
{
    for unit in units.list.as_slice() {
        if let Some(fault) = fault_in(ends, unit) {
            return Some(fault);
        }
    }
    None
}
