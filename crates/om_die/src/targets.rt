//! References by which entries take what other entries say: DWARF 4, sections 2.13.2, 3.3.8 and 5.
//!
//! The offsets at which entries stand are gathered first, since an entry may refer to one of a later
//! unit.

ghost use Rattle.std.specs.Prelude.{◌≡◌, ◌||◌, ℕ, find, nat_eq, IfOk, OnOk};
ghost use Rattle.std.specs.List.{list_any};
ghost use Rattle.std.specs.Option.{option_map};
ghost use Rattle.std.specs.Ordering.{nat_cmp};
ghost use Rattle.std.specs.BTreeSet.{contains};
ghost use Rattle.om_die.specs.References.{has_lost_by, is_lost_by};
ghost use Rattle.om_die.specs.Shown.{value_of};
ghost use Rattle.om_die.specs.Units as spec;
ghost use Rattle.om_die.specs.Units.{dies_of_units};

use crate::attribute::AttrValue;
use crate::constants::{DW_AT_ABSTRACT_ORIGIN, DW_AT_SPECIFICATION, DW_AT_TYPE};
use crate::die::Die;
use crate::unit::Unit;
use om_base::NoMemory;
use std::alloc::Global;
use std::collections::BTreeSet;

/// Adds the offsets of the entries.
fn add_dies(offsets: &mut BTreeSet<u32>, dies: &[Die]) -> Result<(), NoMemory>
    ensures { OnOk result ((offset : ℕ) → contains nat_cmp offsets.new offset
        ≡ (contains nat_cmp offsets.old offset || list_any (λ die. nat_eq die.at offset) dies.now)) }
{
    for die in dies {
        offsets.insert(die.at)?;
    }
    Ok(())
}

/// The offsets of the entries of the units.
fn offsets_of(alloc: Global, units: &[Unit]) -> Result<BTreeSet<u32>, NoMemory>
    ensures { IfOk result (λ offsets. (offset : ℕ)
        → contains nat_cmp offsets offset ≡ list_any (λ die. nat_eq die.at offset) (dies_of_units units.now)) }
{
    let mut offsets = BTreeSet::new(alloc);
    for unit in units {
        add_dies(&mut offsets, unit.dies.as_slice())?;
    }
    Ok(offsets)
}

/// Whether a value refers to an offset at which no entry stands.
fn is_lost(offsets: &BTreeSet<u32>, value: Option<AttrValue>) -> bool
    ensures { result ≡ is_lost_by (contains nat_cmp offsets.now) (option_map value_of value.entry) }
{
    match value {
        Some(AttrValue::Target(offset)) => !offsets.contains(&offset),
        _ => false,
    }
}

/// Whether an entry refers to an offset at which no entry stands.
fn has_lost(offsets: &BTreeSet<u32>, die: &Die) -> bool
    ensures { result ≡ has_lost_by (contains nat_cmp offsets.now) die.now }
{
    is_lost(offsets, die.attribute(DW_AT_ABSTRACT_ORIGIN))
        || is_lost(offsets, die.attribute(DW_AT_SPECIFICATION))
        || is_lost(offsets, die.attribute(DW_AT_TYPE))
}

/// The offset of the first of the entries that refers to an offset at which no entry stands.
fn first_lost_in(offsets: &BTreeSet<u32>, dies: &[Die]) -> Option<u32>
    ensures { result ≡ option_map (λ die. die.at) (find (has_lost_by (contains nat_cmp offsets.now)) dies.now) }
{
    for die in dies {
        if has_lost(offsets, die) {
            return Some(die.at);
        }
    }
    None
}

/// The offset of the first entry of the units that refers to an offset at which no entry stands.
pub fn first_lost(alloc: Global, units: &[Unit]) -> Result<Option<u32>, NoMemory>
    ensures { IfOk result (λ lost. lost ≡ option_map (λ die. die.at) (spec.first_lost units.now)) }
{
    let offsets = offsets_of(alloc, units)?;
    for unit in units {
        if let Some(at) = first_lost_in(&offsets, unit.dies.as_slice()) {
            return Ok(Some(at));
        }
    }
    Ok(None)
}
