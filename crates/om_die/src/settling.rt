//! References into units that are skipped lead to entries that aren't read.

ghost use Rattle.std.specs.Prelude.{◌≡◌, ◌<◌, ◌^◌, length, map, IfOk};
ghost use Rattle.om_die.specs.References.{AreRising, is_skipped, settled_attribute};
ghost use Rattle.om_die.specs.Units.{settled_die, settled_unit};

use crate::attribute::{Attr, AttrValue};
use crate::die::Die;
use crate::skipped::{Skipped, is_elsewhere};
use crate::unit::{Unit, Units};
use crate::unit_list::Parts;
use om_base::{Items, NoMemory};
use std::alloc::Global;

/// The attribute, settled.
fn settle_attribute<'a>(skipped: &[Skipped], attr: Attr<'a>) -> Attr<'a>
    requires { AreRising 0 skipped.now }
    ensures { result ≡ settled_attribute (is_skipped skipped.now) attr.entry }
{
    let Attr { name, value } = attr;
    match value {
        AttrValue::Target(offset) => {
            let value = if is_elsewhere(skipped, offset) {
                AttrValue::Elsewhere
            } else {
                AttrValue::Target(offset)
            };
            Attr { name, value }
        }
        value => Attr { name, value },
    }
}

/// The attributes, settled.
fn settle_attributes<'a>(
    alloc: Global,
    skipped: &[Skipped],
    attrs: Items<Attr<'a>>,
) -> Result<Items<Attr<'a>>, NoMemory>
    requires { AreRising 0 skipped.now }
    ensures { IfOk result (λ settled. settled ≡ map (settled_attribute (is_skipped skipped.now)) attrs.entry) }
{
    let mut settled = Items::new(alloc);
    for attr in attrs.into_vec() {
        settled.push(settle_attribute(skipped, attr))?;
    }
    Ok(settled)
}

/// The entries, settled.
fn settle_dies<'a>(
    alloc: Global,
    skipped: &[Skipped],
    dies: Items<Die<'a>>,
) -> Result<Items<Die<'a>>, NoMemory>
    requires { AreRising 0 skipped.now }
    ensures { IfOk result (λ settled. settled ≡ map (settled_die (is_skipped skipped.now)) dies.entry) }
{
    let mut settled = Items::new(alloc);
    for die in dies.into_vec() {
        let Die {
            at,
            depth,
            tag,
            attrs,
        } = die;
        let attrs = settle_attributes(alloc, skipped, attrs)?;
        settled.push(Die {
            at,
            depth,
            tag,
            attrs,
        })?;
    }
    Ok(settled)
}

/// The units, settled.
fn settle_units<'a>(
    alloc: Global,
    skipped: &[Skipped],
    units: Items<Unit<'a>>,
) -> Result<Items<Unit<'a>>, NoMemory>
    requires { AreRising 0 skipped.now }
    ensures { IfOk result (λ settled. settled ≡ map (settled_unit (is_skipped skipped.now)) units.entry) }
{
    let mut settled = Items::new(alloc);
    for unit in units.into_vec() {
        let Unit { at, version, dies } = unit;
        let dies = settle_dies(alloc, skipped, dies)?;
        settled.push(Unit { at, version, dies })?;
    }
    Ok(settled)
}

/// The units that are kept, settled, and how many are skipped.
#[tactic(auto, using(crate::proofs::ReferenceLaws::units_alone))]
pub fn settle<'a>(alloc: Global, parts: Parts<'a>) -> Result<Units<'a>, NoMemory>
    requires rising { AreRising 0 parts.skipped }
    requires few { length parts.skipped < 2 ^ 32 }
    ensures list { IfOk result (λ units. units.list ≡ map (settled_unit (is_skipped parts.entry.skipped)) parts.entry.units) }
    ensures skipped { IfOk result (λ units. units.skipped ≡ length parts.entry.skipped) }
{
    let Parts {
        units,
        skipped,
        dies: _,
    } = parts;
    let count = skipped.len() as u32;
    let list = if count == 0 {
        units
    } else {
        settle_units(alloc, skipped.as_slice(), units)?
    };
    Ok(Units {
        list,
        skipped: count,
    })
}
