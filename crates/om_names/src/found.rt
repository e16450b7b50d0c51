//! The variables of all units: DWARF 4, section 4.1.

ghost use Rattle.std.specs.Prelude.{◌≡◌, ◌++◌, IfOk, OnOk, option_to_list};
ghost use Rattle.om_names.specs.FoundList.{found_by, found_by_units, found_in_unit};

use crate::around::Around;
use crate::fixed::fixed_of;
use crate::local::local_of;
use crate::names::Names;
use crate::open_entries::{Open, close, last_inside};
use crate::ranges::base_of;
use crate::scope::Scope;
use crate::variable::Variable;
use om_base::{Items, NoMemory};
use om_die::{Die, Unit, Units};
use std::alloc::Global;

/// A variable with where its scope is told.
#[derive(Debug, Drop)]
pub struct Found<'a> {
    pub variable: Variable<'a>,
    /// Where the range lists of its unit count from.
    pub base: u32,
    /// The scope of a local one, if it has one.
    pub scope: Option<Scope>,
}

/// The variable that an entry of a unit is, if it is one, by what it stands in.
#[tactic(auto, unfolding(crate::specs::FoundList::found_by))]
fn found_of<'a>(
    names: &Names<'a>,
    base: u32,
    die: &Die<'a>,
    around: &Around<'a>,
) -> Option<Found<'a>>
    ensures { result ≡ found_by names.now base die.now around.now }
{
    if let Some(fixed) = fixed_of(names, die, around.is_inside) {
        return Some(Found {
            variable: Variable::Fixed(fixed),
            base,
            scope: None,
        });
    }
    let Some(local) = local_of(names, die, &around.function) else {
        return None;
    };
    Some(Found {
        variable: Variable::Local(local),
        base,
        scope: around.scope,
    })
}

/// Appends a variable, if there is one.
fn add<'a>(found: &mut Items<Found<'a>>, one: Option<Found<'a>>) -> Result<(), NoMemory>
    ensures { OnOk result (found.new ≡ found.old ++ option_to_list one.entry) }
{
    if let Some(one) = one {
        found.push(one)?;
    }
    Ok(())
}

/// Appends the variables of a unit.
fn add_unit<'a>(
    alloc: Global,
    names: &Names<'a>,
    ranges: &[u8],
    unit: &Unit<'a>,
    found: &mut Items<Found<'a>>,
) -> Result<(), NoMemory>
    ensures { OnOk result (found.new ≡ found.old ++ found_in_unit names.now ranges.now unit.now) }
{
    let base = base_of(unit);
    let mut stack = Vec::new(alloc);
    for die in unit.dies.as_slice() {
        close(&mut stack, die.depth);
        let around = last_inside(&stack);
        add(found, found_of(names, base, die, &around))?;
        let inside = around.inside(alloc, names, ranges, base, die)?;
        stack.push(Open {
            depth: die.depth,
            inside,
        })?;
    }
    Ok(())
}

/// The variables of all units, in the order of units and entries.
pub fn read_found<'a>(
    alloc: Global,
    names: &Names<'a>,
    ranges: &[u8],
    units: &Units<'a>,
) -> Result<Items<Found<'a>>, NoMemory>
    ensures { IfOk result (λ found. found ≡ found_by_units names.now ranges.now units.now.list) }
{
    let mut found = Items::new(alloc);
    for unit in units.list.as_slice() {
        add_unit(alloc, names, ranges, unit, &mut found)?;
    }
    Ok(found)
}
