//! The functions that entries tell of: DWARF 4, section 3.3.

ghost use Rattle.std.specs.Prelude.{◌≡◌, ◌+◌, ◌<◌, ◌^◌, ◌++◌, if◌then◌else◌, length, map, sum_by, IfOk, OnOk};
ghost use Rattle.std.specs.List.{flat_map};
ghost use Rattle.om_die.specs.Units.{dies_of_units};
ghost use Rattle.om_names.specs.Ranges as ranges;
ghost use Rattle.om_names.specs.EntryByEntry.{claims_of, count_by, count_in_unit, named_by, named_in_unit, named_spans, names_of};

use crate::names::Names;
use crate::ranges::{base_of, ranges_of};
use om_base::{Items, Name, NoMemory, Span};
use om_claims::Claim;
use om_die::{DW_TAG_SUBPROGRAM, Die, Unit, Units};
use std::alloc::Global;

/// Functions with their addresses.
#[derive(Debug, Drop)]
pub struct Functions<'a> {
    /// A claim to each of their ranges, in the order of units and entries. All are as deep.
    pub claims: Items<Claim>,
    /// For each claim the name of its function, if it has one.
    pub names: Items<Option<Name<'a>>>,
    /// How many have a range that isn't empty.
    pub count: u32,
}

/// Whether one of some ranges isn't empty.
fn are_some(spans: &[Span]) -> bool
    ensures { result ≡ ranges.are_some spans.now }
{
    spans.iter().any(|span| span.lo < span.hi)
}

/// 1 where one of some ranges isn't empty, else 0.
fn count_of(spans: &[Span]) -> u32
    ensures { result ≡ (if ranges.are_some spans.now then 1 else 0) }
{
    if are_some(spans) { 1 } else { 0 }
}

/// The same name, if there is one.
pub fn again<'a>(name: &Option<Name<'a>>) -> Option<Name<'a>>
    ensures { result ≡ name.now }
{
    match name {
        Some(name) => Some(Name::of(name.bytes())),
        None => None,
    }
}

impl<'a> Functions<'a> {
    /// Adds the ranges of a function.
    fn claim(&mut self, spans: &[Span], name: &Option<Name<'a>>) -> Result<(), NoMemory>
        ensures claims { OnOk result (self.new.claims ≡ self.old.claims ++ claims_of (map (named_by name.now) spans.now)) }
        ensures names { OnOk result (self.new.names ≡ self.old.names ++ names_of (map (named_by name.now) spans.now)) }
        ensures count { OnOk result (self.new.count ≡ self.old.count) }
    {
        for span in spans {
            self.claims.push(Claim {
                span: *span,
                depth: 0,
            })?;
            self.names.push(again(name))?;
        }
        Ok(())
    }

    /// Adds an entry, of a unit whose range lists count from `base`.
    fn add(
        &mut self,
        alloc: Global,
        names: &Names<'a>,
        section: &[u8],
        base: u32,
        die: &Die<'a>,
    ) -> Result<(), NoMemory>
        requires { self.old.count + 1 < 2 ^ 32 }
        ensures claims { OnOk result (self.new.claims ≡ self.old.claims ++ claims_of (named_spans names.now section.now base die.now)) }
        ensures names { OnOk result (self.new.names ≡ self.old.names ++ names_of (named_spans names.now section.now base die.now)) }
        ensures count { OnOk result (self.new.count ≡ self.old.count + count_by section.now base die.now) }
    {
        if die.tag != DW_TAG_SUBPROGRAM {
            return Ok(());
        }
        let spans = ranges_of(alloc, section, base, die)?;
        self.claim(spans.as_slice(), &names.name_of(die))?;
        self.count += count_of(spans.as_slice());
        Ok(())
    }

    /// Adds the entries of a unit.
    fn add_unit(
        &mut self,
        alloc: Global,
        names: &Names<'a>,
        section: &[u8],
        unit: &Unit<'a>,
    ) -> Result<(), NoMemory>
        requires { self.old.count + length unit.now.dies < 2 ^ 32 }
        ensures claims { OnOk result (self.new.claims ≡ self.old.claims ++ claims_of (named_in_unit names.now section.now unit.now)) }
        ensures names { OnOk result (self.new.names ≡ self.old.names ++ names_of (named_in_unit names.now section.now unit.now)) }
        ensures count { OnOk result (self.new.count ≡ self.old.count + count_in_unit section.now unit.now) }
    {
        let base = base_of(unit);
        for die in unit.dies.as_slice() {
            self.add(alloc, names, section, base, die)?;
        }
        Ok(())
    }
}

/// The functions of all units.
pub fn read_functions<'a>(
    alloc: Global,
    names: &Names<'a>,
    section: &[u8],
    units: &Units<'a>,
) -> Result<Functions<'a>, NoMemory>
    requires { length (dies_of_units units.now.list) < 2 ^ 32 }
    ensures claims { IfOk result (λ functions. functions.claims ≡ claims_of (flat_map (named_in_unit names.now section.now) units.now.list)) }
    ensures names { IfOk result (λ functions. functions.names ≡ names_of (flat_map (named_in_unit names.now section.now) units.now.list)) }
    ensures count { IfOk result (λ functions. functions.count ≡ sum_by (count_in_unit section.now) units.now.list) }
{
    let mut functions = Functions {
        claims: Items::new(alloc),
        names: Items::new(alloc),
        count: 0,
    };
    for unit in units.list.as_slice() {
        functions.add_unit(alloc, names, section, unit)?;
    }
    Ok(functions)
}
