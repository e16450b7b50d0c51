//! The units of `.debug_info`, one after another: DWARF 4, section 7.5.1.

ghost use Rattle.std.specs.Prelude.{◌≡◌, ◌⊎◌, ◌+◌, ◌≤◌, ◌<◌, ◌^◌, [], ◌∷◌, drop, length, Some, IfOk, IfErr, OnOk};
ghost use Rattle.om_die.specs.Entries.{AreDies};
ghost use Rattle.om_die.specs.AbbreviationIndex.{find_in};
ghost use Rattle.om_die.specs.UnitList.{AreParts, AreTables, IsFirstUnit, parts_of, piece_of, shown, with_piece};
ghost use Rattle.om_die.specs.Refusals.{AreDiesRefused, IsSectionRefused, IsUnitRefused};
ghost use Rattle.om_die.specs.Units as spec;
ghost use Rattle.om_die.specs.Units.{dies_in};

use crate::abbreviation_table::Table;
use crate::abbreviation_tables::Tables;
use crate::context::Context;
use crate::entries::read_dies;
use crate::fault::DieFault;
use crate::head::{HEAD_SIZE, debug_abbrev_offset, head_fault, is_read, unit_length, version};
use crate::skipped::Skipped;
use crate::unit::Unit;
use crate::unit_sections::Sections;
use om_base::{Items, NoMemory};
use std::alloc::Global;

/// The greatest number of entries of all units.
const MOST_DIES: usize = 1_048_576;

/// A unit.
#[derive(Debug, Drop)]
pub enum Part<'a> {
    Read(Unit<'a>),
    Skipped(Skipped),
}

/// What is kept of the units.
#[derive(Debug, Drop)]
pub struct Parts<'a> {
    /// Those that were read, in their order.
    pub units: Items<Unit<'a>>,
    /// The others, in their order.
    pub skipped: Items<Skipped>,
    /// How many entries there are in all.
    pub dies: usize,
}

/// The unit that begins at `at`, whose `bytes` have a lawful head. There may be `left` entries.
fn read_unit<'a>(
    alloc: Global,
    sections: &Sections<'a>,
    table: &Table,
    left: usize,
    at: u32,
    bytes: &'a [u8],
) -> Result<Unit<'a>, DieFault>
    requires head { 11 ≤ length bytes.now }
    requires place { at + length bytes.now < 2 ^ 32 }
    ensures at { IfOk result (λ unit. unit.at ≡ at) }
    ensures version { IfOk result (λ unit. unit.version ≡ spec.version bytes.now) }
    ensures dies { IfOk result (λ unit. AreDies (record { unit = at; strings = sections.now.strings.now }) (find_in table.now) (at + 11) (drop 11 bytes.now) unit.dies) }
    ensures few { IfOk result (λ unit. length unit.dies ≤ left) }
    ensures fault { IfErr result (λ fault. (fault ≡ DieFault.NoMemory)
        ⊎ AreDiesRefused (record { unit = at; strings = sections.now.strings.now }) (find_in table.now) left (at + 11) (drop 11 bytes.now) fault) }
{
    let context = Context {
        unit: at,
        strings: sections.strings,
    };
    let dies = read_dies(alloc, &context, table, left, at + 11, &bytes[HEAD_SIZE..])?;
    Ok(Unit {
        at,
        version: version(bytes),
        dies,
    })
}

/// The unit that begins at `at`, in front of `bytes`, and the bytes behind it. There may be `left`
/// entries.
fn read_part<'a>(
    alloc: Global,
    sections: &Sections<'a>,
    tables: &mut Tables,
    left: usize,
    at: u32,
    bytes: &'a [u8],
) -> Result<(Part<'a>, &'a [u8]), DieFault>
    requires place { at + length bytes.now < 2 ^ 32 }
    requires tables { AreTables sections.now.abbreviations.now tables.old }
    ensures part { IfOk result (λ read. IsFirstUnit (shown sections.now) left at bytes.now (piece_of read.0) read.1.now) }
    ensures tables { OnOk result (AreTables sections.now.abbreviations.now tables.new) }
    ensures fault { IfErr result (λ fault. (fault ≡ DieFault.NoMemory)
        ⊎ ((spec.head_fault at bytes.now ≡ Some fault) ⊎ IsUnitRefused (shown sections.now) left at bytes.now fault)) }
{
    if let Some(fault) = head_fault(at, bytes) {
        return Err(fault);
    }
    let (unit, rest) = bytes.split_at(4 + unit_length(bytes) as usize);
    if !is_read(bytes) {
        let size = unit.len() as u32;
        return Ok((Part::Skipped(Skipped { at, size }), rest));
    }
    let offset = debug_abbrev_offset(bytes);
    tables.keep(alloc, sections.abbreviations, offset)?;
    let unit = read_unit(alloc, sections, tables.at(offset), left, at, unit)?;
    Ok((Part::Read(unit), rest))
}

impl<'a> Parts<'a> {
    /// Nothing.
    fn new(alloc: Global) -> Parts<'a>
        ensures { result ≡ parts_of [] }
    {
        Parts {
            units: Items::new(alloc),
            skipped: Items::new(alloc),
            dies: 0,
        }
    }

    /// Appends a unit.
    fn add(&mut self, part: Part<'a>) -> Result<(), NoMemory>
        requires { self.old.dies + dies_in (piece_of part ∷ []) < 2 ^ 64 }
        ensures { OnOk result (self.new ≡ with_piece self.old (piece_of part.entry)) }
    {
        match part {
            Part::Read(unit) => {
                self.dies += unit.dies.len();
                self.units.push(unit)?;
            }
            Part::Skipped(skipped) => self.skipped.push(skipped)?,
        }
        Ok(())
    }
}

/// The units of `.debug_info`.
pub fn read_parts<'a>(alloc: Global, sections: &Sections<'a>) -> Result<Parts<'a>, DieFault>
    requires { length sections.now.info.now < 2 ^ 32 }
    ensures parts { IfOk result (λ parts. AreParts (shown sections.now) parts) }
    ensures fault { IfErr result (λ fault. (fault ≡ DieFault.NoMemory) ⊎ IsSectionRefused (shown sections.now) fault) }
{
    let mut tables = Tables::new(alloc);
    let mut parts = Parts::new(alloc);
    let mut rest = sections.info;
    while !rest.is_empty() {
        let at = (sections.info.len() - rest.len()) as u32;
        let left = MOST_DIES - parts.dies;
        let (part, tail) = read_part(alloc, sections, &mut tables, left, at, rest)?;
        parts.add(part)?;
        rest = tail;
    }
    Ok(parts)
}
