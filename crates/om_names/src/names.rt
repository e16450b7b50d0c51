//! What entries tell of names and types: DWARF 4, section 2.15, and sections 2.13.2, 3.3.8 and 5.5.7 on
//! entries that complete others.

ghost use Rattle.std.specs.Prelude.{◌≡◌, ◌++◌, IfOk, OnOk, ℕ, List};
ghost use Rattle.std.specs.Option.{option_or};
ghost use Rattle.om_die.specs.Units.{dies_of_units};
ghost use Rattle.om_die.specs.declared.die.Die.{Die};
ghost use Rattle.om_names.specs.Functions.{link_of, own_name, target_in};
ghost use Rattle.om_names.specs.Information.{value_of};
ghost use Rattle.om_names.specs.Names.{AreNames, find_in, name_from, name_told, told_at, reached_by, told_of, type_told};
ghost use Rattle.om_names.specs.Types.{own_type};

use crate::types::Shape;
use om_base::{Name, NoMemory};
use om_die::{
    AttrValue, DW_AT_ABSTRACT_ORIGIN, DW_AT_NAME, DW_AT_SPECIFICATION, DW_AT_TYPE, Die, Units,
};
use std::alloc::Global;
use std::collections::BTreeMap;

/// The most links from an entry to the one that has its name, or its type.
pub const MOST_LINKS: u32 = 4;

/// What an entry tells.
#[derive(Debug, Drop)]
pub struct Told<'a> {
    /// Its own name.
    pub name: Option<Name<'a>>,
    /// The offset of its own type.
    pub type_at: Option<u32>,
    /// The offset of the entry that it is told by.
    pub link: Option<u32>,
    /// What it is as a type.
    pub shape: Shape,
}

/// What the entries tell, by their offsets.
#[derive(Debug, Drop)]
pub struct Names<'a> {
    /// What the first entry at each offset tells.
    pub by_offset: BTreeMap<u32, Told<'a>>,
}

/// An entry's own name.
fn own_name<'a>(die: &Die<'a>) -> Option<Name<'a>>
    ensures { result ≡ own_name die.now }
{
    match die.attribute(DW_AT_NAME) {
        Some(AttrValue::Text(name)) => Some(name),
        _ => None,
    }
}

/// The entry that an entry refers to by an attribute.
fn target(die: &Die, name: u32) -> Option<u32>
    ensures { result ≡ target_in (value_of name die.now) }
{
    match die.attribute(name) {
        Some(AttrValue::Target(offset)) => Some(offset),
        _ => None,
    }
}

/// An entry's own type.
fn own_type(die: &Die) -> Option<u32>
    ensures { result ≡ own_type die.now }
{
    target(die, DW_AT_TYPE)
}

/// The entry that an entry is told by.
fn link_of(die: &Die) -> Option<u32>
    ensures { result ≡ link_of die.now }
{
    match target(die, DW_AT_ABSTRACT_ORIGIN) {
        Some(offset) => Some(offset),
        None => target(die, DW_AT_SPECIFICATION),
    }
}

impl<'a> Told<'a> {
    /// What an entry tells.
    pub fn of(die: &Die<'a>) -> Told<'a>
        ensures { result ≡ told_of die.now }
    {
        Told {
            name: own_name(die),
            type_at: own_type(die),
            link: link_of(die),
            shape: Shape::of(die),
        }
    }
}

impl<'a> Names<'a> {
    /// Keeps what an entry tells, unless an earlier one stands at its offset.
    fn keep(&mut self, die: &Die<'a>) -> Result<(), NoMemory>
        ensures { OnOk result ((offset : ℕ) → find_in self.new offset ≡ option_or (find_in self.old offset) (told_at die.now offset)) }
    {
        if !self.by_offset.contains_key(&die.at) {
            self.by_offset.insert(die.at, Told::of(die))?;
        }
        Ok(())
    }

    /// Keeps what some entries tell.
    fn keep_all(&mut self, dies: &[Die<'a>]) -> Result<(), NoMemory>
        ensures { OnOk result ((before : List Die) → AreNames before self.old → AreNames (before ++ dies.now) self.new) }
    {
        for die in dies {
            self.keep(die)?;
        }
        Ok(())
    }

    /// The name of an entry: its own, else that of the entry that it is told by, in so many links at
    /// most.
    fn name_in(&self, links: u32, told: &Told<'a>) -> Option<Name<'a>>
        ensures { result ≡ reached_by name_told links (find_in self.now) told.now }
    {
        if let Some(name) = &told.name {
            return Some(Name::of(name.bytes()));
        }
        if links == 0 {
            return None;
        }
        let Some(offset) = told.link else {
            return None;
        };
        let Some(next) = self.by_offset.get(&offset) else {
            return None;
        };
        self.name_in(links - 1, next)
    }

    /// The type of an entry: its own, else that of the entry that it is told by, in so many links at
    /// most.
    pub fn type_in(&self, links: u32, told: &Told<'a>) -> Option<u32>
        ensures { result ≡ reached_by type_told links (find_in self.now) told.now }
    {
        if let Some(offset) = told.type_at {
            return Some(offset);
        }
        if links == 0 {
            return None;
        }
        let Some(offset) = told.link else {
            return None;
        };
        let Some(next) = self.by_offset.get(&offset) else {
            return None;
        };
        self.type_in(links - 1, next)
    }

    /// The name of an entry.
    pub fn name_of(&self, die: &Die<'a>) -> Option<Name<'a>>
        ensures { result ≡ name_from self.now die.now }
    {
        self.name_in(MOST_LINKS, &Told::of(die))
    }
}

/// What all entries tell.
pub fn read_names<'a>(alloc: Global, units: &Units<'a>) -> Result<Names<'a>, NoMemory>
    ensures { IfOk result (λ names. AreNames (dies_of_units units.now.list) names) }
{
    let mut names = Names {
        by_offset: BTreeMap::new(alloc),
    };
    for unit in units.list.as_slice() {
        names.keep_all(unit.dies.as_slice())?;
    }
    Ok(names)
}
