//! Tables of abbreviations by their offsets: units may share one.

ghost use Rattle.std.specs.Prelude.{◌≡◌, ◌⊎◌, IsSome, OnOk};
ghost use Rattle.std.specs.Ordering.{nat_cmp};
ghost use Rattle.std.specs.BTreeMap.{IsEmpty, get};
ghost use Rattle.om_die.specs.UnitList.{AreTables};

use crate::abbreviation_table::{Table, read_table};
use om_base::NoMemory;
use std::alloc::Global;
use std::collections::BTreeMap;

/// How many times as long as the section the tables that are kept may be.
///
/// Tables of different offsets may overlap, so that all of them would be too much to keep. Those that
/// don't overlap are never longer than the section in all.
const MOST_SECTIONS: usize = 4;

/// The tables that were read.
#[derive(Debug, Drop)]
pub struct Tables {
    /// By their offsets in `.debug_abbrev`.
    pub by_offset: BTreeMap<u32, Table>,
    /// At most how many bytes they have in all: those of the section from their offsets on.
    size: usize,
}

impl Tables {
    /// No tables.
    pub fn new(alloc: Global) -> Tables
        ensures { IsEmpty result.by_offset }
    {
        Tables {
            by_offset: BTreeMap::new(alloc),
            size: 0,
        }
    }

    /// Keeps the table that begins at `offset` in the `section`, unless it is kept.
    pub fn keep(&mut self, alloc: Global, section: &[u8], offset: u32) -> Result<(), NoMemory>
        requires { AreTables section.now self.old }
        ensures are { OnOk result (AreTables section.now self.new) }
        ensures kept { OnOk result (IsSome (get nat_cmp self.new.by_offset offset)) }
    {
        if self.by_offset.contains_key(&offset) {
            return Ok(());
        }
        let bytes = section.get(offset as usize..).unwrap_or(&[]);
        self.make_room(alloc, section.len());
        let table = read_table(alloc, bytes)?;
        self.by_offset.insert(offset, table)?;
        self.size = self.size.saturating_add(bytes.len());
        Ok(())
    }

    /// Lets all tables go where they may be too long for a section of so many bytes.
    fn make_room(&mut self, alloc: Global, section_size: usize)
        ensures { (self.new ≡ self.old) ⊎ IsEmpty self.new.by_offset }
    {
        if self.size / MOST_SECTIONS > section_size {
            self.by_offset = BTreeMap::new(alloc);
            self.size = 0;
        }
    }

    /// The table that begins at `offset`.
    pub fn at(&self, offset: u32) -> &Table
        requires { IsSome (get nat_cmp self.now.by_offset offset) }
        ensures { get nat_cmp self.now.by_offset offset ≡ Some result.now }
    {
        self.by_offset.get(&offset).unwrap()
    }
}
