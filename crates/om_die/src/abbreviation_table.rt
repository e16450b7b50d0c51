//! The abbreviations of a unit, by their codes: DWARF 4, section 7.5.3.

ghost use Rattle.std.specs.Prelude.{◌≡◌, ℕ, nat_eq, if◌then◌else◌, IfOk, OnOk};
ghost use Rattle.std.specs.Option.{option_copied, option_or};
ghost use Rattle.om_die.specs.AbbreviationIndex.{IsIndex, find_in};

use crate::abbreviation::Abbreviation;
use crate::declaration::first_declaration;
use om_base::NoMemory;
use std::alloc::Global;
use std::collections::BTreeMap;

/// A table of abbreviations, of which each is found by its code without a search over all.
#[derive(Debug, Drop)]
pub struct Table {
    /// The first abbreviation of each code.
    pub by_code: BTreeMap<u64, Abbreviation>,
}

impl Table {
    /// The abbreviation of a code.
    pub fn find(&self, code: u64) -> Option<&Abbreviation>
        ensures { option_copied result ≡ find_in self.now code }
    {
        self.by_code.get(&code)
    }

    /// Keeps the abbreviation of a code, unless the code has one.
    fn add(&mut self, code: u64, abbreviation: Abbreviation) -> Result<(), NoMemory>
        ensures { OnOk result ((q : ℕ) → find_in self.new q
            ≡ option_or (find_in self.old q) (if nat_eq code q then Some abbreviation else None)) }
    {
        if !self.by_code.contains_key(&code) {
            self.by_code.insert(code, abbreviation)?;
        }
        Ok(())
    }
}

/// The table that begins at the front of `bytes`. An entry that breaks off ends it.
pub fn read_table(alloc: Global, bytes: &[u8]) -> Result<Table, NoMemory>
    ensures { IfOk result (λ table. IsIndex bytes.now table) }
{
    let mut table = Table {
        by_code: BTreeMap::new(alloc),
    };
    let mut rest = bytes;
    while let Some((code, abbreviation, behind)) = first_declaration(alloc, rest)? {
        rest = behind;
        table.add(code, abbreviation)?;
    }
    Ok(table)
}
