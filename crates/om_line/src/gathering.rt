//! What is kept of line tables, one after another.

ghost use Rattle.std.specs.Prelude.{◌≡◌, ◌+◌, ◌<◌, ◌^◌, ◌++◌, map, length, IfOk, OnOk};
ghost use Rattle.om_line.specs.Gathering as spec;

use crate::lines::Lines;
use crate::row::LineRow;
use om_base::{Items, Name, NoMemory};
use om_claims::Claim;
use std::alloc::Global;

/// A row, with its file as the place of a name.
#[derive(Clone, Copy, Debug, PartialEq, Eq)]
pub struct KeptRow {
    pub row: LineRow,
    /// The place of the name among those of all tables. None where the row has no line, or its number
    /// names no file of its table.
    pub file: Option<u32>,
}

/// What is kept of some tables, without an index.
#[derive(Debug, Drop)]
pub struct Gathered<'a> {
    /// The rows of all tables, table by table.
    pub rows: Items<KeptRow>,
    /// The names of their files.
    pub files: Items<Name<'a>>,
    /// What the rows claim.
    pub claims: Items<Claim>,
}

/// The place of the name of a row's file, where the `count` files of its table stand behind others.
fn file_place(before: u32, count: usize, row: &LineRow) -> Option<u32>
    requires { before + count < 2 ^ 32 }
    ensures { result ≡ spec.file_place before count row.now }
{
    if row.line == 0 || row.file == 0 {
        return None;
    }
    let place = row.file - 1;
    if place as usize >= count {
        return None;
    }
    Some(before + place)
}

/// How many names there are, if as many more have places too.
fn place_behind(names: usize, more: usize) -> Result<u32, NoMemory>
    ensures { IfOk result (λ place. (place ≡ names) × (names + more < 2 ^ 32)) }
{
    match u32::try_from(names.saturating_add(more)) {
        Ok(_) => Ok(names as u32),
        Err(_) => Err(NoMemory),
    }
}

impl<'a> Gathered<'a> {
    /// Of no tables.
    pub fn new(alloc: Global) -> Gathered<'a>
        ensures { result ≡ spec.nothing }
    {
        Gathered {
            rows: Items::new(alloc),
            files: Items::new(alloc),
            claims: Items::new(alloc),
        }
    }

    /// Adds the rows of a table, the names of whose files are to stand behind `before` others.
    fn add_rows(&mut self, before: u32, lines: &Lines) -> Result<(), NoMemory>
        requires { before + length lines.now.files < 2 ^ 32 }
        ensures rows { OnOk result (self.new.rows ≡ self.old.rows ++ map (spec.kept_row before (length lines.now.files)) lines.now.rows) }
        ensures files { OnOk result (self.new.files ≡ self.old.files) }
        ensures claims { OnOk result (self.new.claims ≡ self.old.claims) }
    {
        let count = lines.files.len();
        for row in lines.rows.as_slice() {
            let file = file_place(before, count, row);
            self.rows.push(KeptRow { row: *row, file })?;
        }
        Ok(())
    }

    /// Adds the names of the files of a table.
    fn add_files(&mut self, lines: &Lines<'a>) -> Result<(), NoMemory>
        ensures rows { OnOk result (self.new.rows ≡ self.old.rows) }
        ensures files { OnOk result (self.new.files ≡ self.old.files ++ lines.now.files) }
        ensures claims { OnOk result (self.new.claims ≡ self.old.claims) }
    {
        for name in lines.files.as_slice() {
            self.files.push(Name::of(name.bytes()))?;
        }
        Ok(())
    }

    /// Adds a table. Where the files of all are 2^32 or more, there is no room for their places.
    pub fn add(&mut self, lines: &Lines<'a>) -> Result<(), NoMemory>
        ensures { OnOk result (self.new ≡ spec.with_table self.old lines.now) }
    {
        let before = place_behind(self.files.len(), lines.files.len())?;
        self.add_rows(before, lines)?;
        self.add_files(lines)?;
        lines.add_claims(&mut self.claims)
    }
}
