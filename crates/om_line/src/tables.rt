//! The line tables at some offsets of `.debug_line`, asked as one.

ghost use Rattle.std.specs.Prelude.{◌≡◌, ◌≢◌, ◌⊎◌, ◌<◌, ◌≤◌, ◌^◌, ℕ, List, length, Some, None, IfOk, IfErr, IsTrue};
ghost use Rattle.om_line.specs.Lines.{fault_at};
ghost use Rattle.om_line.specs.Opening.{IsTable};
ghost use Rattle.om_line.specs.Sharing.{Adds, Covered, IsGathered};
ghost use Rattle.om_line.specs.Kept.{kept_at, lines_told_by};
ghost use Rattle.om_line.specs.Tables.{line_facts, tables_at, tables_fault};

use crate::fault::LineFault;
use crate::gathering::{Gathered, KeptRow};
use crate::lines::run;
use crate::reading::{Table, table_at};
use crate::row::LineRow;
use crate::sharing::Shared;
use om_base::{Items, Name};
use om_claims::{ClaimIndex, index_of};
use std::alloc::Global;
use std::marker::Model;

/// Line tables that are asked as one.
///
/// A row takes 24 bytes, and at most 16 more in the index: each piece of it begins at the address of a
/// row. A file takes the 16 bytes of its name.
#[derive(Debug, Drop)]
pub struct LineTables<'a> {
    rows: Items<KeptRow>,
    files: Items<Name<'a>>,
    index: ClaimIndex,
}

// Clauses see what is kept; `lines_told_by` is what it tells.
impl<'a> Model for LineTables<'a> {
    ghost use Rattle.om_line.specs.Kept.{AreIndex, KeptLines};

    ghost Value = { KeptLines };

    ghost view = { λ it. record { rows = it.rows; files = it.files; pieces = it.index } };

    ghost invariant = { λ it. AreIndex it.index };
}

/// Runs the program of a table and adds what it makes. What others may share of it is answered.
fn add_table<'a>(
    alloc: Global,
    gathered: &mut Gathered<'a>,
    table: Table<'a>,
) -> Result<Option<Shared<'a>>, LineFault>
    requires range { table.head.line_range ≢ 0 }
    requires short { length table.program.now ≤ table.end }
    ensures adds { (section : List ℕ) (at : ℕ) → IsTable section at table.entry
        → IfOk result (λ shared. Adds section at gathered.old gathered.new shared) }
    ensures fault { (section : List ℕ) (at : ℕ) → IsTable section at table.entry
        → IfErr result (λ fault. (fault ≡ LineFault.NoMemory) ⊎ (fault_at section at ≡ Some fault)) }
{
    let Table {
        head,
        files,
        program,
        end,
    } = table;
    let ran = match run(alloc, &head, files, end, program) {
        Ok(ran) => ran,
        Err(fault) => return Err(fault),
    };
    gathered.add(&ran.lines)?;
    Ok(Shared::of(head, end, ran))
}

/// Whether a program that was run has rows of all addresses of a table.
fn is_covered(shared: &Option<Shared<'_>>, table: &Table<'_>) -> bool
    ensures { IsTrue result → Covered shared.now table.now }
{
    match shared {
        Some(shared) => shared.covers(table),
        None => false,
    }
}

/// What is kept of the tables at some offsets. One isn't run of whose addresses an earlier one has rows.
fn gather<'a>(alloc: Global, section: &'a [u8], offsets: &[u32]) -> Result<Gathered<'a>, LineFault>
    requires { length section.now < 2 ^ 32 }
    ensures tables { IfOk result (λ gathered. IsGathered (tables_at section.now offsets.now) gathered) }
    ensures lawful { IfOk result (λ gathered. tables_fault section.now offsets.now ≡ None) }
    ensures fault { IfErr result (λ fault. (fault ≡ LineFault.NoMemory) ⊎ (tables_fault section.now offsets.now ≡ Some fault)) }
{
    let mut gathered = Gathered::new(alloc);
    let mut shared = None;
    let mut rest = offsets;
    while let Some((at, others)) = rest.split_first() {
        let table = match table_at(alloc, section, *at) {
            Ok(table) => table,
            Err(fault) => return Err(fault),
        };
        if !is_covered(&shared, &table) {
            shared = match add_table(alloc, &mut gathered, table) {
                Ok(shared) => shared,
                Err(fault) => return Err(fault),
            };
        }
        rest = others;
    }
    Ok(gathered)
}

/// Reads the tables that begin at some offsets of the section `.debug_line`, in their order.
///
/// Takes time in the size of the tables, but for sorting the rows of all. Where the rows or the files of
/// all are 2^32 or more, that counts as no memory.
pub fn read_tables<'a>(
    alloc: Global,
    section: &'a [u8],
    offsets: &[u32],
) -> Result<LineTables<'a>, LineFault>
    requires short { length section.now < 2 ^ 32 }
    ensures lines { IfOk result (λ kept. lines_told_by kept ≡ line_facts (tables_at section.now offsets.now)) }
    ensures lawful { IfOk result (λ kept. tables_fault section.now offsets.now ≡ None) }
    ensures fault { IfErr result (λ fault. (fault ≡ LineFault.NoMemory) ⊎ (tables_fault section.now offsets.now ≡ Some fault)) }
{
    let gathered = match gather(alloc, section, offsets) {
        Ok(gathered) => gathered,
        Err(fault) => return Err(fault),
    };
    let index = index_of(alloc, gathered.claims.as_slice())?;
    let Gathered { rows, files, .. } = gathered;
    Ok(LineTables { rows, files, index })
}

impl<'a> LineTables<'a> {
    /// The row that an address belongs to, with its file.
    fn kept_at(&self, pc: u32) -> Option<KeptRow>
        ensures { result ≡ kept_at self.now pc }
    {
        let Some(place) = self.index.owner_at(u64::from(pc)) else {
            return None;
        };
        self.rows.as_slice().get(place as usize).copied()
    }

    /// The row of an address: that of the first table that has one, and there the first, in the order in
    /// which the program makes them, that has the address.
    ///
    /// Makes one binary search, and takes no memory.
    #[tactic(auto, unfolding(crate::specs::Kept::lines_told_by))]
    pub fn line_at(&self, pc: u32) -> Option<LineRow>
        ensures { result ≡ (lines_told_by self.now).line_at pc }
    {
        match self.kept_at(pc) {
            Some(kept) => Some(kept.row),
            None => None,
        }
    }

    /// The name of the file of that row. None where the row has no line, or its number names no file of
    /// its table.
    ///
    /// Makes one binary search, and takes no memory.
    #[tactic(auto, unfolding(crate::specs::Kept::lines_told_by))]
    pub fn file_at(&self, pc: u32) -> Option<Name<'a>>
        ensures { result ≡ (lines_told_by self.now).file_at pc }
    {
        let Some(kept) = self.kept_at(pc) else {
            return None;
        };
        let Some(place) = kept.file else {
            return None;
        };
        let Some(name) = self.files.as_slice().get(place as usize) else {
            return None;
        };
        Some(Name::of(name.bytes()))
    }
}
