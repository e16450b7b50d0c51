//! A shelf that holds its files in memory, and fails at the calls that it is told to.

ghost use Rattle.std.specs.Prelude.{◌≡◌, ◌≢◌, ℕ, List, [], ◌∷◌, ◌++◌, Some, None, ◌⊎◌, IfOk, OnOk, OnErr, IsErr, IsErrOf, IsTrue, ◌↔◌, Contains, option_map};
ghost use Rattle.om_io.specs.Counts.{one_more};
ghost use Rattle.om_io.specs.Files.{held_in, times};
ghost use Rattle.om_io.specs.Shelf.{FailsByCount, FitsIn, Holds, IsHeld, IsTakenOf, NoneFalls, StaysFaultless};
ghost use Rattle.om_io.specs.MemSink.{none_fails};
ghost use Rattle.om_io.specs.MemShelf.{called, after_take, after_put, told_by};

use crate::{Calls, Files, Shelf, ShelfFail, Taken};
use om_base::{Bytes, NoMemory, Text};
use std::alloc::Global;
use std::marker::Model;

/// Files in memory. Calls are counted from 1, and the last number that a `u64` has stands for all later
/// ones.
#[derive(Debug, Drop)]
pub struct MemShelf {
    files: Files,
    failing: Calls,
    calls: u64,
    failed_takes: Vec<Text>,
    failed_puts: Vec<Text>,
}

// Clauses see all of it.
impl Model for MemShelf {
    ghost use Rattle.om_io.specs.MemSink.{none_fails};
    ghost use Rattle.om_io.specs.MemShelf.{ShelfState};

    ghost Value = { ShelfState };

    ghost view = { λ it. record { files = it.files; failing = it.failing; calls = it.calls; failed_takes = it.failed_takes.items; failed_puts = it.failed_puts.items } };
}

impl MemShelf {
    /// A shelf with these files, of which no call was made yet. Takes no memory.
    pub fn new(files: Files, failing: Calls) -> MemShelf
        ensures { result ≡ record { files = files; failing = failing; calls = 0; failed_takes = []; failed_puts = [] } }
    {
        let alloc = files.alloc();
        MemShelf {
            files,
            failing,
            calls: 0,
            failed_takes: Vec::new(alloc),
            failed_puts: Vec::new(alloc),
        }
    }

    /// The bytes of a name. None: the name isn't held.
    pub fn held(&self, name: &str) -> Option<&[u8]>
        ensures { option_map (λ bytes. bytes.now) result ≡ held_in self.now.files name.now }
    {
        self.files.held(name)
    }

    /// Counts a call, and says whether it is to fail.
    fn begin(&mut self) -> bool
        ensures fails { IsTrue result ↔ Contains self.old.failing (one_more self.old.calls) }
        ensures state { self.new ≡ called self.old }
    {
        self.calls = self.calls.saturating_add(1);
        self.failing.has(self.calls)
    }

    /// Counts a take of that name that fails.
    fn note_take(&mut self, alloc: Global, name: &str) -> Result<(), NoMemory>
        ensures ok { OnOk result (self.new ≡ record self.old { failed_takes = self.old.failed_takes ++ name.now ∷ [] }) }
        ensures err { OnErr result (self.new ≡ self.old) }
    {
        let name = Text::copy_of(alloc, name.as_bytes())?;
        self.failed_takes.push(name)?;
        Ok(())
    }

    /// Counts a put of that name that fails.
    fn note_put(&mut self, alloc: Global, name: &str) -> Result<(), NoMemory>
        ensures ok { OnOk result (self.new ≡ record self.old { failed_puts = self.old.failed_puts ++ name.now ∷ [] }) }
        ensures err { OnErr result (self.new ≡ self.old) }
    {
        let name = Text::copy_of(alloc, name.as_bytes())?;
        self.failed_puts.push(name)?;
        Ok(())
    }
}

impl Shelf for MemShelf {
    ghost told = { told_by };

    /// A take that fails is counted, unless memory for that is wanting.
    fn take(&mut self, alloc: Global, name: &str, most: u64) -> Result<Taken, ShelfFail>
        ensures fits { IfOk result (FitsIn most) }
        ensures taken { IfOk result (IsTakenOf (held_in self.old.files name.now) most) }
        ensures same { Some (held_in self.new.files) ≡ Some (held_in self.old.files) }
        ensures cause { FailsByCount (times self.old.failed_takes) (times self.new.failed_takes) name.now result }
        ensures puts { NoneFalls (times self.old.failed_puts) (times self.new.failed_puts) }
        ensures faultless { IsTrue (none_fails self.old.failing) → IsHeld (Some (held_in self.old.files)) name.now
            → StaysFaultless (told_by self.old) (told_by self.new) }

        // It fails at the calls that it was told to and at a name that isn't held, and nowhere else.
        ensures honest { IsErrOf result ShelfFail.Failed →
            Contains self.old.failing (one_more self.old.calls) ⊎ (held_in self.old.files name.now ≡ None) }
        ensures fails { Contains self.old.failing (one_more self.old.calls)
            ⊎ (held_in self.old.files name.now ≡ None) → IsErr result }

        ensures quiet { (other : List ℕ) → other ≢ name.now →
            times self.new.failed_takes other ≡ times self.old.failed_takes other }
        ensures state { self.new ≡ after_take self.old name.now result }
    {
        if self.begin() {
            self.note_take(alloc, name)?;
            return Err(ShelfFail::Failed);
        }
        let Some(bytes) = self.files.held(name) else {
            self.note_take(alloc, name)?;
            return Err(ShelfFail::Failed);
        };
        if bytes.len() as u64 > most {
            return Ok(Taken::Longer);
        }
        Ok(Taken::Whole(Bytes::copy_of(alloc, bytes)?))
    }

    /// A put that fails is counted, unless memory for that is wanting.
    fn put(&mut self, alloc: Global, name: &str, bytes: &[u8]) -> Result<(), ShelfFail>
        ensures put { OnOk result (Holds (held_in self.old.files) (Some (held_in self.new.files)) name.now bytes.now) }
        ensures same { OnErr result (Some (held_in self.new.files) ≡ Some (held_in self.old.files)) }
        ensures cause { FailsByCount (times self.old.failed_puts) (times self.new.failed_puts) name.now result }
        ensures takes { NoneFalls (times self.old.failed_takes) (times self.new.failed_takes) }
        ensures faultless { IsTrue (none_fails self.old.failing) → StaysFaultless (told_by self.old) (told_by self.new) }

        // It fails at the calls that it was told to, and nowhere else.
        ensures honest { IsErrOf result ShelfFail.Failed → Contains self.old.failing (one_more self.old.calls) }
        ensures fails { Contains self.old.failing (one_more self.old.calls) → IsErr result }

        ensures quiet { (other : List ℕ) → other ≢ name.now →
            times self.new.failed_puts other ≡ times self.old.failed_puts other }
        ensures state { self.new ≡ after_put self.old name.now bytes.now result }
    {
        if self.begin() {
            self.note_put(alloc, name)?;
            return Err(ShelfFail::Failed);
        }
        self.files.put(name, bytes)?;
        Ok(())
    }
}
