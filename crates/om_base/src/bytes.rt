//! Bytes that a value owns: those of a file, or a text that is built up piece by piece.

ghost use Rattle.std.specs.Prelude.{◌≡◌, replicate, IfOk, OnErr};
ghost use Rattle.om_base.specs.Appending.{PutsBehind};

use crate::NoMemory;
use std::alloc::Global;
use std::marker::Model;

/// Bytes that a value owns, as those of a file that was read.
#[derive(Debug, Drop)]
pub struct Bytes {
    items: Vec<u8>,
}

/// Bytes in the order in which they are printed, in no fixed encoding.
pub type Text = Bytes;

// Clauses see the bytes, first to last.
impl Model for Bytes {
    ghost use Rattle.std.specs.Prelude.{List, ℕ};

    ghost Value = { List ℕ };

    ghost view = { λ it. it.items.items };
}

impl Bytes {
    /// A copy of `bytes`.
    pub fn copy_of(alloc: Global, bytes: &[u8]) -> Result<Bytes, NoMemory>
        ensures { IfOk result (λ copy. copy ≡ bytes.now) }
    {
        let items = Vec::from_slice(alloc, bytes)?;
        Ok(Bytes { items })
    }

    /// The bytes of `items`. Takes no memory.
    pub fn from_vec(items: Vec<u8>) -> Bytes
        ensures { result ≡ items.items }
    {
        Bytes { items }
    }

    /// Appends `bytes`.
    pub fn add(&mut self, bytes: &[u8]) -> Result<(), NoMemory>
        ensures ok { PutsBehind result self.old bytes.now self.new }
        ensures err { OnErr result (self.new ≡ self.old) }
    {
        self.items.extend_from_slice(bytes)?;
        Ok(())
    }

    /// Appends `byte` so many times.
    pub fn fill(&mut self, byte: u8, count: usize) -> Result<(), NoMemory>
        ensures ok { PutsBehind result self.old (replicate count byte) self.new }
        ensures err { OnErr result (self.new ≡ self.old) }
    {
        let size = self.items.len().checked_add(count).ok_or(NoMemory)?;
        self.items.resize(size, byte)?;
        Ok(())
    }

    /// The bytes, first to last.
    pub fn bytes(&self) -> &[u8]
        ensures { result.now ≡ self.now }
    {
        self.items.as_slice()
    }
}
