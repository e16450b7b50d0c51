//! Files in memory, and the calls that are to fail.

ghost use Rattle.std.specs.Prelude.{◌≡◌, ◌↔◌, [], ◌∷◌, ◌++◌, IsTrue, Contains, OnOk, OnErr, option_map};
ghost use Rattle.om_io.specs.Files.{held_in};

use om_base::{Bytes, NoMemory, Text};
use std::alloc::Global;
use std::marker::Model;

/// Names with their bytes. Of a name that stands there twice the first bytes count.
#[derive(Debug, Drop)]
pub struct Files {
    items: Vec<(Text, Bytes)>,
}

// Clauses see each file as its name and its bytes.
impl Model for Files {
    ghost use Rattle.std.specs.Prelude.{List, ℕ};

    ghost Value = { List (List ℕ × List ℕ) };

    ghost view = { λ it. it.items.items };
}

impl Files {
    /// No files. Takes no memory.
    pub fn new(alloc: Global) -> Files
        ensures { result ≡ [] }
    {
        Files {
            items: Vec::new(alloc),
        }
    }

    /// Adds a file. Of a name that is added twice the first bytes count.
    pub fn add(&mut self, name: &str, bytes: &[u8]) -> Result<(), NoMemory>
        ensures ok { OnOk result (self.new ≡ self.old ++ (name.now, bytes.now) ∷ []) }
        ensures err { OnErr result (self.new ≡ self.old) }
    {
        let alloc = self.alloc();
        let name = Text::copy_of(alloc, name.as_bytes())?;
        let bytes = Bytes::copy_of(alloc, bytes)?;
        self.items.push((name, bytes))?;
        Ok(())
    }

    /// From here on the name holds these bytes. Those that it held stay behind them.
    pub(crate) fn put(&mut self, name: &str, bytes: &[u8]) -> Result<(), NoMemory>
        ensures ok { OnOk result (self.new ≡ (name.now, bytes.now) ∷ self.old) }
        ensures err { OnErr result (self.new ≡ self.old) }
    {
        let alloc = self.alloc();
        let name = Text::copy_of(alloc, name.as_bytes())?;
        let bytes = Bytes::copy_of(alloc, bytes)?;
        self.items.insert(0, (name, bytes))?;
        Ok(())
    }

    /// The bytes of a name. None: the name isn't held.
    pub fn held(&self, name: &str) -> Option<&[u8]>
        ensures { option_map (λ bytes. bytes.now) result ≡ held_in self.now name.now }
    {
        self.items
            .iter()
            .find(|file| file.0.bytes() == name.as_bytes())
            .map(|file| file.1.bytes())
    }

    /// The allocator that the list grows with.
    pub(crate) fn alloc(&self) -> Global {
        *self.items.allocator()
    }
}

/// The numbers of the calls that fail, counted from 1.
#[derive(Debug, Drop)]
pub struct Calls {
    numbers: Vec<u64>,
}

// Clauses see the numbers, in the order in which they were added.
impl Model for Calls {
    ghost use Rattle.std.specs.Prelude.{List, ℕ};

    ghost Value = { List ℕ };

    ghost view = { λ it. it.numbers.items };
}

impl Calls {
    /// No call. Takes no memory.
    pub fn new(alloc: Global) -> Calls
        ensures { result ≡ [] }
    {
        Calls {
            numbers: Vec::new(alloc),
        }
    }

    /// Adds the call of that number.
    pub fn add(&mut self, call: u64) -> Result<(), NoMemory>
        ensures ok { OnOk result (self.new ≡ self.old ++ call ∷ []) }
        ensures err { OnErr result (self.new ≡ self.old) }
    {
        self.numbers.push(call)?;
        Ok(())
    }

    /// Whether the call of that number is among them.
    pub fn has(&self, call: u64) -> bool
        ensures { IsTrue result ↔ Contains self.now call }
    {
        self.numbers.as_slice().contains(&call)
    }
}
