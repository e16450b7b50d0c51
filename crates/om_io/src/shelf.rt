//! Where files come from and go to.

ghost use Rattle.std.specs.Prelude.{◌≡◌, IfSome, IfOk, IsTrue, OnOk, IsErrOf, ◌⊎◌};
ghost use Rattle.om_io.specs.Shelf.{FailsByCount, FitsIn, Holds, IsHeld, IsTakenOf, NoneFalls, ShelfTold, StaysFaultless};

use om_base::{Bytes, NoMemory};
use std::alloc::{AllocError, Global};

/// What there is of a file that was asked for.
#[derive(Debug, Drop)]
pub enum Taken {
    /// All of its bytes.
    Whole(Bytes),
    /// It has more bytes than were asked for.
    Longer,
}

/// Why a file was not taken or not put.
#[derive(Clone, Copy, Debug, PartialEq, Eq)]
pub enum ShelfFail {
    /// No memory was left for it.
    NoMemory,
    /// The file is missing, or can't be read or written.
    Failed,
}

impl From<NoMemory> for ShelfFail {
    ghost use Rattle.std.specs.Prelude.{◌≡◌};
    ghost use Rattle.om_io.specs.declared.shelf.ShelfFail.TheVariants as fail;

    ghost from_gives = { λ _ e. e ≡ fail.NoMemory };

    fn from(_error: NoMemory) -> ShelfFail {
        ShelfFail::NoMemory
    }
}

impl From<AllocError> for ShelfFail {
    ghost use Rattle.std.specs.Prelude.{◌≡◌};
    ghost use Rattle.om_io.specs.declared.shelf.ShelfFail.TheVariants as fail;

    ghost from_gives = { λ _ e. e ≡ fail.NoMemory };

    fn from(_error: AllocError) -> ShelfFail {
        ShelfFail::NoMemory
    }
}

/// Files by name.
pub trait Shelf {
    /// What each name holds, where the shelf tells it, how often a file of each name could not be taken
    /// and how often not be put, which never fall, and whether it is known that no call fails but a take
    /// of what isn't held.
    ghost told: { Self → ShelfTold };

    /// The file of that name, unless it has more than `most` bytes.
    fn take(&mut self, alloc: Global, name: &str, most: u64) -> Result<Taken, ShelfFail>
        ensures fits { IfOk result (FitsIn most) }
        ensures taken { IfSome (told self.old).files (λ files. IfOk result (IsTakenOf (files name.now) most)) }
        ensures same { (told self.new).files ≡ (told self.old).files }
        ensures cause { FailsByCount (told self.old).failed_takes (told self.new).failed_takes name.now result }
        ensures puts { NoneFalls (told self.old).failed_puts (told self.new).failed_puts }
        ensures faultless { IsTrue (told self.old).is_faultless → IsHeld (told self.old).files name.now
            → StaysFaultless (told self.old) (told self.new) };

    /// From here on the name holds these bytes, whatever it held.
    ///
    /// Where it fails nothing changes; where memory is wanting the name holds what it held, or the bytes.
    fn put(&mut self, alloc: Global, name: &str, bytes: &[u8]) -> Result<(), ShelfFail>
        ensures put { OnOk result (IfSome (told self.old).files (λ files. Holds files (told self.new).files name.now bytes.now)) }
        ensures failed { IsErrOf result ShelfFail.Failed → (told self.new).files ≡ (told self.old).files }
        ensures no_memory { IfSome (told self.old).files (λ files. IsErrOf result ShelfFail.NoMemory
            → ((told self.new).files ≡ (told self.old).files) ⊎ Holds files (told self.new).files name.now bytes.now) }
        ensures cause { FailsByCount (told self.old).failed_puts (told self.new).failed_puts name.now result }
        ensures takes { NoneFalls (told self.old).failed_takes (told self.new).failed_takes }
        ensures faultless { IsTrue (told self.old).is_faultless → StaysFaultless (told self.old) (told self.new) };
}
