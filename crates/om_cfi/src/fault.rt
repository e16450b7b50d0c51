//! Why `.debug_frame` isn't read.

ghost use Rattle.std.specs.Prelude.{◌≡◌};
ghost use Rattle.om_cfi.specs.declared.fault.CfiFault.TheVariants as fault;

use om_base::NoMemory;

/// Why the section can't be read: the first thing that is wrong.
///
/// `at` is the offset in `.debug_frame` of the entry that it is told of.
#[derive(Clone, Copy, Debug, PartialEq, Eq)]
pub enum CfiFault {
    /// No memory was left.
    NoMemory,
    /// The entry passes the end of the section or ends within its id, or its fields or the operands of
    /// its instructions pass its own end.
    Short { at: u32 },
    /// The frame description entry names an offset that isn't that of a common information entry.
    Cie { at: u32 },
}

impl From<NoMemory> for CfiFault {
    ghost from_gives = { λ _ given. given ≡ fault.NoMemory };

    fn from(_error: NoMemory) -> CfiFault {
        CfiFault::NoMemory
    }
}
