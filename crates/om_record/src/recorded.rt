//! What recording a run gives.

use om_base::{Bytes, NoMemory};

/// A log that was made, and how it ends.
#[derive(Debug, Drop)]
pub struct Recorded {
    /// The bytes of the log.
    pub bytes: Bytes,
    /// The last step.
    pub steps: u64,
    /// `BY_EXIT`, `BY_CUT` or `BY_STOP` of `om_log`.
    pub cause: u8,
    /// The exit's first argument, 0, or the stop's code.
    pub value: u32,
}

/// Why no log was made.
#[derive(Clone, Copy, Debug, PartialEq, Eq)]
pub enum RecordFault {
    /// No memory was left.
    NoMemory,
    /// The log would have more than 67,108,864 bytes.
    TooLong {
        /// The first step with whose entries, and an END behind them, it would have more.
        step: u64,
    },
    /// The regions at these places of the run's list share an address, the least such pair; or both are
    /// the heap's place, where that passes the last address.
    NoRoom {
        a: u32,
        b: u32,
    },
}

impl From<NoMemory> for RecordFault {
    ghost use Rattle.std.specs.Prelude.{◌≡◌};
    ghost use Rattle.om_record.specs.declared.recorded.RecordFault.TheVariants.{NoMemory};

    ghost from_gives = { λ _ fault. fault ≡ NoMemory };

    fn from(_error: NoMemory) -> RecordFault {
        RecordFault::NoMemory
    }
}
