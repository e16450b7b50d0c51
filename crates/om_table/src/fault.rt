//! Why a table wasn't printed.

use om_base::NoMemory;

/// Why there is no text of a table.
#[derive(Clone, Copy, Debug, PartialEq, Eq)]
pub enum TableFault {
    /// No memory was left for the text.
    NoMemory,
    /// The text has more than `limit` bytes.
    TooManyBytes {
        /// The most bytes that it was allowed.
        limit: u64,
    },
}

impl From<NoMemory> for TableFault {
    ghost use Rattle.std.specs.Prelude.{◌≡◌};
    ghost use Rattle.om_table.specs.declared.fault.TableFault.TheVariants.{NoMemory};

    ghost from_gives = { λ _ it. it ≡ NoMemory };

    fn from(_error: NoMemory) -> TableFault {
        TableFault::NoMemory
    }
}
