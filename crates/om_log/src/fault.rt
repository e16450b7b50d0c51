//! What is wrong with a log.

ghost use Rattle.std.specs.Prelude.{◌≡◌};
ghost use Rattle.om_log.specs.declared.fault.LogFault.TheVariants as fault;

use om_base::NoMemory;

/// Why a file isn't a log that could be read: the first fault, from its first byte on.
///
/// Each `at` is an offset in bytes from the start of the file, that of the entry's kind byte.
#[derive(Clone, Copy, Debug, PartialEq, Eq)]
pub enum LogFault {
    /// No memory was left for the list of entries.
    NoMemory,
    /// The file ends within the header, told at 0, or within the entry there.
    Short { at: u64 },
    /// The first three bytes aren't those of a log.
    Magic,
    /// The fourth byte is that of another version.
    Version,
    /// No entry has this kind byte, or an END has a cause above 2 or is a cut with a value.
    Kind { at: u64 },
    /// The entry's step is below that of the one before, or equal to that of a CALL before it.
    Order { at: u64 },
    /// The file ends without an END.
    NoEnd,
    /// Bytes stand after END.
    Trailing { at: u64 },
    /// The regions of the header aren't lawful.
    Region,
}

impl From<NoMemory> for LogFault {
    ghost from_gives = { λ _ given. given ≡ fault.NoMemory };

    fn from(_error: NoMemory) -> LogFault {
        LogFault::NoMemory
    }
}
