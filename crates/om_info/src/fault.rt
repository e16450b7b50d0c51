//! Why nothing is told of an executable.

use om_base::NoMemory;

/// Why there is no text.
#[derive(Clone, Copy, Debug, PartialEq, Eq)]
pub enum InfoFault {
    /// No memory was left for the text.
    NoMemory,
    /// The text has more than 67,108,864 bytes.
    TooManyBytes,
}

impl From<NoMemory> for InfoFault {
    ghost use Rattle.std.specs.Prelude.{◌≡◌};
    ghost use Rattle.om_info.specs.declared.fault.InfoFault.TheVariants.{NoMemory};

    ghost from_gives = { λ _ it. it ≡ NoMemory };

    fn from(_error: NoMemory) -> InfoFault {
        InfoFault::NoMemory
    }
}
