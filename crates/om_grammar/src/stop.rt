//! Why a part of a query wasn't read.

use om_base::NoMemory;
use std::alloc::AllocError;

/// Why a part of a query wasn't read.
#[derive(Clone, Copy, Debug, PartialEq, Eq)]
pub enum Stop {
    /// No memory was left for the tree.
    NoMemory,
    /// The next token doesn't fit, or there is none.
    Wrong,
    /// More parentheses and signs are open than the parser was told to expect.
    Deep,
}

impl From<NoMemory> for Stop {
    ghost use Rattle.std.specs.Prelude.{◌≡◌};
    ghost use Rattle.om_grammar.specs.declared.stop.Stop.TheVariants.{NoMemory};

    ghost from_gives = { λ _ it. it ≡ NoMemory };

    fn from(_error: NoMemory) -> Stop {
        Stop::NoMemory
    }
}

impl From<AllocError> for Stop {
    ghost use Rattle.std.specs.Prelude.{◌≡◌};
    ghost use Rattle.om_grammar.specs.declared.stop.Stop.TheVariants.{NoMemory};

    ghost from_gives = { λ _ it. it ≡ NoMemory };

    fn from(_error: AllocError) -> Stop {
        Stop::NoMemory
    }
}
