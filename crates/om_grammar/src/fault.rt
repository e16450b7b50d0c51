//! Why a text is no query.

use om_base::NoMemory;

/// Why a text has no tree.
#[derive(Clone, Copy, Debug, PartialEq, Eq)]
pub enum ParseFault {
    /// No memory was left for the tokens or the tree.
    NoMemory,
    /// The text has more than 16,384 bytes.
    TooWide {
        /// How many bytes it has.
        length: u64,
    },
    /// Too many parentheses or signs are open at the token at `at`, in bytes from the start of the text.
    TooDeep {
        /// Where the 65th `(` of those that are open stands, or the 65th of a run of NOT, `+` and `-`.
        at: u32,
    },
    /// The tokens before `at` may begin a query, and with the token there they may not. `at` is in bytes from
    /// the start of the text, and its length where the text stops too early.
    Syntax {
        /// Where the first byte or token stands that begins none or fits none.
        at: u32,
    },
}

impl From<NoMemory> for ParseFault {
    ghost use Rattle.std.specs.Prelude.{◌≡◌};
    ghost use Rattle.om_grammar.specs.declared.fault.ParseFault.TheVariants.{NoMemory};

    ghost from_gives = { λ _ it. it ≡ NoMemory };

    fn from(_error: NoMemory) -> ParseFault {
        ParseFault::NoMemory
    }
}
