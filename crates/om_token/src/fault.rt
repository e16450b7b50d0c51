//! Why a text has no tokens.

use om_base::NoMemory;

/// Why a text has no list of tokens.
#[derive(Clone, Copy, Debug, PartialEq, Eq)]
pub enum TokenFault {
    /// No memory was left for the tokens.
    NoMemory,
    /// The bytes up to `at` are whole tokens, white space and comments, and those from there on begin
    /// none of them. `at` is in bytes from the start of the text.
    NoToken {
        /// Where the first byte stands that begins no token.
        at: u32,
    },
}

impl From<NoMemory> for TokenFault {
    ghost use Rattle.std.specs.Prelude.{◌≡◌};
    ghost use Rattle.om_token.specs.declared.fault.TokenFault.TheVariants.{NoMemory};

    ghost from_gives = { λ _ it. it ≡ NoMemory };

    fn from(_error: NoMemory) -> TokenFault {
        TokenFault::NoMemory
    }
}
