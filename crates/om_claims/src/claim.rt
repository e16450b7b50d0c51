//! A claim to addresses.

use om_base::Span;

/// What one thing of a list claims.
#[derive(Clone, Copy, Debug, PartialEq, Eq)]
pub struct Claim {
    /// The addresses, none where the end isn't above the beginning.
    pub span: Span,
    /// How deep the thing lies in others. Of two claims to an address the deeper counts.
    pub depth: u32,
}
