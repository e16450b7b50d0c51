//! Tokens, each with the place where it begins.

use crate::terminal::Terminal;
use om_base::Name;

/// What a token is.
#[derive(Debug, Drop)]
pub enum Kind<'a> {
    /// A reserved word or a symbol.
    Terminal(Terminal),
    /// A letter, then letters, digits and `_`, that is no reserved word.
    Regular(Name<'a>),
    /// A delimited identifier: what stands between its double quotes, where two stand for one.
    Delimited(Name<'a>),
    /// The value of a numeral.
    Numeral(u64),
    /// A text: what stands between its single quotes, where two stand for one.
    Text(Name<'a>),
}

/// A token of a text.
#[derive(Debug, Drop)]
pub struct Token<'a> {
    /// Where it begins, in bytes from the start of the text.
    pub at: u32,
    pub kind: Kind<'a>,
}

/// What a text is cut into.
#[derive(Debug, Drop)]
pub enum Piece<'a> {
    /// White space or a comment.
    Blank,
    Token(Kind<'a>),
}
