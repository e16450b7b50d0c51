//! The front of a primary.

use crate::expr_tree::{ExprTree, Function, Width};
use crate::tree::Label;

/// What a primary with an expression in parentheses makes of it.
#[derive(Debug, Drop)]
pub enum Form<'a> {
    /// The expression itself.
    Paren,
    Signed {
        at: u32,
    },
    Bits {
        at: u32,
    },
    Memory {
        qualifier: Option<Label<'a>>,
        at: u32,
        width: Width,
    },
    Aggregate {
        at: u32,
        function: Function,
    },
}

/// A primary without parentheses, or the front of one with them.
#[derive(Debug, Drop)]
pub enum Start<'a> {
    Whole(ExprTree<'a>),
    /// `COUNT(*`.
    Rows { at: u32 },
    /// What stands up to and with the parenthesis that opens.
    Open(Form<'a>),
}
