//! What a token begins or joins, where several may stand.

use crate::cond_tree::CompareOp;
use crate::expr_tree::{Function, Numeral, Width};
use om_base::Name;

/// The first token of a primary.
#[derive(Debug, Drop)]
pub enum Lead<'a> {
    Numeral(Numeral),
    /// What stands between single quotes.
    Text { at: u32, inside: Name<'a> },
    Null { at: u32 },
    Regular { at: u32, name: Name<'a> },
    /// What stands between double quotes.
    Delimited { at: u32, inside: Name<'a> },
    Paren,
    Signed { at: u32 },
    Bits { at: u32 },
    Memory { at: u32, width: Width },
    Count { at: u32 },
    /// MIN or MAX.
    Extreme { at: u32, function: Function },
}

/// What stands after a range variable and its point in a primary.
#[derive(Debug, Drop)]
pub enum Dotted<'a> {
    Regular { at: u32, name: Name<'a> },
    /// What stands between double quotes.
    Delimited { at: u32, inside: Name<'a> },
    Memory { at: u32, width: Width },
}

/// What makes a predicate of the expression before it.
#[derive(Clone, Copy, Debug, PartialEq, Eq)]
pub enum Word {
    Compare { at: u32, op: CompareOp },
    Not,
    Between { at: u32 },
    In { at: u32 },
    Is { at: u32 },
}

/// What makes a predicate of the expression and the NOT before it.
#[derive(Clone, Copy, Debug, PartialEq, Eq)]
pub enum Negatable {
    Between { at: u32 },
    In { at: u32 },
}
