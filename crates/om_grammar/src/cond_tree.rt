//! Conditions.

use crate::expr_tree::ExprTree;
use sqlite_items::{Boxed, Items as Members};

/// A condition.
#[derive(Debug, Drop)]
pub enum CondTree<'a> {
    Predicate(Predicate<'a>),
    Not { at: u32, cond: Boxed<CondTree<'a>> },
    /// Two or more, joined by AND.
    All(Members<CondTree<'a>>),
    /// Two or more, joined by OR.
    Any(Members<CondTree<'a>>),
}

/// A test of expressions. Its drop is written out, since a derived one goes into the check of each function
/// that holds a condition, and takes most of that check's time.
#[derive(Debug)]
pub enum Predicate<'a> {
    Compare {
        /// Where the operator stands.
        at: u32,
        op: CompareOp,
        left: ExprTree<'a>,
        right: ExprTree<'a>,
    },
    Between {
        /// Where BETWEEN stands.
        at: u32,
        polarity: Polarity,
        what: ExprTree<'a>,
        low: ExprTree<'a>,
        high: ExprTree<'a>,
    },
    In {
        /// Where IN stands.
        at: u32,
        polarity: Polarity,
        what: ExprTree<'a>,
        /// At least one.
        list: Members<ExprTree<'a>>,
    },
    IsNull {
        /// Where IS stands.
        at: u32,
        polarity: Polarity,
        what: ExprTree<'a>,
    },
}

impl Drop for Predicate<'_> {
    fn drop(self) {
        match self {
            Predicate::Compare {
                at: _,
                op: _,
                left: _,
                right: _,
            } => (),
            Predicate::Between {
                at: _,
                polarity: _,
                what: _,
                low: _,
                high: _,
            } => (),
            Predicate::In {
                at: _,
                polarity: _,
                what: _,
                list: _,
            } => (),
            Predicate::IsNull {
                at: _,
                polarity: _,
                what: _,
            } => (),
        }
    }
}

/// Whether a predicate is asked as it is, or with NOT.
#[derive(Clone, Copy, Debug, PartialEq, Eq)]
pub enum Polarity {
    Plain,
    Negated,
}

/// The operator of a comparison.
#[derive(Clone, Copy, Debug, PartialEq, Eq)]
pub enum CompareOp {
    Equal,
    NotEqual,
    Less,
    LessOrEqual,
    Greater,
    GreaterOrEqual,
}
