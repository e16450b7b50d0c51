//! Expressions.

use crate::tree::{ColumnName, Label};
use om_base::Text;
use sqlite_items::{Boxed, Items as Members};

/// A numeral.
#[derive(Debug, Drop)]
pub struct Numeral {
    pub at: u32,
    pub value: u64,
}

/// An expression.
#[cycle(expr)]
#[derive(Debug, Drop)]
pub enum ExprTree<'a> {
    Numeral(Numeral),
    /// What a text says.
    Text {
        at: u32,
        text: Text,
    },
    Null {
        at: u32,
    },
    Column(ColumnName<'a>),
    /// A first term, and at least one more.
    Sum(Boxed<ExprTree<'a>>, Members<Addend<'a>>),
    /// A first factor, and at least one more.
    Product(Boxed<ExprTree<'a>>, Members<Factor<'a>>),
    /// A sign before a factor.
    Sign {
        at: u32,
        sign: Sign,
        expr: Boxed<ExprTree<'a>>,
    },
    /// SIGNED.
    Signed {
        at: u32,
        expr: Boxed<ExprTree<'a>>,
    },
    /// BITS.
    Bits {
        at: u32,
        expr: Boxed<ExprTree<'a>>,
        high: Numeral,
        low: Numeral,
    },
    /// MEM8, MEM16 or MEM32.
    Memory {
        /// The range variable before the point.
        qualifier: Option<Label<'a>>,
        /// Where the word itself stands.
        at: u32,
        width: Width,
        address: Boxed<ExprTree<'a>>,
    },
    /// COUNT(*).
    CountRows {
        at: u32,
    },
    /// COUNT, MIN or MAX of an expression.
    Aggregate {
        at: u32,
        function: Function,
        expr: Boxed<ExprTree<'a>>,
    },
}

/// A term of a sum, after the first.
#[cycle(expr)]
#[derive(Debug, Drop)]
pub struct Addend<'a> {
    /// Where the sign stands.
    pub at: u32,
    pub sign: Sign,
    pub term: ExprTree<'a>,
}

/// A factor of a product, after the first.
#[cycle(expr)]
#[derive(Debug, Drop)]
pub struct Factor<'a> {
    /// Where the operator stands.
    pub at: u32,
    pub scale: Scale,
    pub factor: ExprTree<'a>,
}

#[derive(Clone, Copy, Debug, PartialEq, Eq)]
pub enum Sign {
    Plus,
    Minus,
}

/// The operator of a product.
#[derive(Clone, Copy, Debug, PartialEq, Eq)]
pub enum Scale {
    Times,
    Divide,
}

/// How many bytes of memory are read.
#[derive(Clone, Copy, Debug, PartialEq, Eq)]
pub enum Width {
    Byte,
    Half,
    Word,
}

/// An aggregate of the values of an expression.
#[derive(Clone, Copy, Debug, PartialEq, Eq)]
pub enum Function {
    Count,
    Min,
    Max,
}
