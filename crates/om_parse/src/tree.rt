//! The tree of a query. Each node keeps the offsets of its tokens, in bytes from the start of the text.

use om_base::{Items, Name};
use sqlite_items::Items as Members;

/// A query.
#[derive(Debug, Drop)]
pub struct Query<'a> {
    /// What stands between SELECT and FROM, at least one.
    pub items: Items<Item<'a>>,
    /// What stands after FROM, at least one.
    pub tables: Items<TableName<'a>>,
    /// The condition after WHERE.
    pub filter: Option<CondTree<'a>>,
}

/// One column of the result.
#[derive(Debug, Drop)]
pub struct Item<'a> {
    pub expr: ExprTree<'a>,
}

/// A table after FROM.
#[derive(Debug, Drop)]
pub struct TableName<'a> {
    pub at: u32,
    pub name: Name<'a>,
}

/// A name, as written.
#[derive(Debug, Drop)]
pub enum Identifier<'a> {
    /// A regular identifier.
    Regular(Name<'a>),
    /// A delimited identifier: what stands between its double quotes, where two stand for one.
    Delimited(Name<'a>),
}

/// A column, as written.
#[derive(Debug, Drop)]
pub struct ColumnName<'a> {
    pub at: u32,
    pub name: Identifier<'a>,
}

/// A numeral.
#[derive(Debug, Drop)]
pub struct Numeral {
    pub at: u32,
    pub value: u64,
}

/// An expression.
#[derive(Debug, Drop)]
pub enum ExprTree<'a> {
    Column(ColumnName<'a>),
    Numeral(Numeral),
}

/// A condition.
#[derive(Debug, Drop)]
pub enum CondTree<'a> {
    /// `left op right`.
    Compare {
        /// Where the operator stands.
        at: u32,
        op: CompareOp,
        left: ExprTree<'a>,
        right: ExprTree<'a>,
    },
    /// Two or more conditions joined by AND, first to last. A type that leads back to itself takes this
    /// list, which has the formers for it.
    All(Members<CondTree<'a>>),
}

/// The operator of a comparison.
#[derive(Clone, Copy, Debug, PartialEq, Eq)]
pub enum CompareOp {
    Equal,
    NotEqual,
    Less,
    LessOrEqual,
    Greater,
    GreaterOrEqual,
}
