//! The tree of a query. Each node keeps the offset of the token that faults of it are told at, in bytes from
//! the start of the text. Parentheses leave no node.

use crate::cond_tree::CondTree;
use crate::expr_tree::ExprTree;
use om_base::{Items, Name, Text};

/// A query.
#[derive(Debug, Drop)]
pub struct Query<'a> {
    /// What stands between SELECT and FROM, at least one.
    pub items: Items<Item<'a>>,
    /// What stands after FROM, at least one.
    pub tables: Items<TableName<'a>>,
    /// The condition after WHERE.
    pub filter: Option<CondTree<'a>>,
    /// The columns after GROUP BY. None where it isn't there.
    pub groups: Items<ColumnName<'a>>,
    /// What stands after ORDER BY. None where it isn't there.
    pub keys: Items<SortKey<'a>>,
}

/// One column of the result.
#[derive(Debug, Drop)]
pub struct Item<'a> {
    pub expr: ExprTree<'a>,
    /// The name that the query gives it.
    pub alias: Option<Alias<'a>>,
}

/// The name that a query gives a column of its result.
#[derive(Debug, Drop)]
pub struct Alias<'a> {
    pub at: u32,
    pub name: Identifier<'a>,
}

/// A table after FROM.
#[derive(Debug, Drop)]
pub struct TableName<'a> {
    pub at: u32,
    pub name: Name<'a>,
    /// The range variable that the query names.
    pub variable: Option<Label<'a>>,
}

/// A regular identifier that names a range variable.
#[derive(Debug, Drop)]
pub struct Label<'a> {
    pub at: u32,
    pub name: Name<'a>,
}

/// A name.
#[derive(Debug, Drop)]
pub enum Identifier<'a> {
    /// A regular identifier, as written.
    Regular(Name<'a>),
    /// What a delimited identifier says.
    Delimited(Text),
}

/// A column.
#[derive(Debug, Drop)]
pub struct ColumnName<'a> {
    /// The range variable before the point.
    pub qualifier: Option<Label<'a>>,
    /// Where the column's own name stands.
    pub at: u32,
    pub name: Identifier<'a>,
}

/// What rows are sorted by.
#[derive(Debug, Drop)]
pub struct SortKey<'a> {
    pub at: u32,
    pub key: Key<'a>,
    pub direction: Direction,
}

/// Which column of the result rows are sorted by.
#[derive(Debug, Drop)]
pub enum Key<'a> {
    /// Its position, counted from 1.
    Position(u64),
    /// Its name.
    Named(Identifier<'a>),
}

/// Which way rows are sorted.
#[derive(Clone, Copy, Debug, PartialEq, Eq)]
pub enum Direction {
    Ascending,
    Descending,
}
