//! The query language, a subset of SQL-92: the tree of a query, and the parser over the tokens of
//! `om_token`.
//!
//! A query is a list of columns, one table, and an optional condition of comparisons joined by AND:
//!
//! ```text
//! query  = SELECT column {, column} FROM regular [WHERE test {AND test}]
//! test   = column op numeral
//! op     = "=" | "<>" | "<" | "<=" | ">" | ">="
//! column = regular | delimited
//! ```
//!
//! [`parse`] gives the tree of a text, or the one place at which no query goes on. What an [`Identifier`]
//! says is its bytes; of a delimited one those between its double quotes, where two stand for one.
#![tactic(auto)]

mod cursor;
mod fault;
mod grammar;
mod identifier;
mod laws;
mod query;
mod tree;

pub use fault::ParseFault;
pub use laws::{never_both, one_refusal, one_tree, tree_or_refusal};
pub use query::parse;
pub use tree::{
    ColumnName, CompareOp, CondTree, ExprTree, Identifier, Item, Numeral, Query, TableName,
};
