//! The query language, a subset of SQL-92: the tree of a query, and the parser.
//!
//! ```text
//! query     = SELECT item {"," item} FROM table {"," table} [WHERE cond]
//!             [GROUP BY column {"," column}] [ORDER BY key {"," key}] [";"]
//! item      = expr [[AS] alias]
//! table     = regular [[AS] regular]
//! key       = (numeral | alias) [ASC | DESC]
//! cond      = conj {OR conj}
//! conj      = neg {AND neg}
//! neg       = {NOT} test
//! test      = "(" cond ")" | predicate
//! predicate = expr op expr
//!           | expr [NOT] BETWEEN expr AND expr
//!           | expr [NOT] IN "(" expr {"," expr} ")"
//!           | expr IS [NOT] NULL
//! op        = "=" | "<>" | "<" | "<=" | ">" | ">="
//! expr      = term {("+" | "-") term}
//! term      = factor {("*" | "/") factor}
//! factor    = {"+" | "-"} primary
//! primary   = numeral | text | NULL | column | "(" expr ")" | SIGNED "(" expr ")"
//!           | BITS "(" expr "," numeral "," numeral ")"
//!           | [regular "."] (MEM8 | MEM16 | MEM32) "(" expr ")"
//!           | COUNT "(" "*" ")" | (COUNT | MIN | MAX) "(" expr ")"
//! column    = [regular "."] (regular | delimited)
//! alias     = regular | delimited
//! ```
//!
//! COUNT, MIN and MAX stand only in items, and not inside one another. [`parse`] gives the tree of a text, or
//! the one fault that it is refused by.
#![tactic(auto)]

mod aggregates;
mod cond_tree;
mod conditions;
mod cursor;
mod depth;
mod expr_tree;
mod expressions;
mod fault;
mod found;
mod fronts;
mod laws;
mod lead;
mod names;
mod parts;
mod predicates;
mod printing;
mod query;
mod readers;
mod start;
mod stop;
mod tree;
mod words;

pub use cond_tree::{CompareOp, CondTree, Polarity, Predicate};
pub use expr_tree::{Addend, ExprTree, Factor, Function, Numeral, Scale, Sign, Width};
pub use fault::ParseFault;
pub use laws::{never_both, one_depth, one_refusal, one_tree, round_trip, tree_or_refusal};
pub use printing::text_of;
pub use query::parse;
pub use tree::{
    Alias, ColumnName, Direction, Identifier, Item, Key, Label, Query, SortKey, TableName,
};
