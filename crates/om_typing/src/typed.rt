//! What a typed query is.

use om_base::{Items, Name, Text};
use om_value::{Cond, Expr};

/// A query with each name resolved.
///
/// It asks for the values of `outputs` at the rows of the relation at which each of `conjuncts` is Yes.
#[derive(Debug, Drop)]
pub struct Typed<'q> {
    /// The names of the range variables as written, in the order of FROM.
    pub tables: Items<Name<'q>>,
    /// The conditions that WHERE joins by AND, first to last; none where there is no WHERE.
    pub conjuncts: Items<Cond>,
    /// The columns of the result, first to last.
    pub outputs: Items<Output>,
}

/// One column of the result.
#[derive(Debug, Drop)]
pub struct Output {
    /// The name that is printed above it.
    pub name: Text,
    /// What its cells are the values of.
    pub expr: Expr,
}
