//! The variables of a program that a query may name.

use crate::VariableName;
use om_base::{Interval, Items};

/// What is known of all the variables of one name.
#[derive(Debug, Drop)]
pub struct VarInfo<'a> {
    /// The name by which a query names them.
    pub name: VariableName<'a>,
    /// The numbers that it may hold, where its type is scalar.
    pub scalar: Option<Interval>,
    /// Whether several variables outside all functions have this name and differ in address, size or
    /// sign.
    pub ambiguous: bool,
    /// Whether it has one address throughout the run.
    pub fixed: bool,
}

/// The variables in order. [`ColumnId::Var`](crate::ColumnId::Var) has a place in this list.
pub type Catalog<'a> = Items<VarInfo<'a>>;
