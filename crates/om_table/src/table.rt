//! A table, and how it is printed.

use om_base::{Items, Text};
use om_eval::Owned;

/// Rows of values under named columns.
#[derive(Debug, Drop)]
pub struct Table {
    /// The name of each column.
    pub names: Items<Text>,
    /// The rows, each with a value for each column, in the order of the names.
    pub rows: Items<Items<Owned>>,
}

/// How a table is printed.
#[derive(Clone, Copy, Debug, PartialEq, Eq)]
pub enum Style {
    /// For a reader: columns of equal width, and the number of rows.
    Columns,
    /// For another program: comma-separated values.
    Csv,
}
