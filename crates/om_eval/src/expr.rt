//! The expressions of a query, with each name resolved.

ghost use Rattle.std.specs.Prelude.{◌≡◌, IfOk};

use crate::Column;
use om_base::NoMemory;
use std::alloc::Global;

/// An expression.
#[derive(Debug, Drop)]
pub enum Expr {
    /// The cell of a column.
    Column(Column),
    /// An unsigned number.
    Numeral(u64),
}

impl Expr {
    /// An equal tree.
    pub fn copy(&self, _alloc: Global) -> Result<Expr, NoMemory>
        ensures { IfOk result (λ copy. copy ≡ self.now) }
    {
        Ok(match self {
            Expr::Column(column) => Expr::Column(*column),
            Expr::Numeral(number) => Expr::Numeral(*number),
        })
    }
}
