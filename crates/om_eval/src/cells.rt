//! A row for each range variable, already taken out of their states.

ghost use Rattle.std.specs.Prelude.{◌≡◌};
ghost use Rattle.om_eval.specs.Row.{Tuple, IsColumn, row_tuple};
ghost use Rattle.om_eval.specs.Meaning as spec;

use crate::{ColumnId, RowView, Value};

/// The cells of a tuple of rows.
pub trait Cells {
    /// The tuple that the cells are of.
    ghost tuple: { Self → Tuple };

    /// The value of a column in the row of the range variable at the place `table` of FROM.
    fn cell(&self, table: u32, column: ColumnId) -> Value<'_>
        requires { IsColumn column }
        ensures { spec.owned result ≡ (tuple self.now table).cell column };
}

/// One row stands for every range variable.
impl<V: RowView> Cells for V {
    ghost tuple = { λ view. row_tuple (V.answers view) };

    #[inline(always)]
    fn cell(&self, _table: u32, column: ColumnId) -> Value<'_> {
        RowView::cell(self, column)
    }
}
