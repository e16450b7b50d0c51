//! A row for each range variable, already taken out of their states.

ghost use Rattle.std.specs.Prelude.{◌≡◌};

use crate::arithmetic::cell_at;
use crate::{ColumnId, Expr, RowView, Value, value_of};

/// What is known of a tuple of rows.
pub trait Cells {
    /// The answer for each column and memory form.
    ghost known: { Self → Known };

    ghost use Rattle.om_value.specs.Known.{Known};
    ghost use Rattle.om_value.specs.Meaning as spec;
    ghost use Rattle.om_value.specs.declared.expr.Expr.TheVariants as form;

    /// The value of a column in the row of the range variable at the place `table` of FROM.
    fn cell(&self, table: u32, column: ColumnId) -> Value<'_>
        ensures { spec.owned result ≡ known self.now (form.Column (record { table = table; id = column })) };

    /// The value of a whole memory form, whose address isn't computed again.
    fn memory<'a>(&'a self, form: &'a Expr) -> Value<'a>
        ensures { spec.owned result ≡ known self.now form.now };
}

/// One row stands for every range variable.
impl<V: RowView> Cells for V {
    ghost known = { λ view. spec.near_value (row_tuple (V.answers view)) };

    ghost use Rattle.om_value.specs.Row.{row_tuple};
    ghost use Rattle.om_value.specs.Meaning as spec;

    #[inline(always)]
    fn cell(&self, _table: u32, column: ColumnId) -> Value<'_> {
        cell_at(self, column)
    }

    fn memory<'a>(&'a self, form: &'a Expr) -> Value<'a> {
        value_of(form, self)
    }
}
