//! One row of the relation `states`, as it is seen at a state.

ghost use Rattle.std.specs.Prelude.{◌≡◌};
ghost use Rattle.om_eval.specs.Row.{Row, IsColumn, IsWidth};
ghost use Rattle.om_eval.specs.Meaning as spec;

use crate::{ColumnId, Value};

/// A view of one row.
pub trait RowView {
    /// The row that the view stands for.
    ghost answers: { Self → Row };

    /// The value of a column in the row.
    fn cell(&self, column: ColumnId) -> Value<'_>
        requires { IsColumn column }
        ensures { spec.owned result ≡ (answers self.now).cell column };

    /// The little-endian number in `width` bytes of memory from `addr`, NULL where one is unmapped.
    fn mem(&self, addr: u32, width: u8) -> Value<'_>
        requires { IsWidth width }
        ensures { spec.owned result ≡ (answers self.now).mem addr width };
}
