//! One row of the relation `states`, as it is seen at a state.

ghost use Rattle.std.specs.Prelude.{◌≡◌};
ghost use Rattle.om_value.specs.Row.{Row, IsColumn};
ghost use Rattle.om_value.specs.Meaning as spec;

use crate::{ColumnId, Value, Width};

/// A view of one row.
pub trait RowView {
    /// The row that the view stands for.
    ghost answers: { Self → Row };

    /// The value of a column in the row.
    fn cell(&self, column: ColumnId) -> Value<'_>
        requires { IsColumn column }
        ensures { spec.owned result ≡ (answers self.now).cell column };

    /// The little-endian number in memory from `addr` on, NULL where one of its bytes is unmapped.
    fn mem(&self, addr: u32, width: Width) -> Value<'_>
        ensures { spec.owned result ≡ (answers self.now).mem addr width };
}
