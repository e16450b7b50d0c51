//! The widths of the columns of a table.

ghost use Rattle.std.specs.Prelude.{◌≡◌, length, map, IfOk, OnOk};
ghost use Rattle.om_table.specs.Text.{IsTable, lines_of, widths_of};
ghost use Rattle.om_table.specs.Wider.{wider};

use crate::printed::Printed;
use crate::table::Table;
use om_base::NoMemory;
use std::alloc::Global;

/// Raises each width to the length of the cell in its column.
fn widen<P: Printed>(widths: &mut [usize], cells: &[P]) -> Result<(), NoMemory>
    requires { length widths.old ≡ length cells.now }
    ensures { OnOk result (widths.new ≡ wider widths.old (map P.shown cells.now)) }
{
    for (column, cell) in cells.iter().enumerate() {
        widths[column] = widths[column].max(cell.shown_len()?);
    }
    Ok(())
}

/// The width of each column.
pub fn widths(alloc: Global, table: &Table) -> Result<Vec<usize>, NoMemory>
    requires { IsTable table.now }
    ensures { IfOk result (λ widths. widths.items ≡ widths_of (length table.now.names) (lines_of table.now)) }
{
    let mut widths = Vec::new(alloc);
    widths.resize(table.names.len(), 0usize)?;
    widen(widths.as_mut_slice(), table.names.as_slice())?;
    for row in table.rows.as_slice() {
        widen(widths.as_mut_slice(), row.as_slice())?;
    }
    Ok(widths)
}
