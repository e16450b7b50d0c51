//! The lines of a table.

ghost use Rattle.std.specs.Prelude.{◌≡◌, ◌∷◌, ◌++◌, [], length, map, codes, decimal, OnOk};
ghost use Rattle.om_table.specs.Gap.{gap};
ghost use Rattle.om_table.specs.Text.{csv_line, line, padded};

use crate::printed::Printed;
use itoa::Buffer;
use om_base::{NoMemory, Text};

/// Appends a cell to the right in its width, behind two spaces unless it is the first of its line.
fn add_cell<P: Printed>(
    text: &mut Text,
    column: usize,
    width: usize,
    cell: &P,
) -> Result<(), NoMemory>
    ensures { OnOk result (text.new ≡ text.old ++ gap (codes "  ") column ++ padded (width, P.shown cell.now)) }
{
    if column > 0 {
        text.add(b"  ")?;
    }
    text.fill(b' ', width.saturating_sub(cell.shown_len()?))?;
    cell.show_into(text)
}

/// Appends the cells of a line, each to the right in its width, and the end of the line.
#[tactic(auto, unfolding(crate::specs::Text::line))]
pub fn add_line<P: Printed>(text: &mut Text, widths: &[usize], cells: &[P]) -> Result<(), NoMemory>
    requires { length widths.now ≡ length cells.now }
    ensures { OnOk result (text.new ≡ text.old ++ line widths.now (map P.shown cells.now)) }
{
    for (column, cell) in cells.iter().enumerate() {
        add_cell(text, column, widths[column], cell)?;
    }
    text.add(b"\n")
}

/// Appends a field, behind a comma unless it is the first of its line.
fn add_field<P: Printed>(text: &mut Text, column: usize, cell: &P) -> Result<(), NoMemory>
    ensures { OnOk result (text.new ≡ text.old ++ gap (codes ",") column ++ P.field cell.now) }
{
    if column > 0 {
        text.add(b",")?;
    }
    cell.put_field(text)
}

/// Appends the fields of a line and the end of the line.
pub fn add_fields<P: Printed>(text: &mut Text, cells: &[P]) -> Result<(), NoMemory>
    ensures { OnOk result (text.new ≡ text.old ++ csv_line (map P.field cells.now)) }
{
    for (column, cell) in cells.iter().enumerate() {
        add_field(text, column, cell)?;
    }
    text.add(b"\n")
}

/// Appends the line that tells the number of rows.
pub fn add_count(text: &mut Text, rows: usize) -> Result<(), NoMemory>
    ensures { OnOk result (text.new ≡ text.old ++ codes "rows " ++ decimal rows ++ 10 ∷ []) }
{
    text.add(b"rows ")?;
    text.add(Buffer::new().format(rows).as_bytes())?;
    text.add(b"\n")
}
