//! A table as text.

ghost use Rattle.std.specs.Prelude.{◌≡◌, ◌++◌, length, ◌<◌, ◌≤◌, IfOk};
ghost use Rattle.om_table.specs.Text.{Gives, IsTable, columns_text, csv_text, text_of};
ghost use Rattle.om_table.specs.Within.{Keeps};

use crate::fault::TableFault;
use crate::lines::{add_count, add_fields, add_line};
use crate::table::{Style, Table};
use crate::widths::widths;
use om_base::Text;
use std::alloc::Global;

/// Refuses a text that is longer than `limit` bytes.
fn within(text: &Text, limit: u64) -> Result<(), TableFault>
    ensures { Keeps text.now limit result }
{
    if text.bytes().len() as u64 > limit {
        return Err(TableFault::TooManyBytes { limit });
    }
    Ok(())
}

/// The text of a table in columns of equal width. A text that is too long is given up at the first line
/// that passes the limit.
fn columns(alloc: Global, table: &Table, limit: u64) -> Result<Text, TableFault>
    requires { IsTable table.now }
    ensures { Gives (columns_text table.now) limit result }
{
    let widths = widths(alloc, table)?;
    let mut text = Text::copy_of(alloc, b"")?;
    add_line(&mut text, widths.as_slice(), table.names.as_slice())?;
    for row in table.rows.as_slice() {
        within(&text, limit)?;
        add_line(&mut text, widths.as_slice(), row.as_slice())?;
    }
    add_count(&mut text, table.rows.len())?;
    within(&text, limit)?;
    Ok(text)
}

/// The text of a table as comma-separated values. A text that is too long is given up at the first line
/// that passes the limit.
#[tactic(auto, unfolding(crate::specs::Text::csv_text))]
fn comma_separated(alloc: Global, table: &Table, limit: u64) -> Result<Text, TableFault>
    ensures { Gives (csv_text table.now) limit result }
{
    let mut text = Text::copy_of(alloc, b"")?;
    add_fields(&mut text, table.names.as_slice())?;
    for fields in table.rows.as_slice() {
        within(&text, limit)?;
        add_fields(&mut text, fields.as_slice())?;
    }
    within(&text, limit)?;
    Ok(text)
}

/// The text of `table` in `style`, where it has at most `limit` bytes.
pub fn print_table(
    alloc: Global,
    table: &Table,
    style: Style,
    limit: u64,
) -> Result<Text, TableFault>
    requires { IsTable table.now }
    ensures { Gives (text_of style table.now) limit result }
{
    match style {
        Style::Columns => columns(alloc, table, limit),
        Style::Csv => comma_separated(alloc, table, limit),
    }
}
