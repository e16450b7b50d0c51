//! The lines of the text.

ghost use Rattle.std.specs.Prelude.{◌≡◌, ◌++◌, OnOk, length, pos};
ghost use Rattle.om_info.specs.Text as spec;
ghost use Rattle.om_table.specs.Escape.{escaped};

use crate::filled::count_filled;
use om_base::{Interval, NoMemory, Text, put_decimal};
use om_elf::Elf;
use om_eval::{VarInfo, VariableName};
use om_names::Counts;
use om_table::escape_into;

/// Appends a line that tells a number.
#[tactic(auto, unfolding(crate::specs::Text::number_line))]
fn put_number(text: &mut Text, word: &[u8], number: u64) -> Result<(), NoMemory>
    ensures { OnOk result (text.new ≡ text.old ++ spec.number_line word.now number) }
{
    text.add(word)?;
    text.add(b" ")?;
    put_decimal(text, i128::from(number))?;
    text.add(b"\n")
}

/// Appends the lines that tell how much there is, of so many variables.
#[tactic(auto, unfolding(crate::specs::Text::counts_text))]
pub fn put_counts(
    text: &mut Text,
    elf: &Elf<'_>,
    counts: Counts,
    variables: usize,
) -> Result<(), NoMemory>
    ensures { OnOk result (text.new ≡ text.old ++ spec.counts_text elf.now counts variables) }
{
    put_number(text, b"entry", u64::from(elf.entry))?;
    put_number(
        text,
        b"segments",
        count_filled(elf.segments.as_slice()) as u64,
    )?;
    put_number(text, b"units", u64::from(counts.units))?;
    put_number(text, b"skipped", u64::from(counts.skipped))?;
    put_number(text, b"functions", u64::from(counts.functions))?;
    put_number(text, b"variables", variables as u64)
}

/// Appends the numbers of a scalar type.
#[tactic(auto, unfolding(crate::specs::Text::interval_text))]
fn put_interval(text: &mut Text, interval: Interval) -> Result<(), NoMemory>
    ensures { OnOk result (text.new ≡ text.old ++ spec.interval_text interval) }
{
    put_decimal(text, interval.lo)?;
    text.add(b" ")?;
    put_decimal(text, interval.hi)
}

/// Appends what is told of the variables of a name.
fn put_known(text: &mut Text, variable: &VarInfo<'_>) -> Result<(), NoMemory>
    ensures { OnOk result (text.new ≡ text.old ++ spec.known_text variable.now) }
{
    if variable.ambiguous {
        return text.add(b"ambiguous");
    }
    match variable.scalar {
        Some(interval) => put_interval(text, interval),
        None => text.add(b"other"),
    }
}

/// Appends a name as it is printed, piece by piece.
#[tactic(auto, using(crate::proofs::NameLemmas::escaped_pieces))]
fn put_name(text: &mut Text, name: &VariableName<'_>) -> Result<(), NoMemory>
    ensures { OnOk result (text.new ≡ text.old ++ escaped name.now) }
{
    let (function, point, own) = name.pieces();
    escape_into(text, function)?;
    escape_into(text, point)?;
    escape_into(text, own)
}

/// Appends the line of the variables of a name. After a refusal a part of it may stand at the end of
/// `text`.
#[tactic(auto, unfolding(crate::specs::Text::variable_line))]
pub fn put_variable(text: &mut Text, variable: &VarInfo<'_>) -> Result<(), NoMemory>
    ensures { OnOk result (text.new ≡ text.old ++ spec.variable_line variable.now) }
{
    text.add(b"variable ")?;
    put_name(text, &variable.name)?;
    text.add(b" ")?;
    put_known(text, variable)?;
    text.add(b"\n")
}
