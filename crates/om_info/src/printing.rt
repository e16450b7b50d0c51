//! The text, line by line.

ghost use Rattle.std.specs.Prelude.{◌≡◌, ◌⊎◌, ◌++◌, ◌<◌, ◌≤◌, length, flat_map, Ok, Err, IfOk};
ghost use Rattle.om_base.specs.Limits.{most_bytes};
ghost use Rattle.om_info.specs.Giving.{Gives, IsPassedBy, grown};
ghost use Rattle.om_info.specs.Text as spec;
ghost use Rattle.om_info.specs.Text.{variable_line};
ghost use Rattle.om_names.specs.Known.{told_by};

use crate::fault::InfoFault;
use crate::lines::{put_counts, put_variable};
use om_base::{MOST_BYTES, Text};
use om_elf::Elf;
use om_eval::VarInfo;
use om_names::Debug;
use std::alloc::Global;

/// Refuses a text that has more than `limit` bytes.
fn within(text: &Text, limit: u64) -> Result<(), InfoFault>
    ensures { Gives text.now limit (grown result text.now) }
{
    if text.bytes().len() as u64 > limit {
        return Err(InfoFault::TooManyBytes);
    }
    Ok(())
}

/// Appends the lines of variables, up to the first that passes the limit. What stands before that one is
/// within it.
fn put_variables(
    text: &mut Text,
    mut variables: &[VarInfo<'_>],
    limit: u64,
) -> Result<(), InfoFault>
    requires { length text.old ≤ limit }
    ensures gives { Gives (text.old ++ flat_map variable_line variables.entry.now) limit (grown result text.new) }
    ensures stops { result ≡ Err InfoFault.TooManyBytes → IsPassedBy variables.entry.now limit text.new }
{
    while let [variable, rest @ ..] = variables {
        put_variable(text, variable)?;
        within(text, limit)?;
        variables = rest;
    }
    Ok(())
}

/// The text of an executable, where it has at most `limit` bytes.
#[tactic(auto, unfolding(crate::specs::Text::info_of))]
fn text_within(
    alloc: Global,
    elf: &Elf<'_>,
    debug: &Debug<'_>,
    limit: u64,
) -> Result<Text, InfoFault>
    ensures { Gives (spec.info_of elf.now (told_by debug.now)) limit result }
{
    let mut text = Text::copy_of(alloc, b"")?;
    let catalog = debug.catalog();
    put_counts(&mut text, elf, debug.counts(), catalog.len())?;
    within(&text, limit)?;
    put_variables(&mut text, catalog.as_slice(), limit)?;
    Ok(text)
}

/// What is told of an executable with this debugging information, where it has at most 67,108,864
/// bytes. A text that is too long is given up at the first line that passes the limit.
pub fn info_text(alloc: Global, elf: &Elf<'_>, debug: &Debug<'_>) -> Result<Text, InfoFault>
    // What is answered is the text, and what is refused so is too long.
    ensures text { IfOk result (λ text. text ≡ spec.info_of elf.now (told_by debug.now)) }
    ensures within { IfOk result (λ text. length text ≤ most_bytes) }
    ensures long { result ≡ Err InfoFault.TooManyBytes → most_bytes < length (spec.info_of elf.now (told_by debug.now)) }

    // A text within the limit is given, and a longer one is refused, unless no memory was left.
    ensures gives { length (spec.info_of elf.now (told_by debug.now)) ≤ most_bytes → (result ≡ Ok (spec.info_of elf.now (told_by debug.now))) ⊎ (result ≡ Err InfoFault.NoMemory) }
    ensures refuses { most_bytes < length (spec.info_of elf.now (told_by debug.now)) → (result ≡ Err InfoFault.TooManyBytes) ⊎ (result ≡ Err InfoFault.NoMemory) }
{
    text_within(alloc, elf, debug, MOST_BYTES)
}
