//! The files that the head of a line table tells of: DWARF 4, section 6.2.4, entries 11 and 12.

ghost use Rattle.std.specs.Prelude.{◌≡◌, true, IfOk};
ghost use Rattle.std.specs.Option.{option_copied};
ghost use Rattle.om_base.specs.Reading.{Gives};
ghost use Rattle.om_line.specs.Files as spec;

use crate::fields::{Broken, behind_numbers, first_string};
use om_base::{Items, Name, NoMemory};
use std::alloc::Global;

/// The bytes behind the strings in front, which end with an empty one.
#[tactic(auto, unfolding(crate::specs::Files::behind_strings))]
fn behind_strings(bytes: &[u8]) -> Option<&[u8]>
    ensures { option_copied result ≡ spec.behind_strings true bytes.now }
{
    let mut begins = true;
    let mut rest = bytes;
    while let Some((byte, behind)) = rest.split_first() {
        if *byte == 0 && begins {
            return Some(behind);
        }
        begins = *byte == 0;
        rest = behind;
    }
    None
}

/// The file in front, and the bytes behind it; none where its name is empty.
#[tactic(auto, unfolding(crate::specs::Files::file_or_end))]
fn file_or_end<'a>(bytes: &'a [u8]) -> Result<(Option<Name<'a>>, &'a [u8]), Broken>
    ensures { Gives (λ x. (x.0, x.1.now)) result (spec.file_or_end bytes.now) }
{
    let (name, rest) = first_string(bytes)?;
    if name.is_empty() {
        return Ok((None, rest));
    }
    let rest = behind_numbers(3, rest)?;
    Ok((Some(Name::of(name)), rest))
}

/// The names of the files in front; none where they have no end.
fn files_in<'a>(alloc: Global, bytes: &'a [u8]) -> Result<Option<Items<Name<'a>>>, NoMemory>
    ensures { IfOk result (λ files. files ≡ spec.files_in bytes.now) }
{
    let mut files = Items::new(alloc);
    let mut rest = bytes;
    loop {
        let Ok((file, behind)) = file_or_end(rest) else {
            return Ok(None);
        };
        let Some(name) = file else {
            return Ok(Some(files));
        };
        files.push(name)?;
        rest = behind;
    }
}

/// The names of the files behind the directories in front; none where either have no end.
#[tactic(auto, unfolding(crate::specs::Files::head_files))]
pub fn head_files<'a>(alloc: Global, bytes: &'a [u8]) -> Result<Option<Items<Name<'a>>>, NoMemory>
    ensures { IfOk result (λ files. files ≡ spec.head_files bytes.now) }
{
    match behind_strings(bytes) {
        Some(rest) => files_in(alloc, rest),
        None => Ok(None),
    }
}
