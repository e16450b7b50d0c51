//! What a command comes to over the bytes of its files.

ghost use Rattle.std.specs.Prelude.{◌≡◌};
ghost use Rattle.om_command.specs.Command.{effect_with};
ghost use Rattle.om_command.specs.Readings.{AreReadings, Readings, content_at, needs_of};
ghost use Rattle.om_command.specs.Reads.{Gives};
ghost use Rattle.om_command.specs.Words.{command_by};

use crate::answer::answer_text;
use crate::ending::Ending;
use crate::information::told_of;
use crate::recording::{record_run, summary};
use crate::words::Command;
use om_base::{Bytes, Text};
use std::alloc::Global;

/// A file that is put.
#[derive(Debug, Drop)]
pub struct Put<'a> {
    /// Its name.
    pub name: &'a str,
    /// Its bytes.
    pub bytes: Bytes,
}

/// What a command comes to, where it isn't refused.
#[derive(Debug, Drop)]
pub struct Outcome<'a> {
    /// The text that is printed.
    pub text: Text,
    /// The file that is put before it is printed.
    pub put: Option<Put<'a>>,
}

/// The bytes of the file at a place; none where there is no file.
fn content(files: &[Bytes], place: usize) -> &[u8]
    ensures { result.now ≡ content_at files.now place }
{
    match files.get(place) {
        Some(bytes) => bytes.bytes(),
        None => &[],
    }
}

/// What a command comes to over the bytes of its files.
pub fn outcome_of<'a>(
    alloc: Global,
    command: &Command<'a>,
    files: &[Bytes],
) -> Result<Outcome<'a>, Ending<'a>>
    ensures { (read : Readings) → AreReadings (needs_of (command_by command.now)) files.now read
        → Gives (effect_with (command_by command.now) files.now read) result }
{
    match command {
        Command::Query { sql } => {
            match answer_text(alloc, content(files, 0), content(files, 1), sql.as_bytes()) {
                Ok(text) => Ok(Outcome { text, put: None }),
                Err(ending) => Err(ending),
            }
        }
        Command::Info => match told_of(alloc, content(files, 0)) {
            Ok(text) => Ok(Outcome { text, put: None }),
            Err(ending) => Err(ending),
        },
        Command::Record { log } => {
            let recorded = match record_run(alloc, content(files, 0), content(files, 1)) {
                Ok(recorded) => recorded,
                Err(ending) => return Err(ending),
            };
            let text = summary(alloc, &recorded)?;
            let put = Put {
                name: log,
                bytes: recorded.bytes,
            };
            Ok(Outcome {
                text,
                put: Some(put),
            })
        }
    }
}
