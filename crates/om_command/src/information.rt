//! Tells what the bytes of an executable have.

ghost use Rattle.std.specs.Prelude.{◌≡◌, ◌<◌, ℕ, None, Result, slice_index};
ghost use Rattle.om_command.specs.Command.{informed};
ghost use Rattle.om_command.specs.Readings.{IsDebugReading};
ghost use Rattle.om_command.specs.Reads as reads;
ghost use Rattle.om_command.specs.Reads.{GivesText};
ghost use Rattle.om_elf.specs.Executable.{elf_fault, elf_in};
ghost use Rattle.om_names.specs.Information.{Information};
ghost use Rattle.om_names.specs.declared.fault.NamesFault.{NamesFault};

use crate::answer::{end_by_debug, end_by_elf};
use crate::ending::Ending;
use crate::refusal::Refusal;
use om_base::Text;
use om_elf::read_elf;
use om_info::{InfoFault, info_text};
use om_names::read_debug;
use std::alloc::Global;

/// What the want of a text comes to.
fn end_by_info<'a>(fault: InfoFault) -> Ending<'a>
    ensures { result ≡ reads.end_by_info fault }
{
    match fault {
        InfoFault::NoMemory => Ending::NoMemory,
        InfoFault::TooManyBytes => Ending::Refused(Refusal::TooManyBytes),
    }
}

/// The text of what an executable has, where the parts are judged in the order executable, debugging
/// information, length of the text.
#[tactic(auto, unfolding(crate::specs::Command::informed))]
pub fn told_of<'a>(alloc: Global, exe: &[u8]) -> Result<Text, Ending<'a>>
    ensures exe_bytes { (i : ℕ) → slice_index exe.now i < 256 }
    ensures text { (read : Result Information NamesFault) → (elf_fault exe.now ≡ None → IsDebugReading (elf_in exe.now) read)
        → GivesText (informed exe.now read) result }
{
    let elf = match read_elf(alloc, exe) {
        Ok(elf) => elf,
        Err(fault) => return Err(end_by_elf(fault)),
    };
    let debug = match read_debug(alloc, &elf) {
        Ok(debug) => debug,
        Err(fault) => return Err(end_by_debug(fault)),
    };
    match info_text(alloc, &elf, &debug) {
        Ok(text) => Ok(text),
        Err(fault) => Err(end_by_info(fault)),
    }
}
