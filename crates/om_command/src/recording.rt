//! Records a run over the bytes of an executable and of an input.

ghost use Rattle.std.specs.Prelude.{◌≡◌, ◌++◌, List, ℕ, IfOk, codes};
ghost use Rattle.om_command.specs.Command as spec;
ghost use Rattle.om_command.specs.Command.{cause_word, recorded_run};
ghost use Rattle.om_command.specs.Reads as reads;
ghost use Rattle.om_command.specs.Reads.{GivesLog};

use crate::answer::end_by_elf;
use crate::ending::Ending;
use crate::limits::MOST_STEPS;
use crate::refusal::Refusal;
use itoa::Buffer;
use om_base::{NoMemory, Text};
use om_elf::read_elf;
use om_record::{RecordFault, Recorded, make_log};
use std::alloc::Global;

/// What a fault of recording comes to.
fn end_by_recorder<'a>(fault: RecordFault) -> Ending<'a>
    ensures { result ≡ reads.end_by_recorder fault }
{
    match fault {
        RecordFault::NoMemory => Ending::NoMemory,
        RecordFault::TooLong { step } => Ending::Refused(Refusal::LogTooLong { step }),
        RecordFault::NoRoom { a, b } => Ending::Refused(Refusal::NoRoom { a, b }),
    }
}

/// The log of the run of an executable with an input.
#[tactic(auto, unfolding(crate::specs::Command::recorded_run))]
pub fn record_run<'a>(alloc: Global, exe: &[u8], input: &[u8]) -> Result<Recorded, Ending<'a>>
    ensures { (name : List ℕ) → GivesLog (recorded_run exe.now input.now name) name result }
{
    let elf = match read_elf(alloc, exe) {
        Ok(elf) => elf,
        Err(fault) => return Err(end_by_elf(fault)),
    };
    match make_log(alloc, &elf, input, MOST_STEPS) {
        Ok(recorded) => Ok(recorded),
        Err(fault) => Err(end_by_recorder(fault)),
    }
}

/// The word for the cause of an end.
fn cause_word(cause: u8) -> &'static [u8]
    ensures { result.now ≡ spec.cause_word cause }
{
    match cause {
        0 => b"exit",
        1 => b"cut",
        _ => b"stop",
    }
}

/// The line for a log that was made: its last step, and how it ends.
pub fn summary(alloc: Global, recorded: &Recorded) -> Result<Text, NoMemory>
    ensures { IfOk result (λ text. text ≡ spec.summary recorded.now) }
{
    let (mut steps, mut value) = (Buffer::new(), Buffer::new());
    let mut text = Text::copy_of(alloc, b"steps ")?;
    text.add(steps.format(recorded.steps).as_bytes())?;
    text.add(b" end ")?;
    text.add(cause_word(recorded.cause))?;
    text.add(b" ")?;
    text.add(value.format(recorded.value).as_bytes())?;
    text.add(b"\n")?;
    Ok(text)
}
