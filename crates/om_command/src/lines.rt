//! The lines that are told of refusals.

ghost use Rattle.std.specs.Prelude.{◌≡◌, [], ◌∷◌, ◌++◌, codes, decimal};
ghost use Rattle.om_command.specs.Lines.{debug_words, number_words, reason_words, refusal_line, step_words};
ghost use Rattle.om_io.specs.Writing.{Puts};

use crate::faults::{
    die_told, elf_told, frame_told, line_told, log_told, part_told, reason_told, type_loop_told,
};
use crate::refusal::Refusal;
use crate::told::{Told, put_place, put_told};
use itoa::Buffer;
use om_io::{Sink, SinkFail, put_all, put_pieces};
use om_names::NamesFault;
use om_run::Departure;

/// Writes the line of a fault of debugging information, without its line end.
fn put_debug<P: Sink>(sink: &mut P, fault: NamesFault) -> Result<(), SinkFail>
    ensures { Puts (P.told sink.old) (P.told sink.new) (codes "omni: debug: " ++ debug_words fault) result }
{
    match fault {
        NamesFault::Info(fault) => put_told(sink, b"omni: debug: .debug_info ", &die_told(fault)),
        NamesFault::Ranges(fault) => put_told(
            sink,
            b"omni: debug: .debug_ranges ",
            &die_told(fault),
        ),
        NamesFault::Lines(fault) => {
            put_told(sink, b"omni: debug: .debug_line ", &line_told(fault))
        }
        NamesFault::Frame(fault) => {
            put_told(sink, b"omni: debug: .debug_frame ", &frame_told(fault))
        }
        NamesFault::TypeLoop { at } => put_told(
            sink,
            b"omni: debug: .debug_info ",
            &type_loop_told(at),
        ),
        NamesFault::NoMemory => put_all(sink, b"omni: debug: "),
    }
}

/// Writes the line of a run that is too long, without its line end.
fn put_limit<P: Sink>(sink: &mut P, steps: u64) -> Result<(), SinkFail>
    ensures { Puts (P.told sink.old) (P.told sink.new) (codes "omni: limit: " ++ decimal steps ++ codes " steps, allowed 4000000") result }
{
    match put_place(sink, b"omni: limit: ", steps) {
        Ok(()) => put_all(sink, b" steps, allowed 4000000"),
        Err(fail) => Err(fail),
    }
}

/// Writes the step of a departure.
fn put_step<P: Sink>(sink: &mut P, step: u64) -> Result<(), SinkFail>
    ensures { Puts (P.told sink.old) (P.told sink.new) (step_words step) result }
{
    match put_place(sink, b"omni: departs: step ", step) {
        Ok(()) => put_all(sink, b": "),
        Err(fail) => Err(fail),
    }
}

/// Writes the two numbers of a departure.
fn put_numbers<P: Sink>(sink: &mut P, told: u64, found: u64) -> Result<(), SinkFail>
    ensures { Puts (P.told sink.old) (P.told sink.new) (number_words told found) result }
{
    let (mut log, mut run) = (Buffer::new(), Buffer::new());
    put_pieces(
        sink,
        &[
            b": log ".as_slice(),
            log.format(told).as_bytes(),
            b", run ",
            run.format(found).as_bytes(),
        ],
    )
}

/// Writes the line of a departure, without its line end.
fn put_departure<P: Sink>(sink: &mut P, departure: &Departure) -> Result<(), SinkFail>
    ensures { Puts (P.told sink.old) (P.told sink.new)
        (step_words departure.now.step ++ reason_words departure.now.reason
        ++ number_words departure.now.told departure.now.found) result }
{
    match put_step(sink, departure.step) {
        Ok(()) => {}
        Err(fail) => return Err(fail),
    }
    match put_told(sink, b"", &reason_told(departure.reason)) {
        Ok(()) => {}
        Err(fail) => return Err(fail),
    }
    put_numbers(sink, departure.told, departure.found)
}

/// Writes the line of a refusal, without its line end.
#[tactic(auto, unfolding(crate::specs::Lines::refusal_line))]
fn put_words<P: Sink>(sink: &mut P, refusal: &Refusal) -> Result<(), SinkFail>
    ensures { Puts (P.told sink.old) (P.told sink.new) (refusal_line refusal.now) result }
{
    match refusal {
        Refusal::Unbuilt(part) => put_told(sink, b"omni: unbuilt: ", &part_told(*part)),
        Refusal::Executable(fault) => put_told(sink, b"omni: executable: ", &elf_told(*fault)),
        Refusal::Debug(fault) => put_debug(sink, *fault),
        Refusal::NoRoom { a, b } => {
            put_told(
                sink,
                b"omni: executable: ",
                &Told::places(b"no room", *a, *b),
            )
        }
        Refusal::Log(fault) => put_told(sink, b"omni: log: ", &log_told(*fault)),
        Refusal::Overlap { a, b } => put_told(
            sink,
            b"omni: log: ",
            &Told::places(b"overlap", *a, *b),
        ),
        Refusal::TooLong { steps } => put_limit(sink, *steps),
        Refusal::LogTooLong { step } => {
            put_told(sink, b"omni: limit: ", &Told::number(b"log at step", *step))
        }
        Refusal::TooManyBytes => put_all(sink, b"omni: limit: more than 67108864 bytes"),
        Refusal::Departs(departure) => put_departure(sink, departure),
    }
}

/// Writes the line of a refusal.
pub fn put_refusal<P: Sink>(sink: &mut P, refusal: &Refusal) -> Result<(), SinkFail>
    ensures { Puts (P.told sink.old) (P.told sink.new) (refusal_line refusal.now ++ 10 ∷ []) result }
{
    match put_words(sink, refusal) {
        Ok(()) => put_all(sink, b"\n"),
        Err(fail) => Err(fail),
    }
}
