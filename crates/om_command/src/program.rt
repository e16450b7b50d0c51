//! All that the program does, over a shelf and two sinks.

ghost use Rattle.std.specs.Prelude.{◌≡◌, ◌⊎◌, IsTrue, Some, map, string_bytes};
ghost use Rattle.om_command.specs.Delivered.{NoneMoved, world};
ghost use Rattle.om_command.specs.Lines.{line_of, status_of};
ghost use Rattle.om_command.specs.Prepared.{Prepares};
ghost use Rattle.om_command.specs.Reads.{OnlyTakes};
ghost use Rattle.om_command.specs.Requests.{names_of, request_of};
ghost use Rattle.om_command.specs.Result.{Ends, IsFaultless, IsFresh, IsSilent, NoneRose};
ghost use Rattle.om_command.specs.Words.{asked_by};
ghost use Rattle.om_command.specs.declared.ending.Ending.{Ending};
ghost use Rattle.om_command.specs.declared.ending.Ending.TheVariants.{Done, NoMemory};
ghost use Rattle.om_io.specs.Writing.{Tells};

use crate::delivery::deliver;
use crate::ending::Ending;
use crate::laws::one_meaning;
use crate::outcome::{Outcome, outcome_of};
use crate::reading::read_files;
use crate::refusal::{Part, Refusal};
use crate::words::{Request, read_words};
use om_io::{Shelf, Sink};
use std::alloc::Global;

/// What a request comes to, before anything is put or printed.
fn prepare<'a, F: Shelf>(
    alloc: Global,
    shelf: &mut F,
    request: &Request<'a>,
) -> Result<Outcome<'a>, Ending<'a>>
    ensures prepares { Prepares (asked_by request.now) (F.told shelf.old) (F.told shelf.new) result }
    ensures takes { OnlyTakes (F.told shelf.old) (F.told shelf.new) (asked_by request.now).files }
{
    one_meaning();
    match read_files(alloc, shelf, request.files) {
        Ok(contents) => outcome_of(alloc, &request.command, contents.as_slice()),
        Err(ending) => Err(ending),
    }
}

/// Does what is asked for, but for the line on standard error.
fn serve<'a, F: Shelf, O: Sink>(
    alloc: Global,
    shelf: &mut F,
    out: &mut O,
    request: &Request<'a>,
) -> Ending<'a>
    ensures ends { Ends (Some (asked_by request.now))
        (world (F.told shelf.old) (O.told out.old)) (world (F.told shelf.new) (O.told out.new)) result }
    ensures silent { IsSilent result → out.new ≡ out.old }
    ensures faultless { IsFaultless (asked_by request.now).files (world (F.told shelf.old) (O.told out.old))
        → NoneMoved (world (F.told shelf.old) (O.told out.old)) (world (F.told shelf.new) (O.told out.new)) }
{
    match prepare(alloc, shelf, request) {
        Ok(outcome) => deliver(alloc, shelf, out, &outcome),
        Err(ending) => ending,
    }
}

/// Does what the words ask for, but for the line on standard error.
#[tactic(auto, using(crate::proofs::EndsLemmas::unbuilt_ends))]
fn run<'a, F: Shelf, O: Sink>(
    alloc: Global,
    words: &'a [String],
    shelf: &mut F,
    out: &mut O,
) -> Ending<'a>
    ensures ends { Ends (request_of (map string_bytes words.now))
        (world (F.told shelf.old) (O.told out.old)) (world (F.told shelf.new) (O.told out.new)) result }
    ensures silent { IsSilent result → out.new ≡ out.old }
    ensures faultless { IsFaultless (names_of (request_of (map string_bytes words.now))) (world (F.told shelf.old) (O.told out.old))
        → NoneMoved (world (F.told shelf.old) (O.told out.old)) (world (F.told shelf.new) (O.told out.new)) }
{
    match read_words(words) {
        Some(request) => serve(alloc, shelf, out, &request),
        None => Ending::Refused(Refusal::Unbuilt(Part::Words)),
    }
}

/// All that `omni` does with the words after its own name: it reads files from `shelf`, puts the log of a
/// recorded run there, prints to `out`, tells a refusal in one line on `err`, and answers the exit status.
#[tactic(auto, using(crate::proofs::EndsLemmas::none_rose))]
pub fn omni<F: Shelf, O: Sink, P: Sink>(
    alloc: Global,
    words: &[String],
    shelf: &mut F,
    out: &mut O,
    err: &mut P,
) -> u8
    // The status, what was printed, what the shelf holds and what was told are those of one end of what the words mean.
    ensures ends { (ending : Ending) × (result ≡ status_of ending)
        × Ends (request_of (map string_bytes words.now))
        (world (F.told shelf.old) (O.told out.old)) (world (F.told shelf.new) (O.told out.new)) ending
        × Tells (P.told err.old) (P.told err.new) (line_of ending)
        × (IsSilent ending → out.new ≡ out.old)
        × (ending ≡ Done → err.new ≡ err.old) }

    // Over a shelf and an output that are known to be faultless and have not failed, no count of their faults rises.
    ensures faultless { IsFresh (world (F.told shelf.old) (O.told out.old))
        → IsFaultless (names_of (request_of (map string_bytes words.now))) (world (F.told shelf.old) (O.told out.old))
        → NoneRose (world (F.told shelf.old) (O.told out.old)) (world (F.told shelf.new) (O.told out.new)) }
    ensures told { IsTrue (P.told err.old).is_faultless → (P.told err.new).faults ≡ (P.told err.old).faults }
{
    let ending = run(alloc, words, shelf, out);
    ending.tell(err);
    ending.status()
}

/// What `omni` does where memory is wanting for its words: it tells so in one line on `err`, and answers
/// the exit status.
pub fn out_of_memory<P: Sink>(err: &mut P) -> u8
    ensures status { result ≡ status_of NoMemory }
    ensures line { Tells (P.told err.old) (P.told err.new) (line_of NoMemory) }
{
    Ending::NoMemory.tell(err);
    Ending::NoMemory.status()
}
