//! Puts and prints what a command comes to.

ghost use Rattle.std.specs.Prelude.{◌≡◌, IsTrue, List};
ghost use Rattle.std.specs.Option.{option_map};
ghost use Rattle.om_command.specs.Delivered.{PutsFile, StaysFaultless, world};
ghost use Rattle.om_command.specs.Files.{File};
ghost use Rattle.om_command.specs.Reads as reads;
ghost use Rattle.om_command.specs.Reads.{effect_by};
ghost use Rattle.om_command.specs.Result.{IsSilent, Leaves};
ghost use Rattle.om_io.specs.Shelf as shelf_told;

use crate::ending::Ending;
use crate::outcome::{Outcome, Put};
use om_io::{Shelf, ShelfFail, Sink, SinkFail, put_all};
use std::alloc::Global;

/// Puts the file, if there is one.
fn put_file<'a, F: Shelf>(
    alloc: Global,
    shelf: &mut F,
    put: &Option<Put<'a>>,
) -> Result<(), Ending<'a>>
    ensures put { PutsFile (option_map reads.put_file put.now) (F.told shelf.old) (F.told shelf.new) result }
    ensures faultless { IsTrue (F.told shelf.old).is_faultless → shelf_told.StaysFaultless (F.told shelf.old) (F.told shelf.new) }
{
    let Some(put) = put else {
        return Ok(());
    };
    match shelf.put(alloc, put.name, put.bytes.bytes()) {
        Ok(()) => Ok(()),
        Err(ShelfFail::NoMemory) => Err(Ending::NoMemory),
        Err(ShelfFail::Failed) => Err(Ending::Unput(put.name)),
    }
}

/// Puts the file of an outcome, if there is one, and then prints the text.
#[tactic(auto, using(crate::proofs::EndsLemmas::half_leaves, crate::proofs::EndsLemmas::printed_meets, crate::proofs::EndsLemmas::cut_leaves, crate::proofs::EndsLemmas::failed_leaves))]
pub fn deliver<'a, F: Shelf, O: Sink>(
    alloc: Global,
    shelf: &mut F,
    out: &mut O,
    outcome: &Outcome<'a>,
) -> Ending<'a>
    ensures leaves { (files : List File) → Leaves (effect_by outcome.now) files
        (world (F.told shelf.old) (O.told out.old)) (world (F.told shelf.new) (O.told out.new)) result }
    ensures silent { IsSilent result → out.new ≡ out.old }
    ensures faultless { StaysFaultless (world (F.told shelf.old) (O.told out.old)) (world (F.told shelf.new) (O.told out.new)) }
{
    if let Err(ending) = put_file(alloc, shelf, &outcome.put) {
        return ending;
    }
    match put_all(out, outcome.text.bytes()) {
        Ok(()) => Ending::Done,
        Err(SinkFail::NoMemory) => Ending::NoMemory,
        Err(SinkFail::Failed) => Ending::Unwritten,
    }
}
