//! Reads the files of a request.

ghost use Rattle.std.specs.Prelude.{◌≡◌, [], ◌∷◌, map, string_bytes};
ghost use Rattle.om_command.specs.Reads.{OnlyTakes, ReadsFile, ReadsFiles};

use crate::ending::Ending;
use om_base::{Bytes, Items, MOST_BYTES};
use om_io::{Shelf, ShelfFail, Taken};
use std::alloc::Global;

/// The bytes of the file of that name.
#[tactic(auto, using(crate::proofs::ReadLemmas::took))]
fn read_file<'a, F: Shelf>(alloc: Global, shelf: &mut F, name: &'a str) -> Result<Bytes, Ending<'a>>
    ensures read { ReadsFile (F.told shelf.old) (F.told shelf.new) name.now result }
    ensures takes { OnlyTakes (F.told shelf.old) (F.told shelf.new) (name.now ∷ []) }
{
    match shelf.take(alloc, name, MOST_BYTES) {
        Ok(Taken::Whole(bytes)) => Ok(bytes),
        Ok(Taken::Longer) => Err(Ending::Exceeded(name)),
        Err(ShelfFail::NoMemory) => Err(Ending::NoMemory),
        Err(ShelfFail::Failed) => Err(Ending::Unread(name)),
    }
}

/// The bytes of the files of those names, in their order.
#[tactic(auto, using(crate::proofs::ReadLemmas::takes_none))]
pub fn read_files<'a, F: Shelf>(
    alloc: Global,
    shelf: &mut F,
    names: &'a [String],
) -> Result<Items<Bytes>, Ending<'a>>
    ensures read { ReadsFiles (F.told shelf.old) (F.told shelf.new) (map string_bytes names.now) result }
    ensures takes { OnlyTakes (F.told shelf.old) (F.told shelf.new) (map string_bytes names.now) }
{
    let mut contents = Items::new(alloc);
    for name in names {
        match read_file(alloc, shelf, name.as_str()) {
            Ok(bytes) => contents.push(bytes)?,
            Err(ending) => return Err(ending),
        }
    }
    Ok(contents)
}
