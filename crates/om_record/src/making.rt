//! Makes the log of a run.

ghost use Rattle.std.specs.Prelude.{◌≡◌, IfOk};
ghost use Rattle.om_elf.specs.Image.{AreLoadable};
ghost use Rattle.om_log.specs.Grammar.{IsLog};
ghost use Rattle.om_log.specs.Regions.{HasRoom};
ghost use Rattle.om_mem.specs.Contents.{overlap_of};
ghost use Rattle.om_record.specs.Recording.{Makes, log_of, recorded_in, recording, start_of};
ghost use Rattle.om_step.specs.First.{regions_of};

use crate::process::{Pause, Process};
use crate::recorded::{RecordFault, Recorded};
use crate::regions::{find_heap_place, find_start};
use crate::telling::{end_by_stop, finish, known_end, next_mark, push_mark};
use om_elf::Elf;
use om_log::{LogWriter, Start};
use om_step::{Machine, MapFault};
use std::alloc::Global;

/// The log of the run of `elf` with `input`, at most `limit` steps long.
///
/// Errors: `NoRoom` where stack and heap have no place beside the segments; `TooLong` where the log would
/// have more than 67,108,864 bytes; `NoMemory`.
#[tactic(auto, unfolding(crate::specs::Recording::recording))]
pub fn make_log(
    alloc: Global,
    elf: &Elf<'_>,
    input: &[u8],
    limit: u64,
) -> Result<Recorded, RecordFault>
    requires { AreLoadable elf.now.segments }
    ensures made { Makes (recording elf.now input.now limit) result }
    ensures log { IfOk result (λ recorded. IsLog recorded.bytes (log_of elf.now input.now limit)) }
{
    let segments = elf.segments.as_slice();
    let Some(start) = find_start(segments) else {
        let place = find_heap_place(segments);
        return Err(RecordFault::NoRoom { a: place, b: place });
    };
    record_run(alloc, elf, input, start, limit)
}

/// The log of the run with these regions: stretch by stretch, up to a mark, a call, a stop or the limit.
///
/// Errors: `NoRoom` where two regions share an address; `TooLong`, `NoMemory`.
fn record_run(
    alloc: Global,
    elf: &Elf<'_>,
    input: &[u8],
    start: Start,
    limit: u64,
) -> Result<Recorded, RecordFault>
    requires loadable { AreLoadable elf.now.segments }
    requires start { start ≡ start_of elf.now.segments }
    requires room { HasRoom start }
    ensures made { Makes (recorded_in (overlap_of (regions_of elf.now.segments start)) elf.now input.now limit) result }
    ensures log { IfOk result (λ recorded. IsLog recorded.bytes (log_of elf.now input.now limit)) }
{
    let machine = match Machine::load(alloc, elf, start) {
        Ok(machine) => machine,
        Err(MapFault::Overlap { a, b }) => return Err(RecordFault::NoRoom { a, b }),
        Err(MapFault::NoMemory) => return Err(RecordFault::NoMemory),
    };
    let mut process = Process::new(machine, input, start);
    let mut writer = LogWriter::new(alloc, start);
    let mut exit = None;
    loop {
        let step = process.meter.value();
        push_mark(&mut writer, step, limit, &process.machine)?;
        if let Some(end) = known_end(exit, step, limit) {
            return finish(writer, end);
        }
        match process.walk(next_mark(step, limit)) {
            Pause::Reached => {}
            Pause::AtCall => exit = process.serve(start, &mut writer)?,
            Pause::AtStop(cause) => {
                return finish(writer, end_by_stop(process.meter.value(), cause));
            }
        }
    }
}
