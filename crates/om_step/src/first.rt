//! What is in memory when a run begins.

ghost use Rattle.std.specs.Prelude.{◌≡◌, ◌≤◌, ◌<◌, false, length, replicate, IfOk};
ghost use Rattle.om_elf.specs.Image.{AreLoadable};
ghost use Rattle.om_log.specs.Regions.{HasRoom};
ghost use Rattle.om_mem.specs.Contents.{all_zeros, contents_of, overlap_of};
ghost use Rattle.om_mem.specs.Gives.{Gives};
ghost use Rattle.om_mem.specs.Pages.{page_count};
ghost use Rattle.om_step.specs.First.{filled_of, heap_of, regions_of, segment_of, stack_of};

use om_base::{Items, NoMemory};
use om_elf::Segment;
use om_log::Start;
use om_mem::{MapFault, Memory, PF_R, PF_W, Region, Regions, map_regions};
use std::alloc::Global;

/// The rights of stack and heap: to write and to read.
const STACK_AND_HEAP: u8 = PF_R + PF_W;

/// The region of a segment.
fn region_of(segment: &Segment<'_>) -> Region
    ensures { result ≡ (segment_of segment.now).region }
{
    Region {
        low: segment.vaddr,
        size: segment.memsz,
        rights: segment.rights,
    }
}

/// The stack's region.
fn stack_region(start: &Start) -> Region
    ensures { result ≡ (stack_of start.now).region }
{
    Region {
        low: start.stack_low,
        size: start.stack_size,
        rights: STACK_AND_HEAP,
    }
}

/// The heap's region.
fn heap_region(start: &Start) -> Region
    ensures { result ≡ (heap_of start.now).region }
{
    Region {
        low: start.heap_low,
        size: start.heap_size,
        rights: STACK_AND_HEAP,
    }
}

/// The regions of a run: the segments that aren't empty, the stack, the heap.
#[tactic(auto, unfolding(crate::specs::First::filled_of))]
fn all_regions(alloc: Global, segments: &[Segment<'_>], start: &Start) -> Result<Regions, NoMemory>
    ensures { IfOk result (λ regions. regions ≡ regions_of segments.now start.now) }
{
    let mut regions = Items::new(alloc);
    for segment in segments {
        if segment.memsz > 0 {
            regions.push(region_of(segment))?;
        }
    }
    regions.push(stack_region(start))?;
    regions.push(heap_region(start))?;
    Ok(regions)
}

/// Fills the segments' regions with the bytes that the file gives.
fn fill_segments(memory: &mut Memory, segments: &[Segment<'_>], start: &Start)
    requires segments { AreLoadable segments.now }
    requires start { HasRoom start.now }
    requires apart { overlap_of (regions_of segments.now start.now) ≡ None }
    requires zeros { memory.old.contents ≡ all_zeros (regions_of segments.now start.now) }
    ensures { memory.new.contents ≡ contents_of (filled_of segments.now start.now) }
{
    let mut region = 0;
    for segment in segments {
        if segment.memsz > 0 {
            memory.fill(region, segment.bytes);
            region += 1;
        }
    }
}

/// The memory in which a run begins, with no page that counts as written.
///
/// Errors: `Overlap` where two of the run's regions share an address; `NoMemory`.
#[tactic(auto, using(crate::proofs::FirstLemmas::first_memory))]
pub fn first_memory(
    alloc: Global,
    segments: &[Segment<'_>],
    start: &Start,
) -> Result<Memory, MapFault>
    requires segments { AreLoadable segments.now }
    requires start { HasRoom start.now }
    ensures { Gives (overlap_of (regions_of segments.now start.now))
        (record {
          contents = contents_of (filled_of segments.now start.now);
          dirty = replicate (page_count (regions_of segments.now start.now)) false;
        }) result }
{
    let regions = all_regions(alloc, segments, start)?;
    let mut memory = map_regions(alloc, &regions)?;
    fill_segments(&mut memory, segments, start);
    memory.clear_dirty();
    Ok(memory)
}
