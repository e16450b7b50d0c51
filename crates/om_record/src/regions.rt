//! The regions of a recorded run beside the segments: where its stack and its heap lie.

ghost use Rattle.std.specs.Prelude.{◌≡◌, ◌+◌, ◌^◌, ◌<◌, ◌≤◌, IfNone, IfSome};
ghost use Rattle.om_elf.specs.Image.{AreLoadable};
ghost use Rattle.om_log.specs.Regions.{HasRoom};
ghost use Rattle.om_record.specs.Recording.{greatest_end, heap_place, nonempty, start_of};

use om_base::PAGE_SIZE;
use om_elf::Segment;
use om_log::Start;

/// A stack of 1 MiB below 2 GiB.
const STACK_LOW: u32 = 0x7ff0_0000;

const STACK_SIZE: u32 = 0x0010_0000;

/// A heap of 1 MiB.
const HEAP_SIZE: u32 = 0x0010_0000;

/// The size of a page, in bytes.
const PAGE: u64 = PAGE_SIZE as u64;

/// How many addresses there are.
const ADDRESSES: u64 = 1 << 32;

/// The greatest end of a segment that isn't empty, or 0.
fn end_of_segments(segments: &[Segment<'_>]) -> u64
    requires { AreLoadable segments.now }
    ensures end { result ≡ greatest_end (nonempty segments.now) }
    ensures within { result ≤ 2 ^ 32 }
{
    let mut end = 0u64;
    for segment in segments {
        if segment.memsz > 0 {
            end = end.max(u64::from(segment.vaddr) + u64::from(segment.memsz));
        }
    }
    end
}

/// Stack and heap; none where the heap passes the last address.
#[tactic(auto, unfolding(crate::specs::Recording::start_of))]
pub(crate) fn find_start(segments: &[Segment<'_>]) -> Option<Start>
    requires { AreLoadable segments.now }
    ensures found { IfSome result (λ start. start ≡ start_of segments.now) }
    ensures room { IfSome result (λ start. HasRoom start) }
    ensures none { IfNone result (2 ^ 32 < (start_of segments.now).heap_low + (start_of segments.now).heap_size) }
{
    let heap_low = (end_of_segments(segments) + (PAGE - 1)) / PAGE * PAGE;
    if heap_low + u64::from(HEAP_SIZE) > ADDRESSES {
        return None;
    }
    Some(Start {
        stack_low: STACK_LOW,
        stack_size: STACK_SIZE,
        heap_low: heap_low as u32,
        heap_size: HEAP_SIZE,
    })
}

/// The place of the heap in the list of regions: behind the segments that aren't empty, and the stack.
pub(crate) fn find_heap_place(segments: &[Segment<'_>]) -> u32
    requires { AreLoadable segments.now }
    ensures { result ≡ heap_place segments.now }
{
    let mut place = 1;
    for segment in segments {
        if segment.memsz > 0 {
            place += 1;
        }
    }
    place
}
