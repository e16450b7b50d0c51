//! The first two segments that share an address.

ghost use Rattle.std.specs.Prelude.{◌≡◌, ◌^◌, ◌<◌, length, None, IfOk, IsTrue};
ghost use Rattle.om_base.specs.Spans.{overlap_of};
ghost use Rattle.om_elf.specs.Disjoint.{AreDisjoint};

use om_base::{NoMemory, Span, overlap};
use std::alloc::Global;

/// Whether each span begins at or after the ends of all before it.
fn follow_each_other(spans: &[Span]) -> bool
    ensures { IsTrue result → AreDisjoint spans.now }
{
    let mut end = 0;
    for span in spans {
        if span.lo < end {
            return false;
        }
        end = end.max(span.hi);
    }
    true
}

/// Whether the spans are apart, as far as their order by the places where they begin shows.
fn are_apart(alloc: Global, spans: &[Span]) -> Result<bool, NoMemory>
    ensures { IfOk result (λ apart. IsTrue apart → overlap_of spans.now ≡ None) }
{
    let mut sorted = Vec::from_slice(alloc, spans)?;
    sorted.sort_unstable_by_key(|span| (span.lo, span.hi));
    Ok(follow_each_other(sorted.as_slice()))
}

/// The least pair of places whose spans share a number, if any do.
///
/// Where none do this takes about the time of a sort, else time in the square of their number.
pub fn first_overlap(alloc: Global, spans: &[Span]) -> Result<Option<(u32, u32)>, NoMemory>
    requires { length spans.now < 2 ^ 32 }
    ensures { IfOk result (λ pair. pair ≡ overlap_of spans.now) }
{
    if are_apart(alloc, spans)? {
        return Ok(None);
    }
    Ok(overlap(spans))
}
