//! Memory of some regions, all zeros.

ghost use Rattle.std.specs.Prelude.{◌≡◌, ◌+◌, ◌^◌, ◌<◌, ◌≤◌, false, length, map, replicate, sum_by, All, IfOk};
ghost use Rattle.om_mem.specs.Contents.{all_zeros, overlap_of, span_of};
ghost use Rattle.om_mem.specs.Gives.{Gives};
ghost use Rattle.om_mem.specs.Pages.{page_count};

use crate::map_fault::MapFault;
use crate::memory::Memory;
use crate::pages::PAGE;
use crate::region::{Region, Regions};
use crate::spot::Spot;
use om_base::{NoMemory, Span, overlap};
use std::alloc::Global;

/// The addresses of each region.
fn spans_of(alloc: Global, regions: &[Region]) -> Result<Vec<Span>, NoMemory>
    ensures { IfOk result (λ spans. spans.items ≡ map span_of regions.now) }
{
    let mut spans = Vec::new(alloc);
    for region in regions {
        spans.push(region.span())?;
    }
    Ok(spans)
}

/// How many bytes the regions have.
fn total(regions: &[Region]) -> usize
    requires { sum_by (λ r. r.size) regions.now ≤ 67108864 }
    ensures { result ≡ sum_by (λ r. r.size) regions.now }
{
    let mut bytes = 0;
    for region in regions {
        bytes += region.size as usize;
    }
    bytes
}

/// The regions, once more.
fn copied(alloc: Global, regions: &[Region]) -> Result<Vec<Region>, NoMemory>
    ensures { IfOk result (λ made. made.items ≡ regions.now) }
{
    let mut made = Vec::new(alloc);
    made.extend_from_slice(regions)?;
    Ok(made)
}

/// So many zeros.
fn zero_bytes(alloc: Global, count: usize) -> Result<Vec<u8>, NoMemory>
    ensures { IfOk result (λ made. made.items ≡ replicate count 0) }
{
    let mut made = Vec::new(alloc);
    made.resize(count, 0)?;
    Ok(made)
}

/// Flags of so many pages, none of which was written.
fn clean_pages(alloc: Global, count: usize) -> Result<Vec<bool>, NoMemory>
    ensures { IfOk result (λ made. made.items ≡ replicate count false) }
{
    let mut made = Vec::new(alloc);
    made.resize(count, false)?;
    Ok(made)
}

/// Memory of these regions, all zeros, with no page that counts as written. It takes all memory that
/// reading and writing need.
///
/// Errors: `Overlap` where two of the regions share an address; `NoMemory`.
#[tactic(auto, using(crate::proofs::MapLemmas::mapped))]
pub fn map_regions(alloc: Global, regions: &Regions) -> Result<Memory, MapFault>
    requires few { length regions.now < 2 ^ 32 }
    requires ends { All (λ r. r.low + r.size ≤ 2 ^ 32) regions.now }
    requires small { sum_by (λ r. r.size) regions.now ≤ 67108864 }
    ensures { Gives (overlap_of regions.now)
        (record { contents = all_zeros regions.now; dirty = replicate (page_count regions.now) false }) result }
{
    let listed = regions.as_slice();
    let spans = spans_of(alloc, listed)?;
    if let Some((a, b)) = overlap(spans.as_slice()) {
        return Err(MapFault::Overlap { a, b });
    }
    let size = total(listed);
    let pages = (size + (PAGE - 1)) / PAGE;
    let regions = copied(alloc, listed)?;
    let bytes = zero_bytes(alloc, size)?;
    let dirty = clean_pages(alloc, pages)?;
    Ok(Memory {
        regions,
        bytes,
        dirty,
        near_fetch: Spot::nowhere(),
        near_data: Spot::nowhere(),
    })
}
