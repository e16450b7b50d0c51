//! The laws of memory: which pair of regions an overlap is, that pages are all there is of memory, and what
//! a page that doesn't count as written holds. They have no code.

ghost use Rattle.std.specs.Prelude.{◌≡◌, ◌<◌, ◌++◌, ◌∷◌, [], ℕ, false, map, List, Some, None};
ghost use Rattle.om_mem.specs.Contents.{Contents, Filled, IsWhole, after_write, all_zeros, contents_of, overlap_of, padded};
ghost use Rattle.om_mem.specs.Laws.{AreFit, AreKept, HaveNoOverlap, IsLeastOverlap, last_of, part_filled, regions_of};
ghost use Rattle.om_mem.specs.Pages.{Held, IsKept, cleared, flag, page_count, page_in};
ghost use Rattle.om_mem.specs.declared.region.Region.{Region};

/// What is told to overlap is the least pair of places whose regions hold an address in common; where
/// nothing is told, none do.
#[tactic(auto, using(crate::proofs::LawLemmas::overlaps))]
pub fn least_overlap()
    ensures told { (regions : List Region) (a b : ℕ) → overlap_of regions ≡ Some (a, b) → IsLeastOverlap regions a b }
    ensures none { (regions : List Region) → overlap_of regions ≡ None → HaveNoOverlap regions }
{}

/// Memory with the same regions and the same pages is the same.
#[tactic(auto, using(crate::proofs::LawLemmas::same_pages))]
pub fn same_contents()
    ensures { (a b : Contents) → IsWhole a → IsWhole b → a.regions ≡ b.regions
        → ((page : ℕ) → page < page_count a.regions → page_in a page ≡ page_in b page) → a ≡ b }
{}

/// What is kept twice is kept. So however often memory is written after a clearing, a page that doesn't
/// count as written is as it was at the clearing.
#[tactic(auto, using(crate::proofs::LawLemmas::kept))]
pub fn kept_chain()
    ensures same { (a : Held) → IsKept a a }
    ensures joined { (a b c : Held) → IsKept a b → IsKept b c → IsKept a c }
    ensures page { (held : Held) (later : List Held) (page : ℕ) → AreKept (cleared held) later
        → flag (last_of (cleared held) later).dirty page ≡ false
        → page_in (last_of (cleared held) later).contents page ≡ page_in held.contents page }
{}

/// Memory of zeros becomes, by writing each region's first bytes from its least address on, one region after
/// another, memory of these bytes with zeros behind them.
#[tactic(auto, using(crate::proofs::FilledLemmas::filled))]
pub fn filling()
    ensures none { (fs : List Filled) → all_zeros (regions_of fs) ≡ part_filled [] fs }
    ensures more { (done : List Filled) (f : Filled) (rest : List Filled) → overlap_of (regions_of (done ++ f ∷ rest)) ≡ None
        → AreFit (done ++ f ∷ rest)
        → after_write (part_filled done (f ∷ rest)) f.region.low f.bytes ≡ part_filled (done ++ f ∷ []) rest }
    ensures all { (fs : List Filled) → part_filled fs [] ≡ contents_of (map padded fs) }
{}
