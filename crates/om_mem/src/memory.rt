//! The memory: regions, their bytes, and which pages were written.

use crate::region::Region;
use crate::spot::Spot;
use std::marker::Model;

/// Bytes at the addresses of some regions.
#[derive(Debug, Drop)]
pub struct Memory {
    pub(crate) regions: Vec<Region>,
    /// The bytes of all regions, end to end.
    pub(crate) bytes: Vec<u8>,
    /// For each page of the bytes, whether it was written since the last clearing.
    pub(crate) dirty: Vec<bool>,
    /// The region of the last fetch.
    pub(crate) near_fetch: Spot,
    /// The region of the last load or store.
    pub(crate) near_data: Spot,
}

// Clauses see the regions, a byte for each of their addresses, and the pages that were written.
impl Model for Memory {
    ghost use Rattle.om_mem.specs.Pages.{Held, held_code};
    ghost use Rattle.om_mem.specs.Laid.{IsHeld, laid};

    ghost Value = { Held };

    ghost coded = { held_code };

    ghost view = { λ it. record { contents = laid it.regions.items it.bytes.items; dirty = it.dirty.items } };

    ghost invariant = { λ it. IsHeld it.regions.items it.bytes.items it.dirty.items it.near_fetch it.near_data };
}
