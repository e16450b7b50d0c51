//! Why regions can't be memory.

use om_base::NoMemory;

/// Why there is no memory with such regions.
#[derive(Clone, Copy, Debug, PartialEq, Eq)]
pub enum MapFault {
    /// No memory was left on the host.
    NoMemory,
    /// The regions at these places of the list share an address; the least such pair.
    Overlap {
        /// The lesser place.
        a: u32,
        /// The greater place.
        b: u32,
    },
}

impl From<NoMemory> for MapFault {
    ghost use Rattle.std.specs.Prelude.{◌≡◌};
    ghost use Rattle.om_mem.specs.declared.map_fault.MapFault.TheVariants.{NoMemory};

    ghost from_gives = { λ _ fault. fault ≡ NoMemory };

    fn from(_error: NoMemory) -> MapFault {
        MapFault::NoMemory
    }
}
