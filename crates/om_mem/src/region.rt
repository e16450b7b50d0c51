//! A region of memory.

ghost use Rattle.std.specs.Prelude.{◌≡◌, ◌+◌, ◌^◌, ◌≤◌};
ghost use Rattle.om_mem.specs.Contents.{holds, span_of};

use om_base::{Items, Span};

/// Addresses from `low` on, with the rights of each of them.
#[derive(Clone, Copy, Debug, PartialEq, Eq)]
pub struct Region {
    /// The least address.
    pub low: u32,
    /// How many addresses it has; none of them is above 2^32 - 1.
    pub size: u32,
    /// `PF_X`, `PF_W` and `PF_R`, added up.
    pub rights: u8,
}

impl Region {
    /// Whether it holds the address.
    pub fn holds(&self, address: u32) -> bool
        requires { self.now.low + self.now.size ≤ 2 ^ 32 }
        ensures { result ≡ holds self.now address }
    {
        self.low <= address && address - self.low < self.size
    }

    /// Its addresses.
    pub(crate) fn span(&self) -> Span
        ensures { result ≡ span_of self.now }
    {
        Span {
            lo: u64::from(self.low),
            hi: u64::from(self.low) + u64::from(self.size),
        }
    }
}

/// Regions in the order in which their bytes lie in pages.
pub type Regions = Items<Region>;
