//! Where the bytes of an address lie.

ghost use Rattle.std.specs.Prelude.{◌≡◌, ◌+◌, ◌-◌, ◌^◌, ◌≤◌, ◌<◌, nat_le, ◌&&◌, min, sum_by, IfSome, MatchOption, None, List, true};
ghost use Rattle.om_mem.specs.declared.region.Region.{Region};
ghost use Rattle.om_mem.specs.Laid.{AreMapped, IsSpot, place_of};

use crate::region::Region;

/// Addresses of one region, with the place of their bytes among the bytes of all regions.
#[derive(Clone, Copy, Debug)]
pub(crate) struct Spot {
    /// The least address.
    pub(crate) low: u32,
    /// How many addresses there are; with none the rest says nothing.
    pub(crate) size: u32,
    /// The place of the first byte.
    pub(crate) at: usize,
    /// The region's rights.
    pub(crate) rights: u8,
}

impl Spot {
    /// No addresses.
    pub(crate) fn nowhere() -> Spot
        ensures { (regions : List Region) → IsSpot regions result }
    {
        Spot {
            low: 0,
            size: 0,
            at: 0,
            rights: 0,
        }
    }

    /// Whether so many addresses from one on are all among these.
    pub(crate) fn reaches(&self, address: u32, count: u8) -> bool
        ensures { result ≡ (nat_le self.now.low address && nat_le (address + count) (self.now.low + self.now.size)) }
    {
        self.low <= address
            && u64::from(address - self.low) + u64::from(count) <= u64::from(self.size)
    }

    /// How many of so many addresses from one of these on come before the end of these.
    pub(crate) fn count_from(&self, address: u32, count: usize) -> usize
        requires low { self.now.low ≤ address }
        requires high { address < self.now.low + self.now.size }
        ensures { result ≡ min count (self.now.low + self.now.size - address) }
    {
        count.min((self.size - (address - self.low)) as usize)
    }
}

/// The region that holds `address`, with the place of its bytes; none where no region holds it.
pub(crate) fn find_spot(regions: &[Region], address: u32) -> Option<Spot>
    requires { AreMapped regions.now }
    ensures spot { MatchOption result (place_of regions.now address ≡ None) (λ s. IsSpot regions.now s) }
    ensures low { IfSome result (λ s. s.low ≤ address) }
    ensures high { IfSome result (λ s. address < s.low + s.size) }
{
    let mut before = 0;
    for region in regions {
        if region.holds(address) {
            return Some(Spot {
                low: region.low,
                size: region.size,
                at: before,
                rights: region.rights,
            });
        }
        before += region.size as usize;
    }
    None
}

/// Makes `near` the spot of the region that has so many addresses from one on, and tells whether one has
/// them all.
pub(crate) fn find_near(regions: &[Region], near: &mut Spot, address: u32, count: u8) -> bool
    requires mapped { AreMapped regions.now }
    requires near { IsSpot regions.now near.old }
    ensures near { IsSpot regions.now near.new }
    ensures low { result ≡ true → near.new.low ≤ address }
    ensures high { result ≡ true → address + count ≤ near.new.low + near.new.size }
{
    if near.reaches(address, count) {
        return true;
    }
    let Some(spot) = find_spot(regions, address) else {
        return false;
    };
    if !spot.reaches(address, count) {
        return false;
    }
    *near = spot;
    true
}
