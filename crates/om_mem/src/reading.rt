//! Reading from memory.

ghost use Rattle.std.specs.Prelude.{◌≡◌, ◌+◌, ◌-◌, ◌*◌, ◌^◌, ◌≤◌, ◌<◌, ◌⊎◌, length, take, drop, sum_by, is_none, IfSome, None};
ghost use Rattle.std.specs.List.{list_all};
ghost use Rattle.std.specs.FinMap as fin;
ghost use Rattle.om_base.specs.Numbers.{le};
ghost use Rattle.om_mem.specs.Contents.{may_at, loaded, fetched, addresses_from, are_mapped, outside};
ghost use Rattle.om_mem.specs.Laid.{AreMapped, IsSpot, laid, place_of, refusing};

use crate::memory::Memory;
use crate::region::Region;
use crate::rights::PF_X;
use crate::spot::{Spot, find_near, find_spot};
use crate::writing::first_outside;

/// The byte at `address`, if a region holds it.
fn byte_at(regions: &[Region], bytes: &[u8], address: u32) -> Option<u8>
    requires mapped { AreMapped regions.now }
    requires whole { length bytes.now ≡ sum_by (λ r. r.size) regions.now }
    ensures { result ≡ fin.get (laid regions.now bytes.now).bytes address }
{
    let Some(spot) = find_spot(regions, address) else {
        return None;
    };
    Some(bytes[spot.at + (address - spot.low) as usize])
}

/// Whether a region holds `address` and gives each of the rights.
pub(crate) fn may_be(regions: &[Region], address: u32, rights: u8) -> bool
    requires mapped { AreMapped regions.now }
    ensures { result ≡ may_at regions.now address rights }
{
    let Some(spot) = find_spot(regions, address) else {
        return false;
    };
    spot.rights & rights == rights
}

/// The first of so many addresses from one on that isn't in a region with each of the rights. Each region
/// is looked up once.
pub(crate) fn first_without(
    regions: &[Region],
    address: u32,
    count: usize,
    rights: u8,
) -> Option<u32>
    requires { AreMapped regions.now }
    ensures { result ≡ refusing regions.now address count rights }
{
    let mut at = address;
    let mut left = count;
    while left > 0 {
        let Some(spot) = find_spot(regions, at) else {
            return Some(at);
        };
        if spot.rights & rights != rights {
            return Some(at);
        }
        let piece = spot.count_from(at, left);
        at = at.wrapping_add(piece as u32);
        left -= piece;
    }
    None
}

/// Whether each of so many addresses from one on is in a region with the rights.
fn may_all(regions: &[Region], address: u32, count: usize, rights: u8) -> bool
    requires mapped { AreMapped regions.now }
    ensures { result ≡ list_all (λ a. may_at regions.now a rights) (addresses_from address count) }
{
    first_without(regions, address, count, rights).is_none()
}

/// The number of so many bytes from `address` on, looked up one by one.
#[cold]
fn number_across(regions: &[Region], bytes: &[u8], address: u32, count: u8) -> Option<u32>
    requires mapped { AreMapped regions.now }
    requires whole { length bytes.now ≡ sum_by (λ r. r.size) regions.now }
    requires count { count ≤ 4 }
    ensures value { result ≡ loaded (laid regions.now bytes.now) address count }
    ensures small { IfSome result (λ value. value < 2 ^ (8 * count)) }
{
    if count == 0 {
        return Some(0);
    }
    let Some(first) = byte_at(regions, bytes, address) else {
        return None;
    };
    let Some(more) = number_across(regions, bytes, address.wrapping_add(1), count - 1) else {
        return None;
    };
    Some(u32::from(first) + 256 * more)
}

/// The number of 1, 2 or 4 bytes from a place on.
fn number_from(bytes: &[u8], at: usize, count: u8) -> u32
    requires count { (count ≡ 1) ⊎ (count ≡ 2) ⊎ (count ≡ 4) }
    requires fits { at + count ≤ length bytes.now }
    ensures { result ≡ le (take count (drop at bytes.now)) }
{
    if count == 4 {
        u32::from_le_bytes([bytes[at], bytes[at + 1], bytes[at + 2], bytes[at + 3]])
    } else if count == 2 {
        u32::from(u16::from_le_bytes([bytes[at], bytes[at + 1]]))
    } else {
        u32::from(bytes[at])
    }
}

/// The number of 1, 2 or 4 bytes from `address` on, which are all in the region of `near`.
fn number_near(
    _regions: &[Region],
    bytes: &[u8],
    near: &Spot,
    address: u32,
    count: u8,
) -> Option<u32>
    requires whole { length bytes.now ≡ sum_by (λ r. r.size) _regions.now }
    requires near { IsSpot _regions.now near.now }
    requires count { (count ≡ 1) ⊎ (count ≡ 2) ⊎ (count ≡ 4) }
    requires low { near.now.low ≤ address }
    requires high { address + count ≤ near.now.low + near.now.size }
    ensures { result ≡ loaded (laid _regions.now bytes.now) address count }
{
    Some(number_from(bytes, near.at + (address - near.low) as usize, count))
}

/// The number of 1, 2 or 4 bytes from `address` on.
fn number_in(
    regions: &[Region],
    bytes: &[u8],
    near: &mut Spot,
    address: u32,
    count: u8,
) -> Option<u32>
    requires mapped { AreMapped regions.now }
    requires whole { length bytes.now ≡ sum_by (λ r. r.size) regions.now }
    requires near { IsSpot regions.now near.old }
    requires count { (count ≡ 1) ⊎ (count ≡ 2) ⊎ (count ≡ 4) }
    ensures value { result ≡ loaded (laid regions.now bytes.now) address count }
    ensures near { IsSpot regions.now near.new }
{
    if !find_near(regions, near, address, count) {
        return number_across(regions, bytes, address, count);
    }
    number_near(regions, bytes, near, address, count)
}

/// The word at `address`, looked up byte by byte, if each of its bytes may be fetched.
#[cold]
fn word_across(regions: &[Region], bytes: &[u8], address: u32) -> Option<u32>
    requires mapped { AreMapped regions.now }
    requires whole { length bytes.now ≡ sum_by (λ r. r.size) regions.now }
    ensures { result ≡ fetched (laid regions.now bytes.now) address }
{
    if !may_all(regions, address, 4, PF_X) {
        return None;
    }
    number_across(regions, bytes, address, 4)
}

/// The word at `address`, if each of its bytes may be fetched, which are all in the region of `near`.
fn word_near(_regions: &[Region], bytes: &[u8], near: &Spot, address: u32) -> Option<u32>
    requires whole { length bytes.now ≡ sum_by (λ r. r.size) _regions.now }
    requires near { IsSpot _regions.now near.now }
    requires low { near.now.low ≤ address }
    requires high { address + 4 ≤ near.now.low + near.now.size }
    ensures { result ≡ fetched (laid _regions.now bytes.now) address }
{
    if near.rights & PF_X != PF_X {
        return None;
    }
    Some(number_from(bytes, near.at + (address - near.low) as usize, 4))
}

/// The word at `address`, if each of its bytes may be fetched.
fn word_in(regions: &[Region], bytes: &[u8], near: &mut Spot, address: u32) -> Option<u32>
    requires mapped { AreMapped regions.now }
    requires whole { length bytes.now ≡ sum_by (λ r. r.size) regions.now }
    requires near { IsSpot regions.now near.old }
    ensures value { result ≡ fetched (laid regions.now bytes.now) address }
    ensures near { IsSpot regions.now near.new }
{
    if !find_near(regions, near, address, 4) {
        return word_across(regions, bytes, address);
    }
    word_near(regions, bytes, near, address)
}

/// Whether each of so many bytes from `address` on is in a region with the right to write.
fn are_writable(regions: &[Region], address: u32, count: u8) -> bool
    requires { AreMapped regions.now }
    ensures { result ≡ is_none (outside regions.now address count) }
{
    first_outside(regions, address, usize::from(count)).is_none()
}

impl Memory {
    /// The byte at `address`; none where no region holds it.
    pub fn read_byte(&self, address: u32) -> Option<u8>
        ensures { result ≡ fin.get self.now.contents.bytes address }
    {
        byte_at(self.regions.as_slice(), self.bytes.as_slice(), address)
    }

    /// Whether a region holds `address` and gives each of the rights: `PF_X`, `PF_W` and `PF_R`,
    /// added up.
    #[tactic(auto, unfolding(crate::specs::Laid::laid))]
    pub fn may(&self, address: u32, rights: u8) -> bool
        ensures { result ≡ may_at self.now.contents.regions address rights }
    {
        may_be(self.regions.as_slice(), address, rights)
    }

    /// Whether each of so many bytes from `address` on is in a region with the right to write.
    pub fn may_write(&self, address: u32, count: u8) -> bool
        ensures { result ≡ is_none (outside self.now.contents.regions address count) }
    {
        are_writable(self.regions.as_slice(), address, count)
    }

    /// Whether a region holds each of `count` addresses from `address` on, whatever its rights.
    pub fn is_mapped(&self, address: u32, count: usize) -> bool
        ensures { result ≡ are_mapped self.now.contents.regions address count }
    {
        may_all(self.regions.as_slice(), address, count, 0)
    }

    /// The little-endian number of 1, 2 or 4 bytes from `address` on; none where a byte of it isn't in a region.
    pub fn number(&self, address: u32, count: u8) -> Option<u32>
        requires { (count ≡ 1) ⊎ (count ≡ 2) ⊎ (count ≡ 4) }
        ensures { result ≡ loaded self.now.contents address count }
    {
        let mut near = self.near_data;
        number_in(
            self.regions.as_slice(),
            self.bytes.as_slice(),
            &mut near,
            address,
            count,
        )
    }

    /// The same as [`Memory::number`]. It remembers the region, for the next load or store.
    pub fn load(&mut self, address: u32, count: u8) -> Option<u32>
        requires { (count ≡ 1) ⊎ (count ≡ 2) ⊎ (count ≡ 4) }
        ensures value { result ≡ loaded self.old.contents address count }
        ensures same { self.new ≡ self.old }
    {
        if !self.near_data.reaches(address, count) {
            return self.load_far(address, count);
        }
        number_near(
            self.regions.as_slice(),
            self.bytes.as_slice(),
            &self.near_data,
            address,
            count,
        )
    }

    /// The same as [`Memory::load`], out of line: the common case then keeps no list of regions at hand.
    #[cold]
    #[inline(never)]
    fn load_far(&mut self, address: u32, count: u8) -> Option<u32>
        requires { (count ≡ 1) ⊎ (count ≡ 2) ⊎ (count ≡ 4) }
        ensures value { result ≡ loaded self.old.contents address count }
        ensures same { self.new ≡ self.old }
    {
        number_in(
            self.regions.as_slice(),
            self.bytes.as_slice(),
            &mut self.near_data,
            address,
            count,
        )
    }

    /// The little-endian word at `address`, if each of its bytes may be fetched. It remembers the region,
    /// for the next fetch.
    pub fn fetch(&mut self, address: u32) -> Option<u32>
        ensures value { result ≡ fetched self.old.contents address }
        ensures same { self.new ≡ self.old }
    {
        if !self.near_fetch.reaches(address, 4) {
            return self.fetch_far(address);
        }
        word_near(
            self.regions.as_slice(),
            self.bytes.as_slice(),
            &self.near_fetch,
            address,
        )
    }

    /// The same as [`Memory::fetch`], out of line: the common case then keeps no list of regions at hand.
    #[cold]
    #[inline(never)]
    fn fetch_far(&mut self, address: u32) -> Option<u32>
        ensures value { result ≡ fetched self.old.contents address }
        ensures same { self.new ≡ self.old }
    {
        word_in(
            self.regions.as_slice(),
            self.bytes.as_slice(),
            &mut self.near_fetch,
            address,
        )
    }

    /// The same as [`Memory::fetch`], and nothing is remembered.
    pub fn fetched(&self, address: u32) -> Option<u32>
        ensures { result ≡ fetched self.now.contents address }
    {
        let mut near = self.near_fetch;
        word_in(
            self.regions.as_slice(),
            self.bytes.as_slice(),
            &mut near,
            address,
        )
    }
}
