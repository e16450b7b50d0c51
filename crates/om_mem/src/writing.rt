//! Writing into memory.

ghost use Rattle.std.specs.Prelude.{◌≡◌, ◌+◌, ◌-◌, ◌*◌, ◌/◌, ◌^◌, ◌≤◌, ◌<◌, ◌⊎◌, length, take, drop, set, sum_by, true, false, is_none, None, Some, if◌then◌else◌, OnOk, OnErr, IfErr};
ghost use Rattle.om_base.specs.Limits.{page_size};
ghost use Rattle.om_mem.specs.Contents.{addresses_from, after_write, low_bytes, outside, region_in, stored};
ghost use Rattle.om_mem.specs.Laid.{AreMapped, IsSame, IsSpot, laid, marked, overlaid};
ghost use Rattle.om_mem.specs.Pages.{IsKept, page_count};

use crate::memory::Memory;
use crate::pages::{PAGE, put_at};
use crate::reading::first_without;
use crate::region::Region;
use crate::rights::PF_W;
use crate::spot::{Spot, find_near, find_spot};

/// A byte that can't be written.
#[derive(Clone, Copy, Debug, PartialEq, Eq)]
pub struct WriteOutside {
    /// The first address, in the order of the bytes, that isn't in a region with the right to write.
    pub addr: u32,
}

/// The first of so many addresses from one on that isn't in a region with the right to write.
#[tactic(auto, unfolding(crate::specs::Contents::outside))]
pub(crate) fn first_outside(regions: &[Region], address: u32, count: usize) -> Option<u32>
    requires { AreMapped regions.now }
    ensures { result ≡ outside regions.now address count }
{
    first_without(regions, address, count, PF_W)
}

/// Writes the low bytes of a number from a place on.
fn put_number(bytes: &mut [u8], at: usize, count: u8, value: u32)
    requires count { (count ≡ 1) ⊎ (count ≡ 2) ⊎ (count ≡ 4) }
    requires fits { at + count ≤ length bytes.old }
    ensures { bytes.new ≡ overlaid bytes.old at (low_bytes count value) }
{
    let new = value.to_le_bytes();
    if count == 4 {
        bytes[at] = new[0];
        bytes[at + 1] = new[1];
        bytes[at + 2] = new[2];
        bytes[at + 3] = new[3];
    } else if count == 2 {
        bytes[at] = new[0];
        bytes[at + 1] = new[1];
    } else {
        bytes[at] = new[0];
    }
}

/// The pages of so few bytes from a place on count as written.
fn mark(dirty: &mut [bool], at: usize, count: u8)
    requires some { 0 < count }
    requires fits { at + count ≤ page_size * length dirty.old }
    requires small { at + count ≤ 67108864 }
    ensures { dirty.new ≡ set (set dirty.old (at / page_size) true) ((at + count - 1) / page_size) true }
{
    dirty[at / PAGE] = true;
    dirty[(at + usize::from(count) - 1) / PAGE] = true;
}

/// The pages of so many bytes from a place on count as written.
fn mark_all(dirty: &mut [bool], at: usize, count: usize)
    requires fits { at + count ≤ page_size * length dirty.old }
    requires small { at + count ≤ 67108864 }
    ensures { dirty.new ≡ marked dirty.old (at / page_size) ((at + count + (page_size - 1)) / page_size) }
{
    let first = at / PAGE;
    let past = (at + count + (PAGE - 1)) / PAGE;
    dirty[first..past].fill(true);
}

/// Writes bytes from a place on.
fn put_from(bytes: &mut [u8], dirty: &mut [bool], at: usize, new: &[u8])
    requires fits { at + length new.now ≤ length bytes.old }
    requires flags { length bytes.old ≤ page_size * length dirty.old }
    requires small { length bytes.old ≤ 67108864 }
    ensures bytes { bytes.new ≡ overlaid bytes.old at new.now }
    ensures flags { length dirty.new ≡ length dirty.old }
    ensures same { IsSame bytes.old dirty.old bytes.new dirty.new }
{
    if new.is_empty() {
        return;
    }
    put_at(bytes, at, new);
    mark_all(dirty, at, new.len());
}

/// Writes bytes from `address` on, each of which may be written, with one copy into each region.
fn put_across(regions: &[Region], bytes: &mut [u8], dirty: &mut [bool], address: u32, new: &[u8])
    requires mapped { AreMapped regions.now }
    requires whole { length bytes.old ≡ sum_by (λ r. r.size) regions.now }
    requires flags { length dirty.old ≡ page_count regions.now }
    requires inside { outside regions.now address (length new.now) ≡ None }
    ensures stored { (laid regions.now bytes.new).bytes
        ≡ stored (laid regions.now bytes.old).bytes (addresses_from address (length new.now)) new.now }
    ensures whole { length bytes.new ≡ length bytes.old }
    ensures flags { length dirty.new ≡ length dirty.old }
    ensures same { IsSame bytes.old dirty.old bytes.new dirty.new }
{
    let mut at = address;
    let mut rest = new;
    while !rest.is_empty() {
        // A region holds the address, since it may be written.
        let Some(spot) = find_spot(regions, at) else {
            return;
        };
        let count = spot.count_from(at, rest.len());
        let place = spot.at + (at - spot.low) as usize;
        put_from(bytes, dirty, place, &rest[..count]);
        at = at.wrapping_add(count as u32);
        rest = &rest[count..];
    }
}

/// Writes the low bytes of a number from `address` on, in whatever regions, if each may be written.
#[cold]
fn write_across(
    regions: &[Region],
    bytes: &mut [u8],
    dirty: &mut [bool],
    address: u32,
    count: u8,
    value: u32,
) -> bool
    requires mapped { AreMapped regions.now }
    requires whole { length bytes.old ≡ sum_by (λ r. r.size) regions.now }
    requires flags { length dirty.old ≡ page_count regions.now }
    requires count { (count ≡ 1) ⊎ (count ≡ 2) ⊎ (count ≡ 4) }
    ensures may { result ≡ is_none (outside regions.now address count) }
    ensures stored { result ≡ true → (laid regions.now bytes.new).bytes
        ≡ stored (laid regions.now bytes.old).bytes (addresses_from address count) (low_bytes count value) }
    ensures bytes { result ≡ false → bytes.new ≡ bytes.old }
    ensures dirty { result ≡ false → dirty.new ≡ dirty.old }
    ensures whole { length bytes.new ≡ length bytes.old }
    ensures flags { length dirty.new ≡ length dirty.old }
    ensures same { IsSame bytes.old dirty.old bytes.new dirty.new }
{
    if first_outside(regions, address, usize::from(count)).is_some() {
        return false;
    }
    let new = value.to_le_bytes();
    put_across(regions, bytes, dirty, address, &new[..usize::from(count)]);
    true
}

/// Writes the low bytes of a number from `address` on, if they may be written, which are all in the region of
/// `near`.
fn write_near(
    _regions: &[Region],
    bytes: &mut [u8],
    dirty: &mut [bool],
    near: &Spot,
    address: u32,
    count: u8,
    value: u32,
) -> bool
    requires mapped { AreMapped _regions.now }
    requires whole { length bytes.old ≡ sum_by (λ r. r.size) _regions.now }
    requires flags { length dirty.old ≡ page_count _regions.now }
    requires near { IsSpot _regions.now near.now }
    requires count { (count ≡ 1) ⊎ (count ≡ 2) ⊎ (count ≡ 4) }
    requires low { near.now.low ≤ address }
    requires high { address + count ≤ near.now.low + near.now.size }
    ensures may { result ≡ is_none (outside _regions.now address count) }
    ensures stored { result ≡ true → (laid _regions.now bytes.new).bytes
        ≡ stored (laid _regions.now bytes.old).bytes (addresses_from address count) (low_bytes count value) }
    ensures bytes { result ≡ false → bytes.new ≡ bytes.old }
    ensures dirty { result ≡ false → dirty.new ≡ dirty.old }
    ensures whole { length bytes.new ≡ length bytes.old }
    ensures flags { length dirty.new ≡ length dirty.old }
    ensures same { IsSame bytes.old dirty.old bytes.new dirty.new }
{
    if near.rights & PF_W != PF_W {
        return false;
    }
    let at = near.at + (address - near.low) as usize;
    put_number(bytes, at, count, value);
    mark(dirty, at, count);
    true
}

/// Writes the low bytes of a number from `address` on, if each may be written.
fn write_in(
    regions: &[Region],
    bytes: &mut [u8],
    dirty: &mut [bool],
    near: &mut Spot,
    address: u32,
    count: u8,
    value: u32,
) -> bool
    requires mapped { AreMapped regions.now }
    requires whole { length bytes.old ≡ sum_by (λ r. r.size) regions.now }
    requires flags { length dirty.old ≡ page_count regions.now }
    requires near { IsSpot regions.now near.old }
    requires count { (count ≡ 1) ⊎ (count ≡ 2) ⊎ (count ≡ 4) }
    ensures may { result ≡ is_none (outside regions.now address count) }
    ensures stored { result ≡ true → (laid regions.now bytes.new).bytes
        ≡ stored (laid regions.now bytes.old).bytes (addresses_from address count) (low_bytes count value) }
    ensures bytes { result ≡ false → bytes.new ≡ bytes.old }
    ensures dirty { result ≡ false → dirty.new ≡ dirty.old }
    ensures whole { length bytes.new ≡ length bytes.old }
    ensures flags { length dirty.new ≡ length dirty.old }
    ensures same { IsSame bytes.old dirty.old bytes.new dirty.new }
    ensures near { IsSpot regions.now near.new }
{
    if !find_near(regions, near, address, count) {
        return write_across(regions, bytes, dirty, address, count, value);
    }
    write_near(regions, bytes, dirty, near, address, count, value)
}

/// The place of the first byte of a region.
fn start_of(regions: &[Region], region: u32) -> usize
    requires mapped { AreMapped regions.now }
    requires region { region < length regions.now }
    ensures { result + sum_by (λ r. r.size) (drop region regions.now) ≡ sum_by (λ r. r.size) regions.now }
{
    let mut before = 0;
    for earlier in 0..region as usize {
        before += regions[earlier].size as usize;
    }
    before
}

impl Memory {
    /// Writes the low `count` bytes of `value` from `address` on, the lowest first. False, and nothing is
    /// written, where a byte isn't in a region with the right to write.
    pub fn write(&mut self, address: u32, count: u8, value: u32) -> bool
        requires { (count ≡ 1) ⊎ (count ≡ 2) ⊎ (count ≡ 4) }
        ensures may { result ≡ is_none (outside self.old.contents.regions address count) }
        ensures contents { self.new.contents ≡
            (if result then after_write self.old.contents address (low_bytes count value) else self.old.contents) }
        ensures same { result ≡ false → self.new ≡ self.old }
        ensures kept { IsKept self.old self.new }
    {
        if !self.near_data.reaches(address, count) {
            return self.write_far(address, count, value);
        }
        write_near(
            self.regions.as_slice(),
            self.bytes.as_mut_slice(),
            self.dirty.as_mut_slice(),
            &self.near_data,
            address,
            count,
            value,
        )
    }

    /// The same as [`Memory::write`], out of line: the common case then keeps no list of regions at hand.
    #[cold]
    #[inline(never)]
    fn write_far(&mut self, address: u32, count: u8, value: u32) -> bool
        requires { (count ≡ 1) ⊎ (count ≡ 2) ⊎ (count ≡ 4) }
        ensures may { result ≡ is_none (outside self.old.contents.regions address count) }
        ensures contents { self.new.contents ≡
            (if result then after_write self.old.contents address (low_bytes count value) else self.old.contents) }
        ensures same { result ≡ false → self.new ≡ self.old }
        ensures kept { IsKept self.old self.new }
    {
        write_in(
            self.regions.as_slice(),
            self.bytes.as_mut_slice(),
            self.dirty.as_mut_slice(),
            &mut self.near_data,
            address,
            count,
            value,
        )
    }

    /// The first of `count` addresses from `address` on that isn't in a region with the right to write.
    #[tactic(auto, unfolding(crate::specs::Laid::laid))]
    pub fn first_outside(&self, address: u32, count: usize) -> Option<u32>
        ensures { result ≡ outside self.now.contents.regions address count }
    {
        first_outside(self.regions.as_slice(), address, count)
    }

    /// Writes the bytes from `address` on.
    ///
    /// Errors: `WriteOutside`, and nothing is written, where a byte isn't in a region with the right to write.
    pub fn write_bytes(&mut self, address: u32, bytes: &[u8]) -> Result<(), WriteOutside>
        ensures done { OnOk result (outside self.old.contents.regions address (length bytes.now) ≡ None) }
        ensures contents { OnOk result (self.new.contents ≡ after_write self.old.contents address bytes.now) }
        ensures fault { IfErr result (λ e. outside self.old.contents.regions address (length bytes.now) ≡ Some e.addr) }
        ensures same { OnErr result (self.new ≡ self.old) }
        ensures kept { IsKept self.old self.new }
    {
        if let Some(addr) = first_outside(self.regions.as_slice(), address, bytes.len()) {
            return Err(WriteOutside { addr });
        }
        put_across(
            self.regions.as_slice(),
            self.bytes.as_mut_slice(),
            self.dirty.as_mut_slice(),
            address,
            bytes,
        );
        Ok(())
    }

    /// The first bytes of the region at a place of the list become these, whatever its rights.
    pub fn fill(&mut self, region: u32, bytes: &[u8])
        requires region { region < length self.old.contents.regions }
        requires fits { length bytes.now ≤ (region_in self.old.contents.regions region).size }
        ensures contents { self.new.contents ≡
            after_write self.old.contents (region_in self.old.contents.regions region).low bytes.now }
        ensures kept { IsKept self.old self.new }
    {
        let start = start_of(self.regions.as_slice(), region);
        put_from(
            self.bytes.as_mut_slice(),
            self.dirty.as_mut_slice(),
            start,
            bytes,
        );
    }
}
