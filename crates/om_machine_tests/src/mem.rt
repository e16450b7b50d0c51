//! Reads, writes and pages of memory, on values from outside.

ghost use Rattle.std.specs.Prelude.{◌≡◌, ◌+◌, ◌^◌, ◌<◌, ◌≤◌, length, sum_by, All, IfOk};
ghost use Rattle.om_mem.specs.Contents.{region_in};

use om_base::NoMemory;
use om_mem::{Memory, Region, Regions, map_regions};
use std::alloc::Global;
use std::test::Fail;

/// A page of addresses.
fn page_of_addresses(low: u32, rights: u8) -> Region
    ensures { result ≡ record { low = low; size = 4096; rights = rights } }
{
    Region {
        low,
        size: 4096,
        rights,
    }
}

/// The first page and the last page of the address space can be written and read; the second page can be
/// fetched and read.
fn three_regions(alloc: Global) -> Result<Regions, NoMemory>
    ensures few { IfOk result (λ made. length made < 2 ^ 32) }
    ensures ends { IfOk result (λ made. All (λ r. r.low + r.size ≤ 2 ^ 32) made) }
    ensures small { IfOk result (λ made. sum_by (λ r. r.size) made ≤ 67108864) }
    ensures third { IfOk result (λ made. (2 < length made) × ((region_in made 2).size ≡ 4096)) }
{
    let mut regions = Regions::new(alloc);
    regions.push(page_of_addresses(0, 6))?;
    regions.push(page_of_addresses(4294963200, 6))?;
    regions.push(page_of_addresses(4096, 5))?;
    Ok(regions)
}

/// Memory of these regions; the second page begins with the bytes 0x78, 0x56, 0x34, 0x12 and 9.
#[tactic(auto, using(om_mem::proofs::MapLemmas::regions_of_zeros))]
fn three_pages(alloc: Global) -> Result<Memory, Fail> {
    let regions = three_regions(alloc)?;
    let mut memory = map_regions(alloc, &regions)?;
    memory.fill(2, b"\x78\x56\x34\x12\x09");
    Ok(memory)
}

/// Whether a page counts as written.
pub(crate) fn is_dirty(memory: &Memory, page: u32) -> bool {
    if page < memory.pages() {
        memory.is_dirty(page)
    } else {
        false
    }
}

/// Which of the first three pages count as written.
fn dirty_pages(memory: &Memory) -> (bool, bool, bool) {
    (
        is_dirty(memory, 0),
        is_dirty(memory, 1),
        is_dirty(memory, 2),
    )
}

/// Writes a number of four bytes; whether it may be written.
fn put_number(memory: &mut Memory, address: u32, number: u32) -> bool {
    memory.write(address, 4, number)
}

/// Writes some bytes: the first address that may not be written, if one may not.
fn put_bytes(memory: &mut Memory, address: u32, bytes: &[u8]) -> Option<u32> {
    match memory.write_bytes(address, bytes) {
        Ok(()) => None,
        Err(fault) => Some(fault.addr),
    }
}

#[test]
fn numbers_are_read_as_they_were_written(rt: HostRuntime) -> Result<(), Fail> {
    let mut memory = three_pages(rt.alloc())?;
    assert_eq!(rt; dirty_pages(&memory), (false, false, true));
    assert_eq!(rt; memory.fetch(4096), Some(0x12345678));
    assert_eq!(rt; memory.number(4099, 4), Some(0x00000912));
    assert!(rt; put_number(&mut memory, 17, 0x11223344));
    assert_eq!(rt; memory.load(17, 4), Some(0x11223344));
    assert_eq!(rt; memory.number(18, 2), Some(0x2233));
    assert_eq!(rt; memory.read_byte(20), Some(0x11));
    assert_eq!(rt; memory.read_byte(21), Some(0));
    assert_eq!(rt; dirty_pages(&memory), (true, false, true));
    // After the last address comes address 0.
    assert!(rt; put_number(&mut memory, 4294967294, 0xaabbccdd));
    assert_eq!(rt; memory.load(4294967294, 4), Some(0xaabbccdd));
    assert_eq!(rt; memory.number(0, 2), Some(0xaabb));
    assert_eq!(rt; dirty_pages(&memory), (true, true, true));
    Ok(())
}

#[test]
fn rights_are_asked_for_each_byte(rt: HostRuntime) -> Result<(), Fail> {
    let mut memory = three_pages(rt.alloc())?;
    assert_eq!(rt; memory.fetch(8188), Some(0));
    assert_eq!(rt; memory.fetch(8189), None);
    assert_eq!(rt; memory.fetched(4094), None);
    assert_eq!(rt; memory.load(8192, 1), None);
    assert!(rt; memory.may(4096, 5));
    assert!(rt; !memory.may(4096, 6));
    assert!(rt; !memory.may(8192, 4));
    assert!(rt; !put_number(&mut memory, 4094, 0xffffffff));
    assert_eq!(rt; memory.load(4094, 4), Some(0x56780000));
    Ok(())
}

#[test]
fn many_bytes_are_written(rt: HostRuntime) -> Result<(), Fail> {
    let mut memory = three_pages(rt.alloc())?;
    assert_eq!(rt;
        put_bytes(&mut memory, 4093, b"\x01\x02\x03\x04"),
        Some(4096)
    );
    assert_eq!(rt; memory.load(4092, 4), Some(0));
    let wrapped = put_bytes(&mut memory, 4294967293, b"\x01\x02\x03\x04\x05\x06\x07");
    assert_eq!(rt; wrapped, None);
    assert_eq!(rt; memory.number(4294967292, 4), Some(0x03020100));
    assert_eq!(rt; memory.number(0, 4), Some(0x07060504));
    assert_eq!(rt; dirty_pages(&memory), (true, true, true));
    Ok(())
}

/// In each line an address, how many bytes from it on, the first of them that can't be written, and whether all of
/// them are mapped.
const ASKED: &str = "\
4095 1 None true
4095 2 Some(4096) true
4096 0 None true
8191 2 Some(8191) false
8192 0 None true
8192 1 Some(8192) false
4294963200 8192 None true
4294963200 12288 Some(4096) true
4294963200 12289 Some(4096) false
0 4294967295 Some(4096) false";

#[test]
fn many_addresses_are_asked_for(rt: HostRuntime) -> Result<(), Fail> {
    let memory = three_pages(rt.alloc())?;
    for wanted in ASKED.lines() {
        let mut words = wanted.split_whitespace();
        let from: u32 = words.next().ok_or("an address")?.parse()?;
        let count: usize = words.next().ok_or("a count")?.parse()?;
        let outside = memory.first_outside(from, count);
        let mapped = memory.is_mapped(from, count);
        let told = format!(in rt.alloc(); "{from} {count} {outside:?} {mapped}")?;
        assert_eq!(rt; told.as_str(), wanted);
    }
    Ok(())
}

/// Two regions that can be written and read, and that meet: the first page ends 3995 bytes into the second region.
fn two_regions(alloc: Global) -> Result<Regions, NoMemory>
    ensures few { IfOk result (λ made. length made < 2 ^ 32) }
    ensures ends { IfOk result (λ made. All (λ r. r.low + r.size ≤ 2 ^ 32) made) }
    ensures small { IfOk result (λ made. sum_by (λ r. r.size) made ≤ 67108864) }
{
    let mut regions = Regions::new(alloc);
    regions.push(Region {
        low: 69536,
        size: 101,
        rights: 6,
    })?;
    regions.push(Region {
        low: 65536,
        size: 4000,
        rights: 6,
    })?;
    Ok(regions)
}

/// The bytes of a page; none where there isn't one.
fn page_bytes(memory: &Memory, page: u32) -> &[u8] {
    if page < memory.pages() {
        memory.page(page)
    } else {
        b""
    }
}

/// Memory of these regions.
fn two_pages(alloc: Global) -> Result<Memory, Fail> {
    let regions = two_regions(alloc)?;
    Ok(map_regions(alloc, &regions)?)
}

/// Sets a page, where there is one of as many bytes.
fn set(memory: &mut Memory, page: u32, bytes: &[u8]) {
    if page < memory.pages() && memory.page(page).len() == bytes.len() {
        memory.set_page(page, bytes);
    }
}

#[test]
fn pages_are_the_bytes_of_all_regions(rt: HostRuntime) -> Result<(), Fail> {
    let mut memory = two_pages(rt.alloc())?;
    assert_eq!(rt; memory.pages(), 2);
    assert_eq!(rt; page_bytes(&memory, 1), [0; 5].as_slice());
    assert_eq!(rt; put_bytes(&mut memory, 69534, b"\x01\x02\x03\x04"), None);
    assert_eq!(rt; memory.number(69533, 4), Some(0x03020100));
    assert_eq!(rt; memory.number(69536, 4), Some(0x00000403));
    assert!(rt; page_bytes(&memory, 0).starts_with(&[3, 4, 0]));
    assert_eq!(rt; page_bytes(&memory, 1), [0, 0, 0, 1, 2].as_slice());
    assert_eq!(rt; dirty_pages(&memory), (true, true, false));
    Ok(())
}

#[test]
fn a_page_is_set(rt: HostRuntime) -> Result<(), Fail> {
    let mut memory = two_pages(rt.alloc())?;
    set(&mut memory, 1, b"\x09\x08\x07\x06\x05");
    assert_eq!(rt; memory.number(69532, 4), Some(0x05060708));
    assert_eq!(rt; dirty_pages(&memory), (false, true, false));
    memory.clear_dirty();
    assert_eq!(rt; dirty_pages(&memory), (false, false, false));
    assert_eq!(rt; page_bytes(&memory, 1), [9, 8, 7, 6, 5].as_slice());
    Ok(())
}
