//! Small sections made by hand: entries with depths, each refusal, units that are skipped, references,
//! and range lists. After DWARF 4, sections 2.17.3 and 7.5.

use om_base::MOST_BYTES;
use om_die::{AttrValue, DieFault, Units, read_ranges, read_units};
use std::alloc::{AllocError, Global};
use std::test::Fail;

/// Abbreviations by their codes: 1 has children and 2 doesn't; 3 has a byte of data, and 4 then a
/// string; 5 refers by the type, the sibling and another type, 6 by the abstract origin, 7 by the
/// specification; 8 has a form that isn't read behind a byte of data.
const ABBREVIATIONS: &[u8] = b"\
    \x01\x11\x01\0\0\
    \x02\x34\0\0\0\
    \x03\x34\0\x03\x0b\0\0\
    \x04\x34\0\x03\x0b\x04\x08\0\0\
    \x05\x34\0\x49\x10\x01\x10\x49\x10\0\0\
    \x06\x34\0\x31\x10\0\0\
    \x07\x34\0\x47\x10\0\0\
    \x08\x34\0\x03\x0b\x05\x7f\0\0\
    \0";

/// Appends a unit of a version whose abbreviations begin at the offset 0, with fewer than 200 bytes
/// behind its head.
fn put_unit(info: &mut Vec<u8>, version: u8, body: &[u8]) -> Result<(), AllocError> {
    let length = (body.len() % 200) as u8 + 7;
    info.extend_from_slice(&[length, 0, 0, 0, version, 0, 0, 0, 0, 0, 4])?;
    info.extend_from_slice(body)
}

/// What is read of sections that aren't too long.
fn read<'a>(alloc: Global, info: &'a [u8]) -> Result<Units<'a>, DieFault> {
    if info.len() as u64 > MOST_BYTES {
        return Err(DieFault::NoMemory);
    }
    read_units(alloc, info, ABBREVIATIONS, b"")
}

/// Why nothing is read; None where something is.
fn fault_of(alloc: Global, info: &[u8]) -> Option<DieFault> {
    match read(alloc, info) {
        Ok(_) => None,
        Err(fault) => Some(fault),
    }
}

/// Why nothing is read of one unit of these entries, which begin at 11.
fn fault_in(alloc: Global, body: &[u8]) -> Result<Option<DieFault>, AllocError> {
    let mut info = Vec::new(alloc);
    put_unit(&mut info, 4, body)?;
    Ok(fault_of(alloc, info.as_slice()))
}

/// Where each entry stands, under how many others, and its tag.
fn outline(alloc: Global, units: &Units) -> Result<String, AllocError> {
    let mut entries = String::new(alloc);
    for unit in units.list.as_slice() {
        for die in unit.dies.as_slice() {
            write!(entries, "{} {} {:x}; ", die.at, die.depth, die.tag)?;
        }
    }
    Ok(entries)
}

/// The offset to which the sibling of the last entry leads; None where that isn't read.
fn sibling(units: &Units) -> Option<u32> {
    let unit = units.list.as_slice().last()?;
    let die = unit.dies.as_slice().last()?;
    match die.attribute(1)? {
        AttrValue::Target(offset) => Some(offset),
        _ => None,
    }
}

#[test]
fn entries_stand_below_those_with_children(rt: HostRuntime) -> Result<(), Fail> {
    // An end where nothing is open, two levels, an end, and levels that are open at the unit's end; a
    // unit of a head alone.
    let mut info = Vec::new(rt.alloc());
    put_unit(&mut info, 4, b"\0\x01\x01\x02\0\x02\x01")?;
    put_unit(&mut info, 3, b"")?;
    put_unit(&mut info, 2, b"\x02")?;
    let units = read(rt.alloc(), info.as_slice())?;
    let entries = outline(rt.alloc(), &units)?;
    let want = "12 0 11; 13 1 11; 14 2 34; 16 1 34; 17 1 11; 40 0 34; ";
    assert_eq!(rt; entries.as_str(), want);
    assert_eq!(rt; units.list.len(), 3);
    assert_eq!(rt; units.skipped, 0);
    Ok(())
}

#[test]
fn the_first_head_that_is_wrong_is_told(rt: HostRuntime) {
    let heads = [
        (b"\x07\0\0".as_slice(), DieFault::Short { at: 0 }), // no length
        (b"\xff\xff\xff\xff", DieFault::Form { at: 0 }), // 64 bits
        (b"\xf0\xff\xff\xff", DieFault::Form { at: 0 }), // reserved
        (b"\xef\xff\xff\xff\x04\0", DieFault::Short { at: 0 }), // past the end
        (b"\x01\0\0\0\x05", DieFault::Short { at: 0 }), // no version
        (b"\x06\0\0\0\x04\0\0\0\0\0", DieFault::Short { at: 0 }), // part of a head
        (b"\x07\0\0\0\x04\0\0\0\0\0\x08", DieFault::Form { at: 0 }), // wide addresses
        (b"\x02\0\0\0\x05\0\x01", DieFault::Short { at: 6 }), // behind another version
        (
            b"\x08\0\0\0\x04\0\0\0\0\0\x04\x02\x01",
            DieFault::Short { at: 12 },
        ), // behind an entry
        (
            b"\x08\0\0\0\x04\0\0\0\0\0\x08\x09",
            DieFault::Form { at: 0 },
        ), // before an entry
    ];
    for (info, want) in heads {
        assert_eq!(rt; fault_of(rt.alloc(), info), Some(want), "{info:?}");
    }
}

#[test]
fn entries_are_refused_at_their_place(rt: HostRuntime) -> Result<(), Fail> {
    let bodies = [
        (b"\x02\x80".as_slice(), DieFault::Short { at: 12 }), // part of a code
        (b"\x02\x09", DieFault::Abbrev { at: 12 }), // no abbreviation
        (b"\x02\x03", DieFault::Short { at: 12 }), // no data
        (b"\x04\x01A", DieFault::Form { at: 11 }), // no zero
        (b"\x08\x01", DieFault::Form { at: 11 }), // a form behind data
        (b"\x08", DieFault::Short { at: 11 }), // no data before a form
        (b"\x09\x08", DieFault::Abbrev { at: 11 }), // the first of two
        (b"\x06\x01\0\0\0\x09", DieFault::Abbrev { at: 16 }), // a reference before
        (
            b"\x05\x63\0\0\0\x0b\0\0\0\x0b\0\0\0",
            DieFault::Target { at: 11 },
        ), // no type
        (b"\x02\x06\x63\0\0\0", DieFault::Target { at: 12 }), // no abstract origin
        (b"\x02\x07\0\0\0\0", DieFault::Target { at: 12 }), // no specification
        (b"\x06\x0c\0\0\0", DieFault::Target { at: 11 }), // a middle
        (b"\x06\x09\0\0\0\x07\x09\0\0\0", DieFault::Target { at: 11 }), // the first of two
    ];
    for (body, want) in bodies {
        assert_eq!(rt; fault_in(rt.alloc(), body)?, Some(want), "{body:?}");
    }
    Ok(())
}

#[test]
fn references_lead_to_entries(rt: HostRuntime) -> Result<(), Fail> {
    let bodies = [
        b"\x06\x0b\0\0\0".as_slice(), // to itself
        b"\x07\x10\0\0\0\x02", // to the next
        b"\x05\x0b\0\0\0\x63\0\0\0\x63\0\0\0", // the first type alone is judged
    ];
    for body in bodies {
        assert_eq!(rt; fault_in(rt.alloc(), body)?, None, "{body:?}");
    }
    Ok(())
}

#[test]
fn references_into_skipped_units_lead_elsewhere(rt: HostRuntime) -> Result<(), Fail> {
    // From 12 to 25 stands a unit of version 5; the last entry refers to it by its type, which is
    // judged, and by its sibling to one of these offsets.
    let rows = [(11, Some(11)), (12, None), (24, None), (25, Some(25))];
    for (offset, want) in rows {
        let mut info = Vec::new(rt.alloc());
        put_unit(&mut info, 4, b"\x02")?;
        put_unit(&mut info, 5, b"\x09\x09")?;
        put_unit(
            &mut info,
            4,
            &[5, 20, 0, 0, 0, offset, 0, 0, 0, 99, 0, 0, 0],
        )?;
        let units = read(rt.alloc(), info.as_slice())?;
        assert_eq!(rt; units.skipped, 1);
        assert_eq!(rt; units.list.len(), 2);
        assert_eq!(rt; sibling(&units), want, "at {offset}");
    }
    Ok(())
}

/// A unit of so many entries, which all have the abbreviation 2.
fn entries(alloc: Global, count: u32) -> Result<Vec<u8>, AllocError> {
    let mut info = Vec::new(alloc);
    info.extend_from_slice(&count.wrapping_add(7).to_le_bytes())?;
    info.extend_from_slice(b"\x04\0\0\0\0\0\x04")?;
    info.resize(count as usize + 11, 2)?;
    Ok(info)
}

#[test]
fn the_last_entry_is_the_1_048_576th(rt: HostRuntime) -> Result<(), Fail> {
    // The entries of both units count, and the end between the last two doesn't.
    let mut info = entries(rt.alloc(), 1_048_575)?;
    put_unit(&mut info, 4, b"\x02\0\x02")?;
    let want = DieFault::TooMany { at: 1_048_599 };
    assert_eq!(rt; fault_of(rt.alloc(), info.as_slice()), Some(want));
    Ok(())
}

/// From byte 0 a list of two ranges; from byte 24 one of a range, a new base address, a range that
/// wraps, one that is empty, and one that ends where it begins; from byte 64 the end of a list at once;
/// from byte 72 a list without an end.
const RANGES: &[u8] = b"\
    \x04\0\0\0\x08\0\0\0\
    \0\0\0\0\x10\0\0\0\
    \0\0\0\0\0\0\0\0\
    \x04\0\0\0\0\0\0\0\
    \xff\xff\xff\xff\xf0\xff\xff\xff\
    \x08\0\0\0\x18\0\0\0\
    \x02\0\0\0\x02\0\0\0\
    \0\0\0\0\0\0\0\0\
    \0\0\0\0\0\0\0\0\
    \x01\0\0\0\x02\0\0\0\
    \0\0\0\0";

/// The ranges of a list, each as its first address and the one after its last.
fn list(alloc: Global, at: u32, base: u32) -> Result<String, Fail> {
    let mut list = String::new(alloc);
    for range in read_ranges(alloc, RANGES, at, base)?.as_slice() {
        write!(list, "{:x}-{:x} ", range.lo, range.hi)?;
    }
    Ok(list)
}

#[test]
fn reads_range_lists_with_their_bases(rt: HostRuntime) -> Result<(), Fail> {
    let rows = [
        (0, 0, "4-8 0-10 "),
        (0, 0x10000, "10004-10008 10000-10010 "),
        (8, 1, "1-11 "),
        (24, 1, "5-1 fffffff8-8 fffffff2-fffffff2 "),
        (64, 7, ""),
    ];
    for (at, base, want) in rows {
        assert_eq!(rt; list(rt.alloc(), at, base)?.as_str(), want, "at {at}");
    }
    Ok(())
}

#[test]
fn refuses_range_lists_without_an_end(rt: HostRuntime) {
    for at in [72, 76, 83, 84, 85, u32::MAX] {
        let fault = read_ranges(rt.alloc(), RANGES, at, 0).err();
        assert_eq!(rt; fault, Some(DieFault::Short { at }));
    }
}
