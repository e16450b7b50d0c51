//! Values in each form, and abbreviation tables, whole and broken off. The bytes are put together by
//! hand from DWARF 4, sections 7.5.3 and 7.5.4.

use om_base::MOST_BYTES;
use om_die::{Die, DieFault, Units, read_units};
use std::alloc::{AllocError, Global};
use std::test::Fail;

/// A string, the empty string, and one without an end.
const STRINGS: &[u8] = b"ab\0cd";

/// What is read of sections that aren't too long.
fn read<'a>(alloc: Global, info: &'a [u8], abbreviations: &'a [u8]) -> Result<Units<'a>, DieFault> {
    if info.len().max(abbreviations.len()) as u64 > MOST_BYTES {
        return Err(DieFault::NoMemory);
    }
    read_units(alloc, info, abbreviations, STRINGS)
}

/// Why nothing is read; None where something is.
fn fault_of(alloc: Global, info: &[u8], abbreviations: &[u8]) -> Option<DieFault> {
    match read(alloc, info, abbreviations) {
        Ok(_) => None,
        Err(fault) => Some(fault),
    }
}

/// The first entry of the first unit.
fn first_entry<'a, 'b>(units: &'b Units<'a>) -> Option<&'b Die<'a>> {
    units.list.as_slice().first()?.dies.as_slice().first()
}

/// Code 1 has an attribute of each form, and some forms twice; code 2 has none.
const FORMS: &[u8] = b"\
    \x01\x34\0\
    \x01\x01\x02\x03\x03\x04\x04\x05\x05\x06\x06\x07\x07\x08\
    \x08\x09\x09\x0a\x0a\x0b\x0b\x0c\x0c\x0c\x0d\x0d\x0e\x0e\
    \x0f\x0e\x10\x0f\x11\x10\x12\x11\x13\x12\x14\x13\x15\x13\
    \x16\x14\x17\x15\x18\x16\x19\x16\x1a\x16\x1b\x16\x1c\x17\
    \x1d\x18\x1e\x19\x1f\x20\0\0\
    \x02\x34\0\0\0\
    \0";

/// A unit of another version up to 16; then one of an entry with code 1, and one with code 2.
const VALUES: &[u8] = b"\
    \x0c\0\0\0\x05\0\0\0\0\0\0\0\0\0\0\0\
    \x6d\0\0\0\x04\0\0\0\0\0\x04\
    \x01\
    \x78\x56\x34\x12\
    \x02\0\xaa\xbb\
    \x01\0\0\0\xaa\
    \x34\x12\
    \x78\x56\x34\x12\
    \xff\xff\xff\xff\xff\xff\xff\x7f\
    hi\0\
    \x81\0\xaa\
    \x01\xaa\
    \xff\
    \0\
    \x02\
    \x80\x7f\
    \0\0\0\0\
    \x02\0\0\0\
    \x80\x01\
    \x20\0\0\0\
    \x05\
    \x05\x01\
    \xef\xff\xff\xff\
    \xf0\xff\xff\xff\
    \xff\xff\xff\xff\xff\xff\xff\xff\
    \x85\0\
    \x0b\x2a\
    \x8b\0\x2a\
    \x13\x05\0\0\0\
    \x19\
    \x10\0\0\0\
    \x01\x9c\
    \x01\x02\x03\x04\x05\x06\x07\x08\
    \x02";

/// The values of the entry with code 1.
const SHOWN: &str = "\
Addr(305419896)
Block([170, 187])
Block([170])
Number(4660)
Number(305419896)
Number(9223372036854775807)
Text(Name { bytes: [104, 105] })
Block([170])
Block([170])
Number(255)
Flag(false)
Flag(true)
Signed(-128)
Text(Name { bytes: [97, 98] })
Text(Name { bytes: [] })
Number(128)
Target(32)
Target(21)
Target(277)
Target(4294967295)
Target(4294967295)
Target(4294967295)
Target(21)
Number(42)
Number(42)
Target(21)
Flag(true)
Offset(16)
Block([156])
Flag(true)
Elsewhere
";

/// The values of an entry's attributes, one a line.
fn values_of(alloc: Global, die: &Die) -> Result<String, AllocError> {
    let mut values = String::new(alloc);
    for name in 0x01..0x20 {
        if let Some(value) = die.attribute(name) {
            writeln!(values, "{value:?}")?;
        }
    }
    Ok(values)
}

#[test]
fn reads_each_form_to_its_end(rt: HostRuntime) -> Result<(), Fail> {
    let units = read(rt.alloc(), VALUES, FORMS)?;
    let die = first_entry(&units).ok_or("no entry")?;
    let values = values_of(rt.alloc(), die)?;
    assert_eq!(rt; values.as_str(), SHOWN);
    Ok(())
}

/// Why nothing is read of an entry at 11, whose one attribute has the form and the bytes that stand
/// here; fewer than 200.
fn fault_of_value(alloc: Global, value: &[u8]) -> Result<Option<DieFault>, Fail> {
    let (form, bytes) = value.split_first().ok_or("no form")?;
    let length = (bytes.len() % 200) as u8 + 8;
    let mut info = Vec::from_slice(alloc, &[length, 0, 0, 0, 4, 0, 0, 0, 0, 0, 4, 1])?;
    info.extend_from_slice(bytes)?;
    let abbreviations = [1, 0x34, 0, 3, *form, 0, 0, 0];
    Ok(fault_of(alloc, info.as_slice(), &abbreviations))
}

#[test]
fn values_that_are_no_values_are_told(rt: HostRuntime) -> Result<(), Fail> {
    let values = [
        // Codes that no form has, and an indirect form that names itself, also padded.
        b"\0\0".as_slice(),
        b"\x02\0",
        b"\x21",
        b"\x16\x16\x0b\0",
        b"\x16\x96\0\x0b\0",
        b"\x16\x02\0",
        // Strings without an end, in the unit and in .debug_str, and past the end of .debug_str.
        b"\x08",
        b"\x08hi",
        b"\x16\x08hi",
        b"\x0e\x03\0\0\0",
        b"\x0e\x05\0\0\0",
    ];
    for value in values {
        let fault = fault_of_value(rt.alloc(), value)?;
        assert_eq!(rt; fault, Some(DieFault::Form { at: 11 }), "{value:?}");
    }
    Ok(())
}

#[test]
fn values_that_break_off_are_told(rt: HostRuntime) -> Result<(), Fail> {
    let values = [
        b"\x01\x78\x56\x34".as_slice(),
        b"\x0b",
        b"\x20\x01\x02\x03\x04\x05\x06\x07",
        // An indirect form whose code breaks off, and one whose value does.
        b"\x16\x80",
        b"\x16\x0b",
        // Blocks that are longer than the unit.
        b"\x0a\x02\xaa",
        b"\x03\x02\0\xaa",
        b"\x04\xff\xff\xff\xff\xaa",
        b"\x09\xff\xff\xff\xff\xff\xff\xff\xff\xff\x01\xaa",
        // A number of 65 bits, and one of eleven bytes.
        b"\x0f\xff\xff\xff\xff\xff\xff\xff\xff\xff\x02",
        b"\x0d\x80\x80\x80\x80\x80\x80\x80\x80\x80\x80\0",
    ];
    for value in values {
        let fault = fault_of_value(rt.alloc(), value)?;
        assert_eq!(rt; fault, Some(DieFault::Short { at: 11 }), "{value:?}");
    }
    Ok(())
}

/// Code 1: a compile unit (0x11) with children and a name (0x03) that is a string; code 1 again, as a
/// subprogram (0x2e) without children; code 300: a tag and a name above 2^32 - 1, of data1; the end of
/// the table, and what is no entry.
const TABLE: &[u8; 32] = b"\
    \x01\x11\x01\x03\x08\0\0\
    \x01\x2e\0\0\0\
    \xac\x02\xff\xff\xff\xff\x7f\x02\x80\x80\x80\x80\x10\x0b\0\0\
    \0\x05\x24\0";

/// An entry with code 1 at 11, and one with code 300 at 14.
const ENTRIES: &[u8] = b"\x0d\0\0\0\x04\0\0\0\0\0\x04\x01m\0\xac\x02\x07";

#[test]
fn the_first_of_each_code_counts(rt: HostRuntime) -> Result<(), Fail> {
    let units = read(rt.alloc(), ENTRIES, TABLE)?;
    let text = format!(in rt.alloc(); "{:?}", first_entry(&units))?;
    let want = "Some(Die { at: 11, depth: 0, tag: 17, attrs: Items { items: \
        [Attr { name: 3, value: Text(Name { bytes: [109] }) }] } })";
    assert_eq!(rt; text.as_str(), want);
    let unit = units.list.as_slice().first().ok_or("no unit")?;
    let die = unit.dies.as_slice().last().ok_or("no entry")?;
    assert_eq!(rt; (die.at, die.depth, die.tag), (14, 1, u32::MAX));
    assert!(rt; die.attribute(u32::MAX).is_some());
    assert!(rt; die.attribute(3).is_none());
    Ok(())
}

#[test]
fn a_table_ends_where_an_entry_breaks_off(rt: HostRuntime) {
    // Cut within code 1; then between the entries, and in the code, the tag, the byte for children, the
    // name, the form and the end of code 300.
    for cut in 0..28 {
        let at = if cut < 7 { 11 } else { 14 };
        let fault = fault_of(rt.alloc(), ENTRIES, &TABLE[..cut]);
        assert_eq!(rt; fault, Some(DieFault::Abbrev { at }), "cut at {cut}");
    }
    assert_eq!(rt; fault_of(rt.alloc(), ENTRIES, &TABLE[..28]), None);
}

#[test]
fn a_table_is_read_no_further_than_it_may(rt: HostRuntime) -> Result<(), Fail> {
    // An entry with code 1 at 11, and one with code 2 at 12.
    let entries = b"\x09\0\0\0\x04\0\0\0\0\0\x04\x01\x02";
    // Code 1, then each of: a padded end of the table; a code, a tag, a name and a form that are too
    // long; and behind it code 2.
    let tables = [
        b"\x01\x11\0\0\0\x80\0\x02\x24\0\0\0\0".as_slice(),
        b"\x01\x11\0\0\0\x83\x80\x80\x80\x80\x80\x80\x80\x80\x80\0\x24\0\0\0\x02\x24\0\0\0\0",
        b"\x01\x11\0\0\0\x03\xff\xff\xff\xff\xff\xff\xff\xff\xff\x02\0\0\0\x02\x24\0\0\0\0",
        b"\x01\x11\0\0\0\x03\x24\0\x83\x80\x80\x80\x80\x80\x80\x80\x80\x80\0\x0b\0\0\x02\x24\0\0\0\0",
        b"\x01\x11\0\0\0\x03\x24\0\x03\xff\xff\xff\xff\xff\xff\xff\xff\xff\x02\0\0\x02\x24\0\0\0\0",
    ];
    for table in tables {
        let fault = fault_of(rt.alloc(), entries, table);
        assert_eq!(rt; fault, Some(DieFault::Abbrev { at: 12 }), "{table:?}");
    }
    // A name of 0 with a form doesn't end the attributes, and padded zeros do.
    let table = b"\x01\x11\0\0\x19\x80\0\x80\0\x02\x24\0\0\0\0";
    assert_eq!(rt; fault_of(rt.alloc(), entries, table), None);
    Ok(())
}
