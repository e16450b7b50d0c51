//! Small executables made by hand: functions and the gaps between them, ranges, links, and range lists
//! without an end.

ghost use Rattle.std.specs.Prelude.{All, IfOk};
ghost use Rattle.om_elf.specs.Piece.{IsShort};

use crate::made::section;
use om_base::{Items, MOST_BYTES, NoMemory};
use om_elf::Elf;
use om_names::{Debug, NamesFault, read_debug};
use std::alloc::{AllocError, Global};
use std::test::Fail;

/// Abbreviations by their codes. Of subprograms with a lowest and a highest address: 2 has an address as
/// the highest, 3 and those after it a size; 4 has no name; 6 has an abstract origin, 7 a specification,
/// and 11 both; 12 also has a range list. 5 has a range list alone, 8 a name alone. 1 is a unit with an
/// address, 9 a lexical block with a range list, 10 an entry with an abstract origin.
const ABBREVIATIONS: &[u8] = b"\
    \x01\x11\0\x11\x01\0\0\
    \x02\x2e\0\x03\x08\x11\x01\x12\x01\0\0\
    \x03\x2e\0\x03\x08\x11\x01\x12\x0b\0\0\
    \x04\x2e\0\x11\x01\x12\x0b\0\0\
    \x05\x2e\0\x03\x08\x55\x17\0\0\
    \x06\x2e\0\x31\x10\x11\x01\x12\x0b\0\0\
    \x07\x2e\0\x47\x10\x11\x01\x12\x0b\0\0\
    \x08\x2e\0\x03\x08\0\0\
    \x09\x0b\0\x55\x17\0\0\
    \x0a\x34\0\x31\x10\0\0\
    \x0b\x2e\0\x47\x10\x31\x10\x11\x01\x12\x0b\0\0\
    \x0c\x2e\0\x11\x01\x12\x0b\x55\x17\0\0\
    \0";

/// Range lists. At 0 the addresses from 0x10 to 0x20 above the base; at 16, with the base 0x2000, four
/// addresses; at 40 one without an end.
const RANGES: &[u8] = b"\
    \x10\0\0\0\x20\0\0\0\
    \0\0\0\0\0\0\0\0\
    \xff\xff\xff\xff\0\x20\0\0\
    \0\0\0\0\x04\0\0\0\
    \0\0\0\0\0\0\0\0\
    \x01\0\0\0\x02\0\0\0";

/// Appends a unit of a version, with fewer than 200 bytes behind its head.
fn put_unit(info: &mut Vec<u8>, version: u8, body: &[u8]) -> Result<(), AllocError> {
    let length = (body.len() % 200) as u8 + 7;
    info.extend_from_slice(&[length, 0, 0, 0, version, 0, 0, 0, 0, 0, 4])?;
    info.extend_from_slice(body)
}

/// An executable with these entries, unless they are too long.
fn elf_of<'a>(alloc: Global, info: &'a [u8]) -> Result<Elf<'a>, NoMemory>
    ensures { IfOk result (λ elf. All IsShort elf.sections) }
{
    if info.len() as u64 > MOST_BYTES {
        return Err(NoMemory);
    }
    let sections = vec![in alloc;
        section(b".debug_info", info),
        section(b".debug_abbrev", ABBREVIATIONS),
        section(b".debug_ranges", RANGES),
    ]?;
    Ok(Elf {
        entry: 0,
        flags: 0,
        segments: Items::new(alloc),
        sections: Items::from_vec(sections),
    })
}

/// The debugging information of units, or why it is refused.
fn read<'a>(alloc: Global, info: &'a [u8]) -> Result<Debug<'a>, NamesFault> {
    let elf = elf_of(alloc, info)?;
    read_debug(alloc, &elf)
}

/// The names of the functions that some addresses lie in, `-` where there is none.
fn names_at(alloc: Global, debug: &Debug, addresses: &[u32]) -> Result<Vec<u8>, AllocError> {
    let mut names = Vec::new(alloc);
    for address in addresses {
        let name = match debug.func_at(*address) {
            Some(name) => name.bytes(),
            None => b"-",
        };
        names.extend_from_slice(name)?;
        names.push(b' ')?;
    }
    Ok(names)
}

/// The entries of a unit at 0x1000: main, to 0x1010; late, from 0x1008 to 0x1018; one without a name, from
/// 0x1020 to 0x1028; last, from 0x1020 to 0x1030; a declaration; and none, empty at 0x1040.
const FUNCTIONS: &[u8] = b"\
    \x01\0\x10\0\0\
    \x02main\0\0\x10\0\0\x10\x10\0\0\
    \x03late\0\x08\x10\0\0\x10\
    \x04\x20\x10\0\0\x08\
    \x03last\0\x20\x10\0\0\x10\
    \x08told\0\
    \x03none\0\x40\x10\0\0\0";

#[test]
fn the_first_function_that_holds_an_address_counts(rt: HostRuntime) -> Result<(), Fail> {
    let mut info = Vec::new(rt.alloc());
    put_unit(&mut info, 4, FUNCTIONS)?;
    put_unit(&mut info, 5, b"")?;
    let debug = read(rt.alloc(), info.as_slice())?;
    let addresses = [
        0xfff, 0x1000, 0x100f, 0x1010, 0x1017, 0x1018, 0x1020, 0x1027, 0x1028, 0x1030, 0x1040,
    ];
    let names = names_at(rt.alloc(), &debug, &addresses)?;
    let want = b"- main main late late - - - last - - ";
    assert_eq!(rt; names.as_slice(), want.as_slice());
    let counts = debug.counts();
    assert_eq!(rt; (counts.units, counts.skipped, counts.functions), (1, 1, 4));
    Ok(())
}

/// At 11 the name n, and three entries that lead to it, each by the one before; a function at 29, whose
/// name comes by four links, and one behind it, whose name would come by five. At 49 the name s; at 52 a
/// function with that name as its specification's; at 62 one with that and an abstract origin, which
/// counts first.
const LINKS: &[u8] = b"\
    \x08n\0\
    \x0a\x0b\0\0\0\
    \x0a\x0e\0\0\0\
    \x0a\x13\0\0\0\
    \x06\x18\0\0\0\x10\0\0\0\x04\
    \x06\x1d\0\0\0\x20\0\0\0\x04\
    \x08s\0\
    \x07\x31\0\0\0\x30\0\0\0\x04\
    \x0b\x31\0\0\0\x0b\0\0\0\x40\0\0\0\x04";

/// A unit at 0x1000; f, by the list at 0, and g, by that at 16; a block without ranges; and one that has a
/// range, so that its list isn't read.
const LISTS: &[u8] = b"\
    \x01\0\x10\0\0\
    \x05f\0\0\0\0\0\
    \x05g\0\x10\0\0\0\
    \x09\x08\0\0\0\
    \x0c\0\0\0\0\x01\x28\0\0\0";

#[test]
fn names_come_by_links_and_ranges_by_lists(rt: HostRuntime) -> Result<(), Fail> {
    let rows = [
        (
            LINKS,
            [0x10, 0x20, 0x30, 0x40, 0x50],
            b"n - s n - ".as_slice(),
        ),
        (LISTS, [0x10, 0x1010, 0x101f, 0x2003, 0x2004], b"- f f g - "),
    ];
    for (body, addresses, want) in rows {
        let mut info = Vec::new(rt.alloc());
        put_unit(&mut info, 4, body)?;
        let debug = read(rt.alloc(), info.as_slice())?;
        let names = names_at(rt.alloc(), &debug, &addresses)?;
        assert_eq!(rt; names.as_slice(), want);
    }
    Ok(())
}

#[test]
fn a_range_list_has_an_end(rt: HostRuntime) -> Result<(), Fail> {
    let rows = [
        (b"\x09\x28\0\0\0".as_slice(), "Ranges(Short { at: 40 })"), // a block's
        (
            b"\x05f\0\x29\0\0\0\x09\x28\0\0\0",
            "Ranges(Short { at: 41 })",
        ), // the first of two
        (b"\x09\x28\0\0\0\x63", "Info(Abbrev { at: 16 })"), // an entry before a list
    ];
    for (body, want) in rows {
        let mut info = Vec::new(rt.alloc());
        put_unit(&mut info, 4, body)?;
        let fault = read(rt.alloc(), info.as_slice()).err().ok_or("it is read")?;
        let text = format!(in rt.alloc(); "{fault:?}")?;
        assert_eq!(rt; text.as_str(), want, "{body:?}");
    }
    Ok(())
}
