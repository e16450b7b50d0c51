//! Line tables that are asked as one: the two of `lines.rt`, and a third that has lines and files which
//! aren't there, with what `readelf --debug-dump=decodedline` prints of it.

ghost use Rattle.std.specs.Prelude.{◌<◌, ◌^◌, length};

use crate::lines::{MADE_BY_GCC, MADE_BY_HAND};
use om_base::NoMemory;
use om_line::{LineFault, LineTables, read_tables};
use std::alloc::{AllocError, Global};
use std::test::Fail;

/// Version 2, of one file x.c: line 0 from 0x10004 on, line 5 of file 7 from 0x10008 on, and line 5 of
/// file 1 from 0x1000c up to 0x10010.
const THIRD: &[u8] = b"\
    \x38\0\0\0\x02\0\x17\0\0\0\x01\x01\xfb\x0e\x0a\0\x01\x01\x01\x01\0\0\0\x01\
    \0x.c\0\0\0\0\0\
    \0\x05\x02\x04\0\x01\0\x03\x7f\x01\
    \x02\x04\x03\x05\x04\x07\x01\
    \x02\x04\x04\x01\x01\
    \x02\x04\0\x01\x01";

/// Where the second and the third table begin.
const SECOND_AT: u32 = 145;

const THIRD_AT: u32 = 259;

/// The three tables in a row.
fn section(alloc: Global) -> Result<Vec<u8>, AllocError> {
    let mut section = Vec::from_slice(alloc, MADE_BY_GCC)?;
    section.extend_from_slice(MADE_BY_HAND)?;
    section.extend_from_slice(THIRD)?;
    Ok(section)
}

/// Reads tables of a section that isn't long.
pub(crate) fn read<'a>(
    alloc: Global,
    section: &'a [u8],
    offsets: &[u32],
) -> Result<LineTables<'a>, LineFault> {
    if section.len() > 400 {
        return Err(LineFault::NoMemory);
    }
    read_tables(alloc, section, offsets)
}

/// The files and lines of some addresses: `?` where there is no file, `-` where there is no row.
pub(crate) fn lines_at(
    alloc: Global,
    tables: &LineTables,
    addresses: &[u32],
) -> Result<Vec<u8>, NoMemory> {
    let mut text = Vec::new(alloc);
    for pc in addresses {
        let name = match tables.file_at(*pc) {
            Some(name) => name.bytes(),
            None => b"?",
        };
        match tables.line_at(*pc) {
            Some(row) => {
                text.extend_from_slice(name)?;
                text.push(b':')?;
                text.extend_from_slice(itoa::Buffer::new().format(row.line).as_bytes())?;
            }
            None => text.push(b'-')?,
        }
        text.push(b' ')?;
    }
    Ok(text)
}

#[test]
fn the_first_table_that_has_an_address_counts(rt: HostRuntime) -> Result<(), Fail> {
    let addresses = [
        0x8000, 0x10000, 0x10006, 0x10008, 0x1000f, 0x10014, 0x10044, 0x10204, 0x11494,
    ];
    let rows = [
        ([].as_slice(), b"- - - - - - - - - ".as_slice()),
        (
            &[0, SECOND_AT, THIRD_AT],
            b"- a.c:2 a.c:4 a.c:4 a.c:3 b.h:3 a.c:1 b.c:98 - ",
        ),
        (
            &[SECOND_AT, 0, THIRD_AT],
            b"- a.c:1 a.c:1 a.c:1 a.c:1 a.c:1 a.c:1 b.c:98 - ",
        ),
        (&[THIRD_AT, 0], b"- a.c:2 ?:0 ?:5 x.c:5 b.h:3 - - - "),
        (
            &[THIRD_AT, SECOND_AT],
            b"- a.c:1 ?:0 ?:5 x.c:5 a.c:1 a.c:1 b.c:98 - ",
        ),
    ];
    let section = section(rt.alloc())?;
    for (offsets, want) in rows {
        let tables = read(rt.alloc(), &section, offsets)?;
        let text = lines_at(rt.alloc(), &tables, &addresses)?;
        assert_eq!(rt; text.as_slice(), want);
    }
    Ok(())
}

#[test]
fn the_fault_of_the_first_table_that_has_one_is_told(rt: HostRuntime) -> Result<(), Fail> {
    let rows = [
        ([1, 4, 0].as_slice(), LineFault::Short { at: 1 }), // a length that passes the section
        (&[0, 4, 1], LineFault::Short { at: 4 }),
        (&[SECOND_AT, 6, 4], LineFault::Version { at: 6 }), // the 34 bytes from there on
        (&[0, SECOND_AT, THIRD_AT, 319], LineFault::Short { at: 319 }), // the section's end
    ];
    let section = section(rt.alloc())?;
    for (offsets, want) in rows {
        let fault = read(rt.alloc(), &section, offsets).err();
        assert_eq!(rt; fault, Some(want));
    }
    Ok(())
}
