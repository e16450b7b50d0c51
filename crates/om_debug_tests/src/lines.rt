//! Line tables: one that gcc 12 made, with what `addr2line` says of it, one made by hand, with what
//! `readelf --debug-dump=rawline` prints of it, and each fault.

ghost use Rattle.std.specs.Prelude.{◌<◌, ◌^◌, length};

use om_base::NoMemory;
use om_line::{LineFault, LineTable, read_lines};
use std::alloc::{AllocError, Global};
use std::test::Fail;

/// Version 4: two functions of a.c, the first of which has one of b.h in it.
pub const MADE_BY_GCC: &[u8] = b"\
    \x8d\0\0\0\x04\0\x22\0\0\0\x01\x01\x01\xfb\x0e\x0d\0\x01\x01\x01\x01\0\0\0\x01\0\0\x01\
    \0a.c\0\0\0\0b.h\0\0\0\0\0\
    \x05\x0e\0\x05\x02\0\0\x01\0\x13\x06\x01\x05\x03\x06\x67\x13\x05\x08\x01\x05\x15\x01\x05\x0c\x06\x4a\
    \x05\x07\x57\x05\x05\x06\x5a\x04\x02\x05\x0c\x0e\x05\x03\x13\x05\x0e\x06\x13\xac\x04\x01\x05\x07\x14\
    \x05\x1b\x06\x2d\x05\x15\x3c\x06\x4a\x05\x01\x16\x4a\x05\x07\x1b\x05\x03\x06\x5c\x05\x0a\x06\x01\x05\
    \x0e\x06\x03\xa5\x02\x2e\x05\x10\x01\x05\x17\x06\x01\x05\x1c\xba\x05\x21\x3c\x02\x01\0\x01\x01";

/// Version 3, with instructions of 4 bytes: each standard opcode, one of two operands that nobody
/// knows, and each extended opcode, with one that nobody knows.
pub const MADE_BY_HAND: &[u8] = b"\
    \x6e\0\0\0\x03\0\x23\0\0\0\x04\x01\xfd\x0c\x0e\0\x01\x01\x01\x01\0\0\0\x01\0\0\x01\x02\
    inc\0lib\0\0a.c\0\x01\x02\x03\0\
    \0\x05\x02\0\0\x01\0\x01\
    \x02\x81\x01\x03\x7d\x03\xe4\0\x04\x02\x05\x07\x06\x07\x0a\x0b\x0c\x80\0\x01\
    \x08\x0d\x80\x01\x05\x37\
    \x09\x34\x12\0\x08\x03b.c\0\x01\x02\x03\x01\0\x03\x90ab\0\x01\x01\
    \x08\x08\x01\0\x05\x02\xf0\xff\xff\xff\x02\x05\x01";

/// Reads the table behind three other bytes.
fn read<'a>(alloc: Global, section: &'a [u8]) -> Result<LineTable<'a>, LineFault> {
    if section.len() > 200 {
        return Err(LineFault::NoMemory);
    }
    read_lines(alloc, section, 3)
}

/// A table behind three other bytes, with another byte at a place of it.
fn section_with(
    alloc: Global,
    table: &[u8],
    place: usize,
    byte: u8,
) -> Result<Vec<u8>, AllocError> {
    let mut section = Vec::from_slice(alloc, b"abc")?;
    for (at, old) in table.iter().enumerate() {
        section.push(if at == place { byte } else { *old })?;
    }
    Ok(section)
}

/// The files and lines of some addresses, `-` where there is none.
fn lines_at(alloc: Global, table: &LineTable, addresses: &[u32]) -> Result<Vec<u8>, NoMemory> {
    let mut text = Vec::new(alloc);
    for pc in addresses {
        match table.at(*pc) {
            Some(row) => {
                let name = match table.file(row.file) {
                    Some(name) => name.bytes(),
                    None => b"?",
                };
                text.extend_from_slice(name)?;
                text.push(b':')?;
                text.extend_from_slice(itoa::Buffer::new().format(row.line).as_bytes())?;
            }
            None => text.push(b'-')?,
        }
        text.push(b' ')?;
    }
    Ok(text)
}

#[test]
fn the_first_row_that_has_an_address_counts(rt: HostRuntime) -> Result<(), Fail> {
    let made = [
        0xffff, 0x10000, 0x10005, 0x10006, 0x1000f, 0x10014, 0x1001e, 0x1001f, 0x10021, 0x10028,
        0x1002d, 0x10032, 0x10034, 0x10043, 0x10044,
    ];
    let by_hand = [
        0xa0, 0xffff, 0x10000, 0x10203, 0x10204, 0x1025f, 0x10260, 0x11493, 0x11494, 0xfffffff0,
    ];
    let rows = [
        (
            MADE_BY_GCC,
            made.as_slice(),
            b"- a.c:2 a.c:2 a.c:4 a.c:3 b.h:3 b.h:3 a.c:5 a.c:4 a.c:8 a.c:3 a.c:7 a.c:300 a.c:300 - ".as_slice(),
        ),
        (
            MADE_BY_HAND,
            &by_hand,
            b"- - a.c:1 a.c:1 b.c:98 b.c:98 b.c:100 b.c:100 - - ",
        ),
    ];
    for (table, addresses, want) in rows {
        let section = section_with(rt.alloc(), table, table.len(), 0)?;
        let table = read(rt.alloc(), &section)?;
        let text = lines_at(rt.alloc(), &table, addresses)?;
        assert_eq!(rt; text.as_slice(), want);
    }
    Ok(())
}

#[test]
fn the_first_fault_of_a_table_is_told(rt: HostRuntime) -> Result<(), Fail> {
    let rows = [
        (MADE_BY_HAND, 0, 0x6f, "Short { at: 3 }"), // the table passes the section
        (MADE_BY_HAND, 4, 1, "Version { at: 3 }"),
        (MADE_BY_HAND, 4, 5, "Version { at: 3 }"),
        (MADE_BY_HAND, 6, 0x69, "Short { at: 3 }"), // the program begins behind the table
        (MADE_BY_HAND, 13, 0, "Header { at: 3 }"), // the line range
        (MADE_BY_HAND, 14, 0, "Header { at: 3 }"), // the opcode base
        (MADE_BY_GCC, 11, 2, "Header { at: 3 }"), // several operations
        (MADE_BY_HAND, 46, 0, "Opcode { at: 48 }"), // an extended opcode of no bytes
        (MADE_BY_HAND, 46, 4, "Opcode { at: 48 }"), // an address of 3 bytes
        (MADE_BY_HAND, 83, 7, "Opcode { at: 85 }"), // a file without its length
        (MADE_BY_HAND, 99, 0x7f, "Opcode { at: 101 }"), // an extended opcode that passes the table
        (MADE_BY_HAND, 113, 2, "Opcode { at: 116 }"), // an operand that isn't there
    ];
    for (table, place, byte, want) in rows {
        let section = section_with(rt.alloc(), table, place, byte)?;
        let fault = read(rt.alloc(), &section).err().ok_or("it is read")?;
        let text = format!(in rt.alloc(); "{fault:?}")?;
        assert_eq!(rt; text.as_str(), want, "{place}");
    }
    let reserved = read(rt.alloc(), b"abc\xf0\xff\xff\xff").err();
    assert_eq!(rt; reserved, Some(LineFault::Header { at: 3 }));
    Ok(())
}
