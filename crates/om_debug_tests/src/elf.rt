//! An executable made by hand after the gABI, and files that differ from it in a few bytes.

use om_elf::read_elf;
use std::alloc::{AllocError, Global};
use std::test::Fail;

/// The ELF header, which tells of three program headers, at 52, and of eight section headers, at 208.
const HEADER: &[u8] = b"\x7fELF\x01\x01\x01\0\0\0\0\0\0\0\0\0\
    \x02\0\xf3\0\x01\0\0\0\0\0\x01\0\x34\0\0\0\
    \xd0\0\0\0\0\0\0\0\x34\0\x20\0\x03\0\x28\0\
    \x08\0\x06\0";

/// At 52, the program headers: of the code at 65536; of a note, which isn't loaded, whose bytes would
/// lie past the file; of the word at 131072, with four zeros after it.
const PROGRAM_HEADERS: &[u8] = b"\
    \x01\0\0\0\x94\0\0\0\0\0\x01\0\0\0\x01\0\x14\0\0\0\x14\0\0\0\x05\0\0\0\x04\0\0\0\
    \x04\0\0\0\0\0\0\xff\0\0\x01\0\0\0\x01\0\x01\0\0\0\x04\0\0\0\x04\0\0\0\x04\0\0\0\
    \x01\0\0\0\xa8\0\0\0\0\0\x02\0\0\0\x03\0\x04\0\0\0\x08\0\0\0\x0e\0\0\0\x04\0\0\0";

/// At 148, a loop that counts `a0` down from 3, then `exit`.
const CODE: &[u8] = b"\x13\x05\x30\0\x13\x05\xf5\xff\xe3\x1e\x05\xfe\x93\x08\xd0\x05\x73\0\0\0";

/// The last two instructions of the code, from 160 on.
const TAIL: &[u8] = b"\x93\x08\xd0\x05\x73\0\0\0";

/// The last one, from 164 on.
const EXIT: &[u8] = b"\x73\0\0\0";

/// At 168, the word.
const WORD: &[u8] = b"\x78\x56\x34\x12";

/// At 172, the names of sections.
const NAMES: &[u8] = b"\0.text\0.debug_info\0.bss\0.shstrtab\0";

/// At 208, the section headers: none; the code; the word; one of type `SHT_NULL`; one of type
/// `SHT_NOBITS`, of 2 GiB; part of the code, whose name is the tail of another; the names; `exit`.
const SECTION_HEADERS: &[u8] = b"\
    \0\0\0\0\0\0\0\0\0\0\0\0\0\0\0\0\0\0\0\0\0\0\0\0\0\0\0\0\0\0\0\0\0\0\0\0\0\0\0\0\
    \x01\0\0\0\x01\0\0\0\x06\0\0\0\0\0\x01\0\x94\0\0\0\x14\0\0\0\0\0\0\0\0\0\0\0\x04\0\0\0\0\0\0\0\
    \x07\0\0\0\x01\0\0\0\0\0\0\0\0\0\0\0\xa8\0\0\0\x04\0\0\0\0\0\0\0\0\0\0\0\x01\0\0\0\0\0\0\0\
    \x63\0\0\0\0\0\0\0\0\0\0\0\0\0\0\0\0\0\0\xff\x01\0\0\0\0\0\0\0\0\0\0\0\0\0\0\0\0\0\0\0\
    \x13\0\0\0\x08\0\0\0\x03\0\0\0\x04\0\x02\0\0\0\0\xff\xff\xff\xff\x7f\0\0\0\0\0\0\0\0\x04\0\0\0\0\0\0\0\
    \x0e\0\0\0\x01\0\0\0\0\0\0\0\0\0\0\0\xa0\0\0\0\x08\0\0\0\0\0\0\0\0\0\0\0\x01\0\0\0\0\0\0\0\
    \x18\0\0\0\x03\0\0\0\0\0\0\0\0\0\0\0\xac\0\0\0\x22\0\0\0\0\0\0\0\0\0\0\0\x01\0\0\0\0\0\0\0\
    \x01\0\0\0\x01\0\0\0\x06\0\0\0\0\0\x01\0\xa4\0\0\0\x04\0\0\0\0\0\0\0\0\0\0\0\x04\0\0\0\0\0\0\0";

/// The executable, of 528 bytes. `readelf -S` shows its sections as the tests want them.
fn countdown(alloc: Global) -> Result<Vec<u8>, AllocError> {
    let mut file = Vec::from_slice(alloc, HEADER)?;
    file.extend_from_slice(PROGRAM_HEADERS)?;
    file.extend_from_slice(CODE)?;
    file.extend_from_slice(WORD)?;
    file.extend_from_slice(NAMES)?;
    file.extend_from_slice(b"\0\0")?;
    file.extend_from_slice(SECTION_HEADERS)?;
    Ok(file)
}

/// The executable after edits, each a byte's place and what is put there.
fn edited(alloc: Global, edits: &str) -> Result<Vec<u8>, Fail> {
    let mut file = countdown(alloc)?;
    for edit in edits.split(' ') {
        let (at, byte) = edit.split_once('=').ok_or("no edit")?;
        let at: usize = at.parse()?;
        let byte: u8 = byte.parse()?;
        let place = file.get_mut(at).ok_or("no such place")?;
        *place = byte;
    }
    Ok(file)
}

#[test]
fn segments_are_read_in_header_order(rt: HostRuntime) -> Result<(), Fail> {
    let file = countdown(rt.alloc())?;
    let elf = read_elf(rt.alloc(), file.as_slice())?;
    assert_eq!(rt; (elf.entry, elf.flags), (65536, 0));
    let rows = [(65536, 20, 5, CODE), (131072, 8, 6, WORD)];
    assert_eq!(rt; elf.segments.len(), rows.len());
    for (segment, row) in elf.segments.as_slice().iter().zip(rows) {
        let (vaddr, memsz, rights, bytes) = row;
        assert_eq!(rt;
            (segment.vaddr, segment.memsz, segment.rights),
            (vaddr, memsz, rights)
        );
        assert_eq!(rt; segment.bytes, bytes);
    }
    Ok(())
}

#[test]
fn sections_are_read_in_header_order(rt: HostRuntime) -> Result<(), Fail> {
    let file = countdown(rt.alloc())?;
    let elf = read_elf(rt.alloc(), file.as_slice())?;
    let rows = [
        (1, b".text".as_slice(), CODE),
        (2, b".debug_info", WORD),
        (4, b".bss", b""),
        (5, b"info", TAIL),
        (6, b".shstrtab", NAMES),
        (7, b".text", EXIT),
    ];
    assert_eq!(rt; elf.sections.len(), rows.len());
    for (section, row) in elf.sections.as_slice().iter().zip(rows) {
        let (index, name, bytes) = row;
        assert_eq!(rt; section.index, index);
        assert_eq!(rt; section.name.bytes(), name);
        assert_eq!(rt; section.bytes, bytes);
    }
    assert_eq!(rt; elf.section(b".text"), Some(CODE));
    assert_eq!(rt; elf.section(b"info"), Some(TAIL));
    assert_eq!(rt; elf.section(b""), None);
    Ok(())
}

#[test]
fn without_names_every_name_is_empty(rt: HostRuntime) -> Result<(), Fail> {
    // No section of names, and `SHF_COMPRESSED` on what was `.debug_info`.
    let file = edited(rt.alloc(), "50=0 297=8")?;
    let elf = read_elf(rt.alloc(), file.as_slice())?;
    assert_eq!(rt; elf.sections.len(), 6);
    assert_eq!(rt; elf.section(b""), Some(CODE));
    assert_eq!(rt; elf.section(b".text"), None);
    Ok(())
}

/// Edits, what is said of the file after them, and why. What is out of order is told last.
const RULES: &str = "\
3=71 4=2; Magic; before the class
4=2; Class; 64-bit
5=2 16=3; Class; big-endian
16=3 18=62; Kind; a shared object
18=62 36=1; Machine; x86-64
36=1 44=4; Flags; compressed instructions
36=2; Flags; single-precision floats
36=4; Flags; double-precision floats
36=8; Flags; RVE
36=16; read; TSO
42=40 46=41; Table { index: 0 }; both sizes of entries
29=2 32=209; Table { index: 0 }; program headers from 564 on
44=0 42=0 31=255; read; no program headers
46=41 50=8; Table { index: 1 }; before the section of names
48=9; Table { index: 1 }; one section header too many
48=0 46=0 35=255 50=9; read; no section headers
50=8 57=2; Table { index: 2 }; no such section
50=4; Table { index: 2 }; names of type SHT_NOBITS
50=3; Table { index: 2 }; names of type SHT_NULL
468=101 469=1 57=2; Table { index: 2 }; names up to 529
468=100 469=1; read; names up to 528
56=253 57=1; Table { index: 100 }; a segment up to 529
56=252 57=1; read; a segment up to 528
72=19; Table { index: 100 }; more bytes than memory
60=236 61=255 62=255 63=255; read; up to the last address
60=237 61=255 62=255 63=255; Table { index: 100 }; past the last address
84=1; Table { index: 101 }; the note, to be loaded
132=9 126=1 265=2; Table { index: 102 }; before a section
264=253 265=1 304=34; Table { index: 100001 }; a section up to 529
264=252 265=1; read; a section up to 528
264=17 265=2 268=0; Table { index: 100001 }; no bytes from 529 on
264=16 265=2 268=0; read; no bytes from 528 on
252=8 267=255; read; SHT_NOBITS from anywhere on
252=0 267=255 248=34; read; SHT_NULL
248=33; read; an empty name
248=34; Table { index: 100001 }; a name past the names
468=33; Table { index: 100006 }; a name that the names end before
368=34; Table { index: 100004 }; the name of an SHT_NOBITS
307=2 126=1; Table { index: 100002 }; before an overlap
126=1; Overlap { a: 0, b: 2 }; both at 65536
124=19 126=1 297=8; Overlap { a: 0, b: 2 }; before a compressed section
124=20 126=1; read; side by side
124=4 126=1 132=0 136=0; read; of no bytes
84=1 91=0 126=1; Overlap { a: 0, b: 1 }; the first of three
62=3 84=1 91=0 126=1; Overlap { a: 1, b: 2 }; the others
139=2 297=8; TooBig; before a compressed section
136=236 137=255 138=255 139=1; read; 32 MiB
136=237 137=255 138=255 139=1; TooBig; 32 MiB and a byte
297=8; Compressed { section: 2 }; of debug information
297=8 292=0; read; of type SHT_NULL
297=247 296=255; read; all other flags
257=8; read; not of debug information
297=8 185=45; read; not .debug_
180=122 181=100 182=101 183=98 184=117 185=103 186=95; Compressed { section: 2 }; .zdebug_fo
52=0 116=2; read; nothing to be loaded
64=9 80=255; read; the physical address and the alignment
24=1; read; an odd entry";

/// What is said of an executable.
fn said(alloc: Global, file: &[u8]) -> Result<String, AllocError> {
    match read_elf(alloc, file) {
        Ok(_) => format!(in alloc; "read"),
        Err(fault) => format!(in alloc; "{fault:?}"),
    }
}

#[test]
fn each_rule_names_its_fault(rt: HostRuntime) -> Result<(), Fail> {
    for rule in RULES.lines() {
        let (edits, rest) = rule.split_once("; ").ok_or("no rule")?;
        let (want, _) = rest.split_once("; ").ok_or("no reason")?;
        let file = edited(rt.alloc(), edits)?;
        let said = said(rt.alloc(), file.as_slice())?;
        assert_eq!(rt; said.as_str(), want, "{rule}");
    }
    Ok(())
}

#[test]
fn a_file_that_ends_early_is_refused(rt: HostRuntime) -> Result<(), Fail> {
    let file = countdown(rt.alloc())?;
    let rows = [
        (0, "Short"),
        (51, "Short"),
        (52, "Table { index: 0 }"),
        (147, "Table { index: 0 }"),
        (148, "Table { index: 1 }"),
        (527, "Table { index: 1 }"),
        (528, "read"),
    ];
    for (len, want) in rows {
        let start = file.get(..len).ok_or("no such place")?;
        assert_eq!(rt; said(rt.alloc(), start)?.as_str(), want, "{len} bytes");
    }
    // A header alone, of no other headers, is an executable.
    let file = edited(rt.alloc(), "44=0 48=0")?;
    let header = file.get(..52).ok_or("no such place")?;
    assert_eq!(rt; said(rt.alloc(), header)?.as_str(), "read");
    Ok(())
}
