//! The programs against bytes that are stated, and against what `readelf` and `addr2line` print of them.

use om_base::{u16_at, u32_at};
use om_elf::read_elf;
use om_image::{Program, Which, small_specimen, worked};
use om_names::{Debug, read_debug};
use std::alloc::{AllocError, Global};
use std::test::Fail;

/// P: the ELF header, the program header, and the five instructions.
const COUNTDOWN_FILE: &[u8] = b"\x7fELF\x01\x01\x01\0\0\0\0\0\0\0\0\0\
    \x02\0\xf3\0\x01\0\0\0\0\0\x01\0\x34\0\0\0\
    \0\0\0\0\0\0\0\0\x34\0\x20\0\x01\0\0\0\
    \0\0\0\0\
    \x01\0\0\0\x54\0\0\0\0\0\x01\0\0\0\x01\0\
    \x14\0\0\0\x14\0\0\0\x05\0\0\0\x04\0\0\0\
    \x13\x05\x30\0\x13\x05\xf5\xff\xe3\x1e\x05\xfe\x93\x08\xd0\x05\x73\0\0\0";

#[test]
fn the_countdown_is_104_stated_bytes(rt: HostRuntime) -> Result<(), Fail> {
    let program = worked(rt.alloc(), Which::P)?;
    assert_eq!(rt; program.elf.bytes(), COUNTDOWN_FILE);
    assert_eq!(rt; program.input.bytes().len(), 0);
    assert_eq!(rt; program.truth.len(), 0);
    Ok(())
}

/// What `readelf -h -S` prints of a program: its size, the start of the section headers and their number,
/// and of the last section, whose header stands at a place, the offset and size.
fn printed(alloc: Global, program: &Program, last_header: usize) -> Result<String, Fail> {
    let elf = program.elf.bytes();
    let header = elf.get(last_header..).ok_or("no header")?;
    let (size, headers, count) = (elf.len(), u32_at(elf, 32)?, u16_at(elf, 48)?);
    let (offset, length) = (u32_at(header, 16)?, u32_at(header, 20)?);
    Ok(format!(in alloc; "{size} {headers} {count} {offset:x} {length:x}")?)
}

#[test]
fn sections_are_where_readelf_finds_them(rt: HostRuntime) -> Result<(), Fail> {
    let read = worked(rt.alloc(), Which::G)?;
    let shown = printed(rt.alloc(), &read, 425)?;
    assert_eq!(rt; shown.as_str(), "465 305 4 10c 25");
    assert_eq!(rt; read.input.bytes(), b"\x07\0\0\0".as_slice());

    let blocks = worked(rt.alloc(), Which::B)?;
    let shown = printed(rt.alloc(), &blocks, 468)?;
    assert_eq!(rt; shown.as_str(), "508 308 5 101 33");
    assert_eq!(rt; worked(rt.alloc(), Which::M)?.elf.bytes().len(), 108);
    Ok(())
}

#[test]
fn the_small_specimen_has_a_truth(rt: HostRuntime) -> Result<(), Fail> {
    let small = small_specimen(rt.alloc())?;
    let shown = printed(rt.alloc(), &small, 701)?;
    assert_eq!(rt; shown.as_str(), "741 501 6 1b7 3e");
    let truth = [(0, 26), (1, 10), (2, 10), (3, 10)];
    assert_eq!(rt; small.truth.as_slice(), truth.as_slice());
    assert_eq!(rt; small.input.bytes().len(), 0);
    Ok(())
}

/// The line of each word of the small specimen as `readelf --debug-dump=decodedline` prints it. `addr2line`
/// says the same of a copy that has a section of the code, and that the words around have none.
const SMALL_LINES: &[u8] = b"\
    65532 -\n\
    65536 specimen.c:1\n\
    65540 specimen.c:2\n\
    65544 specimen.c:3\n\
    65548 specimen.c:4\n\
    65552 specimen.c:5\n\
    65556 specimen.c:6\n\
    65560 specimen.c:7\n\
    65564 specimen.c:8\n\
    65568 specimen.c:9\n\
    65572 specimen.c:10\n\
    65576 specimen.c:11\n\
    65580 specimen.c:12\n\
    65584 specimen.c:13\n\
    65588 specimen.c:14\n\
    65592 specimen.c:15\n\
    65596 specimen.c:16\n\
    65600 specimen.c:17\n\
    65604 specimen.c:18\n\
    65608 specimen.c:19\n\
    65612 specimen.c:20\n\
    65616 -\n";

/// Adds an address with its file and line, `-` where there is none.
fn put_line(text: &mut Vec<u8>, debug: &Debug<'_>, pc: u32) -> Result<(), AllocError> {
    text.extend_from_slice(itoa::Buffer::new().format(pc).as_bytes())?;
    text.push(b' ')?;
    match (debug.file_at(pc), debug.line_at(pc)) {
        (Some(file), Some(row)) => {
            text.extend_from_slice(file.bytes())?;
            text.push(b':')?;
            text.extend_from_slice(itoa::Buffer::new().format(row.line).as_bytes())?;
        }
        _ => text.push(b'-')?,
    }
    text.push(b'\n')?;
    Ok(())
}

/// The lines of the words of the small specimen, and of one before and one behind them.
fn lines_of_words(alloc: Global, file: &[u8]) -> Result<Vec<u8>, Fail> {
    let elf = read_elf(alloc, file)?;
    let debug = read_debug(alloc, &elf)?;
    let mut text = Vec::new(alloc);
    for pc in 65_532..65_617 {
        if pc % 4 == 0 {
            put_line(&mut text, &debug, pc)?;
        }
    }
    Ok(text)
}

#[test]
fn each_word_of_the_small_specimen_has_its_line(rt: HostRuntime) -> Result<(), Fail> {
    let small = small_specimen(rt.alloc())?;
    let lines = lines_of_words(rt.alloc(), small.elf.bytes())?;
    assert_eq!(rt; lines.as_slice(), SMALL_LINES);
    Ok(())
}

/// The rule for the frame at each word of the small specimen, which `readelf --debug-dump=frames-interp` prints of
/// `down`, and of a word before it and behind it. Register 2 is sp, and 8 is s0.
const SMALL_RULES: &[u8] = b"\
    65552 -\n\
    65556 2+0\n\
    65560 2+32\n\
    65564 2+32\n\
    65568 2+32\n\
    65572 8+0\n\
    65576 8+0\n\
    65580 8+0\n\
    65584 8+0\n\
    65588 8+0\n\
    65592 8+0\n\
    65596 8+0\n\
    65600 8+0\n\
    65604 8+0\n\
    65608 2+32\n\
    65612 2+0\n\
    65616 -\n";

/// Adds an address with the rule for the frame there, `-` where there is none.
fn put_rule(text: &mut Vec<u8>, debug: &Debug<'_>, pc: u32) -> Result<(), AllocError> {
    text.extend_from_slice(itoa::Buffer::new().format(pc).as_bytes())?;
    text.push(b' ')?;
    match debug.cfa(pc) {
        Some((register, offset)) => {
            text.extend_from_slice(itoa::Buffer::new().format(register).as_bytes())?;
            text.push(b'+')?;
            text.extend_from_slice(itoa::Buffer::new().format(offset).as_bytes())?;
        }
        None => text.push(b'-')?,
    }
    text.push(b'\n')?;
    Ok(())
}

/// The rules of the words of `down` in the small specimen, of one before and of one behind them.
fn rules_of_words(alloc: Global, file: &[u8]) -> Result<Vec<u8>, Fail> {
    let elf = read_elf(alloc, file)?;
    let debug = read_debug(alloc, &elf)?;
    let mut text = Vec::new(alloc);
    for pc in 65_552..65_617 {
        if pc % 4 == 0 {
            put_rule(&mut text, &debug, pc)?;
        }
    }
    Ok(text)
}

#[test]
fn each_word_of_the_small_specimen_has_its_rule(rt: HostRuntime) -> Result<(), Fail> {
    let small = small_specimen(rt.alloc())?;
    let rules = rules_of_words(rt.alloc(), small.elf.bytes())?;
    assert_eq!(rt; rules.as_slice(), SMALL_RULES);
    Ok(())
}
