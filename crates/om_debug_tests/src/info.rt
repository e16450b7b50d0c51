//! What is told of executables: of a worked program, and of one made by hand.

ghost use Rattle.std.specs.Prelude.{All, IfOk};
ghost use Rattle.om_elf.specs.Piece.{IsShort};

use crate::made::section;
use om_base::{Items, MOST_BYTES, NoMemory, Text};
use om_elf::{Elf, Segment, read_elf};
use om_image::{Which, worked};
use om_info::info_text;
use om_names::read_debug;
use std::alloc::Global;
use std::test::Fail;

/// What is told of an executable.
fn told(alloc: Global, elf: &Elf<'_>) -> Result<Text, Fail>
    requires { All IsShort elf.now.sections }
{
    let debug = read_debug(alloc, elf)?;
    Ok(info_text(alloc, elf, &debug)?)
}

#[test]
fn a_worked_program_has_a_counter(rt: HostRuntime) -> Result<(), Fail> {
    let program = worked(rt.alloc(), Which::G)?;
    let elf = read_elf(rt.alloc(), program.elf.bytes())?;
    let text = told(rt.alloc(), &elf)?;
    let want = b"entry 65536\nsegments 2\nunits 1\nskipped 0\nfunctions 0\nvariables 1\n\
        variable counter -2147483648 2147483647\n";
    assert_eq!(rt; text.bytes(), want.as_slice());
    Ok(())
}

/// Abbreviations by their codes: 1 is a unit, 2 a function with a lowest address and a size, 5 a base type
/// with a size and an encoding, and 6 a variable with a type and a location.
const ABBREVIATIONS: &[u8] = b"\
    \x01\x11\x01\0\0\
    \x02\x2e\0\x03\x08\x11\x01\x12\x06\0\0\
    \x05\x24\0\x0b\x0b\x3e\x0b\x03\x08\0\0\
    \x06\x34\0\x03\x08\x49\x13\x02\x18\0\0\
    \0";

/// A unit: at 12 a signed type of 4 bytes, at 19 a type of floating-point numbers, at 24 an unsigned one of
/// a byte; a function; two variables n at two addresses; one of the type at 19; and one of the type at 24,
/// whose name is a tab and a backslash. Then a unit of version 5.
const VARIABLES: &[u8] = b"\
    \x5a\0\0\0\x04\0\0\0\0\0\x04\
    \x01\
    \x05\x04\x05int\0\
    \x05\x04\x04f\0\
    \x05\x01\x08u\0\
    \x02m\0\0\0\x01\0\x14\0\0\0\
    \x06n\0\x0c\0\0\0\x05\x03\0\0\x02\0\
    \x06n\0\x0c\0\0\0\x05\x03\x04\0\x02\0\
    \x06f\0\x13\0\0\0\x05\x03\x08\0\x02\0\
    \x06\t\\\0\x18\0\0\0\x05\x03\x0c\0\x02\0\
    \0\
    \x07\0\0\0\x05\0\0\0\0\0\x04";

/// A segment of so many bytes, which are zeros.
fn segment<'a>(vaddr: u32, memsz: u32) -> Segment<'a> {
    Segment {
        vaddr,
        memsz,
        rights: 6,
        bytes: &[],
    }
}

/// An executable with these entries, a segment of 4 bytes and one of none, unless the entries are too long.
fn elf_of<'a>(alloc: Global, info: &'a [u8]) -> Result<Elf<'a>, NoMemory>
    ensures { IfOk result (λ elf. All IsShort elf.sections) }
{
    if info.len() as u64 > MOST_BYTES {
        return Err(NoMemory);
    }
    let segments = vec![in alloc; segment(0x2_0000, 4), segment(0x3_0000, 0)]?;
    let sections = vec![in alloc;
        section(b".debug_info", info),
        section(b".debug_abbrev", ABBREVIATIONS),
    ]?;
    Ok(Elf {
        entry: 4096,
        flags: 0,
        segments: Items::from_vec(segments),
        sections: Items::from_vec(sections),
    })
}

#[test]
fn names_are_ambiguous_or_other_or_escaped(rt: HostRuntime) -> Result<(), Fail> {
    let elf = elf_of(rt.alloc(), VARIABLES)?;
    let text = told(rt.alloc(), &elf)?;
    let want = b"entry 4096\nsegments 1\nunits 1\nskipped 1\nfunctions 1\nvariables 3\n\
        variable n ambiguous\nvariable f other\nvariable \\09\\5c 0 255\n";
    assert_eq!(rt; text.bytes(), want.as_slice());
    Ok(())
}
