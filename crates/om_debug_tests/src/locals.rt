//! Local variables of executables made by hand: their names, which of them a name means at an address, and where
//! that is.

use crate::made::{Beside, TYPES, elf_with, put_unit};
use om_cfi::CfiFault;
use om_names::{NamesFault, read_debug};
use std::alloc::Global;
use std::test::Fail;

/// From 65536 on `f`, 64 bytes long, whose frame base is the canonical frame address: its `i` is in a0, and that
/// of a block of 8 bytes from 65544 on in a7.
const NESTED: &[u8] = b"\
    Ff\0\0\0\x01\0\x40\x01\x9c\
    vi\0\x17\x01\x5a\
    B\x08\0\x01\0\x08\
    vi\0\x0e\x01\x61\
    \0\0";

/// The same with a block of a list of ranges.
const LISTED: &[u8] = b"\
    Ff\0\0\0\x01\0\x40\x01\x9c\
    vi\0\x17\x01\x5a\
    R\0\0\0\0\
    vi\0\x0e\x01\x61\
    \0\0";

/// That list: 4 bytes from 65540 on, and 4 from 65568 on.
const LIST: &[u8] = b"\
    \x04\0\x01\0\x08\0\x01\0\
    \x20\0\x01\0\x24\0\x01\0\
    \0\0\0\0\0\0\0\0";

/// `f` with the ranges of that list.
const SPLIT: &[u8] = b"Gf\0\0\0\0\0\x01\x52Pi\0\x17\x01\x5a\0";

/// `f` with no ranges: the list has none from 16 on.
const NOWHERE: &[u8] = b"Gf\0\x10\0\0\0\x01\x52Pi\0\x17\x01\x5a\0";

/// Two blocks of the same ranges, and a block without any.
const BLOCKS: &[u8] = b"\
    Ff\0\0\0\x01\0\x40\x01\x9c\
    B\x08\0\x01\0\x08\
    vi\0\x0e\x01\x61\
    \0\
    B\x08\0\x01\0\x08\
    vi\0\x0e\x01\x62\
    \0\
    k\
    vi\0\x17\x01\x5a\
    \0\0";

/// A block without ranges, and behind it the variable of the function.
const DEEPER: &[u8] = b"\
    Ff\0\0\0\x01\0\x40\x01\x9c\
    k\
    vi\0\x17\x01\x5a\
    \0\
    vi\0\x0e\x01\x61\
    \0";

/// A block whose `i` has a floating-point type.
const FLOATING: &[u8] = b"\
    Ff\0\0\0\x01\0\x40\x01\x9c\
    vi\0\x17\x01\x5a\
    B\x08\0\x01\0\x08\
    vi\0\x23\x01\x61\
    \0\0";

/// The code of `f` once more, in a function of the same name with another frame base.
const TWICE: &[u8] = b"\
    Ff\0\0\0\x01\0\x08\x01\x9c\
    vi\0\x17\x02\x91\x70\
    \0\
    Ff\0\x04\0\x01\0\x40\x02\x72\x10\
    vi\0\x17\x02\x91\x70\
    \0";

/// A variable outside functions with the whole name of a local one.
const FIXED: &[u8] = b"\
    Ff\0\0\0\x01\0\x40\x01\x9c\
    vi\0\x17\x01\x5a\
    \0\
    vf.i\0\x0e\x05\x03\0\0\x02\0";

/// What the first name means at an address, given some entries and range lists.
fn meant(alloc: Global, entries: &[u8], ranges: &[u8], pc: u32) -> Result<String, Fail> {
    let mut info = Vec::new(alloc);
    put_unit(&mut info, TYPES, entries)?;
    let beside = Beside {
        ranges,
        frames: b"",
    };
    let elf = elf_with(alloc, info.as_slice(), beside)?;
    let debug = read_debug(alloc, &elf)?;
    match debug.variable(0, pc) {
        Some(held) => {
            let size = held.kind.size;
            Ok(format!(in alloc; "{:?} {:?} {size}", held.place, held.base)?)
        }
        None => Ok(format!(in alloc; "-")?),
    }
}

#[test]
fn a_local_variable_is_meant_where_its_scope_is(rt: HostRuntime) -> Result<(), Fail> {
    let rows = [
        (NESTED, b"".as_slice(), 65_535, "-"),
        (NESTED, b"", 65_536, "Reg(10) Cfa 4"),
        (NESTED, b"", 65_543, "Reg(10) Cfa 4"),
        (NESTED, b"", 65_544, "Reg(17) Cfa 1"),
        (NESTED, b"", 65_551, "Reg(17) Cfa 1"),
        (NESTED, b"", 65_552, "Reg(10) Cfa 4"),
        (NESTED, b"", 65_599, "Reg(10) Cfa 4"),
        (NESTED, b"", 65_600, "-"),
        (LISTED, LIST, 65_539, "Reg(10) Cfa 4"),
        (LISTED, LIST, 65_540, "Reg(17) Cfa 1"),
        (LISTED, LIST, 65_544, "Reg(10) Cfa 4"),
        (LISTED, LIST, 65_568, "Reg(17) Cfa 1"),
        (LISTED, LIST, 65_572, "Reg(10) Cfa 4"),
        (SPLIT, LIST, 65_536, "-"),
        (SPLIT, LIST, 65_543, "Reg(10) Reg(2) 4"),
        (SPLIT, LIST, 65_544, "-"),
        (SPLIT, LIST, 65_568, "Reg(10) Reg(2) 4"),
        (SPLIT, LIST, 65_572, "-"),
        (NOWHERE, LIST, 65_540, "-"),
    ];
    for (entries, ranges, pc, want) in rows {
        let meant = meant(rt.alloc(), entries, ranges, pc)?;
        assert_eq!(rt; meant.as_str(), want, "{entries:?} {pc}");
    }
    Ok(())
}

#[test]
fn the_deepest_is_meant_and_of_equals_the_first(rt: HostRuntime) -> Result<(), Fail> {
    let rows = [
        (BLOCKS, 65_540, "Reg(10) Cfa 4"),
        (BLOCKS, 65_544, "Reg(17) Cfa 1"),
        (DEEPER, 65_544, "Reg(10) Cfa 4"),
        (FLOATING, 65_540, "Reg(10) Cfa 4"),
        (FLOATING, 65_544, "-"),
        (FLOATING, 65_552, "Reg(10) Cfa 4"),
        (TWICE, 65_536, "Frame(-16) Cfa 4"),
        (TWICE, 65_543, "Frame(-16) Cfa 4"),
        (TWICE, 65_544, "Frame(-16) RegPlus(2, 16) 4"),
        (FIXED, 65_544, "Fixed(131072) Gone 1"),
        (FIXED, 0, "Fixed(131072) Gone 1"),
    ];
    for (entries, pc, want) in rows {
        let meant = meant(rt.alloc(), entries, b"", pc)?;
        assert_eq!(rt; meant.as_str(), want, "{entries:?} {pc}");
    }
    Ok(())
}

/// The names of the variables of some entries.
fn names(alloc: Global, entries: &[u8]) -> Result<String, Fail> {
    let mut info = Vec::new(alloc);
    put_unit(&mut info, TYPES, entries)?;
    let beside = Beside {
        ranges: LIST,
        frames: b"",
    };
    let elf = elf_with(alloc, info.as_slice(), beside)?;
    let debug = read_debug(alloc, &elf)?;
    let mut text = String::new(alloc);
    for known in debug.catalog().as_slice() {
        for piece in <[&[u8]; 3]>::from(known.name.pieces()) {
            let piece = String::from_utf8_lossy(alloc, piece)?;
            text.push_str(&piece)?;
        }
        text.push(' ')?;
    }
    Ok(text)
}

#[test]
fn a_local_variable_is_named_by_its_function(rt: HostRuntime) -> Result<(), Fail> {
    let rows = [
        // A parameter, and a variable behind it; a function without code.
        (
            b"Ff\0\0\0\x01\0\x40\x01\x9cPn\0\x17\x01\x5avi\0\x17\x01\x5a\0\
            Gg\0\x10\0\0\0\x01\x9cPi\0\x17\x01\x5a\0"
                .as_slice(),
            "f.n f.i g.i ",
        ),
        // A variable and a parameter of an inlined subroutine, a block in it, and one behind it.
        (
            b"Ff\0\0\0\x01\0\x40\x01\x9cI\x08\0\x01\0\x08Pn\0\x17\x01\x5avi\0\x17\x01\x5a\
            B\x08\0\x01\0\x08vj\0\x17\x01\x5a\0\0vk\0\x17\x01\x5a\0",
            "f.k ",
        ),
        // A function in a function.
        (
            b"Ff\0\0\0\x01\0\x40\x01\x9cFg\0\x08\0\x01\0\x08\x01\x9cPn\0\x17\x01\x5a\0vi\0\x17\x01\x5a\0",
            "g.n f.i ",
        ),
        // A function without a name.
        (b"U\0\0\x01\0\x40Pn\0\x17\x01\x5a\0", ""),
        // A variable and a parameter without names; a mere declaration, one without a location, one with a list of
        // them, and one without a type.
        (
            b"Ff\0\0\0\x01\0\x40\x01\x9cu\x17\x01\x5aq\x17di\0\x17\x01\x01\x5anj\0\x17lk\0\x17\0\0\0\0\
            yl\0\x01\x5a\0",
            "f.i f.j f.k f.l ",
        ),
        // The name of an entry that another one is told on by: at 38, outside functions, without a location.
        (
            b"nn\0\x17Ff\0\0\0\x01\0\x40\x01\x9ca\x26\0\0\0\x01\x5a\0",
            "f.n ",
        ),
    ];
    for (entries, want) in rows {
        let names = names(rt.alloc(), entries)?;
        assert_eq!(rt; names.as_str(), want, "{entries:?}");
    }
    Ok(())
}

/// Why an executable with these entries and frames is refused, if it is.
fn fault_of(alloc: Global, entries: &[u8], frames: &[u8]) -> Result<Option<NamesFault>, Fail> {
    let mut info = Vec::new(alloc);
    put_unit(&mut info, TYPES, entries)?;
    let beside = Beside {
        ranges: b"",
        frames,
    };
    let elf = elf_with(alloc, info.as_slice(), beside)?;
    Ok(read_debug(alloc, &elf).err())
}

#[test]
fn frames_are_judged_before_types(rt: HostRuntime) -> Result<(), Fail> {
    // A typedef of itself, and a parameter that needs it.
    let looping = b"t\x26q\x26";
    let rows = [
        (b"".as_slice(), b"".as_slice(), None),
        (looping, b"", Some(NamesFault::TypeLoop { at: 40 })),
        (
            looping,
            b"\x04\0\0\0",
            Some(NamesFault::Frame(CfiFault::Short { at: 0 })),
        ),
        (
            looping,
            b"\x0c\0\0\0\x04\0\0\0\0\0\x01\0\x10\0\0\0",
            Some(NamesFault::Frame(CfiFault::Cie { at: 0 })),
        ),
    ];
    for (entries, frames, want) in rows {
        let fault = fault_of(rt.alloc(), entries, frames)?;
        assert_eq!(rt; fault, want, "{frames:?}");
    }
    Ok(())
}
