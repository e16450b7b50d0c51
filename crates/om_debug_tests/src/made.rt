//! Executables made by hand: units of debugging information, and a segment of 36 bytes.

ghost use Rattle.std.specs.Prelude.{◌≡◌, ◌<◌, ◌^◌, length, true, All, IfOk};
ghost use Rattle.om_elf.specs.Image.{AreLoadable};
ghost use Rattle.om_elf.specs.Piece.{IsShort};

use om_base::{Items, MOST_BYTES, Name, NoMemory};
use om_elf::{Elf, Section, Segment};
use std::alloc::{AllocError, Global};

/// Abbreviations by their codes, which are letters. A type is given as an offset in the unit, in a byte.
///
/// With children: `f` is a subprogram, `k` a lexical block, and `m` a namespace.
///
/// Types: `b` is a base type with a size and an encoding; `p` a pointer type, `e` an enumeration and `r` a
/// structure, each with a size; `E` an enumeration without one; `t` a typedef, `c` a const, `w` a volatile
/// and `x` a restrict type; and `o` a const type of no type.
///
/// Variables: `v` has a name, a type and a location; `d` besides whether it is a mere declaration; `u` has no
/// name, `y` no type, and `n` no location; `l` has a list of locations; `a` is told by an abstract origin
/// and `g` by a specification, and has a location. `q` is a formal parameter with a type.
///
/// With code of their own: `F` is a subprogram with a name, a lowest address, a size in a byte and a frame
/// base, and `G` one with a name, a list of ranges and a frame base; `U` is a subprogram, `B` a lexical block and
/// `I` an inlined subroutine, each with a lowest address and a size; `R` is a lexical block with a list of ranges.
/// `P` is a formal parameter with a name, a type and a location.
const ABBREVIATIONS: &[u8] = b"\
    f\x2e\x01\0\0\
    k\x0b\x01\0\0\
    m\x39\x01\0\0\
    b\x24\0\x0b\x0b\x3e\x0b\0\0\
    p\x0f\0\x0b\x0b\0\0\
    e\x04\0\x0b\x0b\0\0\
    r\x13\0\x0b\x0b\0\0\
    E\x04\0\0\0\
    t\x16\0\x49\x11\0\0\
    c\x26\0\x49\x11\0\0\
    w\x35\0\x49\x11\0\0\
    x\x37\0\x49\x11\0\0\
    o\x26\0\0\0\
    v\x34\0\x03\x08\x49\x11\x02\x18\0\0\
    d\x34\0\x03\x08\x49\x11\x3c\x0c\x02\x18\0\0\
    u\x34\0\x49\x11\x02\x18\0\0\
    y\x34\0\x03\x08\x02\x18\0\0\
    n\x34\0\x03\x08\x49\x11\0\0\
    l\x34\0\x03\x08\x49\x11\x02\x17\0\0\
    a\x34\0\x31\x10\x02\x18\0\0\
    g\x34\0\x47\x10\x02\x18\0\0\
    q\x05\0\x49\x11\0\0\
    F\x2e\x01\x03\x08\x11\x01\x12\x0b\x40\x18\0\0\
    G\x2e\x01\x03\x08\x55\x17\x40\x18\0\0\
    U\x2e\x01\x11\x01\x12\x0b\0\0\
    B\x0b\x01\x11\x01\x12\x0b\0\0\
    I\x1d\x01\x11\x01\x12\x0b\0\0\
    R\x0b\x01\x55\x17\0\0\
    P\x05\0\x03\x08\x49\x11\x02\x18\0\0\
    \0";

/// Where the segment begins.
const SEGMENT_AT: u32 = 0x2_0000;

/// What it begins with: eight bytes 255; the least and the greatest number of 8 bytes with a sign; and eight
/// bytes that differ. The last four bytes of the segment are zeros.
const SEGMENT: &[u8] = b"\
    \xff\xff\xff\xff\xff\xff\xff\xff\
    \0\0\0\0\0\0\0\x80\
    \xff\xff\xff\xff\xff\xff\xff\x7f\
    \x01\x02\x03\x04\x05\x06\x07\x88";

/// The types of a unit. At 11 and 14 those of a byte, with a sign and without, at 17 and 20 those of 2 bytes, at
/// 23 and 26 of 4, at 29 and 32 of 8; at 35 a floating-point type. The entries behind them begin at 38.
pub(crate) const TYPES: &[u8] = b"\
    b\x01\x06\
    b\x01\x08\
    b\x02\x05\
    b\x02\x07\
    b\x04\x05\
    b\x04\x07\
    b\x08\x05\
    b\x08\x07\
    b\x04\x04";

/// Appends a unit of version 4 of some types and the entries behind them: fewer than 40 bytes, and fewer than
/// 200.
pub(crate) fn put_unit(info: &mut Vec<u8>, types: &[u8], entries: &[u8]) -> Result<(), AllocError> {
    let length = (types.len() % 40) as u8 + (entries.len() % 200) as u8 + 7;
    info.extend_from_slice(&[length, 0, 0, 0, 4, 0, 0, 0, 0, 0, 4])?;
    info.extend_from_slice(types)?;
    info.extend_from_slice(entries)
}

/// A section.
pub(crate) fn section<'a>(name: &'a [u8], bytes: &'a [u8]) -> Section<'a>
    ensures { length result.bytes ≡ length bytes.now }
{
    Section {
        index: 1,
        name: Name::of(name),
        bytes,
    }
}

/// Sections beside that of the units.
#[derive(Clone, Copy, Debug)]
pub(crate) struct Beside<'a> {
    /// `.debug_ranges`
    pub ranges: &'a [u8],
    /// `.debug_frame`
    pub frames: &'a [u8],
}

/// Whether a section of these bytes isn't too long.
fn is_short(bytes: &[u8]) -> bool
    ensures { result ≡ true → length bytes.now < 2 ^ 32 }
{
    bytes.len() as u64 <= MOST_BYTES
}

/// An executable with these units, unless they are too long.
pub(crate) fn elf_of<'a>(alloc: Global, info: &'a [u8]) -> Result<Elf<'a>, NoMemory>
    ensures loadable { IfOk result (λ elf. AreLoadable elf.segments) }
    ensures short { IfOk result (λ elf. All IsShort elf.sections) }
{
    let beside = Beside {
        ranges: b"",
        frames: b"",
    };
    elf_with(alloc, info, beside)
}

/// An executable with these units and the sections beside them, unless one is too long.
pub(crate) fn elf_with<'a>(
    alloc: Global,
    info: &'a [u8],
    beside: Beside<'a>,
) -> Result<Elf<'a>, NoMemory>
    ensures loadable { IfOk result (λ elf. AreLoadable elf.segments) }
    ensures short { IfOk result (λ elf. All IsShort elf.sections) }
{
    if !is_short(info) || !is_short(beside.ranges) || !is_short(beside.frames) {
        return Err(NoMemory);
    }
    let segments = vec![in alloc;
        Segment {
            vaddr: SEGMENT_AT,
            memsz: 36,
            rights: 6,
            bytes: SEGMENT,
        },
    ]?;
    let sections = vec![in alloc;
        section(b".debug_info", info),
        section(b".debug_abbrev", ABBREVIATIONS),
        section(b".debug_ranges", beside.ranges),
        section(b".debug_frame", beside.frames),
    ]?;
    Ok(Elf {
        entry: SEGMENT_AT,
        flags: 0,
        segments: Items::from_vec(segments),
        sections: Items::from_vec(sections),
    })
}
