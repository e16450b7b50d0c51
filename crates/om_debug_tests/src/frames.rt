//! What `.debug_frame` tells at addresses, and why it is refused. What is told was worked out by another
//! reader of such sections.

use om_base::NoMemory;
use om_cfi::{CfiFault, Frames, read_frames};
use std::alloc::Global;
use std::test::Fail;

/// A function that makes room of 32 bytes, sets its frame pointer, and takes both back.
static WORKED: &[u8; 46] = b"\
    \x0c\0\0\0\xff\xff\xff\xff\x01\0\x01|\x01\x0c\x02\0\
    \x1a\0\0\0\0\0\0\0L\0\x01\0<\0\0\0D\x0e L\x0c\x08\0d\
    \x0c\x02 D\x0e\0";

/// Version 4, with a return address register of two bytes. Advances count by 2, and signed offsets by -8.
static SCALED: &[u8; 56] = b"\
    \x0f\0\0\0\xff\xff\xff\xff\x04\0\x04\0\x02x\x81\0\x12\x02~\
    !\0\0\0\0\0\0\0\0\x01\0\0\0\x10\0\0B\x13\x03\x02\x04\x12\x08\x9c\
    \x7f\x03\0\x01\x0e\x05\x04\x10\0\0\0\x0d\x04";

/// Entries that give no rule: by the size of an address, by that of a segment selector, by the version and by an augmentation. Their descriptions hold no address, and may break off.
static RULELESS: &[u8; 212] = b"\
    \x0e\0\0\0\xff\xff\xff\xff\x04\0\x08\0\x01|\x01\x0c\x02\0\
    \x0e\0\0\0\xff\xff\xff\xff\x04\0\x04\x01\x01|\x01\x0c\x02\0\
    \x0c\0\0\0\xff\xff\xff\xff\x02\0\x01|\x01\x0c\x02\0\
    \x09\0\0\0\xff\xff\xff\xff\x01zR\0\x80\
    \x0d\0\0\0\xff\xff\xff\xff\x03\0\x01|\x81\0\x0c\x02\0\
    \x06\0\0\0\0\0\0\0\0\0\
    \x06\0\0\0\x12\0\0\0\0\0\
    \x06\0\0\0$\0\0\0\0\0\
    \x06\0\0\04\0\0\0\0\0\
    \x0e\0\0\0\0\0\0\0\x10\0\0\0\x10\0\0\0\x0e\0\
    \x0e\0\0\0\x12\0\0\0\x10\0\0\0 \0\0\0\x0e\x10\
    \x0e\0\0\0$\0\0\0\x10\0\0\00\0\0\0\x0e \
    \x0e\0\0\04\0\0\0\x10\0\0\0@\0\0\0\x0e0\
    \x0e\0\0\0A\0\0\0\x10\0\0\0P\0\0\0\x0e@";

/// Two rules are saved in common: first that there is none. A third is taken back, then the others, and then there is none left.
static SAVED: &[u8; 59] = b"\
    \x0e\0\0\0\xff\xff\xff\xff\x01\0\x01|\x01\x0a\x0c\x02\0\x0a\
    %\0\0\0\0\0\0\0\0\x01\0\0 \0\0\0D\x0a\x0c\x08\x10D\x0bD\
    \x0c\x09\0D\x0bD\x0bD\x0c\x02\x08D\x0bD\x0c\x02 ";

/// 64 rules are saved in common: no more can be.
static MANY_SAVED: &[u8; 110] = b"\
    L\0\0\0\xff\xff\xff\xff\x01\0\x01|\x01\x0c\x02\0\x0a\x0a\x0a\x0a\x0a\x0a\x0a\x0a\
    \x0a\x0a\x0a\x0a\x0a\x0a\x0a\x0a\x0a\x0a\x0a\x0a\x0a\x0a\x0a\x0a\x0a\x0a\x0a\x0a\x0a\x0a\x0a\x0a\
    \x0a\x0a\x0a\x0a\x0a\x0a\x0a\x0a\x0a\x0a\x0a\x0a\x0a\x0a\x0a\x0a\x0a\x0a\x0a\x0a\x0a\x0a\x0a\x0a\
    \x0a\x0a\x0a\x0a\x0a\x0a\x0a\x0a\
    \x1a\0\0\0\0\0\0\0\0\x01\0\0\x10\0\0\0D\x0b\x0e\x10\x0aD\x0e \
    D\x0aD\x0c\x02\0";

/// 65 rules are saved in common, so there is none.
static TOO_MANY_SAVED: &[u8; 119] = b"\
    M\0\0\0\xff\xff\xff\xff\x01\0\x01|\x01\x0c\x02\0\x0a\x0a\x0a\x0a\x0a\x0a\x0a\x0a\
    \x0a\x0a\x0a\x0a\x0a\x0a\x0a\x0a\x0a\x0a\x0a\x0a\x0a\x0a\x0a\x0a\x0a\x0a\x0a\x0a\x0a\x0a\x0a\x0a\
    \x0a\x0a\x0a\x0a\x0a\x0a\x0a\x0a\x0a\x0a\x0a\x0a\x0a\x0a\x0a\x0a\x0a\x0a\x0a\x0a\x0a\x0a\x0a\x0a\
    \x0a\x0a\x0a\x0a\x0a\x0a\x0a\x0a\x0a\
    \x0f\0\0\0\0\0\0\0\0\x01\0\0\x10\0\0\0\x0c\x02\0\
    \x0f\0\0\0\0\0\0\0\0\x01\0\0 \0\0\0\x0c\x02\0";

/// Registers 31 and 32, and another one by which the last offset counts again.
static REGISTERS: &[u8; 54] = b"\
    \x0c\0\0\0\xff\xff\xff\xff\x01\0\x01|\x01\x0c\x1f\x04\
    \"\0\0\0\0\0\0\0\0\0\0\0 \0\0\0D\x0c \x08D\x0d\x02D\
    \x0d\xff\xff\xff\xff\xff\xff\xff\xff\xff\x01D\x0d\x09";

/// There is no rule from an opcode on that isn't known, and nothing behind it is looked at. Later descriptions don't count for its addresses.
static UNKNOWN: &[u8; 60] = b"\
    \x0c\0\0\0\xff\xff\xff\xff\x01\0\x01|\x01\x0c\x02\0\
    \x16\0\0\0\0\0\0\0\0\x01\0\0\x10\0\0\0D\x0e\x08D\x17\x0c\x02\0\
    \x0f\x7f\
    \x0e\0\0\0\0\0\0\0\x08\x01\0\0\x10\0\0\0\x0e0";

/// ... also in what descriptions have in common.
static UNKNOWN_IN_COMMON: &[u8; 37] = b"\
    \x0e\0\0\0\xff\xff\xff\xff\x01\0\x01|\x01\x0c\x02\0?\x80\
    \x0f\0\0\0\0\0\0\0\0\x01\0\0\x10\0\0\0\x0c\x02\0";

/// The rule is an expression, until another one is given or taken back. One that only changes gives none for good.
static EXPRESSION: &[u8; 81] = b"\
    \x0c\0\0\0\xff\xff\xff\xff\x01\0\x01|\x01\x0c\x02\0\
    $\0\0\0\0\0\0\0\0\x01\0\0\x18\0\0\0\x0aD\x0f\x02r\0D\x0c\
    \x08\x10D\x0f\0D\x0bD\x0f\x010\x0e\x04\x0c\x02\0\
    \x15\0\0\0\0\0\0\0\0\x02\0\0\x08\0\0\0\x0f\x010D\x0d\x02\x0c\x02\
    \0";

/// The location falls to 0x104, to which it was higher before, rises to 0x110, falls to the first address by an advance that passes 2^32, and rises again.
static FALLS: &[u8; 55] = b"\
    \x0c\0\0\0\xff\xff\xff\xff\x01\0\x01|\x01\x0c\x02\0\
    #\0\0\0\0\0\0\0\0\x01\0\00\0\0\0H\x0e\x08\x01\x04\x01\0\0\
    \x0e\x10L\x0e\x18\x04\xf0\xff\xff\xff\x0e `\x0e(";

/// Of two descriptions the first that has an address counts, also where it has no rule.
static OVERLAP: &[u8; 91] = b"\
    \x0c\0\0\0\xff\xff\xff\xff\x01\0\x01|\x01\x0c\x02\0\
    \x11\0\0\0\0\0\0\0\x08\x01\0\0\x08\0\0\0\x0e\x08D\x0f\0\
    \x0e\0\0\0\0\0\0\0\0\x01\0\0 \0\0\0\x0e\x10\
    \x0e\0\0\0\0\0\0\0\0\x01\0\0(\0\0\0\x0e\x18\
    \x0e\0\0\0\0\0\0\0\0\x01\0\0\0\0\0\0\x0e ";

/// The last addresses of all. Those of the description don't go on at 0.
static HIGHEST: &[u8; 52] = b"\
    \x15\0\0\0\xff\xff\xff\xff\x01\0\xff\xff\xff\xff\xff\xff\xff\xff\xff\x01|\x01\x0c\x02\
    \0\
    \x17\0\0\0\0\0\0\0\xf0\xff\xff\xff \0\0\0\x04\xff\xff\xff\xff\x0e\x08\x02\
    \0\x0e\x10";

/// Instructions that say nothing of the canonical frame address, and entries of no length.
static PASSED_OVER: &[u8; 110] = b"\
    \0\0\0\0\
    \x15\0\0\0\xff\xff\xff\xff\x01\0\x01|\x01\0\x0c\x02\0\x81\x01\xc1\x05\x01\x02\x06\
    \x01\
    \0\0\0\0\
    \0\0\0\0\
    )\0\0\0\x04\0\0\0\0\x01\0\0\x10\0\0\0D\x07\x01\x08\x81\x01\x09\x01\
    \x02\x10\x01\x02PP\x11\x01\x7f\x14\x01\x02\x15\x01\x80\x7f\x16\x01\x01P-\
    \x14\0\0\0\x04\0\0\0\x10\x01\0\0\x10\0\0\0\x0e\x08D\x0a\x0e\x10D\x0b\
    \0\0\0\0";

/// Offsets of 2^63 - 1 and of 1 - 2^63. 2^63 is none.
static FAR: &[u8; 129] = b"\
    \x0c\0\0\0\xff\xff\xff\xff\x01\0\x01\x7f\x01\x0c\x02\0\
    \x16\0\0\0\0\0\0\0\0\x01\0\0\x10\0\0\0\x0e\xff\xff\xff\xff\xff\xff\xff\
    \xff\x7f\
    \x19\0\0\0\0\0\0\0\x10\x01\0\0\x10\0\0\0\x0e\x80\x80\x80\x80\x80\x80\x80\
    \x80\x80\x01\x0e\0\
    \x1b\0\0\0\0\0\0\0 \x01\0\0\x10\0\0\0\x12\x02\x80\x80\x80\x80\x80\x80\
    \x80\x80\x80\x7f\x0c\x02\0\
    \x17\0\0\0\0\0\0\00\x01\0\0\x10\0\0\0\x13\xff\xff\xff\xff\xff\xff\xff\
    \xff\xff\0";

/// A change of the register or of the offset where there is no rule gives none for good.
static NEITHER: &[u8; 99] = b"\
    \x09\0\0\0\xff\xff\xff\xff\x01\0\x01|\x01\
    \x12\0\0\0\0\0\0\0\0\x01\0\0\x08\0\0\0\x0d\x02D\x0c\x02\0\
    \x12\0\0\0\0\0\0\0\x10\x01\0\0\x08\0\0\0\x0e\x02D\x0c\x02\0\
    \x12\0\0\0\0\0\0\0 \x01\0\0\x08\0\0\0\x13\x02D\x0c\x02\0\
    \x10\0\0\0\0\0\0\00\x01\0\0\x08\0\0\0D\x0c\x02\0";

static WORKED_ASKED: &[u32; 12] = &[
    0x1004b, 0x1004c, 0x1004f, 0x10050, 0x1005b, 0x1005c, 0x1007f, 0x10080, 0x10083, 0x10084,
    0x10087, 0x10088,
];

static SCALED_ASKED: &[u32; 12] = &[
    0xff, 0x100, 0x103, 0x104, 0x10b, 0x10c, 0x30b, 0x30c, 0x32b, 0x32c, 0x10ff, 0x1100,
];

static RULELESS_ASKED: &[u32; 6] = &[0xf, 0x10, 0x1f, 0x2f, 0x5f, 0x60];

static SAVED_ASKED: &[u32; 10] = &[
    0x100, 0x104, 0x107, 0x108, 0x10c, 0x110, 0x114, 0x118, 0x11c, 0x11f,
];

static MANY_SAVED_ASKED: &[u32; 5] = &[0x100, 0x104, 0x108, 0x10c, 0x10f];

static TOO_MANY_SAVED_ASKED: &[u32; 4] = &[0x100, 0x10f, 0x110, 0x120];

static REGISTERS_ASKED: &[u32; 11] = &[0x0, 0x3, 0x4, 0x7, 0x8, 0xb, 0xc, 0xf, 0x10, 0x1f, 0x20];

static UNKNOWN_ASKED: &[u32; 7] = &[0x100, 0x104, 0x107, 0x108, 0x10f, 0x110, 0x117];

static UNKNOWN_IN_COMMON_ASKED: &[u32; 2] = &[0x100, 0x10f];

static EXPRESSION_ASKED: &[u32; 9] = &[
    0x100, 0x104, 0x108, 0x10c, 0x110, 0x114, 0x117, 0x200, 0x204,
];

static FALLS_ASKED: &[u32; 9] = &[
    0x100, 0x107, 0x108, 0x10f, 0x110, 0x11f, 0x120, 0x12f, 0x130,
];

static OVERLAP_ASKED: &[u32; 12] = &[
    0xff, 0x100, 0x107, 0x108, 0x10b, 0x10c, 0x10f, 0x110, 0x11f, 0x120, 0x127, 0x128,
];

static HIGHEST_ASKED: &[u32; 6] = &[0xffffffef, 0xfffffff0, 0xfffffff1, 0xffffffff, 0x0, 0xf];

static PASSED_OVER_ASKED: &[u32; 7] = &[0x100, 0x103, 0x104, 0x110, 0x114, 0x118, 0x11f];

static FAR_ASKED: &[u32; 5] = &[0x100, 0x110, 0x11f, 0x120, 0x130];

static NEITHER_ASKED: &[u32; 8] = &[0x100, 0x104, 0x110, 0x114, 0x120, 0x124, 0x130, 0x134];

static EMPTY_ASKED: &[u32; 2] = &[0x0, 0x100];

/// Reads a section that isn't long.
fn read(alloc: Global, section: &[u8]) -> Result<Frames, CfiFault> {
    if section.len() > 400 {
        return Err(CfiFault::NoMemory);
    }
    read_frames(alloc, section)
}

/// The registers and offsets of some addresses: `-` where there is no rule.
fn rules_at(alloc: Global, frames: &Frames, addresses: &[u32]) -> Result<Vec<u8>, NoMemory> {
    let mut text = Vec::new(alloc);
    for pc in addresses {
        match frames.cfa(*pc) {
            Some((register, offset)) => {
                text.extend_from_slice(itoa::Buffer::new().format(register).as_bytes())?;
                text.push(b':')?;
                text.extend_from_slice(itoa::Buffer::new().format(offset).as_bytes())?;
            }
            None => text.push(b'-')?,
        }
        text.push(b' ')?;
    }
    Ok(text)
}

/// Asks a section at some addresses.
fn told(alloc: Global, section: &[u8], asked: &[u32]) -> Result<Vec<u8>, Fail> {
    let frames = read(alloc, section)?;
    Ok(rules_at(alloc, &frames, asked)?)
}

#[test]
fn rules_are_told(rt: HostRuntime) -> Result<(), Fail> {
    let rows = [
        (
            WORKED.as_slice(),
            WORKED_ASKED.as_slice(),
            b"- 2:0 2:0 2:32 2:32 8:0 8:0 2:32 2:32 2:0 2:0 - ".as_slice(),
        ),
        (
            SCALED.as_slice(),
            SCALED_ASKED.as_slice(),
            b"- 2:16 2:16 2:-24 2:-24 8:800 8:800 8:5 8:5 4:5 4:5 - ".as_slice(),
        ),
        (
            RULELESS.as_slice(),
            RULELESS_ASKED.as_slice(),
            b"- 2:64 2:64 2:64 2:64 - ".as_slice(),
        ),
        (
            SAVED.as_slice(),
            SAVED_ASKED.as_slice(),
            b"2:0 8:16 8:16 2:0 9:0 2:0 - 2:8 - - ".as_slice(),
        ),
        (
            MANY_SAVED.as_slice(),
            MANY_SAVED_ASKED.as_slice(),
            b"2:0 2:16 2:32 - - ".as_slice(),
        ),
        (
            TOO_MANY_SAVED.as_slice(),
            TOO_MANY_SAVED_ASKED.as_slice(),
            b"- - - - ".as_slice(),
        ),
        (
            REGISTERS.as_slice(),
            REGISTERS_ASKED.as_slice(),
            b"31:4 31:4 - - 2:8 2:8 - - 9:8 9:8 - ".as_slice(),
        ),
        (
            UNKNOWN.as_slice(),
            UNKNOWN_ASKED.as_slice(),
            b"2:0 2:8 2:8 - - 2:48 2:48 ".as_slice(),
        ),
        (
            UNKNOWN_IN_COMMON.as_slice(),
            UNKNOWN_IN_COMMON_ASKED.as_slice(),
            b"- - ".as_slice(),
        ),
        (
            EXPRESSION.as_slice(),
            EXPRESSION_ASKED.as_slice(),
            b"2:0 - 8:16 - 2:0 - - - - ".as_slice(),
        ),
        (
            FALLS.as_slice(),
            FALLS_ASKED.as_slice(),
            b"2:0 2:0 2:16 2:16 2:32 2:32 2:40 2:40 - ".as_slice(),
        ),
        (
            OVERLAP.as_slice(),
            OVERLAP_ASKED.as_slice(),
            b"- 2:16 2:16 2:8 2:8 - - 2:16 2:16 2:24 2:24 - ".as_slice(),
        ),
        (
            HIGHEST.as_slice(),
            HIGHEST_ASKED.as_slice(),
            b"- 2:0 2:16 2:16 - - ".as_slice(),
        ),
        (
            PASSED_OVER.as_slice(),
            PASSED_OVER_ASKED.as_slice(),
            b"2:0 2:0 - 2:8 2:16 2:8 2:8 ".as_slice(),
        ),
        (
            FAR.as_slice(),
            FAR_ASKED.as_slice(),
            b"2:9223372036854775807 - - - 2:-9223372036854775807 ".as_slice(),
        ),
        (
            NEITHER.as_slice(),
            NEITHER_ASKED.as_slice(),
            b"- - - - - - - 2:0 ".as_slice(),
        ),
        (b"".as_slice(), EMPTY_ASKED.as_slice(), b"- - ".as_slice()),
    ];
    for (section, asked, want) in rows {
        let text = told(rt.alloc(), section, asked)?;
        assert_eq!(rt; text.as_slice(), want);
    }
    Ok(())
}

#[test]
fn the_first_fault_is_told(rt: HostRuntime) -> Result<(), Fail> {
    let rows = [
        // A length that breaks off.
        (
            b"\
                \x0c\0\0\0\xff\xff\xff\xff\x01\0\x01|\x01\x0c\x02\0\
                \x0c\0\0"
                .as_slice(),
            CfiFault::Short { at: 16 },
        ),
        // An entry that passes the section.
        (
            b"\
                \x0c\0\0\0\xff\xff\xff\xff\x01\0\x01|\x01\x0c\x02\0\
                \x11\0\0\0\0\0\0\0\0\0\0\0\0\0\0\0\0\0\0\0"
                .as_slice(),
            CfiFault::Short { at: 16 },
        ),
        // An entry that ends within its id.
        (
            b"\
                \x0c\0\0\0\xff\xff\xff\xff\x01\0\x01|\x01\x0c\x02\0\
                \x03\0\0\0\0\0\0"
                .as_slice(),
            CfiFault::Short { at: 16 },
        ),
        // The 64-bit format.
        (
            b"\
                \xff\xff\xff\xff\x0c\0\0\0\0\0\0\0\x0c\0\0\0\xff\xff\xff\xff\x01\0\x01|\
                \x01\x0c\x02\0"
                .as_slice(),
            CfiFault::Short { at: 0 },
        ),
        // Such an entry, before a description of another one.
        (
            b"\
                \x0c\0\0\0\x05\0\0\0\0\0\0\0\x01\0\0\0\
                \x0c\0\0\0\xff\xff\xff\xff\x01\0\x01|\x01\x0c\x02\0\
                \x03\0\0\0\0\0\0"
                .as_slice(),
            CfiFault::Short { at: 32 },
        ),
        // No version.
        (
            b"\
                \x04\0\0\0\xff\xff\xff\xff\
                \x0c\0\0\0\xff\xff\xff\xff\x01\0\x01|\x01\x0c\x02\0"
                .as_slice(),
            CfiFault::Short { at: 0 },
        ),
        // An augmentation that has no end.
        (
            b"\
                \x0c\0\0\0\xff\xff\xff\xff\x01\0\x01|\x01\x0c\x02\0\
                \x07\0\0\0\xff\xff\xff\xff\x01zR\
                \0\0\0\0"
                .as_slice(),
            CfiFault::Short { at: 16 },
        ),
        // No size of a segment selector.
        (
            b"\
                \x0c\0\0\0\xff\xff\xff\xff\x01\0\x01|\x01\x0c\x02\0\
                \x07\0\0\0\xff\xff\xff\xff\x04\0\x04"
                .as_slice(),
            CfiFault::Short { at: 16 },
        ),
        // A factor of eleven bytes.
        (
            b"\
                \x0c\0\0\0\xff\xff\xff\xff\x01\0\x01|\x01\x0c\x02\0\
                \x13\0\0\0\xff\xff\xff\xff\x03\0\x81\x81\x81\x81\x81\x81\x81\x81\x81\x81\x01\x01\x01"
                .as_slice(),
            CfiFault::Short { at: 16 },
        ),
        // No return address register.
        (
            b"\
                \x0c\0\0\0\xff\xff\xff\xff\x01\0\x01|\x01\x0c\x02\0\
                \x08\0\0\0\xff\xff\xff\xff\x01\0\x01|"
                .as_slice(),
            CfiFault::Short { at: 16 },
        ),
        // An operand in common that passes the entry.
        (
            b"\
                \x0c\0\0\0\xff\xff\xff\xff\x01\0\x01|\x01\x0c\x02\0\
                \x0b\0\0\0\xff\xff\xff\xff\x01\0\x01|\x01\x0c\x02"
                .as_slice(),
            CfiFault::Short { at: 16 },
        ),
        // ... behind a description with a fault.
        (
            b"\
                \x0c\0\0\0\xff\xff\xff\xff\x01\0\x01|\x01\x0c\x02\0\
                \x0d\0\0\0\0\0\0\0\0\0\0\0\x01\0\0\0\x0e\
                \x0d\0\0\0\xff\xff\xff\xff\x01\0\x01|\x01\x0f\x03\0\0"
                .as_slice(),
            CfiFault::Short { at: 33 },
        ),
        // The offset of a description.
        (
            b"\
                \x0c\0\0\0\xff\xff\xff\xff\x01\0\x01|\x01\x0c\x02\0\
                \x0c\0\0\0\0\0\0\0\0\0\0\0\x01\0\0\0\
                \x0c\0\0\0\x10\0\0\0\0\0\0\0\x01\0\0\0"
                .as_slice(),
            CfiFault::Cie { at: 32 },
        ),
        // An offset at which nothing begins, before fields that break off.
        (
            b"\
                \x0c\0\0\0\xff\xff\xff\xff\x01\0\x01|\x01\x0c\x02\0\
                \x05\0\0\0\x08\0\0\0\0\
                \x0d\0\0\0\0\0\0\0\0\0\0\0\x01\0\0\0\x80"
                .as_slice(),
            CfiFault::Cie { at: 16 },
        ),
        // No length of a range.
        (
            b"\
                \x0c\0\0\0\xff\xff\xff\xff\x01\0\x01|\x01\x0c\x02\0\
                \x0b\0\0\0\0\0\0\0\0\0\0\0\0\0\0"
                .as_slice(),
            CfiFault::Short { at: 16 },
        ),
        // An operand that passes its description.
        (
            b"\
                \x0c\0\0\0\xff\xff\xff\xff\x01\0\x01|\x01\x0c\x02\0\
                \x11\0\0\0\0\0\0\0\0\x01\0\0\0\0\0\0\x0c\x02\0\x03\x01\
                \x0c\0\0\0\x01\0\0\0\0\0\0\0\0\0\0\0"
                .as_slice(),
            CfiFault::Short { at: 16 },
        ),
        // A block that passes it, behind the end of the range.
        (
            b"\
                \x0c\0\0\0\xff\xff\xff\xff\x01\0\x01|\x01\x0c\x02\0\
                \x11\0\0\0\0\0\0\0\0\x01\0\0\x04\0\0\0H\x10\x01\x02\0"
                .as_slice(),
            CfiFault::Short { at: 16 },
        ),
    ];
    for (section, want) in rows {
        let fault = read(rt.alloc(), section).err();
        assert_eq!(rt; fault, Some(want));
    }
    Ok(())
}
