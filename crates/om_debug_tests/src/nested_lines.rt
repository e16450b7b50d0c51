//! Line tables that lie in one another: each but the last has an extended opcode that nobody knows, which holds the
//! head of the next one. What they tell was worked out by another reader of such tables.

use crate::line_tables::{lines_at, read};
use std::test::Fail;

/// The tables begin at address 3, 2 and 1.
const LOWER: &[u8] = b"\
    q\0\0\0\x04\0\x18\0\0\0\x01\x01\x01\xfb\x0e\x0a\0\x01\x01\x01\x01\0\0\0\x01\0a.c\0\0\0\0\0:::\0#\x80\
    I\0\0\0\x04\0\x18\0\0\0\x01\x01\x01\xfb\x0e\x0a\0\x01\x01\x01\x01\0\0\0\x01\0b.c\0\0\0\0\0---\0#\x80\
    !\0\0\0\x04\0\x18\0\0\0\x01\x01\x01\xfb\x0e\x0a\0\x01\x01\x01\x01\0\0\0\x01\0c.c\0\0\0\0\0  G";

/// The tables begin at address 1, 2 and 3, so that the first one has rows of all addresses.
const WITHIN: &[u8] = b"\
    q\0\0\0\x04\0\x18\0\0\0\x01\x01\x01\xfb\x0e\x0a\0\x01\x01\x01\x01\0\0\0\x01\0a.c\0\0\0\0\0\x1e\x1e\x1e\0#\x80\
    I\0\0\0\x04\0\x18\0\0\0\x01\x01\x01\xfb\x0e\x0a\0\x01\x01\x01\x01\0\0\0\x01\0b.c\0\0\0\0\0---\0#\x80\
    !\0\0\0\x04\0\x18\0\0\0\x01\x01\x01\xfb\x0e\x0a\0\x01\x01\x01\x01\0\0\0\x01\0c.c\0\0\0\0\0<<G";

/// The first table begins at address 101, above all rows of those in it.
const HIGH: &[u8] = b"\
    p\0\0\0\x04\0\x18\0\0\0\x01\x01\x01\xfb\x0e\x0a\0\x01\x01\x01\x01\0\0\0\x01\0a.c\0\0\0\0\0\x02d\x1e\0#\x80\
    H\0\0\0\x04\0\x18\0\0\0\x01\x01\x01\xfb\x0e\x0a\0\x01\x01\x01\x01\0\0\0\x01\0b.c\0\0\0\0\0--\0#\x80\
    !\0\0\0\x04\0\x18\0\0\0\x01\x01\x01\xfb\x0e\x0a\0\x01\x01\x01\x01\0\0\0\x01\0c.c\0\0\0\0\0 GG";

/// The second table sets the address to 5, which is in the first one too.
const SETS: &[u8] = b"\
    v\0\0\0\x04\0\x18\0\0\0\x01\x01\x01\xfb\x0e\x0a\0\x01\x01\x01\x01\0\0\0\x01\0a.c\0\0\0\0\0\x1e-\0#\x80\
    O\0\0\0\x04\0\x18\0\0\0\x01\x01\x01\xfb\x0e\x0a\0\x01\x01\x01\x01\0\0\0\x01\0b.c\0\0\0\0\0\0\x05\x02\x05\0\0\0--\0#\x80\
    !\0\0\0\x04\0\x18\0\0\0\x01\x01\x01\xfb\x0e\x0a\0\x01\x01\x01\x01\0\0\0\x01\0c.c\0\0\0\0\0 GG";

/// The addresses of the first table fall behind its second row.
const FALLS: &[u8] = b"\
    v\0\0\0\x04\0\x18\0\0\0\x01\x01\x01\xfb\x0e\x0a\0\x01\x01\x01\x01\0\0\0\x01\0a.c\0\0\0\0\0\x1e-\x02\xf0\xff\xff\xff\x0f\x1e\0#\x80\
    H\0\0\0\x04\0\x18\0\0\0\x01\x01\x01\xfb\x0e\x0a\0\x01\x01\x01\x01\0\0\0\x01\0b.c\0\0\0\0\0--\0#\x80\
    !\0\0\0\x04\0\x18\0\0\0\x01\x01\x01\xfb\x0e\x0a\0\x01\x01\x01\x01\0\0\0\x01\0c.c\0\0\0\0\0 GG";

/// Tables of a section, in the order in which they are asked, the addresses, and what is told of them.
struct Case {
    section: &'static [u8],
    offsets: &'static [u32],
    addresses: &'static [u32],
    told: &'static [u8],
}

const LOWER_ASKED: &[u32] = &[1, 2, 3, 4, 6, 9, 11, 13, 15, 16, 17, 20, 21];

const WITHIN_ASKED: &[u32] = &[0, 1, 2, 3, 4, 6, 9, 10, 13, 15, 16, 18, 19];

const HIGH_ASKED: &[u32] = &[1, 2, 4, 5, 8, 9, 13, 101, 103, 105, 106, 110, 114];

const SETS_ASKED: &[u32] = &[1, 2, 3, 5, 7, 9, 10, 14, 17, 18];

const FALLS_ASKED: &[u32] = &[0, 1, 2, 3, 4, 6, 8, 9, 12, 16];

static CASES: &[Case; 14] = &[
    Case {
        section: LOWER,
        offsets: &[0, 40, 80],
        addresses: LOWER_ASKED,
        told: b"c.c:4 b.c:3 a.c:2 a.c:2 a.c:3 a.c:4 a.c:6 a.c:8 a.c:10 a.c:13 a.c:16 a.c:16 - ",
    },
    Case {
        section: LOWER,
        offsets: &[80, 40, 0],
        addresses: LOWER_ASKED,
        told: b"c.c:4 c.c:7 c.c:7 c.c:7 b.c:7 b.c:13 b.c:13 a.c:8 a.c:10 a.c:13 a.c:16 a.c:16 - ",
    },
    Case {
        section: LOWER,
        offsets: &[40, 0],
        addresses: LOWER_ASKED,
        told: b"- b.c:3 b.c:3 b.c:5 b.c:7 b.c:13 b.c:13 a.c:8 a.c:10 a.c:13 a.c:16 a.c:16 - ",
    },
    Case {
        section: LOWER,
        offsets: &[40, 80, 0],
        addresses: LOWER_ASKED,
        told: b"c.c:4 b.c:3 b.c:3 b.c:5 b.c:7 b.c:13 b.c:13 a.c:8 a.c:10 a.c:13 a.c:16 a.c:16 - ",
    },
    Case {
        section: WITHIN,
        offsets: &[0, 40, 80],
        addresses: WITHIN_ASKED,
        told: b"- a.c:2 a.c:3 a.c:4 a.c:4 a.c:6 a.c:10 a.c:10 a.c:13 a.c:16 a.c:16 a.c:16 - ",
    },
    Case {
        section: WITHIN,
        offsets: &[0, 80, 40],
        addresses: WITHIN_ASKED,
        told: b"- a.c:2 a.c:3 a.c:4 a.c:4 a.c:6 a.c:10 a.c:10 a.c:13 a.c:16 a.c:16 a.c:16 - ",
    },
    Case {
        section: WITHIN,
        offsets: &[80, 40, 0],
        addresses: WITHIN_ASKED,
        told: b"- a.c:2 b.c:3 c.c:4 c.c:4 c.c:7 c.c:7 b.c:10 b.c:13 b.c:13 a.c:16 a.c:16 - ",
    },
    Case {
        section: WITHIN,
        offsets: &[40, 80],
        addresses: WITHIN_ASKED,
        told: b"- - b.c:3 b.c:3 b.c:5 b.c:7 b.c:10 b.c:10 b.c:13 b.c:13 - - - ",
    },
    Case {
        section: HIGH,
        offsets: &[0, 40, 79],
        addresses: HIGH_ASKED,
        told: b"c.c:4 b.c:3 b.c:5 b.c:8 b.c:8 b.c:8 - a.c:2 a.c:4 a.c:6 a.c:9 a.c:9 - ",
    },
    Case {
        section: HIGH,
        offsets: &[79, 40, 0],
        addresses: HIGH_ASKED,
        told: b"c.c:4 c.c:4 c.c:4 c.c:4 c.c:4 b.c:8 - a.c:2 a.c:4 a.c:6 a.c:9 a.c:9 - ",
    },
    Case {
        section: SETS,
        offsets: &[0, 39, 85],
        addresses: SETS_ASKED,
        told: b"a.c:2 a.c:2 a.c:4 a.c:4 a.c:6 a.c:8 a.c:11 a.c:11 a.c:11 - ",
    },
    Case {
        section: SETS,
        offsets: &[85, 39, 0],
        addresses: SETS_ASKED,
        told: b"c.c:4 c.c:4 c.c:4 c.c:4 c.c:4 b.c:5 b.c:8 b.c:8 b.c:8 - ",
    },
    Case {
        section: FALLS,
        offsets: &[0, 46, 85],
        addresses: FALLS_ASKED,
        told: b"- a.c:2 a.c:2 a.c:4 a.c:4 a.c:4 a.c:4 a.c:4 a.c:4 a.c:4 ",
    },
    Case {
        section: FALLS,
        offsets: &[46, 85, 0],
        addresses: FALLS_ASKED,
        told: b"- c.c:4 b.c:3 b.c:3 b.c:5 b.c:8 b.c:8 b.c:8 b.c:8 a.c:4 ",
    },
];

#[test]
fn tables_in_one_another_tell_what_they_do_apart(rt: HostRuntime) -> Result<(), Fail> {
    for case in CASES {
        let tables = read(rt.alloc(), case.section, case.offsets)?;
        let text = lines_at(rt.alloc(), &tables, case.addresses)?;
        assert_eq!(rt; text.as_slice(), case.told);
    }
    Ok(())
}
