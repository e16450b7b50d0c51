//! Logs that are read and written, logs broken in each way, and the calls of `Writes`.
//!
//! The bytes of the logs were put together by another program, from the table of the format.

use om_log::{Entry, Log, LogFault, LogWriter, Start, Write, Writes, read_log, write_log};
use std::alloc::Global;
use std::test::Fail;

/// The regions of all logs here: a stack from 0x7ff00000 and a heap from 0x11000, of 1 MiB each.
const START: Start = Start {
    stack_low: 0x7ff0_0000,
    stack_size: 0x10_0000,
    heap_low: 0x1_1000,
    heap_size: 0x10_0000,
};

/// The header. Two MARKs of step 3, from bytes 20 and 37 on. The CALL of step 8, from byte 54 on: its step and
/// number, its arguments, its result and the count of its writes, and two writes, from bytes 99 and 110 on.
/// From byte 119 on END of step 9 by a stop of code 6.
static MARKED: &[u8; 133] = b"OTL1\x00\x00\xf0\x7f\x00\x00\x10\x00\x00\x10\x01\x00\x00\x00\x10\x00\
    \x02\x03\x00\x00\x00\x00\x00\x00\x00\x08\x00\x01\x00\xfe\xff\x01\x80\
    \x02\x03\x00\x00\x00\x00\x00\x00\x00\x0c\x00\x01\x00\x05\x00\x00\x00\
    \x01\x08\x00\x00\x00\x00\x00\x00\x00\x3f\x00\x00\x00\
    \x00\x00\x00\x00\x00\x00\x02\x00\x05\x00\x00\x00\x06\x00\x00\x00\x07\x00\x00\x00\x08\x00\x00\x00\
    \x04\x00\x00\x00\x02\x00\x00\x00\
    \x00\x00\x02\x00\x03\x00\x00\x00abc\
    \xfe\xff\xff\xff\x01\x00\x00\x00\xff\
    \x03\x09\x00\x00\x00\x00\x00\x00\x00\x02\x06\x00\x00\x00";

/// The header, a CALL with one write, and END of the next step by an exit with 1.
static WRITTEN: &[u8; 89] = b"OTL1\x00\x00\xf0\x7f\x00\x00\x10\x00\x00\x10\x01\x00\x00\x00\x10\x00\
    \x01\x88\x77\x66\x55\x44\x33\x22\x11\x5d\x00\x00\x00\
    \x01\x00\x00\x00\x02\x00\x00\x00\x03\x00\x00\x00\x04\x00\x00\x00\x05\x00\x00\x00\x06\x00\x00\x00\
    \xda\xff\xff\xff\x01\x00\x00\x00\
    \x00\x00\x01\x00\x02\x00\x00\x00ab\
    \x03\x89\x77\x66\x55\x44\x33\x22\x11\x00\x01\x00\x00\x00";

#[test]
fn reads_and_writes_a_log(rt: HostRuntime) -> Result<(), Fail> {
    let log = read_log(rt.alloc(), MARKED)?;
    assert!(rt; log.start == START && log.start.is_lawful());
    assert!(rt; is_the_marked_log(&log));
    let file = write_log(rt.alloc(), &log)?;
    assert_eq!(rt; file.bytes(), MARKED.as_slice());
    Ok(())
}

/// Whether each entry is what `MARKED` has there.
fn is_the_marked_log(log: &Log<'_>) -> bool {
    let [first, second, call, end] = log.entries.as_slice() else {
        return false;
    };
    is_mark(first, (3, 0x1_0008, 0x8001_fffe))
        && is_mark(second, (3, 0x1_000c, 5))
        && is_the_marked_call(call)
        && is_end(end, (9, 2, 6))
}

fn is_mark(entry: &Entry<'_>, want: (u64, u32, u32)) -> bool {
    match entry {
        Entry::Mark { pc, sum, .. } => (entry.step(), *pc, *sum) == want,
        Entry::Call { .. } | Entry::End { .. } => false,
    }
}

fn is_end(entry: &Entry<'_>, want: (u64, u8, u32)) -> bool {
    match entry {
        Entry::End { cause, value, .. } => (entry.step(), *cause, *value) == want,
        Entry::Call { .. } | Entry::Mark { .. } => false,
    }
}

fn is_the_marked_call(entry: &Entry<'_>) -> bool {
    match entry {
        Entry::Call {
            number,
            args,
            result,
            writes,
            ..
        } => {
            (entry.step(), *number, *result) == (8, 63, 4)
                && *args == [0, 0x2_0000, 5, 6, 7, 8]
                && has_the_marked_writes(writes)
        }
        Entry::Mark { .. } | Entry::End { .. } => false,
    }
}

fn has_the_marked_writes(writes: &Writes<'_>) -> bool {
    let Some((first, others)) = writes.split_first() else {
        return false;
    };
    let Some((second, none)) = others.split_first() else {
        return false;
    };
    is_write(&first, 0x2_0000, b"abc")
        && is_write(&second, 0xffff_fffe, b"\xff")
        && none.split_first().is_none()
}

fn is_write(write: &Write<'_>, addr: u32, bytes: &[u8]) -> bool {
    write.addr == addr && write.bytes == bytes
}

/// The place of a byte of `MARKED`, another value of it, and what is wrong with the log then.
static FAULTS: [(usize, u8, LogFault); 13] = [
    (0, 0x4e, LogFault::Magic),
    (3, 0x32, LogFault::Version),
    (5, 1, LogFault::Region),
    (20, 0, LogFault::Kind { at: 20 }),
    (37, 4, LogFault::Kind { at: 37 }),
    (38, 2, LogFault::Order { at: 37 }),
    (98, 255, LogFault::Short { at: 54 }),
    (106, 255, LogFault::Short { at: 54 }),
    (95, 3, LogFault::Kind { at: 127 }),
    (95, 1, LogFault::Kind { at: 110 }),
    (120, 8, LogFault::Order { at: 119 }),
    (128, 1, LogFault::Kind { at: 119 }),
    (128, 3, LogFault::Kind { at: 119 }),
];

#[test]
fn tells_the_first_fault(rt: HostRuntime) -> Result<(), Fail> {
    for (at, byte, want) in FAULTS {
        assert_eq!(rt; fault_with(rt.alloc(), at, byte)?, Some(want));
    }
    let more = [MARKED.as_slice(), b"\0"].concat(rt.alloc())?;
    assert_eq!(rt;
        read_log(rt.alloc(), &more).err(),
        Some(LogFault::Trailing { at: 133 })
    );
    Ok(())
}

/// The fault of `MARKED` with another byte at one place.
fn fault_with(alloc: Global, at: usize, byte: u8) -> Result<Option<LogFault>, Fail> {
    let mut broken = Vec::from_slice(alloc, MARKED)?;
    if let Some(place) = broken.get_mut(at) {
        *place = byte;
    }
    Ok(read_log(alloc, &broken).err())
}

#[test]
fn tells_where_a_log_is_cut(rt: HostRuntime) -> Result<(), Fail> {
    for len in 0..MARKED.len() {
        let fault = read_log(rt.alloc(), &MARKED[..len]).err();
        assert_eq!(rt; fault, Some(fault_of_cut(len)), "cut to {len}");
    }
    Ok(())
}

/// What is wrong with `MARKED` cut to so many bytes.
fn fault_of_cut(len: usize) -> LogFault {
    match len {
        0..=19 => LogFault::Short { at: 0 },
        20 | 37 | 54 | 119 => LogFault::NoEnd,
        21..=36 => LogFault::Short { at: 20 },
        38..=53 => LogFault::Short { at: 37 },
        55..=118 => LogFault::Short { at: 54 },
        _ => LogFault::Short { at: 119 },
    }
}

#[test]
fn writes_are_split_one_by_one(rt: HostRuntime) -> Result<(), Fail> {
    let writes = Writes::one(Write {
        addr: 0x1_0000,
        bytes: b"ab",
    });
    let (first, others) = writes.again().split_first().ok_or("there is one")?;
    assert!(rt; is_write(&first, 0x1_0000, b"ab"));
    assert!(rt; others.split_first().is_none() && Writes::none().split_first().is_none());
    Ok(())
}

#[test]
#[tactic(auto, unfolding(om_log::specs::Grammar::spelling))]
fn writes_entry_by_entry(rt: HostRuntime) -> Result<(), Fail> {
    let mut writer = LogWriter::new(rt.alloc(), START);
    assert_eq!(rt; writer.len(), 20);
    writer.push(&Entry::Call {
        step: 0x1122_3344_5566_7788,
        number: 93,
        args: [1, 2, 3, 4, 5, 6],
        result: 0xffff_ffda,
        writes: Writes::one(Write {
            addr: 0x1_0000,
            bytes: b"ab",
        }),
    })?;
    writer.push(&Entry::End {
        step: 0x1122_3344_5566_7789,
        cause: 0,
        value: 1,
    })?;
    assert_eq!(rt; writer.finish().bytes(), WRITTEN.as_slice());
    Ok(())
}
