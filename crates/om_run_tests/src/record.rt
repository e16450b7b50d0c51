//! Runs that are recorded. The words are RV32IM's; what is wanted is what an independent recorder wrote.

use crate::run::LOG;
use om_base::NoMemory;
use om_elf::read_elf;
use om_log::{Entry, read_log};
use om_record::{RecordFault, Recorded, make_log};
use std::alloc::Global;
use std::test::Fail;

/// The headers of an executable that begins at 65536, with one segment of 4096 bytes. The segment's address stands
/// at 60.
static HEADERS: [u8; 84] = [
    0x7f, 0x45, 0x4c, 0x46, 1, 1, 1, 0, 0, 0, 0, 0, 0, 0, 0, 0, // e_ident
    2, 0, 0xf3, 0, 1, 0, 0, 0, 0, 0, 1, 0, 52, 0, 0, 0, // e_type to e_phoff
    0, 0, 0, 0, 0, 0, 0, 0, 52, 0, 32, 0, 1, 0, 0, 0, // e_shoff to e_shentsize
    0, 0, 0, 0, 1, 0, 0, 0, 84, 0, 0, 0, 0, 0, 1, 0, // e_shnum, then p_type to p_vaddr
    0, 0, 1, 0, 0, 16, 0, 0, 0, 16, 0, 0, 7, 0, 0, 0, // p_paddr to p_flags
    4, 0, 0, 0, // p_align
];

/// Where the segment begins, if nothing else is said.
const ENTRY: u32 = 0x1_0000;

/// `li a0,3; addi a0,a0,-1; bnez a0,-4; li a7,93; ecall`.
const COUNTDOWN: &[u32] = &[
    0x0030_0513,
    0xfff5_0513,
    0xfe05_1ee3,
    0x05d0_0893,
    0x0000_0073,
];

/// `lui a0,8; addi a0,a0,-2; addi a0,a0,-1; bnez a0,-4; li a7,93; ecall`: the call is that of step 65,535, and step 65,536
/// has a mark, where it is below the limit.
const LONG: &[u32] = &[
    0x0000_8537,
    0xffe5_0513,
    0xfff5_0513,
    0xfe05_1ee3,
    0x05d0_0893,
    0x0000_0073,
];

/// `li a0,5; ebreak`.
const BREAK: &[u32] = &[0x0050_0513, 0x0010_0073];

/// Makes the calls of a table behind it, each of four words: number, a0, a1, a2.
/// `auipc s0,0; addi s0,s0,36; lw a7,0(s0); lw a0,4(s0); lw a1,8(s0); lw a2,12(s0); addi s0,s0,16; ecall; j -24`.
static CALLER: [u32; 9] = [
    0x0000_0417,
    0x0244_0413,
    0x0004_2883,
    0x0044_2503,
    0x0084_2583,
    0x00c4_2603,
    0x0104_0413,
    0x0000_0073,
    0xfe9f_f06f,
];

/// Reads 65,536 bytes to 0x11000 again and again: the calls are those of steps 4, 7, 10 and so on.
/// `lui a1,0x11; li a7,63; lui a2,16; li a0,0; ecall; j -8`.
const READER: &[u32] = &[
    0x0001_15b7,
    0x03f0_0893,
    0x0001_0637,
    0x0000_0513,
    0x0000_0073,
    0xff9f_f06f,
];

/// The calls of a program: the number and a0 to a2, the result, and the bytes that are written. The heap is that from
/// 0x11000 to 0x111000, and the input `hello, world`.
static CALLS: [([u32; 4], u32, &[u8]); 18] = [
    ([63, 1, 0x1_0800, 4], 0xffff_fff7, b""),
    ([63, 0, 0x20, 4], 0xffff_fff2, b""),
    ([63, 0, 0x11_0ffe, 4], 0xffff_fff2, b""),
    ([63, 0, 0x1_0800, 5], 5, b"hello"),
    ([63, 0, 0x1_1000, 100], 7, b", world"),
    ([63, 0, 0x20, 10], 0, b""),
    ([64, 1, 0x1_0000, 8], 8, b""),
    ([64, 2, 0x7ff0_0000, 0x10_0000], 0x10_0000, b""),
    ([64, 0, 0x1_0000, 8], 0xffff_fff7, b""),
    ([64, 1, 0x11_0ffe, 4], 0xffff_fff2, b""),
    ([64, 1, 0x20, 0], 0, b""),
    ([214, 0, 0, 0], 0x1_1000, b""),
    ([214, 0x1_2345, 0, 0], 0x1_2345, b""),
    ([214, 0x1_0fff, 0, 0], 0x1_2345, b""),
    ([214, 0x11_1000, 0, 0], 0x11_1000, b""),
    ([214, 0x11_1001, 0, 0], 0x11_1000, b""),
    ([1000, 1, 2, 3], 0xffff_ffda, b""),
    ([94, 7, 8, 9], 0, b""),
];

/// The executable of some words, whose segment begins at an address.
fn executable(alloc: Global, address: u32, words: &[u32]) -> Result<Vec<u8>, NoMemory> {
    let mut file = Vec::from_slice(alloc, &HEADERS[..60])?;
    file.extend_from_slice(&address.to_le_bytes())?;
    file.extend_from_slice(&HEADERS[64..])?;
    for word in words {
        file.extend_from_slice(&word.to_le_bytes())?;
    }
    file.resize(84 + 4096, 0)?;
    Ok(file)
}

/// What is recorded of an executable.
fn recorded(
    alloc: Global,
    executable: &[u8],
    input: &[u8],
    limit: u64,
) -> Result<Result<Recorded, RecordFault>, Fail> {
    let elf = read_elf(alloc, executable)?;
    Ok(make_log(alloc, &elf, input, limit))
}

/// The limit; the last step, the cause and the value; and what the log is from a byte on. An exit ends the run by
/// its rule also where the next step is the limit, and at the limit no stop is looked for.
static RECORDS: [(&[u32], u64, (u64, u8, u32), usize, &[u8]); 8] = [
    (COUNTDOWN, 9, (9, 0, 0), 0, LOG),
    (COUNTDOWN, 1000, (9, 0, 0), 0, LOG),
    (
        COUNTDOWN,
        0,
        (0, 1, 0),
        20,
        b"\x03\0\0\0\0\0\0\0\0\x01\0\0\0\0",
    ),
    (
        COUNTDOWN,
        8,
        (8, 1, 0),
        20,
        b"\x03\x08\0\0\0\0\0\0\0\x01\0\0\0\0",
    ),
    (
        LONG,
        65_536,
        (65_536, 0, 0),
        65,
        b"\x03\0\0\x01\0\0\0\0\0\0\0\0\0\0",
    ),
    (
        LONG,
        65_537,
        (65_536, 0, 0),
        65,
        b"\x02\0\0\x01\0\0\0\0\0\x18\0\x01\0\x4d\0\0\x80\x03\0\0\x01\0\0\0\0\0\0\0\0\0\0",
    ),
    (
        BREAK,
        100,
        (1, 2, 6),
        20,
        b"\x03\x01\0\0\0\0\0\0\0\x02\x06\0\0\0",
    ),
    (
        BREAK,
        1,
        (1, 1, 0),
        20,
        b"\x03\x01\0\0\0\0\0\0\0\x01\0\0\0\0",
    ),
];

#[test]
fn records_a_run(rt: HostRuntime) -> Result<(), Fail> {
    for (words, limit, end, from, rest) in RECORDS {
        let file = executable(rt.alloc(), ENTRY, words)?;
        let made = recorded(rt.alloc(), file.as_slice(), b"", limit)??;
        assert_eq!(rt; (made.steps, made.cause, made.value), end);
        assert!(rt;
            made.bytes.bytes().get(from..) == Some(rest),
            "limit {limit}"
        );
    }
    Ok(())
}

/// The words of a program that makes the calls.
fn calling(alloc: Global) -> Result<Vec<u32>, NoMemory> {
    let mut words = Vec::from_slice(alloc, &CALLER)?;
    for (call, _, _) in &CALLS {
        words.extend_from_slice(call)?;
    }
    Ok(words)
}

/// The entry is a CALL with this result that writes these bytes, if any.
fn is_answer(entry: &Entry<'_>, value: u32, bytes: &[u8]) -> bool {
    match entry {
        Entry::Call { result, writes, .. } => {
            *result == value
                && match writes.split_first() {
                    Some((write, _)) => write.bytes == bytes,
                    None => bytes.is_empty(),
                }
        }
        Entry::Mark { .. } | Entry::End { .. } => false,
    }
}

/// The place of the first entry that isn't what the table of calls has there.
fn first_wrong(entries: &[Entry<'_>]) -> Option<usize> {
    let mut place = 0usize;
    for (entry, (_, result, bytes)) in entries.iter().zip(&CALLS) {
        if !is_answer(entry, *result, bytes) {
            return Some(place);
        }
        place = place.saturating_add(1);
    }
    None
}

#[test]
fn answers_calls(rt: HostRuntime) -> Result<(), Fail> {
    let words = calling(rt.alloc())?;
    let file = executable(rt.alloc(), ENTRY, words.as_slice())?;
    let made = recorded(rt.alloc(), file.as_slice(), b"hello, world", 1000)??;
    let log = read_log(rt.alloc(), made.bytes.bytes())?;
    assert_eq!(rt; log.entries.len(), 19);
    assert_eq!(rt; first_wrong(log.entries.as_slice()), None);
    assert_eq!(rt; (made.steps, made.cause, made.value), (127, 0, 7));
    Ok(())
}

/// The segment's address: it ends at 2^32; it holds the stack's first byte; the heap behind it holds that;
/// the heap passes the last address, and doesn't. Then a log that is too long.
static REFUSALS: [(&[u32], u32, Option<RecordFault>); 6] = [
    (BREAK, 0xffff_f000, Some(RecordFault::NoRoom { a: 2, b: 2 })),
    (BREAK, 0x7fef_f800, Some(RecordFault::NoRoom { a: 0, b: 1 })),
    (BREAK, 0x7fef_0000, Some(RecordFault::NoRoom { a: 1, b: 2 })),
    (BREAK, 0xfff0_0000, Some(RecordFault::NoRoom { a: 2, b: 2 })),
    (BREAK, 0xffef_f000, None),
    (READER, ENTRY, Some(RecordFault::TooLong { step: 3073 })),
];

#[test]
fn tells_why_there_is_no_log(rt: HostRuntime) -> Result<(), Fail> {
    let mut input = Vec::new(rt.alloc());
    input.resize(1024 * 65_536, 7)?;
    for (words, address, fault) in REFUSALS {
        let file = executable(rt.alloc(), address, words)?;
        let made = recorded(rt.alloc(), file.as_slice(), input.as_slice(), 10_000)?;
        assert_eq!(rt; made.err(), fault);
    }
    Ok(())
}
