//! A run made again from logs that tell it rightly and wrongly.

ghost use Rattle.om_elf.specs.Image.{AreLoadable};
ghost use Rattle.om_log.specs.Grammar.{IsLawfulLog};

use om_elf::{Elf, read_elf};
use om_log::{Log, read_log};
use om_run::{Departure, Halt, Reason, Replay, is_exit};
use om_step::{MapFault, Pages, StepMeter};
use std::alloc::Global;
use std::test::Fail;

/// `li a0,3; addi a0,a0,-1; bnez a0,-4; li a7,93; ecall` at 65536, as an executable: its header, its one segment's, and
/// the words.
static PROGRAM: &[u8; 104] = b"\x7fELF\x01\x01\x01\x00\x00\x00\x00\x00\x00\x00\x00\x00\
    \x02\x00\xf3\x00\x01\x00\x00\x00\x00\x00\x01\x00\x34\x00\x00\x00\
    \x00\x00\x00\x00\x00\x00\x00\x00\x34\x00\x20\x00\x01\x00\x00\x00\x00\x00\x00\x00\
    \x01\x00\x00\x00\x54\x00\x00\x00\x00\x00\x01\x00\x00\x00\x01\x00\
    \x14\x00\x00\x00\x14\x00\x00\x00\x05\x00\x00\x00\x04\x00\x00\x00\
    \x13\x05\x30\x00\x13\x05\xf5\xff\xe3\x1e\x05\xfe\x93\x08\xd0\x05\x73\x00\x00\x00";

/// Its log: the call at step 8, which answers 0, and from byte 65 on the end at step 9 by exit with value 0.
pub const LOG: &[u8; 79] = b"OTL1\x00\x00\xf0\x7f\x00\x00\x10\x00\x00\x10\x01\x00\x00\x00\x10\x00\
    \x01\x08\x00\x00\x00\x00\x00\x00\x00\x5d\x00\x00\x00\
    \x00\x00\x00\x00\x00\x00\x00\x00\x00\x00\x00\x00\x00\x00\x00\x00\x00\x00\x00\x00\x00\x00\x00\x00\
    \x00\x00\x00\x00\x00\x00\x00\x00\
    \x03\x09\x00\x00\x00\x00\x00\x00\x00\x00\x00\x00\x00\x00";

/// Another log of it, with marks: from bytes 20, 37, 54 on one of step 2 and two of step 8, before its call, which
/// answers 7 and writes 1, 2, 3, 4 to 0x11004; and from byte 128 on one of step 9, before the end.
static MARKED: &[u8; 159] = b"OTL1\x00\x00\xf0\x7f\x00\x00\x10\x00\x00\x10\x01\x00\x00\x00\x10\x00\
    \x02\x02\x00\x00\x00\x00\x00\x00\x00\x08\x00\x01\x00\xf2\xff\xff\x7f\
    \x02\x08\x00\x00\x00\x00\x00\x00\x00\x10\x00\x01\x00\x4d\x00\x00\x80\
    \x02\x08\x00\x00\x00\x00\x00\x00\x00\x10\x00\x01\x00\x4d\x00\x00\x80\
    \x01\x08\x00\x00\x00\x00\x00\x00\x00\x5d\x00\x00\x00\
    \x00\x00\x00\x00\x00\x00\x00\x00\x00\x00\x00\x00\x00\x00\x00\x00\x00\x00\x00\x00\x00\x00\x00\x00\
    \x07\x00\x00\x00\x01\x00\x00\x00\x04\x10\x01\x00\x04\x00\x00\x00\x01\x02\x03\x04\
    \x02\x09\x00\x00\x00\x00\x00\x00\x00\x14\x00\x01\x00\x54\x00\x00\x80\
    \x03\x09\x00\x00\x00\x00\x00\x00\x00\x00\x00\x00\x00\x00";

/// One byte of the first log put to another value; and where the run departs then, why, and what the log and the
/// run have.
static CHANGES: [(usize, u8, u64, Reason, u64, u64); 6] = [
    (29, 94, 8, Reason::Number, 94, 93),
    (33, 7, 8, Reason::Argument(0), 7, 0),
    (75, 5, 9, Reason::EndValue, 5, 0),
    (74, 2, 9, Reason::EndStop, 0, 1),
    (21, 0, 0, Reason::Passed, 93, 0x1_0000),
    (66, 12, 9, Reason::Stopped, 12, 1),
];

/// Two bytes of the log with marks (byte 0 to its own value), likewise.
static MARKED_CHANGES: [([(usize, u8); 2], u64, Reason, u64, u64); 8] = [
    ([(0, 79), (29, 12)], 2, Reason::MarkPc, 0x1_000c, 0x1_0008),
    (
        [(0, 79), (33, 243)],
        2,
        Reason::MarkSum,
        0x7fff_fff3,
        0x7fff_fff2,
    ),
    ([(63, 20), (67, 78)], 8, Reason::MarkPc, 0x1_0014, 0x1_0010),
    (
        [(50, 78), (63, 20)],
        8,
        Reason::MarkSum,
        0x8000_004e,
        0x8000_004d,
    ),
    ([(46, 20), (80, 94)], 8, Reason::MarkPc, 0x1_0014, 0x1_0010),
    ([(0, 79), (117, 0)], 8, Reason::Outside, 0x1_0004, 0x1_0010),
    ([(84, 7), (117, 0)], 8, Reason::Argument(0), 7, 0),
    ([(137, 16), (155, 5)], 9, Reason::MarkPc, 0x1_0010, 0x1_0014),
];

fn departs(step: u64, reason: Reason, told: u64, found: u64) -> Halt {
    Halt::Departs(Departure {
        step,
        reason,
        told,
        found,
    })
}

/// Where a replay halts within so many steps, why, and how many it made.
fn halted(replay: &mut Replay<'_>, most: u64) -> (u64, Option<Halt>, u64) {
    let mut meter = StepMeter::new();
    while meter.value() < most {
        if let Err(halt) = replay.advance(&mut meter) {
            return (replay.position(), Some(halt), meter.value());
        }
    }
    (replay.position(), None, meter.value())
}

/// The replay of an executable along a log.
fn replayed(
    alloc: Global,
    elf: &Elf<'_>,
    log: &Log<'_>,
) -> Result<(u64, Option<Halt>, u64), MapFault>
    requires loadable { AreLoadable elf.now.segments }
    requires log { IsLawfulLog log.now }
{
    let mut replay = Replay::start(alloc, elf, log)?;
    Ok(halted(&mut replay, 20))
}

/// The replay of the program along a log with two bytes put to other values.
fn replayed_with(
    alloc: Global,
    log: &[u8],
    changes: [(usize, u8); 2],
) -> Result<(u64, Option<Halt>, u64), Fail> {
    let mut bytes = Vec::from_slice(alloc, log)?;
    for (at, byte) in changes {
        if let Some(place) = bytes.get_mut(at) {
            *place = byte;
        }
    }
    let elf = read_elf(alloc, PROGRAM)?;
    let log = read_log(alloc, bytes.as_slice())?;
    let answer = replayed(alloc, &elf, &log)?;
    Ok(answer)
}

#[test]
fn exit_and_exit_group_exit(rt: HostRuntime) -> Result<(), Fail> {
    // Those of Linux on RISC-V: exit and exit_group, not personality and waitid.
    assert!(rt; is_exit(93) && is_exit(94) && !is_exit(92) && !is_exit(95));
    Ok(())
}

#[test]
fn the_first_departure_is_told(rt: HostRuntime) -> Result<(), Fail> {
    for (at, byte, step, reason, told, found) in CHANGES {
        let answer = replayed_with(rt.alloc(), LOG, [(0, 79), (at, byte)])?;
        assert_eq!(rt;
            answer,
            (step, Some(departs(step, reason, told, found)), step)
        );
    }
    Ok(())
}

#[test]
fn marks_and_writes_are_judged(rt: HostRuntime) -> Result<(), Fail> {
    for (changes, step, reason, told, found) in MARKED_CHANGES {
        let answer = replayed_with(rt.alloc(), MARKED, changes)?;
        assert_eq!(rt;
            answer,
            (step, Some(departs(step, reason, told, found)), step)
        );
    }
    Ok(())
}

/// No bytes for any page.
struct NoPages;

impl Pages for NoPages {
    ghost use Rattle.std.specs.Prelude.{None};

    ghost bytes_at = { λ pages page. None };

    fn page(&self, _page: u32) -> Option<&[u8]> {
        None
    }
}

/// A jump to the step at which the replay stands, and how many pages its memory has.
fn jump_here(replay: &mut Replay<'_>) -> u32 {
    let step = replay.position();
    let core = replay.machine().registers();
    let pages = replay.machine().memory().pages();
    replay.jump(step, &core, &NoPages);
    pages
}

/// The first and the last byte that the call of the log with marks writes.
fn written(replay: &Replay<'_>) -> [Option<u8>; 2] {
    let memory = replay.machine().memory();
    [memory.read_byte(0x1_1004), memory.read_byte(0x1_1007)]
}

/// What a replay that goes eight steps, jumps and goes to its end finds: how many pages there are, what its call
/// wrote, before it and behind it, the run's last step, and how it halts.
type Found = (
    u32,
    [Option<u8>; 2],
    [Option<u8>; 2],
    u64,
    (u64, Option<Halt>, u64),
);

fn jumping(alloc: Global, elf: &Elf<'_>, log: &Log<'_>) -> Result<Found, MapFault>
    requires loadable { AreLoadable elf.now.segments }
    requires log { IsLawfulLog log.now }
{
    let mut replay = Replay::start(alloc, elf, log)?;
    halted(&mut replay, 8);
    let pages = jump_here(&mut replay);
    let before = written(&replay);
    let end = halted(&mut replay, 20);
    replay.clear_dirty();
    Ok((pages, before, written(&replay), replay.last(), end))
}

#[test]
fn a_replay_jumps_writes_and_ends(rt: HostRuntime) -> Result<(), Fail> {
    let elf = read_elf(rt.alloc(), PROGRAM)?;
    let log = read_log(rt.alloc(), MARKED)?;
    let found = jumping(rt.alloc(), &elf, &log)?;
    let end = (9, Some(Halt::Ended), 1);
    assert_eq!(rt;
        found,
        (513, [Some(0), Some(0)], [Some(1), Some(4)], 9, end)
    );
    Ok(())
}
