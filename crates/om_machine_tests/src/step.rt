//! Programs stepped by hand.

use crate::mem::is_dirty;
use om_elf::read_elf;
use om_log::{Entry, Log, Writes, read_log};
use om_step::{Cause, Machine, Outcome, Pages, Start, StepMeter};
use std::alloc::{AllocError, Global};
use std::test::Fail;

/// An executable's headers: one segment at 65536, of 20 bytes, that can be fetched and read.
const HEADERS: &[u8] = b"\x7fELF\x01\x01\x01\0\0\0\0\0\0\0\0\0\
\x02\0\xf3\0\x01\0\0\0\0\0\x01\0\x34\0\0\0\
\0\0\0\0\0\0\0\0\x34\0\x20\0\x01\0\0\0\
\0\0\0\0\x01\0\0\0\x54\0\0\0\0\0\x01\0\
\0\0\x01\0\x14\0\0\0\x14\0\0\0\x05\0\0\0\x04\0\0\0";

/// `addi a0,a0,-1; bnez a0,-4; li a7,93; ecall`.
const LOOP: &[u8] = b"\x13\x05\xf5\xff\xe3\x1e\x05\xfe\x93\x08\xd0\x05\x73\0\0\0";

/// `li a0,3`.
const LOAD_THREE: u32 = 0x00300513;

/// The executable of an instruction with the loop behind it.
fn program(alloc: Global, first: u32) -> Result<Vec<u8>, AllocError> {
    let mut file = HEADERS.to_vec(alloc)?;
    file.extend_from_slice(&first.to_le_bytes())?;
    file.extend_from_slice(LOOP)?;
    Ok(file)
}

/// A page of stack, and one of heap.
const START: Start = Start {
    stack_low: 0x7ff0_0000,
    stack_size: 4096,
    heap_low: 0x1_1000,
    heap_size: 4096,
};

/// The machine at an instruction with the loop behind it.
fn machine_at(alloc: Global, first: u32) -> Result<Machine, Fail> {
    let file = program(alloc, first)?;
    let elf = read_elf(alloc, file.as_slice())?;
    Ok(Machine::load(alloc, &elf, START)?)
}

/// The pc and a0, what a step tells, and by how much it raises the meter.
fn told_by_step(alloc: Global, machine: &mut Machine) -> Result<String, AllocError> {
    let mut meter = StepMeter::new();
    let (pc, a0) = (machine.pc(), machine.reg(10));
    let outcome = machine.step(&mut meter);
    let steps = meter.value();
    format!(in alloc; "{pc} {a0} {outcome:?} {steps}")
}

/// Answers the call at which the machine stands, with the value 7: the first address that could not be written, if
/// one couldn't, and by how much the meter rises. Where it stands at no call, nothing happens.
fn answer(machine: &mut Machine, writes: Writes<'_>) -> (Option<u32>, u64) {
    let mut meter = StepMeter::new();
    let outside = match machine.look() {
        Outcome::Call => match machine.answer_call(7, writes, &mut meter) {
            Ok(_) => None,
            Err(fault) => Some(fault.addr),
        },
        Outcome::Next(_) | Outcome::Stop(_) => None,
    };
    (outside, meter.value())
}

/// In each line the pc and a0 before a step, what it tells, and by how much it raises the meter.
const STEPS: &str = "\
65536 0 Next(Reg(10)) 1
65540 3 Next(Reg(10)) 1
65544 2 Next(Nothing) 1
65540 2 Next(Reg(10)) 1
65544 1 Next(Nothing) 1
65540 1 Next(Reg(10)) 1
65544 0 Next(Nothing) 1
65548 0 Next(Reg(17)) 1
65552 0 Call 0";

#[test]
fn a_loop_counts_down(rt: HostRuntime) -> Result<(), Fail> {
    let mut machine = machine_at(rt.alloc(), LOAD_THREE)?;
    assert_eq!(rt; machine.reg(2), 0x7ff0_0ff0);
    for wanted in STEPS.lines() {
        let told = told_by_step(rt.alloc(), &mut machine)?;
        assert_eq!(rt; told.as_str(), wanted);
    }
    assert_eq!(rt; answer(&mut machine, Writes::none()), (None, 1));
    let told = told_by_step(rt.alloc(), &mut machine)?;
    assert_eq!(rt; told.as_str(), "65556 7 Stop(Fetch) 0");
    assert_eq!(rt; Cause::Fetch.code(), 1);
    Ok(())
}

/// A log with the machine's regions and two calls of number 63: the second write of the first one goes one byte
/// past the heap's end, and the two writes of the other one have two bytes in common.
///
/// In the lines: OTL1 and the regions; CALL of step 0; its a0 to a5; its result 4 and that there are two writes; 7 at
/// 0x11000; 7 from 0x11ffe to 0x12000; CALL of step 1; its a0 to a5; its result 4 and that there are two writes; 1 to 4
/// from 0x11000; 9 and 8 from 0x11002; END.
const CALLS: &[u8] = b"OTL1\0\0\xf0\x7f\0\x10\0\0\0\x10\x01\0\0\x10\0\0\
\x01\0\0\0\0\0\0\0\0\x3f\0\0\0\
\0\0\0\0\0\0\0\0\0\0\0\0\0\0\0\0\0\0\0\0\0\0\0\0\
\x04\0\0\0\x02\0\0\0\
\0\x10\x01\0\x01\0\0\0\x07\
\xfe\x1f\x01\0\x03\0\0\0\x07\x07\x07\
\x01\x01\0\0\0\0\0\0\0\x3f\0\0\0\
\0\0\0\0\0\0\0\0\0\0\0\0\0\0\0\0\0\0\0\0\0\0\0\0\
\x04\0\0\0\x02\0\0\0\
\0\x10\x01\0\x04\0\0\0\x01\x02\x03\x04\
\x02\x10\x01\0\x02\0\0\0\x09\x08\
\x03\x02\0\0\0\0\0\0\0\0\0\0\0\0";

/// The writes of the call at a place of a log; no writes where no call stands there.
fn writes_at<'a>(log: &Log<'a>, place: usize) -> Writes<'a> {
    match log.entries.as_slice().get(place) {
        Some(Entry::Call { writes, .. }) => writes.again(),
        _ => Writes::none(),
    }
}

#[test]
fn a_call_writes(rt: HostRuntime) -> Result<(), Fail> {
    let log = read_log(rt.alloc(), CALLS)?;
    let mut machine = machine_at(rt.alloc(), 0x73)?; // ecall
    assert_eq!(rt;
        answer(&mut machine, writes_at(&log, 0)),
        (Some(0x1_2000), 0)
    );
    assert_eq!(rt; answer(&mut machine, writes_at(&log, 1)), (None, 1));
    assert_eq!(rt; machine.memory().number(0x1_1000, 4), Some(0x08090201));
    assert_eq!(rt; machine.memory().number(0x1_1ffc, 4), Some(0));
    assert_eq!(rt; (machine.pc(), machine.reg(10)), (65540, 7));
    Ok(())
}

/// Bytes for the second page alone.
#[derive(Drop)]
struct SecondPage<'a> {
    bytes: &'a [u8],
}

impl Pages for SecondPage<'_> {
    ghost use Rattle.std.specs.Prelude.{Some, None, nat_eq, if◌then◌else◌};

    ghost bytes_at = { λ pages page. if nat_eq page 1 then Some pages.bytes.now else None };

    fn page(&self, page: u32) -> Option<&[u8]> {
        if page == 1 { Some(self.bytes) } else { None }
    }
}

/// Makes a step, and puts the machine back with the second page that it had: what was at the stack's top between.
fn step_and_back(alloc: Global, machine: &mut Machine) -> Result<Option<u8>, Fail> {
    if machine.memory().pages() < 2 {
        return Err("there are two pages".into());
    }
    let core = machine.registers();
    let page = Vec::from_slice(alloc, machine.memory().page(1))?;
    machine.step(&mut StepMeter::new());
    let between = machine.memory().read_byte(0x7ff0_0ff0);
    let kept = SecondPage {
        bytes: page.as_slice(),
    };
    machine.put_back(&core, &kept);
    Ok(between)
}

#[test]
fn a_machine_is_put_back(rt: HostRuntime) -> Result<(), Fail> {
    let mut machine = machine_at(rt.alloc(), 0x00212023)?; // sw sp,0(sp)
    let core = machine.registers();
    let between = step_and_back(rt.alloc(), &mut machine)?;
    assert_eq!(rt; between, Some(0xf0));
    assert_eq!(rt; machine.registers(), core);
    assert_eq!(rt; machine.sum(), 0x7ff0_0ff0);
    assert_eq!(rt; machine.memory().read_byte(0x7ff0_0ff0), Some(0));
    assert!(rt; !is_dirty(machine.memory(), 1));
    let told = told_by_step(rt.alloc(), &mut machine)?;
    assert_eq!(rt;
        told.as_str(),
        "65536 0 Next(Bytes { addr: 2146439152, len: 4 }) 1"
    );
    assert!(rt; is_dirty(machine.memory(), 1));
    machine.clear_dirty();
    assert!(rt; !is_dirty(machine.memory(), 1));
    Ok(())
}
