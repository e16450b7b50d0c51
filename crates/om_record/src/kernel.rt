//! The kernel of a recorded run: what it answers to each call, with the numbers of Linux on RISC-V.

ghost use Rattle.std.specs.Prelude.{◌≡◌, ◌≤◌, [], length, min};
ghost use Rattle.om_record.specs.Kernel.{Kernel, answer_brk, answer_read, answer_to, answer_write, answers, takes, write_to};

use om_log::{Start, Write, Writes};
use om_run::is_exit;
use om_step::{ARGUMENT_0, CALL_NUMBER, Machine};
use std::marker::Model;

/// The numbers of the registers a1 and a2.
const ARGUMENT_1: u8 = ARGUMENT_0 + 1;

const ARGUMENT_2: u8 = ARGUMENT_0 + 2;

/// The numbers of the calls.
const READ: u32 = 63;

const WRITE: u32 = 64;

const BRK: u32 = 214;

/// The file descriptors of the input, the output and the errors.
const INPUT: u32 = 0;

const OUTPUT: u32 = 1;

const ERRORS: u32 = 2;

/// EBADF, EFAULT and ENOSYS, as a call's result tells them.
const BAD_DESCRIPTOR: u32 = 0xffff_fff7;

const BAD_ADDRESS: u32 = 0xffff_fff2;

const NO_SUCH_CALL: u32 = 0xffff_ffda;

/// The most bytes that one call reads.
const MOST_READ: usize = 65_536;

/// What the kernel keeps of a process.
#[derive(Debug, Drop)]
pub(crate) struct Host<'a> {
    /// The input that wasn't taken yet.
    left: &'a [u8],
    program_break: u32,
}

// Clauses see the input as a list.
impl<'a> Model for Host<'a> {
    ghost use Rattle.om_record.specs.Kernel.{Kernel};

    ghost Value = { Kernel };

    ghost view = { λ it. record { left = it.left.now; program_break = it.program_break } };
}

/// The answer to a call.
#[derive(Debug, Drop)]
pub(crate) struct Reply<'a> {
    /// What a0 is afterwards.
    pub value: u32,
    pub writes: Writes<'a>,
}

/// A write of the bytes, if there are any.
fn write_at<'a>(addr: u32, bytes: &'a [u8]) -> Writes<'a>
    ensures { result ≡ write_to addr bytes.now }
{
    if bytes.is_empty() {
        return Writes::none();
    }
    Writes::one(Write { addr, bytes })
}

/// What a call to write gives.
fn write(machine: &Machine) -> u32
    ensures { (kernel : Kernel) → answer_write kernel machine.now.state ≡ answers kernel result }
{
    let descriptor = machine.reg(ARGUMENT_0);
    if descriptor != OUTPUT && descriptor != ERRORS {
        return BAD_DESCRIPTOR;
    }
    let count = machine.reg(ARGUMENT_2);
    if !machine
        .memory()
        .is_mapped(machine.reg(ARGUMENT_1), count as usize)
    {
        return BAD_ADDRESS;
    }
    count
}

impl<'a> Reply<'a> {
    /// An answer that writes nothing.
    fn with(value: u32) -> Reply<'a>
        ensures { result ≡ record { value = value; writes = [] } }
    {
        Reply {
            value,
            writes: Writes::none(),
        }
    }
}

impl<'a> Host<'a> {
    /// The kernel as the run begins: the break stands where the heap does.
    pub fn new(input: &'a [u8], start: Start) -> Host<'a>
        ensures { result ≡ record { left = input.now; program_break = start.heap_low } }
    {
        Host {
            left: input,
            program_break: start.heap_low,
        }
    }

    /// The answer to the call at which the machine stands.
    #[tactic(auto, unfolding(crate::specs::Kernel::answer_to))]
    pub fn answer(&mut self, start: Start, machine: &Machine) -> Reply<'a>
        ensures { answer_to start self.old machine.now.state
            ≡ record { result = result.value; writes = result.writes; kernel = self.new } }
    {
        let number = machine.reg(CALL_NUMBER);
        if number == READ {
            return self.read(machine);
        }
        if number == WRITE {
            return Reply::with(write(machine));
        }
        if number == BRK {
            return Reply::with(self.move_break(start, machine));
        }
        if is_exit(number) {
            return Reply::with(0);
        }
        Reply::with(NO_SUCH_CALL)
    }

    /// Reads from the input, where all bytes may be written.
    fn read(&mut self, machine: &Machine) -> Reply<'a>
        ensures { answer_read self.old machine.now.state
            ≡ record { result = result.value; writes = result.writes; kernel = self.new } }
    {
        if machine.reg(ARGUMENT_0) != INPUT {
            return Reply::with(BAD_DESCRIPTOR);
        }
        let address = machine.reg(ARGUMENT_1);
        let count = self.read_count(machine.reg(ARGUMENT_2));
        if machine.memory().first_outside(address, count).is_some() {
            return Reply::with(BAD_ADDRESS);
        }
        self.take(address, count)
    }

    /// How many bytes are read where so many are asked for.
    fn read_count(&self, asked: u32) -> usize
        ensures { result ≡ min asked (min (length self.now.left) 65_536) }
    {
        (asked as usize).min(self.left.len().min(MOST_READ))
    }

    /// So many bytes of the input are taken, and go to an address.
    fn take(&mut self, address: u32, count: usize) -> Reply<'a>
        requires left { count ≤ length self.old.left }
        requires most { count ≤ 65_536 }
        ensures { takes self.old address count
            ≡ record { result = result.value; writes = result.writes; kernel = self.new } }
    {
        let (taken, left) = self.left.split_at(count);
        self.left = left;
        Reply {
            value: count as u32,
            writes: write_at(address, taken),
        }
    }

    /// The break moves to an address within the heap, and stays elsewhere.
    fn move_break(&mut self, start: Start, machine: &Machine) -> u32
        ensures { answer_brk start self.old machine.now.state
            ≡ record { result = result; writes = []; kernel = self.new } }
    {
        let address = machine.reg(ARGUMENT_0);
        let end = u64::from(start.heap_low) + u64::from(start.heap_size);
        if start.heap_low <= address && u64::from(address) <= end {
            self.program_break = address;
        }
        self.program_break
    }
}
