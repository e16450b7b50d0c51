//! One step of the machine.

ghost use Rattle.std.specs.Prelude.{◌≡◌, ℕ, ◌+◌, ◌-◌, ◌%◌, ◌^◌, ◌<◌, ◌≢◌, slice_index, if◌then◌else◌, is_ok, None, IfOk, OnErr};
ghost use Rattle.std.specs.FinMap as fin;
ghost use Rattle.om_isa.specs.Table.{extended};
ghost use Rattle.om_mem.specs.Contents.{fetched};
ghost use Rattle.om_mem.specs.Pages.{IsKept};
ghost use Rattle.om_step.specs.Acts.{IsSound, IsWidth};
ghost use Rattle.om_step.specs.State.{held_of, register, with_register};
ghost use Rattle.om_step.specs.Step.{AreElsewhere, SparesByte, SparesRegister, action_at, action_by, action_by_word, after, after_answer, after_writes, extended_if, next, outcome, outside_of, steps_of, answer_result, outcome_by, touched_by};

use crate::acting::action_of;
use crate::action::Action;
use crate::cause::Cause;
use crate::machine::Machine;
use crate::meter::StepMeter;
use crate::outcome::{Outcome, Touched};
use crate::register_file::ARGUMENT_0;
use om_isa::decode;
use om_log::Writes;
use om_mem::{Memory, WriteOutside};

/// What a write to a register touches.
fn write_touches<'a>(number: u8) -> Touched<'a>
    ensures { result ≡ touched_by number }
{
    if number == 0 {
        return Touched::Nothing;
    }
    Touched::Reg(number)
}

/// Writes to a register, if that isn't x0, and tells what was written.
fn write_register<'a>(registers: &mut [u32; 32], number: u8, value: u32) -> Touched<'a>
    requires { number < 32 }
    ensures registers { registers.new ≡ with_register registers.old number value }
    ensures touched { result ≡ touched_by number }
    ensures zero { slice_index registers.new 0 ≡ slice_index registers.old 0 }
    ensures others { (r : ℕ) → r ≢ number → slice_index registers.new r ≡ slice_index registers.old r }
{
    if number != 0 {
        registers[number as usize] = value;
    }
    write_touches(number)
}

/// The low byte of `value`, its sign bit extended.
fn extend_byte(value: u32) -> u32
    ensures { result ≡ extended 8 (value % 2 ^ 8) }
{
    let byte = value % 0x100;
    if byte < 0x80 {
        byte
    } else {
        byte + 0xffff_ff00
    }
}

/// The low half of `value`, its sign bit extended.
fn extend_half(value: u32) -> u32
    ensures { result ≡ extended 16 (value % 2 ^ 16) }
{
    let half = value % 0x1_0000;
    if half < 0x8000 {
        half
    } else {
        half + 0xffff_0000
    }
}

/// The number that a load of `count` bytes writes, their sign bit extended or not.
fn extend(extends: bool, count: u8, value: u32) -> u32
    requires { IsWidth count }
    ensures { result ≡ extended_if extends count value }
{
    if !extends {
        return value;
    }
    if count == 1 {
        return extend_byte(value);
    }
    if count == 2 {
        return extend_half(value);
    }
    value
}

impl Machine {
    /// What happens at the state; a step isn't made.
    #[tactic(auto, unfolding(crate::specs::Step::outcome))]
    pub fn look<'a>(&self) -> Outcome<'a>
        ensures { result ≡ outcome self.now.state }
    {
        match self.action(self.memory.fetched(self.pc)) {
            Action::Go { rd, .. } => Outcome::Next(write_touches(rd)),
            Action::Load {
                rd,
                address,
                count,
                ..
            } => {
                if self.memory.number(address, count).is_none() {
                    return Outcome::Stop(Cause::Load);
                }
                Outcome::Next(write_touches(rd))
            }
            Action::Store { address, count, .. } => {
                if !self.memory.may_write(address, count) {
                    return Outcome::Stop(Cause::Store);
                }
                Outcome::Next(Touched::Bytes {
                    addr: address,
                    len: count,
                })
            }
            Action::Ask => Outcome::Call,
            Action::Halt(cause) => Outcome::Stop(cause),
        }
    }

    /// The action that comes next, where `word` is what was fetched at the pc.
    #[inline(always)] // so that the action goes through no memory
    #[tactic(auto, unfolding(crate::specs::Step::action_at))]
    fn action(&self, word: Option<u32>) -> Action
        requires { word ≡ fetched self.now.state.memory self.now.state.pc }
        ensures action { result ≡ action_at self.now.state }
        ensures sound { IsSound result }
    {
        if self.pc % 4 != 0 {
            return Action::Halt(Cause::Misaligned);
        }
        let Some(word) = word else {
            return Action::Halt(Cause::Fetch);
        };
        let decoded = decode(word);
        let Some(instr) = &decoded else {
            return Action::Halt(Cause::Illegal);
        };
        let a = self.registers[instr.rs1 as usize];
        let b = self.registers[instr.rs2 as usize];
        action_of(instr, a, b, self.pc)
    }

    /// The load of so many bytes into a register, if they are there.
    #[inline(always)] // as a part of `step`
    fn load_into<'a>(
        &mut self,
        rd: u8,
        address: u32,
        count: u8,
        extends: bool,
        meter: &mut StepMeter,
    ) -> Outcome<'a>
        requires register { rd < 32 }
        requires width { IsWidth count }
        requires meter { meter.old < 2 ^ 64 - 1 }
        ensures state { self.new.state ≡ after self.old.state (Action.Load rd address count extends) }
        ensures outcome { result ≡ outcome_by self.old.state (Action.Load rd address count extends) }
        ensures meter { meter.new ≡ meter.old + steps_of result }
        ensures waits { steps_of result ≡ 0 → self.new ≡ self.old }
        ensures dirty { self.new.dirty ≡ self.old.dirty }
    {
        let Some(value) = self.memory.load(address, count) else {
            return Outcome::Stop(Cause::Load);
        };
        self.pc = self.pc.wrapping_add(4);
        meter.raise();
        let value = extend(extends, count, value);
        Outcome::Next(write_register(&mut self.registers, rd, value))
    }

    /// The store of so many low bytes of a value, if each of them may be written.
    #[inline(always)] // as a part of `step`
    fn store<'a>(
        &mut self,
        address: u32,
        count: u8,
        value: u32,
        meter: &mut StepMeter,
    ) -> Outcome<'a>
        requires width { IsWidth count }
        requires meter { meter.old < 2 ^ 64 - 1 }
        ensures state { self.new.state ≡ after self.old.state (Action.Store address count value) }
        ensures outcome { result ≡ outcome_by self.old.state (Action.Store address count value) }
        ensures meter { meter.new ≡ meter.old + steps_of result }
        ensures waits { steps_of result ≡ 0 → self.new ≡ self.old }
        ensures kept { IsKept (held_of self.old) (held_of self.new) }
        ensures bytes { (a : ℕ) → SparesByte result a
            → fin.get self.new.state.memory.bytes a ≡ fin.get self.old.state.memory.bytes a }
        ensures rights { self.new.state.memory.regions ≡ self.old.state.memory.regions }
    {
        if !self.memory.write(address, count, value) {
            return Outcome::Stop(Cause::Store);
        }
        self.pc = self.pc.wrapping_add(4);
        meter.raise();
        Outcome::Next(Touched::Bytes {
            addr: address,
            len: count,
        })
    }

    /// One instruction, where the machine can go on.
    ///
    /// `Call` and `Stop` change neither the state nor the meter.
    #[inline(always)] // so that a loop of steps has no call
    #[tactic(auto, unfolding(crate::specs::Step::outcome, crate::specs::Step::next))]
    pub fn step<'a>(&mut self, meter: &mut StepMeter) -> Outcome<'a>
        requires { meter.old < 2 ^ 64 - 1 }
        ensures state { self.new.state ≡ next self.old.state }
        ensures outcome { result ≡ outcome self.old.state }
        ensures meter { meter.new ≡ meter.old + steps_of result }
        ensures waits { steps_of result ≡ 0 → self.new ≡ self.old }
        ensures kept { IsKept (held_of self.old) (held_of self.new) }

        // What the step doesn't tell stays.
        ensures registers { (r : ℕ) → SparesRegister result r → register self.new.state r ≡ register self.old.state r }
        ensures bytes { (a : ℕ) → SparesByte result a → fin.get self.new.state.memory.bytes a ≡ fin.get self.old.state.memory.bytes a }
        ensures rights { self.new.state.memory.regions ≡ self.old.state.memory.regions }
    {
        let word = self.memory.fetch(self.pc);
        match self.action(word) {
            Action::Go { rd, value, pc } => {
                self.pc = pc;
                meter.raise();
                Outcome::Next(write_register(&mut self.registers, rd, value))
            }
            Action::Load {
                rd,
                address,
                count,
                extends,
            } => self.load_into(rd, address, count, extends, meter),
            Action::Store {
                address,
                count,
                value,
            } => self.store(address, count, value, meter),
            Action::Ask => Outcome::Call,
            Action::Halt(cause) => Outcome::Stop(cause),
        }
    }
}

/// The first address, in the order of the writes and of their bytes, that may not be written.
fn judge_writes(memory: &Memory, writes: &Writes<'_>) -> Option<u32>
    ensures { result ≡ outside_of memory.now.contents.regions writes.now }
{
    let mut left = writes.again();
    while let Some((write, others)) = left.split_first() {
        if let Some(address) = memory.first_outside(write.addr, write.bytes.len()) {
            return Some(address);
        }
        left = others;
    }
    None
}

/// Does the writes one after another.
fn do_writes(memory: &mut Memory, writes: &Writes<'_>)
    requires inside { outside_of memory.old.contents.regions writes.now ≡ None }
    ensures contents { memory.new.contents ≡ after_writes memory.old.contents writes.now }
    ensures kept { IsKept memory.old memory.new }
    ensures bytes { (a : ℕ) → AreElsewhere writes.now a
        → fin.get memory.new.contents.bytes a ≡ fin.get memory.old.contents.bytes a }
    ensures rights { memory.new.contents.regions ≡ memory.old.contents.regions }
{
    let mut rest = writes.again();
    while let Some((write, others)) = rest.split_first() {
        memory.write_bytes(write.addr, write.bytes).unwrap();
        rest = others;
    }
}

impl Machine {
    /// The answer to the call at which the machine stands: the writes are done in their order, `value` goes to
    /// a0, and the pc goes on.
    ///
    /// Errors: `WriteOutside`, and nothing changes, where a byte of a write isn't in a region with the right to
    /// write. All writes are judged before one is done.
    pub fn answer_call<'a>(
        &mut self,
        value: u32,
        writes: Writes<'a>,
        meter: &mut StepMeter,
    ) -> Result<Touched<'a>, WriteOutside>
        requires call { outcome self.old.state ≡ Outcome.Call }
        requires meter { meter.old < 2 ^ 64 - 1 }
        ensures answer { result ≡ answer_result writes.entry (outside_of self.old.state.memory.regions writes.entry) }
        ensures state { self.new.state ≡ after_answer self.old.state value writes.entry
            (outside_of self.old.state.memory.regions writes.entry) }
        ensures meter { meter.new ≡ meter.old + (if is_ok result then 1 else 0) }
        ensures waits { OnErr result (self.new ≡ self.old) }
        ensures kept { IsKept (held_of self.old) (held_of self.new) }

        // What the answer doesn't tell stays.
        ensures registers { IfOk result (λ touched. (r : ℕ) → SparesRegister (Outcome.Next touched) r
            → register self.new.state r ≡ register self.old.state r) }
        ensures bytes { IfOk result (λ touched. (a : ℕ) → SparesByte (Outcome.Next touched) a
            → fin.get self.new.state.memory.bytes a ≡ fin.get self.old.state.memory.bytes a) }
        ensures rights { self.new.state.memory.regions ≡ self.old.state.memory.regions }
    {
        if let Some(addr) = judge_writes(&self.memory, &writes) {
            return Err(WriteOutside { addr });
        }
        do_writes(&mut self.memory, &writes);
        self.registers[ARGUMENT_0 as usize] = value;
        self.pc = self.pc.wrapping_add(4);
        meter.raise();
        Ok(Touched::Call(writes))
    }
}
