//! A replay: a run made again, step by step along its log.

ghost use Rattle.std.specs.Prelude.{◌≡◌, ◌+◌, ◌-◌, ◌^◌, ◌<◌, ◌≤◌, ◌&&◌, true, Ok, is_ok, if◌then◌else◌, length, drop, slice_index};
ghost use Rattle.om_elf.specs.Image.{AreLoadable};
ghost use Rattle.om_log.specs.Grammar.{IsLawfulLog};
ghost use Rattle.om_mem.specs.Contents.{overlap_of};
ghost use Rattle.om_step.specs.First.{first_state, regions_of};
ghost use Rattle.om_mem.specs.Gives.{Gives};
ghost use Rattle.om_step.specs.Back.{HaveLengths, IsBack, IsClean};
ghost use Rattle.om_run.specs.Replay.{IsKeptSince, beginning, here, moved, placed_at, verdict_at};
ghost use Rattle.om_run.specs.Run.{end_of, state_at};
ghost use Rattle.om_run.specs.Position.{end_of_quiet, is_next, is_quiet};
ghost use Rattle.om_step.specs.Step.{outcome};
ghost use Rattle.om_step.specs.declared.outcome.Touched.{Touched};

use crate::departure::Halt;
use crate::judge::{halt_before, make_step, step_by, step_without_call};
use crate::logged::{RunEnd, find_end, first_call, skip_to};
use om_elf::Elf;
use om_log::{Entry, Log};
use om_step::{Core, Machine, MapFault, Pages, StepMeter, Touched};
use std::alloc::Global;
use std::marker::Model;

/// A run at one of its steps.
#[derive(Drop)]
pub struct Replay<'a> {
    elf: &'a Elf<'a>,
    log: &'a Log<'a>,
    machine: Machine,
    step: u64,
    /// The step at which every page last counted as unwritten.
    cleared: u64,
    /// The entries that aren't behind it.
    rest: &'a [Entry<'a>],
    end: RunEnd,
    /// Before this step the log tells nothing: one test at each step.
    quiet_until: u64,
}

// Clauses see the run and the step. The invariant is that the machine is in the state of the step, and that
// the rest of the entries is what the log has from there on; and that it knows how far it is quiet.
impl<'a> Model for Replay<'a> {
    ghost use Rattle.std.specs.Prelude.{◌≡◌};
    ghost use Rattle.std.specs.Coded.{codes};
    ghost use Rattle.om_step.specs.First.{first_state};
    ghost use Rattle.om_step.specs.State.{state_code};
    ghost use Rattle.om_run.specs.Replay.{Place};
    ghost use Rattle.om_run.specs.Position.{IsPlaced, end_of_quiet};

    ghost Value = { Place };

    ghost coded = { Prim.hlevel (codes, state_code) };

    ghost view = { λ it. record {
      entries = it.log.now.entries;
      first = first_state it.elf.now it.log.now.start;
      step = it.step;
      cleared = it.cleared;
    } };

    ghost invariant = { λ it. IsPlaced
        (record {
          entries = it.log.now.entries;
          first = first_state it.elf.now it.log.now.start;
          step = it.step;
          cleared = it.cleared;
        })
        it.machine it.rest.now it.end
        × (it.quiet_until ≡ end_of_quiet it.rest.now it.end.step) };
}

/// The step of the first entry, or the last step if that is earlier.
fn find_quiet(entries: &[Entry<'_>], last: u64) -> u64
    ensures { result ≡ end_of_quiet entries.now last }
{
    match entries.first() {
        Some(entry) => entry.step().min(last),
        None => last,
    }
}

impl<'a> Replay<'a> {
    /// The run at its first step. It takes all memory that the run needs.
    ///
    /// Errors: `Overlap` where two of the run's regions share an address; `NoMemory`.
    pub fn start(alloc: Global, elf: &'a Elf<'a>, log: &'a Log<'a>) -> Result<Replay<'a>, MapFault>
        requires loadable { AreLoadable elf.now.segments }
        requires log { IsLawfulLog log.now }
        ensures { Gives (overlap_of (regions_of elf.now.segments log.now.start))
            (beginning log.now.entries (first_state elf.now log.now.start))
            result }
    {
        let machine = Machine::load(alloc, elf, log.start)?;
        let rest = log.entries.as_slice();
        let end = find_end(rest);
        Ok(Replay {
            elf,
            log,
            machine,
            step: 0,
            cleared: 0,
            rest,
            end,
            quiet_until: find_quiet(rest, end.step),
        })
    }

    /// One step, judged by the log. At an error nothing changes.
    ///
    /// Errors: `Ended` at the last step; `Departs` where the run departs from its log.
    pub fn advance(&mut self, meter: &mut StepMeter) -> Result<Touched<'a>, Halt>
        requires { meter.old < 2 ^ 64 - 1 }
        ensures verdict { result ≡ verdict_at self.old }
        ensures position { self.new ≡ moved self.old result }
        ensures meter { meter.new ≡ meter.old + (if is_ok result then 1 else 0) }
    {
        if self.step < self.quiet_until {
            let touched = step_without_call(&mut self.machine, self.end.step, self.step, meter)?;
            self.step += 1;
            return Ok(touched);
        }
        self.advance_by_entry(meter)
    }

    /// Makes the step, if the log tells nothing of it and it is that of an instruction, and answers whether
    /// it did. Else nothing changes, and [`Replay::advance`] judges the step.
    ///
    /// It is for loops that don't ask what a step touches: that isn't put together.
    #[inline(always)] // so that such a loop has no call
    pub fn pass(&mut self, meter: &mut StepMeter) -> bool
        requires { meter.old < 2 ^ 64 - 1 }
        ensures passes { result ≡ (is_quiet self.old && is_next (outcome (here self.old))) }
        ensures verdict { result ≡ true → (touched : Touched) × (verdict_at self.old ≡ Ok touched) }
        ensures position { self.new ≡ (if result then record self.old { step = self.old.step + 1 } else self.old) }
        ensures meter { meter.new ≡ meter.old + (if result then 1 else 0) }
    {
        if self.step >= self.quiet_until {
            return false;
        }
        if !make_step(&mut self.machine, meter) {
            return false;
        }
        self.step += 1;
        true
    }

    /// One step at which the log tells something: its marks are judged first, then the end or the step itself.
    #[cold]
    fn advance_by_entry(&mut self, meter: &mut StepMeter) -> Result<Touched<'a>, Halt>
        requires { meter.old < 2 ^ 64 - 1 }
        ensures verdict { result ≡ verdict_at self.old }
        ensures position { self.new ≡ moved self.old result }
        ensures meter { meter.new ≡ meter.old + (if is_ok result then 1 else 0) }
    {
        let entries = self.log.entries.as_slice();
        if let Some(halt) = halt_before(self.rest, entries, &self.machine, self.end, self.step) {
            return Err(halt);
        }
        let call = first_call(self.rest, self.step);
        let touched = step_by(&mut self.machine, call, self.end.step, self.step, meter)?;
        self.step += 1;
        self.rest = skip_to(self.rest, self.step);
        self.quiet_until = find_quiet(self.rest, self.end.step);
        Ok(touched)
    }

    /// The step at which it stands, counted from 0.
    pub fn position(&self) -> u64
        ensures step { result ≡ self.now.step }
        ensures within { self.now.step ≤ (end_of self.now.entries).step }
    {
        self.step
    }

    /// The last step of the run that the log tells.
    pub fn last(&self) -> u64
        ensures { result ≡ (end_of self.now.entries).step }
    {
        self.end.step
    }

    /// The machine in the state of the step.
    pub fn machine(&self) -> &Machine
        ensures state { result.now.state ≡ here self.now }
        ensures kept { IsKeptSince self.now result.now }
        ensures clean { self.now.step ≡ self.now.cleared → IsClean result.now }
    {
        &self.machine
    }

    /// From here on no page counts as written.
    pub fn clear_dirty(&mut self)
        ensures { self.new ≡ placed_at self.old self.old.step }
    {
        self.machine.clear_dirty();
        self.cleared = self.step;
    }

    /// The replay goes to another step, whose registers and pages are lent: each page that differs from the
    /// one that stands there now, at least. Then no page counts as written.
    pub fn jump<P: Pages>(&mut self, step: u64, core: &Core, pages: &P)
        requires within { step ≤ (end_of self.old.entries).step }
        requires zero { slice_index core.now.regs 0 ≡ 0 }
        requires lengths { HaveLengths (here self.old).memory.regions (P.bytes_at pages.now) }
        requires back { IsBack (here self.old) core.now (P.bytes_at pages.now)
            (state_at self.old.entries self.old.first step) }
        ensures { self.new ≡ placed_at self.old step }
    {
        self.machine.put_back(core, pages);
        self.rest = skip_to(self.log.entries.as_slice(), step);
        self.quiet_until = find_quiet(self.rest, self.end.step);
        self.step = step;
        self.cleared = step;
    }
}
