//! A process that is recorded.

ghost use Rattle.std.specs.Prelude.{◌≡◌, ◌+◌, ◌-◌, ◌^◌, ◌<◌, ◌≤◌, ◌∷◌, [], IfErr, IfOk, OnOk};
ghost use Rattle.std.specs.List.{AllByRecursion};
ghost use Rattle.om_record.specs.Kernel.{answer_to};
ghost use Rattle.om_record.specs.Recording.{arguments_of, served};
ghost use Rattle.om_record.specs.Progress.{AreBefore, IsFull, IsLogged, IsWalk, PausesAt, exit_argument, moment, call_entry_at};
ghost use Rattle.om_step.specs.Step.{outcome};
ghost use Rattle.om_step.specs.declared.outcome.Outcome.{Outcome};

use crate::kernel::Host;
use crate::recorded::RecordFault;
use crate::telling::push_entry;
use om_log::{Entry, LogWriter, Start};
use om_run::is_exit;
use om_step::{CALL_NUMBER, Cause, Machine, Outcome, StepMeter};

/// A machine with the kernel at its side.
#[derive(Drop)]
pub(crate) struct Process<'a> {
    pub machine: Machine,
    pub host: Host<'a>,
    /// The step at which the machine stands: it counts all of them.
    pub meter: StepMeter,
}

/// Why a walk comes to an end.
#[derive(Clone, Copy, Debug)]
pub(crate) enum Pause {
    /// It came to the step that it was to come to.
    Reached,
    /// The machine stands at a call.
    AtCall,
    /// The machine can't go on.
    AtStop(Cause),
}

/// The arguments of a call: a0 to a5.
fn arguments(machine: &Machine) -> [u32; 6]
    ensures words { result ≡ arguments_of machine.now.state }
    ensures fit { AllByRecursion (λ word. word < 2 ^ 32) result }
{
    [
        machine.reg(10),
        machine.reg(11),
        machine.reg(12),
        machine.reg(13),
        machine.reg(14),
        machine.reg(15),
    ]
}

impl<'a> Process<'a> {
    /// A process at its first step, with all of its input to come.
    pub fn new(machine: Machine, input: &'a [u8], start: Start) -> Process<'a>
        ensures { result ≡ record {
          machine = machine;
          host = record { left = input.now; program_break = start.heap_low };
          meter = 0;
        } }
    {
        Process {
            machine,
            host: Host::new(input, start),
            meter: StepMeter::new(),
        }
    }

    /// Steps up to the one of this number, if no call and no stop is on the way.
    #[tactic(auto, using(crate::proofs::ProgressLemmas::walk_none, crate::proofs::ProgressLemmas::walk_more))]
    pub fn walk(&mut self, until: u64) -> Pause
        requires { self.old.meter ≤ until }
        ensures walk { IsWalk self.old.machine.state (self.new.meter - self.old.meter) self.new.machine.state }
        ensures later { self.old.meter ≤ self.new.meter }
        ensures pause { PausesAt result until self.new.meter self.new.machine.state }
        ensures host { self.new.host ≡ self.old.host }
    {
        while self.meter.value() < until {
            match self.machine.step(&mut self.meter) {
                Outcome::Next(_) => {}
                Outcome::Call => return Pause::AtCall,
                Outcome::Stop(cause) => return Pause::AtStop(cause),
            }
        }
        Pause::Reached
    }

    /// Answers the call at which the machine stands, and tells it to the log. Gives the first argument of a
    /// call that exits.
    ///
    /// Errors: `TooLong`, `NoMemory`.
    pub fn serve(
        &mut self,
        start: Start,
        writer: &mut LogWriter,
    ) -> Result<Option<u32>, RecordFault>
        requires call { outcome self.old.machine.state ≡ Outcome.Call }
        requires meter { self.old.meter < 2 ^ 64 - 1 }
        ensures served { OnOk result (moment self.new.machine.state self.new.host
            ≡ served (moment self.old.machine.state self.old.host) (answer_to start self.old.host self.old.machine.state)) }
        ensures meter { OnOk result (self.new.meter ≡ self.old.meter + 1) }
        ensures exit { IfOk result (λ exit. exit ≡ exit_argument self.old.machine.state) }

        // What the log tells.
        ensures logged { OnOk result (IsLogged writer.old
            (call_entry_at start self.old.meter (moment self.old.machine.state self.old.host) ∷ []) writer.new) }
        ensures stand { OnOk result (AreBefore self.old.meter (self.old.meter + 1)
            (call_entry_at start self.old.meter (moment self.old.machine.state self.old.host) ∷ [])) }
        ensures fault { IfErr result (IsFull writer.old
            (call_entry_at start self.old.meter (moment self.old.machine.state self.old.host) ∷ []) self.old.meter) }
    {
        let step = self.meter.value();
        let number = self.machine.reg(CALL_NUMBER);
        let args = arguments(&self.machine);
        let reply = self.host.answer(start, &self.machine);
        let call = Entry::Call {
            step,
            number,
            args,
            result: reply.value,
            writes: reply.writes.again(),
        };
        push_entry(writer, step, &call)?;
        let _ = self
            .machine
            .answer_call(reply.value, reply.writes, &mut self.meter);
        Ok(is_exit(number).then_some(args[0]))
    }
}
