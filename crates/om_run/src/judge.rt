//! One step of a replay, judged by the rules in their order.

ghost use Rattle.std.specs.Prelude.{◌≡◌, ◌+◌, ◌-◌, ◌^◌, ◌<◌, ◌∷◌, [], Some, None, Option, is_ok, false, OnErr, if◌then◌else◌, map};
ghost use Rattle.om_step.specs.Step.{next, outcome};
ghost use Rattle.om_mem.specs.Pages.{IsKept};
ghost use Rattle.om_step.specs.State.{held_of};
ghost use Rattle.om_log.specs.EndCauses.{by_exit, by_stop};
ghost use Rattle.om_log.specs.Grammar.{AreLawful};
ghost use Rattle.om_base.specs.Firsts.{first_of};
ghost use Rattle.om_run.specs.Departure.{call_before, departs_at_call, departs_at_end, departs_at_marks, departs_by, departs_for, departs_for_argument, departs_for_mark, end_stop, end_value, end_exit, write_outside};
ghost use Rattle.om_run.specs.Departure.{stop_code, stops_with};
ghost use Rattle.om_run.specs.Run.{marks_of};
ghost use Rattle.om_run.specs.Position.{departs_before_writes, end_halt, is_next, marks_or_end, step_leaves, step_verdict};
ghost use Rattle.om_run.specs.declared.logged.LoggedCall.{LoggedCall};
ghost use Rattle.om_run.specs.declared.logged.RunEnd.{RunEnd};
ghost use Rattle.om_step.specs.declared.outcome.Outcome.{Outcome};

use crate::departure::{Departure, Halt, Reason};
use crate::logged::{LoggedCall, RunEnd, find_call_before, is_exit};
use om_log::{BY_EXIT, BY_STOP, Entry};
use om_step::{ARGUMENT_0, CALL_NUMBER, Machine, Outcome, StepMeter, Touched};

/// The arguments of a call, in the order in which they are judged.
const ARGUMENTS: [u8; 6] = [0, 1, 2, 3, 4, 5];

/// A rule that is broken: the number that the log has, and the one that the run has.
fn broken(step: u64, reason: Reason, told: u32, found: u32) -> Departure
    ensures { result ≡ record { step = step; reason = reason; told = told; found = found } }
{
    Departure {
        step,
        reason,
        told: u64::from(told),
        found: u64::from(found),
    }
}

/// Where a mark departs.
fn judge_mark(machine: &Machine, pc: u32, sum: u32, step: u64) -> Option<Departure>
    ensures { result ≡ departs_for_mark step machine.now.state (record { pc = pc; sum = sum }) }
{
    let found = machine.pc();
    if pc != found {
        return Some(broken(step, Reason::MarkPc, pc, found));
    }
    let found = machine.sum();
    if sum != found {
        return Some(broken(step, Reason::MarkSum, sum, found));
    }
    None
}

/// Where the first mark departs that does, of the marks of a step that no entry is earlier than.
fn judge_marks(entries: &[Entry<'_>], machine: &Machine, at: u64) -> Option<Departure>
    requires { AreLawful at entries.now }
    ensures { result ≡ departs_at_marks (marks_of entries.now at) at machine.now.state }
{
    for entry in entries {
        let Entry::Mark { step, pc, sum } = entry else {
            return None;
        };
        if *step != at {
            return None;
        }
        if let Some(departure) = judge_mark(machine, *pc, *sum, at) {
            return Some(departure);
        }
    }
    None
}

/// Where an end by exit departs; `call` is the call of the step before.
fn judge_exit(value: u32, call: Option<LoggedCall<'_>>, step: u64) -> Option<Departure>
    ensures { (end : RunEnd) → end.cause ≡ by_exit → end.value ≡ value → (happens : Outcome)
        → result ≡ departs_at_end end call.entry happens step }
{
    let (number, first) = match call {
        Some(call) => (call.number, call.arguments[0]),
        None => (0, 0),
    };
    if !is_exit(number) {
        return Some(broken(step, Reason::EndExit, value, number));
    }
    if first != value {
        return Some(broken(step, Reason::EndValue, value, first));
    }
    None
}

/// Where an end by a stop departs.
fn judge_stop(value: u32, happens: Outcome<'_>, step: u64) -> Option<Departure>
    ensures { (end : RunEnd) → end.cause ≡ by_stop → end.value ≡ value → (call : Option LoggedCall)
        → result ≡ departs_at_end end call happens.entry step }
{
    let Outcome::Stop(cause) = happens else {
        return Some(broken(step, Reason::EndStop, value, 0));
    };
    if cause.code() == value {
        return None;
    }
    Some(broken(step, Reason::EndStop, value, cause.code()))
}

/// Why the run stops at its last step. Of an exit it searches the entries for the call of the step before.
fn halt_at_end(entries: &[Entry<'_>], machine: &Machine, end: RunEnd, step: u64) -> Halt
    ensures { result ≡ end_halt (departs_at_end end (call_before entries.now end.step) (outcome machine.now.state) step) }
{
    let departure = match end.cause {
        BY_EXIT => judge_exit(end.value, find_call_before(entries, end.step), step),
        BY_STOP => judge_stop(end.value, machine.look(), step),
        _ => None,
    };
    match departure {
        Some(departure) => Halt::Departs(departure),
        None => Halt::Ended,
    }
}

/// Why the run goes no further at a step, by its marks, and then by its end if it is the last one; `rest` has
/// no entry of an earlier step, and `entries` are all of the log.
pub(crate) fn halt_before(
    rest: &[Entry<'_>],
    entries: &[Entry<'_>],
    machine: &Machine,
    end: RunEnd,
    step: u64,
) -> Option<Halt>
    requires { AreLawful step rest.now }
    ensures { result ≡ marks_or_end (departs_at_marks (marks_of rest.now step) step machine.now.state)
        (departs_at_end end (call_before entries.now end.step) (outcome machine.now.state) step) end.step step }
{
    if let Some(departure) = judge_marks(rest, machine, step) {
        return Some(Halt::Departs(departure));
    }
    if step >= end.step {
        return Some(halt_at_end(entries, machine, end, step));
    }
    None
}

/// Where a call departs from the one that the log tells, but for its writes.
fn judge_call(machine: &Machine, call: &LoggedCall<'_>, step: u64) -> Option<Departure>
    ensures { result ≡ departs_before_writes call.now step machine.now.state }
{
    let number = machine.reg(CALL_NUMBER);
    if call.number != number {
        return Some(broken(step, Reason::Number, call.number, number));
    }
    judge_arguments(machine, call, step)
}

/// Where the first argument departs that is another one.
fn judge_arguments(machine: &Machine, call: &LoggedCall<'_>, step: u64) -> Option<Departure>
    ensures { result ≡ first_of (map (departs_for_argument call.now step machine.now.state)
        (0 ∷ 1 ∷ 2 ∷ 3 ∷ 4 ∷ 5 ∷ [])) }
{
    for j in ARGUMENTS {
        let told = call.arguments[j as usize];
        let found = machine.reg(ARGUMENT_0 + j);
        if told != found {
            return Some(broken(step, Reason::Argument(j), told, found));
        }
    }
    None
}

/// A step at which the log tells no call; `last` is the run's last step.
#[inline(always)] // since nearly all steps are such
pub(crate) fn step_without_call<'a>(
    machine: &mut Machine,
    last: u64,
    step: u64,
    meter: &mut StepMeter,
) -> Result<Touched<'a>, Halt>
    requires { meter.old < 2 ^ 64 - 1 }
    ensures verdict { (end : RunEnd) → end.step ≡ last → result
        ≡ step_verdict (departs_by end (outcome machine.old.state) None step machine.old.state) (outcome machine.old.state) None }
    ensures machine { machine.new.state ≡ step_leaves result (outcome machine.old.state) None machine.old.state }
    ensures meter { meter.new ≡ meter.old + (if is_ok result then 1 else 0) }
    ensures same { OnErr result (machine.new ≡ machine.old) }
    ensures kept { IsKept (held_of machine.old) (held_of machine.new) }
{
    match machine.step(meter) {
        Outcome::Next(touched) => Ok(touched),
        Outcome::Call => Err(Halt::Departs(broken(
            step,
            Reason::Call,
            0,
            machine.reg(CALL_NUMBER),
        ))),
        Outcome::Stop(cause) => Err(Halt::Departs(Departure {
            step,
            reason: Reason::Stopped,
            told: last,
            found: u64::from(cause.code()),
        })),
    }
}

/// Makes one step, if it is that of an instruction, and answers whether it is.
#[inline(always)] // so that a loop of steps has no call
pub(crate) fn make_step(machine: &mut Machine, meter: &mut StepMeter) -> bool
    requires { meter.old < 2 ^ 64 - 1 }
    ensures made { result ≡ is_next (outcome machine.old.state) }
    ensures state { machine.new.state ≡ next machine.old.state }
    ensures meter { meter.new ≡ meter.old + (if result then 1 else 0) }
    ensures left { result ≡ false → machine.new ≡ machine.old }
    ensures kept { IsKept (held_of machine.old) (held_of machine.new) }
{
    match machine.step(meter) {
        Outcome::Next(_) => true,
        Outcome::Call | Outcome::Stop(_) => false,
    }
}

/// The answer to a call whose number and arguments are right.
fn answer<'a>(
    machine: &mut Machine,
    call: &LoggedCall<'a>,
    step: u64,
    meter: &mut StepMeter,
) -> Result<Touched<'a>, Halt>
    requires call { outcome machine.old.state ≡ Outcome.Call }
    requires meter { meter.old < 2 ^ 64 - 1 }
    ensures verdict { result ≡ step_verdict (departs_for step Reason.Outside (write_outside call.now machine.old.state))
        Outcome.Call (Some call.now) }
    ensures machine { machine.new.state ≡ step_leaves result Outcome.Call (Some call.now) machine.old.state }
    ensures meter { meter.new ≡ meter.old + (if is_ok result then 1 else 0) }
    ensures same { OnErr result (machine.new ≡ machine.old) }
    ensures kept { IsKept (held_of machine.old) (held_of machine.new) }
{
    match machine.answer_call(call.result, call.writes.again(), meter) {
        Ok(touched) => Ok(touched),
        Err(outside) => Err(Halt::Departs(broken(
            step,
            Reason::Outside,
            outside.addr,
            machine.pc(),
        ))),
    }
}

/// A step at which the log tells a call.
fn step_with_call<'a>(
    machine: &mut Machine,
    call: &LoggedCall<'a>,
    step: u64,
    meter: &mut StepMeter,
) -> Result<Touched<'a>, Halt>
    requires { meter.old < 2 ^ 64 - 1 }
    ensures verdict { (end : RunEnd) → result
        ≡ step_verdict (departs_by end (outcome machine.old.state) (Some call.now) step machine.old.state) (outcome machine.old.state) (Some call.now) }
    ensures machine { machine.new.state
        ≡ step_leaves result (outcome machine.old.state) (Some call.now) machine.old.state }
    ensures meter { meter.new ≡ meter.old + (if is_ok result then 1 else 0) }
    ensures same { OnErr result (machine.new ≡ machine.old) }
    ensures kept { IsKept (held_of machine.old) (held_of machine.new) }
{
    match machine.look() {
        Outcome::Call => {
            if let Some(departure) = judge_call(machine, call, step) {
                return Err(Halt::Departs(departure));
            }
            answer(machine, call, step, meter)
        }
        Outcome::Next(_) | Outcome::Stop(_) => Err(Halt::Departs(broken(
            step,
            Reason::Passed,
            call.number,
            machine.pc(),
        ))),
    }
}

/// A step before the last one; `call` is the one that the log tells for it, and `last` the run's last step.
pub(crate) fn step_by<'a>(
    machine: &mut Machine,
    call: Option<LoggedCall<'a>>,
    last: u64,
    step: u64,
    meter: &mut StepMeter,
) -> Result<Touched<'a>, Halt>
    requires { meter.old < 2 ^ 64 - 1 }
    ensures verdict { (end : RunEnd) → end.step ≡ last → result
        ≡ step_verdict (departs_by end (outcome machine.old.state) call.entry step machine.old.state) (outcome machine.old.state) call.entry }
    ensures machine { machine.new.state ≡ step_leaves result (outcome machine.old.state) call.entry machine.old.state }
    ensures meter { meter.new ≡ meter.old + (if is_ok result then 1 else 0) }
    ensures same { OnErr result (machine.new ≡ machine.old) }
    ensures kept { IsKept (held_of machine.old) (held_of machine.new) }
{
    match call {
        Some(call) => step_with_call(machine, &call, step, meter),
        None => step_without_call(machine, last, step, meter),
    }
}
