//! Tells a run to its log, which has room for so many bytes.

ghost use Rattle.std.specs.Prelude.{◌≡◌, ◌∷◌, [], ◌++◌, ◌<◌, ◌≤◌, ◌+◌, ◌%◌, ◌^◌, ◌&&◌, ℕ, false, nat_eq, nat_lt, IfErr, IfOk, IfSome, OnOk};
ghost use Rattle.om_log.specs.EndCauses.{by_stop};
ghost use Rattle.om_log.specs.Grammar.{spelling};
ghost use Rattle.om_log.specs.Writing.{HasShortWrites, file_of};
ghost use Rattle.om_record.specs.Recording.{end_entry, mark_of};
ghost use Rattle.om_record.specs.Progress.{AreBefore, HasRoomForEnd, IsFull, IsLogged, known_ending};
ghost use Rattle.om_step.specs.Step.{code_of};
ghost use Rattle.om_record.specs.declared.recorded.RecordFault.TheVariants.{NoMemory};

use crate::recorded::{RecordFault, Recorded};
use om_base::MOST_BYTES;
use om_log::{BY_CUT, BY_EXIT, BY_STOP, Entry, LogWriter};
use om_run::RunEnd;
use om_step::{Cause, Machine};

/// The bytes of an END.
const END_BYTES: u64 = 14;

/// A mark stands at each step above 0 and below the limit that is a multiple of this.
const MARK_EVERY: u64 = 65_536;

/// Writes an entry of a step, if the log has room for it with an END behind it.
///
/// Errors: `TooLong`, `NoMemory`.
#[tactic(auto, using(crate::proofs::TellingLemmas::spellings_one))]
pub(crate) fn push_entry(
    writer: &mut LogWriter,
    step: u64,
    entry: &Entry<'_>,
) -> Result<(), RecordFault>
    requires { HasShortWrites entry.now }
    ensures logged { OnOk result (IsLogged writer.old (entry.now ∷ []) writer.new) }
    ensures fault { IfErr result (IsFull writer.old (entry.now ∷ []) step) }
{
    writer.push(entry)?;
    if writer.len() as u64 > MOST_BYTES - END_BYTES {
        return Err(RecordFault::TooLong { step });
    }
    Ok(())
}

/// Whether a mark stands at a step.
fn is_marked(step: u64, limit: u64) -> bool
    ensures { result ≡ (nat_lt 0 step && nat_eq (step % 65_536) 0 && nat_lt step limit) }
{
    step > 0 && step % MARK_EVERY == 0 && step < limit
}

/// Writes the mark of a step, if one stands there.
///
/// Errors: `TooLong`, `NoMemory`.
#[tactic(auto, using(crate::proofs::TellingLemmas::spellings_none, crate::proofs::TellingLemmas::append_none, crate::proofs::TellingLemmas::mark_stands))]
pub(crate) fn push_mark(
    writer: &mut LogWriter,
    step: u64,
    limit: u64,
    machine: &Machine,
) -> Result<(), RecordFault>
    requires { HasRoomForEnd writer.old }
    ensures logged { OnOk result (IsLogged writer.old (mark_of limit step machine.now.state) writer.new) }
    ensures stand { OnOk result (AreBefore step step (mark_of limit step machine.now.state)) }
    ensures fault { IfErr result (IsFull writer.old (mark_of limit step machine.now.state) step) }
{
    if !is_marked(step, limit) {
        return Ok(());
    }
    let mark = Entry::Mark {
        step,
        pc: machine.pc(),
        sum: machine.sum(),
    };
    push_entry(writer, step, &mark)
}

/// The next step at which a mark stands, or the limit if that is earlier.
pub(crate) fn next_mark(step: u64, limit: u64) -> u64
    requires { step < limit }
    ensures later { step < result }
    ensures within { result ≤ limit }
    ensures unmarked { (i : ℕ) → step < i → i < result → nat_eq (i % 65_536) 0 ≡ false }
{
    step + (MARK_EVERY - step % MARK_EVERY).min(limit - step)
}

/// The end of a run at a step, whatever the machine does there: behind a call that exits, of which this is the
/// first argument, or at the limit.
pub(crate) fn known_end(exit: Option<u32>, step: u64, limit: u64) -> Option<RunEnd>
    ensures end { result ≡ known_ending exit step limit }
    ensures fits { IfSome result (λ end. end.value < 2 ^ 32) }
{
    if let Some(value) = exit {
        return Some(RunEnd {
            step,
            cause: BY_EXIT,
            value,
        });
    }
    if step >= limit {
        return Some(RunEnd {
            step,
            cause: BY_CUT,
            value: 0,
        });
    }
    None
}

/// The end at a step at which the machine stops.
pub(crate) fn end_by_stop(step: u64, cause: Cause) -> RunEnd
    ensures { result ≡ record { step = step; cause = by_stop; value = code_of cause } }
{
    RunEnd {
        step,
        cause: BY_STOP,
        value: cause.code(),
    }
}

/// The log with its END.
///
/// Errors: `NoMemory`.
#[tactic(auto, using(crate::proofs::TellingLemmas::some_end))]
pub(crate) fn finish(writer: LogWriter, end: RunEnd) -> Result<Recorded, RecordFault>
    ensures recorded { IfOk result (λ recorded. recorded ≡ record {
      bytes = file_of writer ++ spelling (end_entry end);
      steps = end.step;
      cause = end.cause;
      value = end.value;
    }) }
    ensures fault { IfErr result (λ fault. fault ≡ NoMemory) }
{
    let mut writer = writer;
    writer.push(&Entry::End {
        step: end.step,
        cause: end.cause,
        value: end.value,
    })?;
    Ok(Recorded {
        bytes: writer.finish(),
        steps: end.step,
        cause: end.cause,
        value: end.value,
    })
}
