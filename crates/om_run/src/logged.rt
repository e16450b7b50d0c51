//! What a log tells of a run: its calls and its end.

ghost use Rattle.std.specs.Prelude.{◌≡◌, ◌∷◌, [], List, if◌then◌else◌};
ghost use Rattle.om_run.specs.Run.{due, end_of};
ghost use Rattle.om_run.specs.Departure as spec;
ghost use Rattle.om_run.specs.Departure.{call_before};
ghost use Rattle.om_run.specs.Position.{from_step};
ghost use Rattle.om_log.specs.Grammar.{AreLawful};
ghost use Rattle.om_log.specs.declared.entry.Entry.{Entry};

use om_log::{BY_CUT, Entry, Writes};

/// The numbers of the calls that exit.
const EXIT: u32 = 93;

const EXIT_GROUP: u32 = 94;

/// What a log tells of a call.
#[derive(Debug, Drop)]
pub struct LoggedCall<'a> {
    /// The call's number, from a7.
    pub number: u32,
    /// Its arguments, from a0 to a5.
    pub arguments: [u32; 6],
    /// What a0 is afterwards.
    pub result: u32,
    /// What it wrote into memory, in this order.
    pub writes: Writes<'a>,
}

/// How a run ends, as its log tells it.
#[derive(Clone, Copy, Debug, PartialEq, Eq)]
pub struct RunEnd {
    /// The last step.
    pub step: u64,
    /// `BY_EXIT`, `BY_CUT` or `BY_STOP` of `om_log`.
    pub cause: u8,
    /// The exit's first argument, 0, or the stop's code.
    pub value: u32,
}

/// Whether a call of this number exits: `exit` and `exit_group` of Linux on RISC-V.
pub fn is_exit(number: u32) -> bool
    ensures { result ≡ spec.is_exit number }
{
    number == EXIT || number == EXIT_GROUP
}

/// The end that a log tells.
pub(crate) fn find_end(entries: &[Entry<'_>]) -> RunEnd
    ensures { result ≡ end_of entries.now }
{
    for entry in entries {
        if let Entry::End { step, cause, value } = entry {
            return RunEnd {
                step: *step,
                cause: *cause,
                value: *value,
            };
        }
    }
    RunEnd {
        step: 0,
        cause: BY_CUT,
        value: 0,
    }
}

/// What an entry tells, if it is a call of this step.
fn call_in<'a>(entry: &Entry<'a>, at: u64) -> Option<LoggedCall<'a>>
    ensures { result ≡ due (entry.now ∷ []) at }
{
    match entry {
        Entry::Call {
            step,
            number,
            args,
            result,
            writes,
        } => {
            if *step != at {
                return None;
            }
            Some(LoggedCall {
                number: *number,
                arguments: *args,
                result: *result,
                writes: writes.again(),
            })
        }
        Entry::Mark { .. } | Entry::End { .. } => None,
    }
}

/// The call that a log tells for a step. It searches the whole log.
fn find_call<'a>(entries: &[Entry<'a>], at: u64) -> Option<LoggedCall<'a>>
    ensures { result ≡ due entries.now at }
{
    for entry in entries {
        if let Some(call) = call_in(entry, at) {
            return Some(call);
        }
    }
    None
}

/// The call of the step before this one. It searches the whole log.
pub(crate) fn find_call_before<'a>(entries: &[Entry<'a>], at: u64) -> Option<LoggedCall<'a>>
    ensures { result ≡ call_before entries.now at }
{
    if at == 0 {
        return None;
    }
    find_call(entries, at - 1)
}

/// The call of a step that no entry is earlier than. It passes the marks of that step alone.
pub(crate) fn first_call<'a>(entries: &[Entry<'a>], at: u64) -> Option<LoggedCall<'a>>
    requires { AreLawful at entries.now }
    ensures { result ≡ due entries.now at }
{
    for entry in entries {
        if entry.step() != at {
            return None;
        }
        if let Some(call) = call_in(entry, at) {
            return Some(call);
        }
    }
    None
}

/// The entries from a step on: without those of earlier steps that they begin with.
pub(crate) fn skip_to<'a, 'b>(entries: &'a [Entry<'b>], step: u64) -> &'a [Entry<'b>]
    ensures { result.now ≡ from_step step entries.now }
{
    let mut skipped = 0;
    for entry in entries {
        if entry.step() >= step {
            return &entries[skipped..];
        }
        skipped += 1;
    }
    &entries[skipped..]
}
