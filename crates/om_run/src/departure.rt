//! How a run and its log may depart.

/// The rule that is broken, in the order in which the rules of a step are judged.
#[derive(Clone, Copy, Debug, PartialEq, Eq)]
pub enum Reason {
    /// A mark of the step has another pc.
    MarkPc,
    /// A mark of the step has another sum of the registers.
    MarkSum,
    /// The log ends by exit, but not after a call that exits.
    EndExit,
    /// The exit's value isn't the call's first argument.
    EndValue,
    /// The log ends by a stop that the machine doesn't have.
    EndStop,
    /// The machine stands at a call, and the log tells none.
    Call,
    /// The log tells a call, and the machine stands at none.
    Passed,
    /// The call has another number.
    Number,
    /// This argument of the call is another one, from 0 to 5.
    Argument(u8),
    /// A byte of a write of the call isn't in a region with the right to write.
    Outside,
    /// The machine stops before the run ends.
    Stopped,
}

/// The first step at which a run and its log depart.
#[derive(Clone, Copy, Debug, PartialEq, Eq)]
pub struct Departure {
    /// The step, counted from 0.
    pub step: u64,
    /// The first rule that is broken there.
    pub reason: Reason,
    /// The number that the log has.
    pub told: u64,
    /// The number that the run has.
    pub found: u64,
}

/// Why a replay goes no further.
#[derive(Clone, Copy, Debug, PartialEq, Eq)]
pub enum Halt {
    /// The run ended as the log tells.
    Ended,
    /// The run departs from its log.
    Departs(Departure),
}
