//! The entries of a log.

ghost use Rattle.std.specs.Prelude.{◌≡◌, ◌↔◌, IsTrue};

use crate::end_cause::{BY_CUT, BY_STOP};
use crate::writes::Writes;

/// What a log tells of a step of the run: the call that it makes, what its state looks like, or that the run
/// ends there.
#[derive(Debug, Drop)]
pub enum Entry<'a> {
    /// The system call that the step makes, and what it did.
    Call {
        step: u64,
        /// The call's number, from a7.
        number: u32,
        /// Its arguments, from a0 to a5.
        args: [u32; 6],
        /// What a0 is afterwards.
        result: u32,
        /// What it wrote into memory, in this order.
        writes: Writes<'a>,
    },
    /// What the state of the step looks like.
    Mark {
        step: u64,
        pc: u32,
        /// The sum of all registers modulo 2^32.
        sum: u32,
    },
    /// The end of the run: the step is its last state.
    End {
        step: u64,
        /// `BY_EXIT`, `BY_CUT` or `BY_STOP`.
        cause: u8,
        /// The exit's first argument, 0, or the stop's code.
        value: u32,
    },
}

impl<'a> Entry<'a> {
    ghost use Rattle.om_log.specs.Grammar.{step_of, next_of, HasCause, IsEnd};

    /// The step that it stands at.
    #[tactic(auto, unfolding(crate::specs::Grammar::step_of))]
    pub fn step(&self) -> u64
        ensures { result ≡ step_of self.now }
    {
        match self {
            Entry::Call { step, .. } => *step,
            Entry::Mark { step, .. } => *step,
            Entry::End { step, .. } => *step,
        }
    }

    /// The least step that may come after it, which is 2^64 after a CALL of the last step.
    #[tactic(auto, unfolding(crate::specs::Grammar::next_of))]
    pub(crate) fn next(&self) -> u128
        ensures { result ≡ next_of self.now }
    {
        match self {
            Entry::Call { step, .. } => u128::from(*step) + 1,
            Entry::Mark { step, .. } => u128::from(*step),
            Entry::End { step, .. } => u128::from(*step),
        }
    }

    /// Whether its cause is one of the three, and has a value only where it may.
    #[tactic(auto, unfolding(crate::specs::Grammar::HasCause))]
    pub(crate) fn has_cause(&self) -> bool
        ensures { IsTrue result ↔ HasCause self.now }
    {
        match self {
            Entry::Call { .. } => true,
            Entry::Mark { .. } => true,
            Entry::End { cause, value, .. } => {
                *cause <= BY_STOP && (*cause != BY_CUT || *value == 0)
            },
        }
    }

    /// Whether it is an END.
    #[tactic(auto, unfolding(crate::specs::Grammar::IsEnd))]
    pub(crate) fn is_end(&self) -> bool
        ensures { IsTrue result ↔ IsEnd self.now }
    {
        match self {
            Entry::Call { .. } => false,
            Entry::Mark { .. } => false,
            Entry::End { .. } => true,
        }
    }
}
