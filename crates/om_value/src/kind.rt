//! The kinds of expressions: which values they may have.

use om_base::Interval;

/// Which values an expression may have. Each may be NULL, too.
#[derive(Clone, Copy, Debug, PartialEq, Eq)]
pub enum Kind {
    /// Numbers of this interval.
    Int(Interval),
    /// Texts.
    Text,
    /// None but NULL.
    Null,
}

/// Why an expression or a condition is refused.
#[derive(Clone, Copy, Debug, PartialEq, Eq)]
pub enum Wrong {
    /// A text stands where a number does, or the other way round.
    Clash,
    /// A number may leave the range that is asked for.
    Range,
    /// The divisor is 0.
    Divisor,
}
