//! The limits of the program.

/// The greatest number of steps that are replayed or recorded.
pub const MOST_STEPS: u64 = 4_000_000;
