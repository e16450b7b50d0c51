//! A closed interval of whole numbers.

/// The whole numbers from `lo` to `hi`, both of them among it.
#[derive(Clone, Copy, Debug, PartialEq, Eq)]
pub struct Interval {
    /// The least number.
    pub lo: i128,
    /// The greatest number.
    pub hi: i128,
}
