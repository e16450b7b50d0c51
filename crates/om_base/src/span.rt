//! A half-open range of addresses or offsets.

/// The places from `lo` up to `hi`, without `hi`.
#[derive(Clone, Copy, Debug, PartialEq, Eq)]
pub struct Span {
    /// The first place.
    pub lo: u64,
    /// The place after the last one.
    pub hi: u64,
}
