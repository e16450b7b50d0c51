//! How much debugging information there is.

/// Numbers that a user asks for first.
#[derive(Clone, Copy, Debug, PartialEq, Eq)]
pub struct Counts {
    /// The units that are read.
    pub units: u32,
    /// The units of other versions, which are skipped.
    pub skipped: u32,
    /// The subprograms with a range of addresses that isn't empty.
    pub functions: u32,
}
