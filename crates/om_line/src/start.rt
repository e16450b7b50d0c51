//! Where the instructions of a program stand.

/// Where an instruction stands in a program that was run.
#[derive(Clone, Copy, Debug, PartialEq, Eq)]
pub struct Start {
    /// How many bytes there are from it to the end of the program.
    pub rest: u32,
    /// The address before it.
    pub address: u32,
    /// How many rows are made before it.
    pub rows: usize,
}
