//! An instruction, taken apart.

use crate::op::Op;

/// A word's parts. A field that the instruction doesn't have holds what the word has there.
#[derive(Clone, Copy, Debug, PartialEq, Eq)]
pub struct Instr {
    /// Which instruction it is.
    pub op: Op,
    /// The destination register, below 32.
    pub rd: u8,
    /// The first source register, below 32.
    pub rs1: u8,
    /// The second source register, below 32.
    pub rs2: u8,
    /// The immediate, sign-extended to 32 bits; that of a shift is its shift amount, and where the
    /// instruction has none it is 0.
    pub imm: u32,
}
