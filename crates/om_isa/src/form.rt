//! The formats of instructions: RISC-V unprivileged ISA, sections "Base Instruction Formats" and "Immediate
//! Encoding Variants".

/// How the fields lie in a word.
#[derive(Clone, Copy, Debug, PartialEq, Eq)]
pub enum Form {
    /// Two source registers and a destination.
    R,
    /// A source register, a destination and 12 bits of immediate.
    I,
    /// A source register, a destination and a shift amount of 5 bits: I with `funct7` in the high bits.
    Shift,
    /// Two source registers and 12 bits of immediate.
    S,
    /// Two source registers and 12 bits of immediate, in steps of two bytes.
    B,
    /// A destination and the 20 high bits of an immediate.
    U,
    /// A destination and 20 bits of immediate, in steps of two bytes.
    J,
    /// No fields that are looked at.
    Bare,
}
