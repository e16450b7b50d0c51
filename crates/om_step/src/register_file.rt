//! The registers of a machine. Their names and numbers are those of the RISC-V psABI, "Integer Register
//! Convention".

/// The number of the register a0: a call's first argument, and its result afterwards.
pub const ARGUMENT_0: u8 = 10;

/// The number of the register a7, which has a call's number.
pub const CALL_NUMBER: u8 = 17;

/// The number of the register sp.
pub(crate) const STACK_POINTER: u8 = 2;

/// The pc and the registers x0 to x31.
#[derive(Clone, Copy, Debug, PartialEq, Eq)]
pub struct Core {
    /// The address of the next instruction.
    pub pc: u32,
    /// The registers by number; that of x0 is 0.
    pub regs: [u32; 32],
}
