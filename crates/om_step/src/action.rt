//! What an instruction asks of the machine.

use crate::cause::Cause;

/// What an instruction does, as far as its registers and its address tell it.
#[derive(Clone, Copy, Debug)]
pub enum Action {
    /// It writes a value to a register, if that isn't x0, and goes on at an address.
    Go {
        rd: u8,
        value: u32,
        pc: u32,
    },
    /// It loads so many bytes into a register, if that isn't x0, and extends their sign bit or not.
    Load {
        rd: u8,
        address: u32,
        count: u8,
        extends: bool,
    },
    /// It stores so many low bytes of a value.
    Store {
        address: u32,
        count: u8,
        value: u32,
    },
    /// It asks the environment.
    Ask,
    /// It stops the machine.
    Halt(Cause),
}
