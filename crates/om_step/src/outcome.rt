//! What a step tells.

use crate::cause::Cause;
use om_log::Writes;

/// What a step wrote.
#[derive(Debug, Drop)]
pub enum Touched<'a> {
    /// Neither a register but x0 nor memory.
    Nothing,
    /// This register, from 1 to 31.
    Reg(u8),
    /// These bytes of memory; after the greatest address comes address 0.
    Bytes {
        /// The first address.
        addr: u32,
        /// How many bytes: 1, 2 or 4.
        len: u8,
    },
    /// What an answered call wrote: a0, and these bytes of memory.
    Call(Writes<'a>),
}

/// What happens at a state.
#[derive(Debug, Drop)]
pub enum Outcome<'a> {
    /// The machine made a step, which wrote this.
    Next(Touched<'a>),
    /// The machine stands at an ECALL, and waits for its answer.
    Call,
    /// The machine can't go on.
    Stop(Cause),
}
