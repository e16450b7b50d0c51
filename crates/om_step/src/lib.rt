//! The machine: RV32IM with Zifencei of the RISC-V unprivileged ISA, over memory with rights.
//!
//! A load, a store or a fetch may have any alignment in memory and is done byte by byte in meaning; only
//! the pc must be a multiple of 4.
#![tactic(auto)]

mod acting;
mod action;
mod arithmetic;
mod back;
mod cause;
mod first;
mod machine;
mod meter;
mod outcome;
mod register_file;
mod stepping;

pub use back::Pages;
pub use cause::Cause;
pub use machine::Machine;
pub use meter::StepMeter;
pub use om_log::Start;
pub use om_mem::{MapFault, Memory};
pub use outcome::{Outcome, Touched};
pub use register_file::{ARGUMENT_0, CALL_NUMBER, Core};
