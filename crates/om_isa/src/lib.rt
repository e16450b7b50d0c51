//! The decoder of RV32IM with Zifencei: RISC-V unprivileged ISA, chapters "RV32I Base Integer Instruction
//! Set", "Zifencei" and "M". It takes a word and no memory; a word that no row of the manual's tables has is
//! told as none.
#![tactic(auto)]

mod decoder;
mod form;
mod immediate;
mod instr;
mod laws;
mod op;

pub use decoder::decode;
pub use form::Form;
pub use instr::Instr;
pub use laws::{one_each, one_row};
pub use op::Op;
