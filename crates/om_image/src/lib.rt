//! Small executables whose runs and debugging information are known in full: the worked programs.
//!
//! Each is made as an ELF file in memory, with the input that its run reads and the truth that is told
//! of it.
#![tactic(auto)]

mod debug;
mod elf_file;
mod laws;
mod numbers;
mod parts;
mod program;
mod programs;
mod section;
mod segment;
mod small;

pub use laws::everything_is_found;
pub use program::Program;
pub use programs::{Which, worked};
pub use small::small_specimen;
