//! Reads static ELF32 executables for RISC-V: the System V gABI, chapter 4 ("ELF Header", "Sections"
//! and "String Table") and chapter 5 ("Program Header").
#![tactic(auto)]

mod elf;
mod fault;
mod file_header;
mod overlap;
mod program_header;
mod programs;
mod section;
mod section_header;
mod sections;
mod segment;
mod string_table;
mod tables;

pub use elf::{Elf, read_elf};
pub use fault::ElfFault;
pub use section::Section;
pub use segment::Segment;
