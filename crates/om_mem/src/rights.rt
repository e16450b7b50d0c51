//! The rights of a region, by ELF's names: System V gABI, chapter 5, "Segment Permissions".

/// To execute: the bytes may be fetched as an instruction.
pub const PF_X: u8 = 1;

/// To write.
pub const PF_W: u8 = 2;

/// To read.
pub const PF_R: u8 = 4;
