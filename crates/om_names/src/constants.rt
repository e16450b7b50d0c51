//! Numbers of the standard that types and variables need, by its names: DWARF 4, sections 7.5 and 7.8.

// Tags: section 7.5.3, figure 18.
pub const DW_TAG_ENUMERATION_TYPE: u32 = 0x04;

pub const DW_TAG_FORMAL_PARAMETER: u32 = 0x05;

pub const DW_TAG_POINTER_TYPE: u32 = 0x0f;

pub const DW_TAG_TYPEDEF: u32 = 0x16;

pub const DW_TAG_INLINED_SUBROUTINE: u32 = 0x1d;

pub const DW_TAG_BASE_TYPE: u32 = 0x24;

pub const DW_TAG_CONST_TYPE: u32 = 0x26;

pub const DW_TAG_VARIABLE: u32 = 0x34;

pub const DW_TAG_VOLATILE_TYPE: u32 = 0x35;

pub const DW_TAG_RESTRICT_TYPE: u32 = 0x37;

// Attributes: section 7.5.4, figure 20.
pub const DW_AT_LOCATION: u32 = 0x02;

pub const DW_AT_BYTE_SIZE: u32 = 0x0b;

pub const DW_AT_DECLARATION: u32 = 0x3c;

pub const DW_AT_ENCODING: u32 = 0x3e;

pub const DW_AT_FRAME_BASE: u32 = 0x40;

// Encodings of base types: section 7.8, figure 25.
pub const DW_ATE_BOOLEAN: u64 = 0x02;

pub const DW_ATE_SIGNED: u64 = 0x05;

pub const DW_ATE_SIGNED_CHAR: u64 = 0x06;

pub const DW_ATE_UNSIGNED: u64 = 0x07;

pub const DW_ATE_UNSIGNED_CHAR: u64 = 0x08;
