//! Numbers of the standard by its names: DWARF 4, section 7.5.

// Tags: section 7.5.3, figure 18.
pub const DW_TAG_LEXICAL_BLOCK: u32 = 0x0b;

pub const DW_TAG_SUBPROGRAM: u32 = 0x2e;

// Attributes: section 7.5.4, figure 20.
pub const DW_AT_NAME: u32 = 0x03;

pub const DW_AT_LOW_PC: u32 = 0x11;

pub const DW_AT_HIGH_PC: u32 = 0x12;

pub const DW_AT_ABSTRACT_ORIGIN: u32 = 0x31;

pub const DW_AT_SPECIFICATION: u32 = 0x47;

pub const DW_AT_TYPE: u32 = 0x49;

pub const DW_AT_RANGES: u32 = 0x55;

// Forms: section 7.5.4, figure 21.
pub const DW_FORM_ADDR: u64 = 0x01;

pub const DW_FORM_BLOCK2: u64 = 0x03;

pub const DW_FORM_BLOCK4: u64 = 0x04;

pub const DW_FORM_DATA2: u64 = 0x05;

pub const DW_FORM_DATA4: u64 = 0x06;

pub const DW_FORM_DATA8: u64 = 0x07;

pub const DW_FORM_STRING: u64 = 0x08;

pub const DW_FORM_BLOCK: u64 = 0x09;

pub const DW_FORM_BLOCK1: u64 = 0x0a;

pub const DW_FORM_DATA1: u64 = 0x0b;

pub const DW_FORM_FLAG: u64 = 0x0c;

pub const DW_FORM_SDATA: u64 = 0x0d;

pub const DW_FORM_STRP: u64 = 0x0e;

pub const DW_FORM_UDATA: u64 = 0x0f;

pub const DW_FORM_REF_ADDR: u64 = 0x10;

pub const DW_FORM_REF1: u64 = 0x11;

pub const DW_FORM_REF2: u64 = 0x12;

pub const DW_FORM_REF4: u64 = 0x13;

pub const DW_FORM_REF8: u64 = 0x14;

pub const DW_FORM_REF_UDATA: u64 = 0x15;

pub const DW_FORM_INDIRECT: u64 = 0x16;

pub const DW_FORM_SEC_OFFSET: u64 = 0x17;

pub const DW_FORM_EXPRLOC: u64 = 0x18;

pub const DW_FORM_FLAG_PRESENT: u64 = 0x19;

pub const DW_FORM_REF_SIG8: u64 = 0x20;
