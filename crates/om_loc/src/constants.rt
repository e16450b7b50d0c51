//! Operations of location expressions by their names in the standard: DWARF 4, section 7.7.1, figure 24.

pub const DW_OP_ADDR: u8 = 0x03;

pub const DW_OP_REG0: u8 = 0x50;

pub const DW_OP_REG31: u8 = 0x6f;

pub const DW_OP_BREG0: u8 = 0x70;

pub const DW_OP_BREG31: u8 = 0x8f;

pub const DW_OP_FBREG: u8 = 0x91;

pub const DW_OP_CALL_FRAME_CFA: u8 = 0x9c;
