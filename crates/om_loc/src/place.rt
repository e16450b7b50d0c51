//! Where a variable is: DWARF 4, section 2.6.1.1.

/// What a location expression of one operation says.
#[derive(Clone, Copy, Debug, PartialEq, Eq)]
pub enum Place {
    /// At an address: `DW_OP_addr`.
    Fixed(u32),
    /// So many bytes above the frame base of the function: `DW_OP_fbreg`.
    Frame(i64),
    /// So many bytes above the address in a register, by its number from 0 to 31: `DW_OP_breg0` to
    /// `DW_OP_breg31`.
    RegPlus(u8, i64),
    /// In a register, by its number from 0 to 31: `DW_OP_reg0` to `DW_OP_reg31`.
    Reg(u8),
    /// At the canonical frame address, which call frame information gives: `DW_OP_call_frame_cfa`.
    Cfa,
    /// Nowhere that one of these operations says: the expression is empty, breaks off, goes on behind
    /// the operation, or begins with another.
    Gone,
}
