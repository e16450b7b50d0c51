//! The instructions, by the manual's names: RISC-V unprivileged ISA, chapter "RV32/64G Instruction Set
//! Listings", in its order.

/// Which instruction a word is: the k-th variant, from 0 on, has row k of the table in `specs/Table.antt`, as
/// the law `one_each` says.
#[derive(Clone, Copy, Debug, PartialEq, Eq)]
pub enum Op {
    /// Load upper immediate.
    Lui,
    /// Add upper immediate to `pc`.
    Auipc,
    /// Jump and link.
    Jal,
    /// Jump and link register.
    Jalr,
    /// Branch if equal.
    Beq,
    /// Branch if not equal.
    Bne,
    /// Branch if less than, signed.
    Blt,
    /// Branch if greater than or equal, signed.
    Bge,
    /// Branch if less than, unsigned.
    Bltu,
    /// Branch if greater than or equal, unsigned.
    Bgeu,
    /// Load byte, sign-extended.
    Lb,
    /// Load halfword, sign-extended.
    Lh,
    /// Load word.
    Lw,
    /// Load byte, zero-extended.
    Lbu,
    /// Load halfword, zero-extended.
    Lhu,
    /// Store byte.
    Sb,
    /// Store halfword.
    Sh,
    /// Store word.
    Sw,
    /// Add immediate.
    Addi,
    /// Set less than immediate, signed.
    Slti,
    /// Set less than immediate, unsigned.
    Sltiu,
    /// Exclusive or immediate.
    Xori,
    /// Or immediate.
    Ori,
    /// And immediate.
    Andi,
    /// Shift left logical by an immediate.
    Slli,
    /// Shift right logical by an immediate.
    Srli,
    /// Shift right arithmetic by an immediate.
    Srai,
    /// Add.
    Add,
    /// Subtract.
    Sub,
    /// Shift left logical.
    Sll,
    /// Set less than, signed.
    Slt,
    /// Set less than, unsigned.
    Sltu,
    /// Exclusive or.
    Xor,
    /// Shift right logical.
    Srl,
    /// Shift right arithmetic.
    Sra,
    /// Or.
    Or,
    /// And.
    And,
    /// Order memory and device accesses.
    Fence,
    /// Synchronize the instruction stream with the data stores.
    FenceI,
    /// Environment call.
    Ecall,
    /// Breakpoint: return control to a debugging environment.
    Ebreak,
    /// Multiply: the low word of the product.
    Mul,
    /// Multiply high, signed by signed.
    Mulh,
    /// Multiply high, signed by unsigned.
    Mulhsu,
    /// Multiply high, unsigned by unsigned.
    Mulhu,
    /// Divide, signed.
    Div,
    /// Divide, unsigned.
    Divu,
    /// Remainder, signed.
    Rem,
    /// Remainder, unsigned.
    Remu,
}
