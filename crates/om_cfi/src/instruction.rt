//! What call frame instructions say of the canonical frame address: DWARF 4, section 6.4.2.

/// How far the canonical frame address is from a register.
#[derive(Clone, Copy, Debug, PartialEq, Eq)]
pub enum Offset {
    /// In bytes.
    Plain(u64),
    /// In units of the data alignment factor.
    Scaled(i64),
}

/// What an instruction says of the canonical frame address.
#[derive(Clone, Copy, Debug, PartialEq, Eq)]
pub enum Instruction {
    /// Nothing: it tells where registers are saved.
    Nothing,
    /// The location grows by so many units of the code alignment factor.
    Advance(u32),
    SetLocation(u32),
    /// The rule is saved, or that there is none.
    Save,
    /// What was saved last is taken back.
    Restore,
    Define { register: u64, offset: Offset },
    /// Another register, with the same offset.
    Register(u64),
    /// Another offset, with the same register.
    Offset(Offset),
    /// The rule is an expression, which isn't read.
    Forget,
}

/// What stands in front of some instructions.
#[derive(Clone, Copy, Debug, PartialEq, Eq)]
pub enum Item {
    Known(Instruction),
    /// An opcode that isn't known.
    Unknown,
    /// The operands break off.
    Broken,
}
