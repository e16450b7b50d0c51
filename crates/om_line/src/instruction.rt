//! What the instructions of a line program do: DWARF 4, sections 6.2.5.1 to 6.2.5.3.

ghost use Rattle.std.specs.Prelude.{◌≡◌};
ghost use Rattle.om_line.specs.Sharing as spec;

use om_base::Name;

/// An instruction of a line program.
#[derive(Debug, Drop)]
pub enum Instruction<'a> {
    /// A special opcode, by how far it is above the opcode base: both address and line grow, and a row
    /// is made.
    Special(u8),
    /// `DW_LNS_copy`: a row is made.
    Copy,
    /// `DW_LNS_advance_pc`: the address grows by so many instructions of the least length.
    AdvancePc(u64),
    /// `DW_LNS_advance_line`: the line grows.
    AdvanceLine(i64),
    /// `DW_LNS_set_file`.
    SetFile(u64),
    /// `DW_LNS_const_add_pc`: the address grows as by the special opcode 255.
    ConstAddPc,
    /// `DW_LNS_fixed_advance_pc`: the address grows by so many bytes.
    FixedAdvancePc(u16),
    /// `DW_LNE_end_sequence`: a row that ends a sequence is made, and all begins anew.
    EndSequence,
    /// `DW_LNE_set_address`.
    SetAddress(u32),
    /// `DW_LNE_define_file`: a file is added, by its name.
    DefineFile(Name<'a>),
    /// One that says nothing of addresses, lines and files.
    Nothing,
}

impl Instruction<'_> {
    /// Whether the address after it depends on the one before it, by how far it grows.
    pub fn is_relative(&self) -> bool
        ensures { result ≡ spec.is_relative self.now }
    {
        match self {
            Instruction::EndSequence | Instruction::SetAddress(_) => false,
            Instruction::Special(_)
            | Instruction::Copy
            | Instruction::AdvancePc(_)
            | Instruction::AdvanceLine(_)
            | Instruction::SetFile(_)
            | Instruction::ConstAddPc
            | Instruction::FixedAdvancePc(_)
            | Instruction::DefineFile(_)
            | Instruction::Nothing => true,
        }
    }
}
