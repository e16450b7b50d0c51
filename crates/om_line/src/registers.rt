//! The registers of a line program, as far as rows of addresses, files and lines need them: DWARF 4,
//! section 6.2.2.

ghost use Rattle.std.specs.Prelude.{◌≡◌, ◌≢◌};
ghost use Rattle.om_line.specs.Running as spec;

use crate::head::Head;
use crate::instruction::Instruction;
use crate::row::LineRow;

/// The state of a line program.
#[derive(Clone, Copy, Debug, PartialEq, Eq)]
pub struct Registers {
    pub address: u32,
    pub file: u32,
    pub line: u32,
}

/// What addresses, lines and files are taken modulo.
const MODULUS: u64 = 1 << 32;

/// The opcode whose growth of the address `DW_LNS_const_add_pc` has.
const LAST_OPCODE: u8 = 255;

impl Registers {
    /// The state at the beginning of a sequence.
    pub fn begin() -> Registers
        ensures { result ≡ spec.begin }
    {
        Registers {
            address: 0,
            file: 1,
            line: 1,
        }
    }

    /// With an address that is so many instructions of the least length higher, modulo 2^32.
    fn advanced(&self, head: &Head, count: u64) -> Registers
        ensures { result ≡ spec.advanced head.now count self.now }
    {
        let bytes = u128::from(head.minimum_instruction_length) * u128::from(count);
        Registers {
            address: ((u128::from(self.address) + bytes) % u128::from(MODULUS)) as u32,
            ..*self
        }
    }

    /// With a line that is so much higher, modulo 2^32.
    fn grown(&self, by: &i64) -> Registers
        ensures { result ≡ spec.grown by.now self.now }
    {
        let by = u128::from(by.cast_unsigned());
        Registers {
            line: ((u128::from(self.line) + by) % u128::from(MODULUS)) as u32,
            ..*self
        }
    }

    /// After a special opcode, so far above the opcode base.
    fn after_special(&self, head: &Head, opcode: u8) -> Registers
        requires { head.now.line_range ≢ 0 }
        ensures { result ≡ spec.after_special head.now opcode self.now }
    {
        let by = i64::from(head.line_base) + i64::from(opcode % head.line_range);
        let count = u64::from(opcode / head.line_range);
        self.advanced(head, count).grown(&by)
    }

    /// The state after an instruction.
    #[tactic(auto, unfolding(crate::specs::Running::after))]
    pub fn after(&self, head: &Head, instruction: &Instruction) -> Registers
        requires { head.now.line_range ≢ 0 }
        ensures { result ≡ spec.after head.now self.now instruction.now }
    {
        match instruction {
            Instruction::Special(opcode) => self.after_special(head, *opcode),
            Instruction::AdvancePc(count) => self.advanced(head, *count),
            Instruction::AdvanceLine(by) => self.grown(by),
            Instruction::SetFile(file) => Registers {
                file: (*file % MODULUS) as u32,
                ..*self
            },
            Instruction::ConstAddPc => {
                let count = (LAST_OPCODE - head.opcode_base) / head.line_range;
                self.advanced(head, u64::from(count))
            }
            Instruction::FixedAdvancePc(bytes) => Registers {
                address: self.address.wrapping_add(u32::from(*bytes)),
                ..*self
            },
            Instruction::EndSequence => Registers::begin(),
            Instruction::SetAddress(address) => Registers {
                address: *address,
                ..*self
            },
            Instruction::Copy | Instruction::DefineFile(_) | Instruction::Nothing => *self,
        }
    }

    /// The row of the state.
    fn row(&self, end: bool) -> LineRow
        ensures { result ≡ spec.row_of end self.now }
    {
        LineRow {
            addr: self.address,
            file: self.file,
            line: self.line,
            end,
        }
    }

    /// The row that an instruction makes, if it makes one.
    #[tactic(auto, unfolding(crate::specs::Running::made))]
    pub fn made(&self, head: &Head, instruction: &Instruction) -> Option<LineRow>
        requires { head.now.line_range ≢ 0 }
        ensures { result ≡ spec.made head.now self.now instruction.now }
    {
        match instruction {
            Instruction::Special(opcode) => Some(self.after_special(head, *opcode).row(false)),
            Instruction::Copy => Some(self.row(false)),
            Instruction::EndSequence => Some(self.row(true)),
            _ => None,
        }
    }
}
