//! Why a line table isn't read.

ghost use Rattle.std.specs.Prelude.{◌≡◌};
ghost use Rattle.om_line.specs.declared.fault.LineFault.TheVariants as fault;

use om_base::NoMemory;

/// Why a table can't be read: the first thing that is wrong.
///
/// `at` is an offset of `.debug_line`: where the table begins, but for an opcode its own place.
#[derive(Clone, Copy, Debug, PartialEq, Eq)]
pub enum LineFault {
    /// No memory was left.
    NoMemory,
    /// The table passes the end of the section, or its header passes the end of the table.
    Short { at: u32 },
    /// The version is none of 2, 3 and 4.
    Version { at: u32 },
    /// The table is of the 64-bit format, or has another length that is reserved; or it has several
    /// operations in an instruction, the line range 0 or the opcode base 0.
    Header { at: u32 },
    /// The operands of the opcode pass the end of the table or that of the extended instruction, whose
    /// length is 0 or passes the end of the table; or it sets an address of another size than 4.
    Opcode { at: u32 },
}

impl From<NoMemory> for LineFault {
    ghost from_gives = { λ _ given. given ≡ fault.NoMemory };

    fn from(_error: NoMemory) -> LineFault {
        LineFault::NoMemory
    }
}
