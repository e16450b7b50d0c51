//! What is wrong with a file that isn't read as an executable.

use om_base::NoMemory;

/// Why a file can't be read as an executable: the first rule that it breaks, in the order in which
/// they stand here.
///
/// Numbers of headers count all of their table, from 0, whatever their types.
#[derive(Clone, Copy, Debug, PartialEq, Eq)]
pub enum ElfFault {
    /// No memory was left.
    NoMemory,
    /// The file has fewer than the 52 bytes of an ELF header.
    Short,
    /// The file doesn't begin as every ELF file does.
    Magic,
    /// The file isn't of class `ELFCLASS32`, or its encoding isn't `ELFDATA2LSB`.
    Class,
    /// `e_type` isn't `ET_EXEC`.
    Kind,
    /// `e_machine` isn't `EM_RISCV`.
    Machine,
    /// `e_flags` asks for compressed instructions, floating-point registers or RVE.
    Flags,
    /// What `index` stands for can't be taken from the file.
    ///
    /// - 0: the table of program headers has entries of another size than 32, or ends past the file.
    /// - 1: the table of section headers has entries of another size than 40, or ends past the file.
    /// - 2: `e_shstrndx` names no section header, or a section that ends past the file.
    /// - from 100 on: the segment of program header `index - 100` has bytes past the file's end, more
    ///   bytes than memory, or memory past the end of the address space.
    /// - from 100,000 on: the section of header `index - 100_000` ends past the file, or its name
    ///   doesn't end within the section of names.
    ///
    /// All program headers are judged before the first section header is.
    Table { index: u32 },
    /// The segments of program headers `a` and `b` share an address.
    Overlap { a: u32, b: u32 },
    /// The segments together take more than 32 MiB of memory.
    TooBig,
    /// The section of header `section` has debug information that is compressed.
    Compressed { section: u32 },
}

impl From<NoMemory> for ElfFault {
    ghost use Rattle.std.specs.Prelude.{◌≡◌};
    ghost use Rattle.om_elf.specs.declared.fault.ElfFault.TheVariants as fault;

    ghost from_gives = { λ _ told. told ≡ fault.NoMemory };

    fn from(_error: NoMemory) -> ElfFault {
        ElfFault::NoMemory
    }
}
