//! The ELF header: the gABI, chapter 4, "ELF Header".

ghost use Rattle.std.specs.Prelude.{◌≡◌, ◌≤◌, length};
ghost use Rattle.om_base.specs.Firsts.{first_of};
ghost use Rattle.om_elf.specs.Executable.{has_class, has_flags, has_magic, has_programs, has_sections, header_faults};
ghost use Rattle.om_elf.specs.Sections.{has_names, name_section};

use crate::fault::ElfFault;
use crate::section_header::SectionHeader;
use om_base::{half_at, word_at};

/// The fields of the ELF header that a reader of executables looks at.
#[derive(Clone, Copy, Debug)]
pub struct FileHeader {
    /// The object file type; 2 is `ET_EXEC`.
    pub e_type: u16,
    /// The architecture; 243 is `EM_RISCV`.
    pub e_machine: u16,
    /// The address of the first instruction.
    pub e_entry: u32,
    /// File offset of the program header table.
    pub e_phoff: u32,
    /// File offset of the section header table.
    pub e_shoff: u32,
    /// Flags of the processor's own: RISC-V psABI, "File Header".
    pub e_flags: u32,
    /// Bytes of one program header.
    pub e_phentsize: u16,
    /// How many program headers there are.
    pub e_phnum: u16,
    /// Bytes of one section header.
    pub e_shentsize: u16,
    /// How many section headers there are.
    pub e_shnum: u16,
    /// The number of the section header whose section holds the names of sections; 0 is `SHN_UNDEF`.
    pub e_shstrndx: u16,
}

/// Whether the file begins as every ELF file does.
fn has_magic_number(file: &[u8]) -> bool
    requires { 52 ≤ length file.now }
    ensures { result ≡ has_magic file.now }
{
    file[0] == 0x7f && file[1] == b'E' && file[2] == b'L' && file[3] == b'F'
}

/// Whether the file is of 32 bits and little-endian.
fn has_known_class(file: &[u8]) -> bool
    requires { 52 ≤ length file.now }
    ensures { result ≡ has_class file.now }
{
    file[4] == 1 && file[5] == 1
}

/// The flags of RVC, of the two float ABIs' bits, and of RVE: RISC-V psABI, "File Header".
const UNKNOWN_FLAGS: u32 = 15;

impl FileHeader {
    ghost use Rattle.om_elf.specs.Headers.{file_header};

    /// The header that stands at the beginning of the file.
    pub fn of(file: &[u8]) -> FileHeader
        ensures { result ≡ file_header file.now }
    {
        FileHeader {
            e_type: half_at(file, 16),
            e_machine: half_at(file, 18),
            e_entry: word_at(file, 24),
            e_phoff: word_at(file, 28),
            e_shoff: word_at(file, 32),
            e_flags: word_at(file, 36),
            e_phentsize: half_at(file, 42),
            e_phnum: half_at(file, 44),
            e_shentsize: half_at(file, 46),
            e_shnum: half_at(file, 48),
            e_shstrndx: half_at(file, 50),
        }
    }

    /// Whether no flag stands for what isn't supported.
    fn has_known_flags(&self) -> bool
        ensures { result ≡ has_flags self.now }
    {
        self.e_flags & UNKNOWN_FLAGS == 0
    }

    /// Whether the file holds the table of program headers.
    fn has_program_headers(&self, file: &[u8]) -> bool
        ensures { result ≡ has_programs file.now self.now }
    {
        self.e_phnum == 0
            || self.e_phentsize == 32
                && self.e_phoff as usize + 32 * usize::from(self.e_phnum) <= file.len()
    }

    /// Whether the file holds the table of section headers.
    fn has_section_headers(&self, file: &[u8]) -> bool
        ensures { result ≡ has_sections file.now self.now }
    {
        self.e_shnum == 0
            || self.e_shentsize == 40
                && self.e_shoff as usize + 40 * usize::from(self.e_shnum) <= file.len()
    }

    /// The header of the section that holds the names of sections, if there are sections and
    /// `e_shstrndx` isn't `SHN_UNDEF`.
    pub fn name_section(&self, file: &[u8]) -> Option<SectionHeader>
        ensures { result ≡ name_section file.now self.now }
    {
        if self.e_shnum == 0 || self.e_shstrndx == 0 {
            return None;
        }
        let at = self.e_shoff as usize + 40 * usize::from(self.e_shstrndx);
        Some(SectionHeader::at(file, at))
    }

    /// Whether the file holds the section of names, if there is one.
    fn has_section_names(&self, file: &[u8]) -> bool
        ensures { result ≡ has_names file.now self.now }
    {
        let Some(section) = self.name_section(file) else {
            return true;
        };
        self.e_shstrndx < self.e_shnum && section.lies_in(file)
    }

    /// The first fault that the header shows.
    pub fn fault(&self, file: &[u8]) -> Option<ElfFault>
        ensures { result ≡ first_of (header_faults file.now self.now) }
    {
        if file.len() < 52 {
            return Some(ElfFault::Short);
        }
        if !has_magic_number(file) {
            return Some(ElfFault::Magic);
        }
        if !has_known_class(file) {
            return Some(ElfFault::Class);
        }
        if self.e_type != 2 {
            return Some(ElfFault::Kind);
        }
        if self.e_machine != 243 {
            return Some(ElfFault::Machine);
        }
        if !self.has_known_flags() {
            return Some(ElfFault::Flags);
        }
        if !self.has_program_headers(file) {
            return Some(ElfFault::Table { index: 0 });
        }
        if !self.has_section_headers(file) {
            return Some(ElfFault::Table { index: 1 });
        }
        if !self.has_section_names(file) {
            return Some(ElfFault::Table { index: 2 });
        }
        None
    }
}
