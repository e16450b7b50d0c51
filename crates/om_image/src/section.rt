//! A section of a file that is made: the gABI, chapter 4, "Sections".

use std::marker::Model;

/// What the bytes of a section are.
#[derive(Clone, Copy, Debug)]
pub(crate) enum SectionKind {
    /// `SHT_PROGBITS`: only the program says what they mean.
    ProgramBits,
    /// `SHT_STRTAB`: texts, each ended by a zero byte.
    StringTable,
}

impl SectionKind {
    ghost use Rattle.std.specs.Prelude.{◌≡◌};
    ghost use Rattle.om_image.specs.ElfFile.{sh_type_of};

    /// The number of `sh_type`.
    pub fn sh_type(self) -> u32
        ensures { result ≡ sh_type_of self }
    {
        match self {
            SectionKind::ProgramBits => 1,
            SectionKind::StringTable => 3,
        }
    }
}

/// A section that isn't loaded.
#[derive(Debug, Drop)]
pub(crate) struct Section<'a> {
    /// Its name, without the zero byte that ends it in the string table.
    pub name: &'a [u8],
    pub kind: SectionKind,
    pub bytes: &'a [u8],
}

// Clauses see the name and the bytes as lists.
impl<'a> Model for Section<'a> {
    ghost use Rattle.om_image.specs.ElfFile.{SectionView};

    ghost Value = { SectionView };

    ghost view = { λ it. record { name = it.name.now; kind = it.kind; bytes = it.bytes.now } };
}

impl<'a> Section<'a> {
    ghost use Rattle.std.specs.Prelude.{◌≡◌, length};
    ghost use Rattle.om_image.specs.ElfFile.{name_bytes, program_bits};

    /// A section whose meaning is its program's.
    pub fn program_bits(name: &'a [u8], bytes: &'a [u8]) -> Section<'a>
        ensures { result ≡ program_bits name.now bytes.now }
    {
        Section {
            name,
            kind: SectionKind::ProgramBits,
            bytes,
        }
    }

    /// How many bytes its name takes in the string table.
    pub fn name_size(&self) -> usize
        ensures { result ≡ length (name_bytes self.now) }
    {
        self.name.len() + 1
    }
}
