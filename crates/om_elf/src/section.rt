//! A section: the gABI, chapter 4, "Sections".

ghost use Rattle.std.specs.Prelude.{◌≡◌, true, false};
ghost use Rattle.om_elf.specs.Piece.{IsShort};
ghost use Rattle.om_elf.specs.Sections.{is_section, is_unreadable, piece_of};

use crate::section_header::SectionHeader;
use crate::string_table::StringTable;
use om_base::Name;
use std::marker::Model;

/// A section, with the piece of the file that it is.
#[derive(Debug, Drop)]
pub struct Section<'a> {
    /// The number of its header in the table of section headers.
    pub index: u32,
    /// Its name, without the zero byte at its end; empty in a file that has no names.
    pub name: Name<'a>,
    /// Its bytes in the file; none for a section of type `SHT_NOBITS`, whatever its size.
    pub bytes: &'a [u8],
}

// Clauses see the bytes as a list.
impl<'a> Model for Section<'a> {
    ghost use Rattle.om_elf.specs.Piece.{Piece};

    ghost Value = { Piece };

    ghost view = { λ it. record { index = it.index; name = it.name; bytes = it.bytes.now } };
}

impl<'a> Section<'a> {
    /// The section that the header of number `index` stands for.
    pub fn of(
        file: &'a [u8],
        names: &Option<StringTable<'a>>,
        index: u32,
        header: &SectionHeader,
    ) -> Section<'a>
        requires section { is_section header.now ≡ true }
        requires readable { is_unreadable file.now names.now header.now ≡ false }
        ensures piece { result ≡ piece_of file.now names.now (index, header.now) }
        ensures short { IsShort result }
    {
        Section {
            index,
            name: Name::of(header.name(names).unwrap_or(b"")),
            bytes: header.bytes(file),
        }
    }
}
