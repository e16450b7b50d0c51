//! The table of section headers, and the names of its sections: the gABI, chapter 4, "Sections".

ghost use Rattle.std.specs.Prelude.{◌≡◌, ◌<◌, true, false, length, position, All, IfOk, IfSome};
ghost use Rattle.om_elf.specs.Headers.{sections_of};
ghost use Rattle.om_elf.specs.Piece.{IsShort};
ghost use Rattle.om_elf.specs.Sections.{has_names, is_compressed, is_unreadable, names_of, pieces_from};

use crate::file_header::FileHeader;
use crate::section::Section;
use crate::section_header::SectionHeader;
use crate::string_table::StringTable;
use om_base::{Items, NoMemory};
use std::alloc::Global;

/// The table of section headers.
#[tactic(auto, using(crate::proofs::TableLemmas::section_tables))]
pub fn read_headers(
    alloc: Global,
    file: &[u8],
    header: &FileHeader,
) -> Result<Items<SectionHeader>, NoMemory>
    ensures table { IfOk result (λ sections. sections ≡ sections_of file.now header.now) }
    ensures few { IfOk result (λ sections. length sections < 65536) }
{
    let mut sections = Vec::new(alloc);
    for place in 0..header.e_shnum {
        sections.push(SectionHeader::at(file, header.e_shoff as usize + 40 * usize::from(place)))?;
    }
    Ok(Items::from_vec(sections))
}

/// The names of sections, if there are any.
pub fn read_names<'a>(
    alloc: Global,
    file: &'a [u8],
    header: &FileHeader,
) -> Result<Option<StringTable<'a>>, NoMemory>
    requires { has_names file.now header.now ≡ true }
    ensures names { IfOk result (λ names. names ≡ names_of file.now header.now) }
{
    let Some(section) = header.name_section(file) else {
        return Ok(None);
    };
    Ok(Some(StringTable::of(alloc, section.range(file))?))
}

/// The place of the first header of a section whose bytes or name can't be taken.
pub fn first_unreadable(
    file: &[u8],
    names: &Option<StringTable<'_>>,
    sections: &[SectionHeader],
) -> Option<usize>
    ensures place { result ≡ position (is_unreadable file.now names.now) sections.now }
    ensures within { IfSome result (λ place. place < length sections.now) }
{
    sections
        .iter()
        .position(|section| section.is_unreadable(file, names))
}

/// The place of the first header of a section that is compressed.
pub fn first_compressed(
    names: &Option<StringTable<'_>>,
    sections: &[SectionHeader],
) -> Option<usize>
    ensures place { result ≡ position (is_compressed names.now) sections.now }
    ensures within { IfSome result (λ place. place < length sections.now) }
{
    sections
        .iter()
        .position(|section| section.is_compressed(names))
}

/// The sections that the headers stand for, in header order.
pub fn read_sections<'a>(
    alloc: Global,
    file: &'a [u8],
    names: &Option<StringTable<'a>>,
    headers: &[SectionHeader],
) -> Result<Items<Section<'a>>, NoMemory>
    requires readable { All (λ header. is_unreadable file.now names.now header ≡ false) headers.now }
    requires few { length headers.now < 65536 }
    ensures sections { IfOk result (λ sections. sections ≡ pieces_from file.now names.now 0 headers.now) }
    ensures short { IfOk result (All IsShort) }
{
    let mut sections = Vec::new(alloc);
    for (index, header) in headers.iter().enumerate() {
        if header.is_section() {
            sections.push(Section::of(file, names, index as u32, header))?;
        }
    }
    Ok(Items::from_vec(sections))
}
