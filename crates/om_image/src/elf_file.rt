//! Makes an ELF32 file of a RISC-V executable: the gABI, chapters 4 and 5.
//!
//! Behind the ELF header stand the program headers, the bytes of the segments, those of the sections, and
//! the section headers. Nothing is aligned.

ghost use Rattle.std.specs.Prelude.{◌≡◌, ◌+◌, ◌^◌, ◌<◌, ◌++◌, length, IfOk, OnOk};
ghost use Rattle.std.specs.List.{flat_map};
ghost use Rattle.om_image.specs.ElfFile as spec;
ghost use Rattle.om_image.specs.Growing.{end_of, with_all};

use crate::numbers::{put_halves, put_words};
use crate::parts::Parts;
use crate::section::{Section, SectionKind};
use crate::segment::Segment;
use om_base::{Bytes, NoMemory};
use std::alloc::Global;

/// The size of the ELF header, and of an entry of each table.
const ELF_HEADER: usize = 52;

const PROGRAM_HEADER: usize = 32;

const SECTION_HEADER: usize = 40;

/// The magic number, then ELFCLASS32, ELFDATA2LSB and the version.
const IDENTIFICATION: [u8; 16] = [0x7f, b'E', b'L', b'F', 1, 1, 1, 0, 0, 0, 0, 0, 0, 0, 0, 0];

/// `ET_EXEC` and `EM_RISCV`.
const TYPE_AND_MACHINE: [u16; 2] = [2, 243];

/// The name of the section of the section names.
const NAMES: &[u8] = b".shstrtab";

/// What the ELF header tells of the section headers; zeros, where there are none.
#[derive(Clone, Copy, Debug)]
pub(crate) struct SectionTable {
    /// The offset of the first one in the file.
    pub offset: u32,
    pub entry_size: u16,
    pub count: u16,
    /// Which of them is that of the section names.
    pub names: u16,
}

/// The bytes of an executable with this entry, these segments and these sections, and a section of the
/// section names where there are any.
///
/// More program headers than 65,534 or section headers than 65,279 would need the standard's way of
/// counting them elsewhere.
#[tactic(auto, unfolding(crate::specs::ElfFile::elf_file))]
pub(crate) fn make_elf_file(
    alloc: Global,
    entry: u32,
    segments: &[Segment<'_>],
    sections: &[Section<'_>],
) -> Result<Bytes, NoMemory>
    requires segments { length segments.now < 65_535 }
    requires sections { length sections.now + 2 < 65_280 }
    requires size { spec.headers_at segments.now (spec.all_sections sections.now) < 2 ^ 32 }
    ensures { IfOk result (λ file. file ≡ spec.elf_file entry segments.now sections.now) }
{
    let mut parts = Parts::new(alloc, ELF_HEADER + PROGRAM_HEADER * segments.len());
    parts.add_segments(segments)?;
    let table = add_section_table(alloc, &mut parts, sections)?;
    let mut file = Bytes::from_vec(Vec::new(alloc));
    put_elf_header(&mut file, entry, segments.len() as u16, table)?;
    file.add(parts.program_headers.bytes())?;
    file.add(parts.contents.bytes())?;
    file.add(parts.section_headers.bytes())?;
    Ok(file)
}

/// Adds the sections and the section of their names, with the table of their headers, if there are any.
fn add_section_table(
    alloc: Global,
    parts: &mut Parts,
    sections: &[Section<'_>],
) -> Result<SectionTable, NoMemory>
    requires first { parts.old.name_at ≡ 1 }
    requires count { length sections.now + 2 < 65_280 }
    requires size { end_of (with_all parts.old sections.now) < 2 ^ 32 }
    ensures parts { OnOk result (parts.new ≡ with_all parts.old sections.now) }
    ensures told { IfOk result (λ told. told
        ≡ spec.told_of (end_of (with_all parts.old sections.now)) (spec.all_sections sections.now)) }
{
    if sections.is_empty() {
        return Ok(SectionTable {
            offset: 0,
            entry_size: 0,
            count: 0,
            names: 0,
        });
    }
    let names = section_names(alloc, sections)?;
    parts.section_headers.add(&[0; SECTION_HEADER])?;
    parts.add_sections(sections)?;
    parts.add_section(&Section {
        name: NAMES,
        kind: SectionKind::StringTable,
        bytes: names.bytes(),
    })?;
    let last = sections.len() as u16 + 1;
    Ok(SectionTable {
        offset: parts.end(),
        entry_size: SECTION_HEADER as u16,
        count: last + 1,
        names: last,
    })
}

/// The names of the sections and of their own section, each ended by a zero byte, behind an empty one.
fn section_names(alloc: Global, sections: &[Section<'_>]) -> Result<Bytes, NoMemory>
    ensures { IfOk result (λ names. names ≡ (spec.names_section sections.now).bytes) }
{
    let mut names = Bytes::copy_of(alloc, &[0])?;
    for section in sections {
        names.add(section.name)?;
        names.add(&[0])?;
    }
    names.add(NAMES)?;
    names.add(&[0])?;
    Ok(names)
}

/// Appends the ELF header.
#[tactic(auto, using(crate::proofs::HeaderLemmas::elf_header_is))]
fn put_elf_header(
    file: &mut Bytes,
    entry: u32,
    programs: u16,
    table: SectionTable,
) -> Result<(), NoMemory>
    ensures { OnOk result (file.new ≡ file.old ++ spec.elf_header entry programs table) }
{
    file.add(&IDENTIFICATION)?;
    put_halves(file, &TYPE_AND_MACHINE)?;
    put_words(file, &[1, entry, ELF_HEADER as u32, table.offset, 0])?;
    let sizes_and_counts = [
        ELF_HEADER as u16,
        PROGRAM_HEADER as u16,
        programs,
        table.entry_size,
        table.count,
        table.names,
    ];
    put_halves(file, &sizes_and_counts)
}
