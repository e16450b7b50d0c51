//! The reader of an executable.

ghost use Rattle.std.specs.Prelude.{◌≡◌, ◌^◌, ◌<◌, length, All, IfOk, IfSome};
ghost use Rattle.std.specs.Option.{option_map};
ghost use Rattle.om_elf.specs.Executable.{elf_fault, elf_in};
ghost use Rattle.om_elf.specs.Found.{IsFound};
ghost use Rattle.om_elf.specs.Gives.{Gives};
ghost use Rattle.om_elf.specs.Image.{AreLoadable};
ghost use Rattle.om_elf.specs.Piece.{IsShort};
ghost use Rattle.om_elf.specs.Sections.{bytes_of};

use crate::fault::ElfFault;
use crate::file_header::FileHeader;
use crate::programs::read_segments;
use crate::section::Section;
use crate::sections::read_sections;
use crate::segment::Segment;
use crate::tables::Tables;
use om_base::Items;
use std::alloc::Global;

/// A static executable, as far as a replay and its debug information need it.
#[derive(Debug, Drop)]
pub struct Elf<'a> {
    /// The address of the first instruction.
    pub entry: u32,
    /// The field `e_flags`.
    pub flags: u32,
    /// The loadable segments, in header order.
    pub segments: Items<Segment<'a>>,
    /// The sections, in header order; headers of type `SHT_NULL` stand for none.
    pub sections: Items<Section<'a>>,
}

impl<'a> Elf<'a> {
    /// The bytes of the first section of a name.
    pub fn section(&self, name: &[u8]) -> Option<&'a [u8]>
        ensures value { option_map (λ bytes. bytes.now) result ≡ bytes_of name.now self.now.sections }
        ensures short { All IsShort self.now.sections → IfSome result (λ bytes. length bytes.now < 2 ^ 32) }
    {
        self.sections
            .as_slice()
            .iter()
            .find(|section| section.name.bytes() == name)
            .map(|section| section.bytes)
    }
}

/// Reads an executable, whose segments and sections borrow the file.
///
/// Takes time linear in the file's size, but for a sort of the program headers, and where two segments
/// share an address: these two are looked for in the square of the number of program headers.
#[tactic(auto, using(crate::proofs::ExecutableLemmas::readings))]
pub fn read_elf<'a>(alloc: Global, file: &'a [u8]) -> Result<Elf<'a>, ElfFault>
    ensures gives { Gives (elf_fault file.now) (elf_in file.now) result }
    ensures loadable { IfOk result (λ elf. AreLoadable elf.segments) }
    ensures short { IfOk result (λ elf. All IsShort elf.sections) }
    ensures found { IfOk result (IsFound file.now) }
{
    let header = FileHeader::of(file);
    if let Some(fault) = header.fault(file) {
        return Err(fault);
    }
    let tables = Tables::read(alloc, file, &header)?;
    if let Some(fault) = tables.fault(alloc, file)? {
        return Err(fault);
    }
    let segments = read_segments(alloc, file, tables.programs.as_slice())?;
    let sections = read_sections(alloc, file, &tables.names, tables.sections.as_slice())?;
    Ok(Elf {
        entry: header.e_entry,
        flags: header.e_flags,
        segments,
        sections,
    })
}
