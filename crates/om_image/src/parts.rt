//! What grows by each segment and each section of a file that is made.

ghost use Rattle.std.specs.Prelude.{◌≡◌, ◌+◌, ◌^◌, ◌<◌, [], length, OnOk};
ghost use Rattle.std.specs.List.{flat_map};
ghost use Rattle.om_image.specs.ElfFile.{name_bytes, section_bytes, segment_bytes};
ghost use Rattle.om_image.specs.Growing.{end_of, with_section, with_sections, with_segment, with_segments};

use crate::numbers::put_words;
use crate::section::Section;
use crate::segment::Segment;
use om_base::{Bytes, NoMemory};
use std::alloc::Global;

/// The type of a loadable segment, `PT_LOAD`.
const LOADABLE: u32 = 1;

/// A file but for its ELF header.
#[derive(Debug, Drop)]
pub(crate) struct Parts {
    /// The offset of `contents` in the file, behind all program headers.
    pub start: usize,
    pub program_headers: Bytes,
    /// The bytes of the segments and of the sections, one behind another.
    pub contents: Bytes,
    pub section_headers: Bytes,
    /// The offset of the next name in the string table.
    pub name_at: usize,
}

impl Parts {
    /// Nothing yet of a file whose contents are to begin at this offset. Takes no memory.
    pub fn new(alloc: Global, start: usize) -> Parts
        ensures { result ≡ record {
          start = start;
          program_headers = [];
          contents = [];
          section_headers = [];
          name_at = 1;
        } }
    {
        Parts {
            start,
            program_headers: Bytes::from_vec(Vec::new(alloc)),
            contents: Bytes::from_vec(Vec::new(alloc)),
            section_headers: Bytes::from_vec(Vec::new(alloc)),
            name_at: 1,
        }
    }

    /// The offset in the file behind the contents so far.
    pub fn end(&self) -> u32
        requires { end_of self.now < 2 ^ 32 }
        ensures { result ≡ end_of self.now }
    {
        (self.start + self.contents.bytes().len()) as u32
    }

    /// Adds a segment, with its program header.
    #[tactic(auto, using(crate::proofs::HeaderLemmas::program_header_is, crate::proofs::HeaderLemmas::length_of_words))]
    fn add_segment(&mut self, segment: &Segment<'_>) -> Result<(), NoMemory>
        requires { end_of self.old + length (segment_bytes segment.now) < 2 ^ 32 }
        ensures { OnOk result (self.new ≡ with_segment self.old segment.now) }
    {
        let size = 4 * segment.words.len() as u32;
        let header = [
            LOADABLE,
            self.end(), // p_offset
            segment.address, // p_vaddr
            segment.address, // p_paddr
            size, // p_filesz
            size, // p_memsz
            segment.rights.p_flags(),
            4, // p_align
        ];
        put_words(&mut self.program_headers, &header)?;
        put_words(&mut self.contents, segment.words)
    }

    /// Adds some segments, one behind another.
    pub fn add_segments(&mut self, segments: &[Segment<'_>]) -> Result<(), NoMemory>
        requires { end_of self.old + length (flat_map segment_bytes segments.now) < 2 ^ 32 }
        ensures { OnOk result (self.new ≡ with_segments self.old segments.now) }
    {
        for segment in segments {
            self.add_segment(segment)?;
        }
        Ok(())
    }

    /// Adds a section, with its section header.
    #[tactic(auto, using(crate::proofs::HeaderLemmas::section_header_is))]
    pub fn add_section(&mut self, section: &Section<'_>) -> Result<(), NoMemory>
        requires bytes { end_of self.old + length section.now.bytes < 2 ^ 32 }
        requires name { self.old.name_at + length (name_bytes section.now) < 2 ^ 32 }
        ensures { OnOk result (self.new ≡ with_section self.old section.now) }
    {
        let header = [
            self.name_at as u32,
            section.kind.sh_type(),
            0, // sh_flags
            0, // sh_addr
            self.end(), // sh_offset
            section.bytes.len() as u32, // sh_size
            0, // sh_link
            0, // sh_info
            1, // sh_addralign
            0, // sh_entsize
        ];
        put_words(&mut self.section_headers, &header)?;
        self.contents.add(section.bytes)?;
        self.name_at += section.name_size();
        Ok(())
    }

    /// Adds some sections, one behind another.
    pub fn add_sections(&mut self, sections: &[Section<'_>]) -> Result<(), NoMemory>
        requires bytes { end_of self.old + length (flat_map section_bytes sections.now) < 2 ^ 32 }
        requires names { self.old.name_at + length (flat_map name_bytes sections.now) < 2 ^ 32 }
        ensures { OnOk result (self.new ≡ with_sections self.old sections.now) }
    {
        for section in sections {
            self.add_section(section)?;
        }
        Ok(())
    }
}
