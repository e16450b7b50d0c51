//! A loadable segment: the gABI, chapter 5, "Segment Contents".

ghost use Rattle.std.specs.Prelude.{◌≡◌, IsTrue};
ghost use Rattle.om_elf.specs.Segments.{has_place, image_of};
ghost use Rattle.om_elf.specs.Image.{Image};

use crate::program_header::ProgramHeader;
use std::marker::Model;

/// A segment of type `PT_LOAD`, with the piece of the file that fills its beginning.
///
/// The bytes of memory past `bytes`, up to `memsz`, are zeros.
#[derive(Debug, Drop)]
pub struct Segment<'a> {
    /// The address of its first byte.
    pub vaddr: u32,
    /// Its size in memory, in bytes.
    pub memsz: u32,
    /// The three low bits of `p_flags`: 1 to fetch, 2 to write, 4 to read.
    pub rights: u8,
    /// The bytes that the file gives, at most `memsz`.
    pub bytes: &'a [u8],
}

// Clauses see the bytes as a list.
impl<'a> Model for Segment<'a> {
    ghost use Rattle.om_elf.specs.Image.{Image};

    ghost Value = { Image };

    ghost view = { λ it. record { vaddr = it.vaddr; memsz = it.memsz; rights = it.rights; bytes = it.bytes.now } };
}

impl<'a> Segment<'a> {
    /// The segment that a program header describes.
    pub fn of(file: &'a [u8], program: &ProgramHeader) -> Segment<'a>
        requires { IsTrue (has_place file.now program.now) }
        ensures { result ≡ image_of file.now program.now }
    {
        let start = program.p_offset as usize;
        Segment {
            vaddr: program.p_vaddr,
            memsz: program.p_memsz,
            rights: (program.p_flags % 8) as u8,
            bytes: &file[start..start + program.p_filesz as usize],
        }
    }
}
