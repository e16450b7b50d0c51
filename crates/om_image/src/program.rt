//! A program that is handed out, and how it is made.

ghost use Rattle.std.specs.Prelude.{◌≡◌, ◌+◌, ◌^◌, ◌<◌, length, IfOk};
ghost use Rattle.om_image.specs.Growing.{most_before_headers};
ghost use Rattle.om_image.specs.Programs.{program_of};

use crate::elf_file::make_elf_file;
use crate::section::Section;
use crate::segment::Segment;
use om_base::{Bytes, Items, NoMemory};
use std::alloc::Global;

/// An executable, with what is known of its run.
#[derive(Debug, Drop)]
pub struct Program {
    /// The ELF file.
    pub elf: Bytes,
    /// What the run reads from descriptor 0.
    pub input: Bytes,
    /// What is known of the run: for each value of a variable the number of states with it; none where
    /// nothing is told.
    pub truth: Items<(u32, u64)>,
}

/// The address at which the code of each program begins, and its run.
pub(crate) const ENTRY: u32 = 65_536;

/// A program of these segments and sections.
#[tactic(auto, using(crate::proofs::SizeLemmas::fits))]
pub(crate) fn make_program(
    alloc: Global,
    segments: &[Segment<'_>],
    sections: &[Section<'_>],
    input: &[u8],
    truth: &[(u32, u64)],
) -> Result<Program, NoMemory>
    requires segments { length segments.now < 65_535 }
    requires sections { length sections.now + 2 < 65_280 }
    requires size { most_before_headers segments.now sections.now < 2 ^ 32 }
    ensures { IfOk result (λ program. program
        ≡ program_of segments.now sections.now input.now truth.now) }
{
    Ok(Program {
        elf: make_elf_file(alloc, ENTRY, segments, sections)?,
        input: Bytes::copy_of(alloc, input)?,
        truth: Items::from_vec(Vec::from_slice(alloc, truth)?),
    })
}
