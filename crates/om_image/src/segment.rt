//! A loadable segment of a file that is made: the gABI, chapter 5, "Program Header".

use std::marker::Model;

/// What a program may do with the memory of a segment.
#[derive(Clone, Copy, Debug)]
pub(crate) enum Rights {
    ReadExecute,
    ReadWrite,
}

impl Rights {
    ghost use Rattle.std.specs.Prelude.{◌≡◌};
    ghost use Rattle.om_image.specs.ElfFile.{p_flags_of};

    /// The bits of `p_flags`: 4 to read, 2 to write, 1 to execute.
    pub fn p_flags(self) -> u32
        ensures { result ≡ p_flags_of self }
    {
        match self {
            Rights::ReadExecute => 4 + 1,
            Rights::ReadWrite => 4 + 2,
        }
    }
}

/// A segment of type `PT_LOAD`, all of whose memory the file gives.
#[derive(Debug, Drop)]
pub(crate) struct Segment<'a> {
    /// The address of its first byte.
    pub address: u32,
    pub rights: Rights,
    /// What it holds, in words of 32 bits.
    pub words: &'a [u32],
}

// Clauses see the words as a list.
impl<'a> Model for Segment<'a> {
    ghost use Rattle.om_image.specs.ElfFile.{SegmentView};

    ghost Value = { SegmentView };

    ghost view = { λ it. record { address = it.address; rights = it.rights; words = it.words.now } };
}

impl<'a> Segment<'a> {
    ghost use Rattle.std.specs.Prelude.{◌≡◌, length};
    ghost use Rattle.om_image.specs.Programs.{code_at};

    /// A segment of instructions.
    pub fn code(address: u32, words: &'a [u32]) -> Segment<'a>
        ensures words { result ≡ code_at address words.now }
        ensures size { length result.words ≡ length words.now }
    {
        Segment {
            address,
            rights: Rights::ReadExecute,
            words,
        }
    }
}
