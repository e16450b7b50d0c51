//! A program header: the gABI, chapter 5, "Program Header".

ghost use Rattle.std.specs.Prelude.{◌≡◌, ◌+◌, ◌^◌, ◌<◌};
ghost use Rattle.om_elf.specs.Segments.{has_place, is_load, is_misplaced, span_of};

use om_base::{Span, word_at};

/// The fields of a program header, but for `p_paddr` and `p_align`, which are not looked at.
#[derive(Clone, Copy, Debug)]
pub struct ProgramHeader {
    /// The kind of segment; 1 is `PT_LOAD`.
    pub p_type: u32,
    /// File offset of the segment's bytes.
    pub p_offset: u32,
    /// The address of the segment's first byte.
    pub p_vaddr: u32,
    /// How many bytes the file gives.
    pub p_filesz: u32,
    /// How many bytes of memory the segment takes.
    pub p_memsz: u32,
    /// The rights, in the three low bits.
    pub p_flags: u32,
}

impl ProgramHeader {
    ghost use Rattle.om_elf.specs.Headers.{program_header};

    /// The header that begins at the file offset `at`.
    pub fn at(file: &[u8], at: usize) -> ProgramHeader
        requires { at < 2 ^ 33 }
        ensures { result ≡ program_header file.now at }
    {
        ProgramHeader {
            p_type: word_at(file, at),
            p_offset: word_at(file, at + 4),
            p_vaddr: word_at(file, at + 8),
            p_filesz: word_at(file, at + 16),
            p_memsz: word_at(file, at + 20),
            p_flags: word_at(file, at + 24),
        }
    }

    /// Whether its segment is loaded into memory.
    pub fn is_load(&self) -> bool
        ensures { result ≡ is_load self.now }
    {
        self.p_type == 1
    }

    /// The address past the segment's memory.
    fn end(&self) -> u64
        ensures { result ≡ self.now.p_vaddr + self.now.p_memsz }
    {
        u64::from(self.p_vaddr) + u64::from(self.p_memsz)
    }

    /// Whether the segment's bytes lie in the file, and its memory in the address space.
    fn has_place(&self, file: &[u8]) -> bool
        ensures { result ≡ has_place file.now self.now }
    {
        self.p_offset as usize + self.p_filesz as usize <= file.len()
            && self.p_filesz <= self.p_memsz
            && self.end() <= 1 << 32
    }

    /// Whether its segment is to be loaded and can't be.
    pub fn is_misplaced(&self, file: &[u8]) -> bool
        ensures { result ≡ is_misplaced file.now self.now }
    {
        self.is_load() && !self.has_place(file)
    }

    /// The addresses of the segment's memory; none where it isn't loaded.
    pub fn span(&self) -> Span
        ensures { result ≡ span_of self.now }
    {
        if self.is_load() {
            Span {
                lo: u64::from(self.p_vaddr),
                hi: self.end(),
            }
        } else {
            Span { lo: 0, hi: 0 }
        }
    }
}
