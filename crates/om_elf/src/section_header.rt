//! A section header: the gABI, chapter 4, "Sections".

ghost use Rattle.std.specs.Prelude.{◌≡◌, ◌^◌, ◌<◌, true, length, IsTrue};
ghost use Rattle.std.specs.Option.{option_map};
ghost use Rattle.om_elf.specs.Sections.{bytes_in, has_bytes, is_compressed, is_section, is_unreadable, lies_in, name_in, range_of};

use crate::string_table::StringTable;
use om_base::word_at;

/// The fields of a section header that a reader of executables looks at.
#[derive(Clone, Copy, Debug)]
pub struct SectionHeader {
    /// The place of the section's name in the section of names.
    pub sh_name: u32,
    /// The kind of section; 0 is `SHT_NULL` and 8 is `SHT_NOBITS`.
    pub sh_type: u32,
    /// Bit flags; 0x800 is `SHF_COMPRESSED`.
    pub sh_flags: u32,
    /// File offset of the section's bytes.
    pub sh_offset: u32,
    /// How many bytes it has: in the file, but for `SHT_NOBITS`.
    pub sh_size: u32,
}

impl SectionHeader {
    ghost use Rattle.om_elf.specs.Headers.{section_header};

    /// The header that begins at the file offset `at`.
    pub fn at(file: &[u8], at: usize) -> SectionHeader
        requires { at < 2 ^ 33 }
        ensures { result ≡ section_header file.now at }
    {
        SectionHeader {
            sh_name: word_at(file, at),
            sh_type: word_at(file, at + 4),
            sh_flags: word_at(file, at + 8),
            sh_offset: word_at(file, at + 16),
            sh_size: word_at(file, at + 20),
        }
    }

    /// Whether it stands for a section.
    pub fn is_section(&self) -> bool
        ensures { result ≡ is_section self.now }
    {
        self.sh_type != 0
    }

    /// Whether the section has bytes in the file.
    pub fn has_bytes(&self) -> bool
        ensures { result ≡ has_bytes self.now }
    {
        self.sh_type != 8
    }

    /// Whether the range that it gives lies in the file, whatever its type.
    pub fn lies_in(&self, file: &[u8]) -> bool
        ensures { result ≡ lies_in file.now self.now }
    {
        self.sh_offset as usize + self.sh_size as usize <= file.len()
    }

    /// The bytes of that range.
    pub fn range<'a>(&self, file: &'a [u8]) -> &'a [u8]
        requires { IsTrue (lies_in file.now self.now) }
        ensures value { result.now ≡ range_of file.now self.now }
        ensures short { length result.now < 2 ^ 32 }
    {
        let start = self.sh_offset as usize;
        &file[start..start + self.sh_size as usize]
    }

    /// The section's bytes, which are none where it has none in the file.
    pub fn bytes<'a>(&self, file: &'a [u8]) -> &'a [u8]
        requires { has_bytes self.now ≡ true → lies_in file.now self.now ≡ true }
        ensures value { result.now ≡ bytes_in file.now self.now }
        ensures short { length result.now < 2 ^ 32 }
    {
        if self.has_bytes() {
            self.range(file)
        } else {
            b""
        }
    }

    /// The section's name, if it has an end.
    pub fn name<'a>(&self, names: &Option<StringTable<'a>>) -> Option<&'a [u8]>
        ensures { option_map (λ name. name.now) result ≡ name_in names.now self.now }
    {
        match names {
            Some(strings) => strings.string_at(self.sh_name),
            None => Some(b""),
        }
    }

    /// Whether it stands for a section whose bytes or name can't be taken.
    pub fn is_unreadable(&self, file: &[u8], names: &Option<StringTable<'_>>) -> bool
        ensures { result ≡ is_unreadable file.now names.now self.now }
    {
        self.is_section() && (self.has_bytes() && !self.lies_in(file) || self.name(names).is_none())
    }

    /// Whether it stands for a section of debug information that is compressed.
    pub fn is_compressed(&self, names: &Option<StringTable<'_>>) -> bool
        ensures { result ≡ is_compressed names.now self.now }
    {
        let name = self.name(names).unwrap_or(b"");
        self.is_section()
            && (name.starts_with(b".debug_") && self.sh_flags & 0x800 != 0
                || name.starts_with(b".zdebug_"))
    }
}
