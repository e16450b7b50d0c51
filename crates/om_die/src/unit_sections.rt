//! The sections that units are read from.

/// The bytes of the sections.
#[derive(Debug, Drop)]
pub struct Sections<'a> {
    /// `.debug_info`.
    pub info: &'a [u8],
    /// `.debug_abbrev`.
    pub abbreviations: &'a [u8],
    /// `.debug_str`.
    pub strings: &'a [u8],
}
