//! A row of a line table: DWARF 4, section 6.2.2.

/// A row, which tells where code from an address on comes from.
#[derive(Clone, Copy, Debug, PartialEq, Eq)]
pub struct LineRow {
    /// The first address.
    pub addr: u32,
    /// The file, by its number from 1 on.
    pub file: u32,
    /// The line, by its number from 1 on; 0 where there is none.
    pub line: u32,
    /// Whether the row ends a sequence: the address is the first one behind it.
    pub end: bool,
}
