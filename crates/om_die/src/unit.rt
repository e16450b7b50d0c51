//! Units of `.debug_info`: DWARF 4, section 7.5.1.

use crate::die::Die;
use om_base::Items;

/// A unit that was read.
#[derive(Debug, Drop)]
pub struct Unit<'a> {
    /// Where it begins in `.debug_info`.
    pub at: u32,
    /// 2, 3 or 4.
    pub version: u16,
    /// The entries, each before those that stand below it.
    pub dies: Items<Die<'a>>,
}

/// All units of `.debug_info`.
#[derive(Debug, Drop)]
pub struct Units<'a> {
    /// Those that were read, in their order.
    pub list: Items<Unit<'a>>,
    /// How many are of other versions.
    pub skipped: u32,
}
