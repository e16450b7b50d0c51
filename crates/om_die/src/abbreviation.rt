//! Abbreviations: DWARF 4, section 7.5.3.

use crate::attribute_form::Form;
use om_base::Items;

/// An attribute of an abbreviation: its name, and the form of its value.
#[derive(Clone, Copy, Debug)]
pub struct Specification {
    /// `DW_AT_..`; a greater name than 2^32 - 1 counts as that.
    pub name: u32,
    /// None where the form isn't read.
    pub form: Option<Form>,
}

/// What entries of one shape share.
#[derive(Debug, Drop)]
pub struct Abbreviation {
    /// `DW_TAG_..`; a greater tag than 2^32 - 1 counts as that.
    pub tag: u32,
    /// Whether entries follow that stand below.
    pub has_children: bool,
    /// The attributes, in their order.
    pub attributes: Items<Specification>,
}
