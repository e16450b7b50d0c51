//! Entries of `.debug_info`: DWARF 4, section 2.1.

ghost use Rattle.std.specs.Prelude.{◌≡◌};
ghost use Rattle.std.specs.Option.{option_map};
ghost use Rattle.om_die.specs.Shown.{value_of};
ghost use Rattle.om_die.specs.Units.{attribute_of};

use crate::attribute::{Attr, AttrValue};
use om_base::Items;
use std::marker::Model;

/// A debugging information entry.
#[derive(Debug, Drop)]
pub struct Die<'a> {
    /// Where it begins in `.debug_info`.
    pub at: u32,
    /// How many entries of its unit it stands below.
    pub depth: u32,
    /// `DW_TAG_..`.
    pub tag: u32,
    /// The attributes, in their order.
    pub(crate) attrs: Items<Attr<'a>>,
}

// Clauses see what the entry says, however it is kept.
impl<'a> Model for Die<'a> {
    ghost use Rattle.om_die.specs.Die as spec;

    ghost Value = { spec.Die };

    ghost view = { λ it. record { at = it.at; depth = it.depth; tag = it.tag; attrs = it.attrs } };
}

impl<'a> Die<'a> {
    /// The value of the attribute `name`, `DW_AT_..`; where the name stands twice the first counts.
    pub fn attribute(&self, name: u32) -> Option<AttrValue<'a>>
        ensures { option_map value_of result ≡ attribute_of name self.now.attrs }
    {
        let found = self.attrs.as_slice().iter().find(|attr| attr.name == name)?;
        Some(found.value.again())
    }
}
