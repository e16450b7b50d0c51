//! What a value depends on beside its own bytes.

use std::marker::Model;

/// The unit that is read, and the strings that its entries refer to.
#[derive(Debug, Drop)]
pub struct Context<'a> {
    /// Where the unit begins in `.debug_info`.
    pub unit: u32,
    /// The section `.debug_str`.
    pub strings: &'a [u8],
}

// Clauses see the strings as bytes.
impl<'a> Model for Context<'a> {
    ghost use Rattle.om_die.specs.Forms.{Around};

    ghost Value = { Around };

    ghost view = { λ it. record { unit = it.unit; strings = it.strings.now } };
}
