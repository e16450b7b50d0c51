//! The places that entries tell: DWARF 4, section 2.6.

ghost use Rattle.std.specs.Prelude.{◌≡◌};
ghost use Rattle.om_names.specs.LocalVariables as spec;

use om_die::{AttrValue, Die};
use om_loc::{Place, read_place};

/// The place that an attribute of an entry says, gone where it isn't an expression.
pub fn place_in(die: &Die, attribute: u32) -> Place
    ensures { result ≡ spec.place_in attribute die.now }
{
    match die.attribute(attribute) {
        Some(AttrValue::Block(block)) => read_place(block),
        _ => Place::Gone,
    }
}
