//! Fixed variables, outside all functions: DWARF 4, sections 4.1 and 2.6.1.

ghost use Rattle.std.specs.Prelude.{◌≡◌};
ghost use Rattle.om_names.specs.FixedVariables as spec;
ghost use Rattle.om_names.specs.FoundList.{fixed_by};
ghost use Rattle.om_names.specs.Variables.{held_at};

use crate::constants::{DW_AT_DECLARATION, DW_AT_LOCATION, DW_TAG_VARIABLE};
use crate::held::Held;
use crate::kind::Kind;
use crate::names::Names;
use crate::types::kind_in;
use om_die::{AttrValue, Die};
use om_eval::VariableName;
use om_loc::{Place, read_place};

/// A variable that has a name and an address, and stands below no subprogram.
#[derive(Debug, Drop)]
pub struct Fixed<'a> {
    pub name: VariableName<'a>,
    /// Where it is.
    pub address: u32,
    /// Its numbers, where its type is scalar.
    pub kind: Option<Kind>,
}

impl<'a> Fixed<'a> {
    /// The same variable.
    pub fn again(&self) -> Fixed<'a>
        ensures { result ≡ self.now }
    {
        Fixed {
            name: self.name.again(),
            address: self.address,
            kind: self.kind,
        }
    }

    /// Where it is, if its type is scalar.
    pub fn held(&self) -> Option<Held>
        ensures { result ≡ held_at self.now }
    {
        let kind = self.kind?;
        Some(Held {
            place: Place::Fixed(self.address),
            base: Place::Gone,
            kind,
        })
    }
}

/// Whether an entry is a mere declaration.
fn is_declaration(die: &Die) -> bool
    ensures { result ≡ spec.is_declaration die.now }
{
    match die.attribute(DW_AT_DECLARATION) {
        Some(AttrValue::Flag(flag)) => flag,
        _ => false,
    }
}

/// The address that an entry's location says, if it is one.
fn fixed_address(die: &Die) -> Option<u32>
    ensures { result ≡ spec.fixed_address die.now }
{
    let block = match die.attribute(DW_AT_LOCATION) {
        Some(AttrValue::Block(block)) => block,
        _ => return None,
    };
    match read_place(block) {
        Place::Fixed(address) => Some(address),
        _ => None,
    }
}

/// The fixed variable that an entry is, if it is one.
#[tactic(auto, unfolding(crate::specs::FoundList::fixed_by, om_eval::specs::Qualified::qualified))]
pub fn fixed_of<'a>(names: &Names<'a>, die: &Die<'a>, is_inside: bool) -> Option<Fixed<'a>>
    ensures { result ≡ fixed_by names.now die.now is_inside }
{
    if die.tag != DW_TAG_VARIABLE || is_inside || is_declaration(die) {
        return None;
    }
    let Some(name) = names.name_of(die) else {
        return None;
    };
    let Some(address) = fixed_address(die) else {
        return None;
    };
    let kind = kind_in(names.typing_of(die));
    Some(Fixed {
        name: VariableName::of(None, name),
        address,
        kind,
    })
}
