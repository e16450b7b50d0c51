//! Variables of a function's own: DWARF 4, sections 4.1 and 3.3.5.

ghost use Rattle.std.specs.Prelude.{◌≡◌};
ghost use Rattle.std.specs.Option.{option_map};
ghost use Rattle.om_names.specs.FoundList.{local_by};
ghost use Rattle.om_names.specs.Types as types;

use crate::around::Function;
use crate::constants::{DW_AT_LOCATION, DW_TAG_FORMAL_PARAMETER, DW_TAG_VARIABLE};
use crate::functions::again;
use crate::held::Held;
use crate::kind::Kind;
use crate::names::Names;
use crate::places::place_in;
use crate::types::kind_in;
use om_die::Die;
use om_eval::VariableName;
use om_loc::Place;

/// A variable or a parameter of a function.
#[derive(Debug, Drop)]
pub struct Local<'a> {
    /// Its own name behind that of its function.
    pub name: VariableName<'a>,
    /// Its numbers, where its type is scalar.
    pub kind: Option<Kind>,
    /// Where it is.
    pub place: Place,
    /// Where the frame of its function is.
    pub base: Place,
    /// How many entries it stands below.
    pub depth: u32,
}

impl Local<'_> {
    /// Where it is, if its type is scalar.
    pub fn held(&self) -> Option<Held>
        ensures { result ≡ option_map (λ kind. record { place = self.now.place; base = self.now.base; kind = kind }) self.now.kind }
    {
        let kind = self.kind?;
        Some(Held {
            place: self.place,
            base: self.base,
            kind,
        })
    }
}

/// Whether an entry is a variable or a parameter.
pub fn is_typed(die: &Die) -> bool
    ensures { result ≡ types.is_typed die.now }
{
    die.tag == DW_TAG_VARIABLE || die.tag == DW_TAG_FORMAL_PARAMETER
}

/// The local variable that an entry is, if it is one, by the function that it stands in.
#[tactic(auto, unfolding(crate::specs::FoundList::local_by))]
pub fn local_of<'a>(
    names: &Names<'a>,
    die: &Die<'a>,
    function: &Option<Function<'a>>,
) -> Option<Local<'a>>
    ensures { result ≡ local_by names.now die.now function.now }
{
    if !is_typed(die) {
        return None;
    }
    let Some(function) = function else {
        return None;
    };
    let Some(outer) = again(&function.name) else {
        return None;
    };
    let Some(own) = names.name_of(die) else {
        return None;
    };
    Some(Local {
        name: VariableName::of(Some(outer), own),
        kind: kind_in(names.typing_of(die)),
        place: place_in(die, DW_AT_LOCATION),
        base: function.base,
        depth: die.depth,
    })
}
