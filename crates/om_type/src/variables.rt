//! The variables that a query may name.

ghost use Rattle.std.specs.Prelude.{◌≡◌};
ghost use Rattle.om_parse.specs.Identifiers.{said};
ghost use Rattle.om_type.specs.Checking as spec;
ghost use Rattle.om_type.specs.Checking.{variable_named};

use om_eval::{Catalog, VarInfo};
use om_parse::Identifier;

/// The place of a variable, where a query may name it: where it is one variable and holds numbers.
fn place_of(place: usize, info: &VarInfo<'_>) -> Option<u32>
    ensures { result ≡ spec.place_of place info.now }
{
    if info.ambiguous || info.scalar.is_none() {
        return None;
    }
    u32::try_from(place).ok()
}

/// The place of the variable that a name means, by its bytes.
#[tactic(auto, unfolding(crate::specs::Checking::variable_named))]
pub fn variable_of(name: &Identifier<'_>, catalog: &Catalog) -> Option<u32>
    ensures { result ≡ variable_named catalog.now (said name.now) }
{
    let mut rest = catalog.as_slice();
    while let [info, others @ ..] = rest {
        let (function, point, own) = info.name.pieces();
        if name.says(function, point, own) {
            return place_of(catalog.len() - rest.len(), info);
        }
        rest = others;
    }
    None
}
