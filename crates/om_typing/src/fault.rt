//! Why a query isn't typed.

use crate::mistake::Mistake;
use om_base::NoMemory;

/// Why a query isn't typed.
#[derive(Clone, Copy, Debug, PartialEq, Eq)]
pub enum TypeFault {
    /// No memory was left.
    NoMemory,
    /// The mistake of least place; of those at one place, the one whose [`Rule`](crate::Rule) is listed
    /// first.
    Mistaken(Mistake),
    /// There is no mistake, but the query has several range variables, groups, aggregates or an order.
    Unbuilt,
}

impl From<NoMemory> for TypeFault {
    ghost use Rattle.std.specs.Prelude.{◌≡◌};
    ghost use Rattle.om_typing.specs.declared.fault.TypeFault.TheVariants.{NoMemory};

    ghost from_gives = { λ _ it. it ≡ NoMemory };

    fn from(_error: NoMemory) -> TypeFault {
        TypeFault::NoMemory
    }
}
