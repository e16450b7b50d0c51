//! Why a query isn't typed.

use om_base::NoMemory;

/// Why a query has no typing.
#[derive(Clone, Copy, Debug, PartialEq, Eq)]
pub enum TypeFault {
    /// No memory was left.
    NoMemory,
    /// The query asks for something else than columns of `states`, variables of numbers, and comparisons of
    /// numbers.
    Unbuilt,
}

impl From<NoMemory> for TypeFault {
    ghost use Rattle.std.specs.Prelude.{◌≡◌};
    ghost use Rattle.om_type.specs.declared.fault.TypeFault.TheVariants.{NoMemory};

    ghost from_gives = { λ _ it. it ≡ NoMemory };

    fn from(_error: NoMemory) -> TypeFault {
        TypeFault::NoMemory
    }
}
