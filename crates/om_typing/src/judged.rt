//! What is known of an expression that was judged.

ghost use Rattle.std.specs.Prelude.{◌≡◌};
ghost use Rattle.om_typing.specs.Judging as spec;

use om_value::Kind;

/// The range variables whose rows an expression uses.
#[derive(Clone, Copy, Debug, PartialEq, Eq)]
pub(crate) enum Reach {
    /// None.
    Nothing,
    /// Only the one at this place of FROM.
    Only(u32),
    /// Several.
    Several,
}

impl Reach {
    /// That of two expressions.
    pub fn joined(self, other: Reach) -> Reach
        ensures { result ≡ spec.joined self other }
    {
        match (self, other) {
            (Reach::Nothing, other) => other,
            (one, Reach::Nothing) => one,
            (Reach::Only(one), Reach::Only(other)) => {
                if one == other {
                    Reach::Only(one)
                } else {
                    Reach::Several
                }
            }
            (Reach::Several, _) => Reach::Several,
            (_, Reach::Several) => Reach::Several,
        }
    }

    /// That of a column or a memory form, where its range variable is known.
    pub fn of(table: Option<u32>) -> Reach
        ensures { result ≡ spec.reach_of table }
    {
        match table {
            Some(table) => Reach::Only(table),
            None => Reach::Nothing,
        }
    }

    /// Whether it goes beyond a range variable that is known.
    pub fn strays_from(self, table: Option<u32>) -> bool
        ensures { result ≡ spec.strays table self }
    {
        let Some(table) = table else {
            return false;
        };
        match self {
            Reach::Nothing => false,
            Reach::Only(other) => table != other,
            Reach::Several => true,
        }
    }
}

/// What is known of an expression.
#[derive(Clone, Copy, Debug, PartialEq, Eq)]
pub(crate) struct Judged {
    /// Its kind; none where it has a mistake.
    pub kind: Option<Kind>,
    pub reach: Reach,
    /// Its value, where it is a numeral.
    pub numeral: Option<u64>,
}
