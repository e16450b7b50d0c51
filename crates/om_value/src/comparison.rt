//! The six comparisons: SQL-92, section 8.2.

ghost use Rattle.std.specs.Prelude.{◌≡◌};
ghost use Rattle.std.specs.Ordering.{int_cmp, nat_cmp};
ghost use Rattle.std.specs.Cmp.Lexicographic.{slice_cmp};
ghost use Rattle.om_value.specs.Meaning as spec;
ghost use Rattle.om_value.specs.Meaning.{decided};

use crate::{Truth, Value};
use std::cmp::Ordering;

/// A comparison of two values.
#[derive(Clone, Copy, Debug, PartialEq, Eq)]
pub enum Compare {
    /// `=`
    Equal,
    /// `<>`
    NotEqual,
    /// `<`
    Less,
    /// `<=`
    LessEqual,
    /// `>`
    Greater,
    /// `>=`
    GreaterEqual,
}

impl Compare {
    /// Whether it holds of two texts in this order.
    fn holds(self, order: Ordering) -> bool
        ensures { result ≡ spec.holds self order }
    {
        match self {
            Compare::Equal => order.is_eq(),
            Compare::NotEqual => order.is_ne(),
            Compare::Less => order.is_lt(),
            Compare::LessEqual => order.is_le(),
            Compare::Greater => order.is_gt(),
            Compare::GreaterEqual => order.is_ge(),
        }
    }

    /// Whether it holds of two numbers. They are compared once, with no order between.
    fn holds_of(self, left: i128, right: i128) -> bool
        ensures { result ≡ spec.holds self (int_cmp left right) }
    {
        match self {
            Compare::Equal => left == right,
            Compare::NotEqual => left != right,
            Compare::Less => left < right,
            Compare::LessEqual => left <= right,
            Compare::Greater => left > right,
            Compare::GreaterEqual => left >= right,
        }
    }

    /// The truth of the comparison of two texts. Kept out of line, since most comparisons are of numbers.
    #[inline(never)]
    fn truth_of_texts(self, left: &[u8], right: &[u8]) -> Truth
        ensures { result ≡ decided (spec.holds self (slice_cmp nat_cmp left.now right.now)) }
    {
        decide(self.holds(left.cmp(right)))
    }

    /// The truth of the comparison of two values.
    #[inline]
    #[tactic(auto, unfolding(crate::specs::Meaning::compared))]
    pub(crate) fn truth(self, left: &Value<'_>, right: &Value<'_>) -> Truth
        ensures { result ≡ spec.compared self (spec.owned left.now) (spec.owned right.now) }
    {
        match (left, right) {
            (Value::Int(left), Value::Int(right)) => decide(self.holds_of(*left, *right)),
            (Value::Text(left), Value::Text(right)) => {
                self.truth_of_texts(left.bytes(), right.bytes())
            }
            _ => Truth::Unknown,
        }
    }
}

/// The truth of what is known to hold or not.
fn decide(holds: bool) -> Truth
    ensures { result ≡ decided holds }
{
    if holds { Truth::Yes } else { Truth::No }
}
