//! The truth of BETWEEN, IS NULL and NOT: SQL-92, sections 8.3, 8.6 and 8.12.

ghost use Rattle.std.specs.Prelude.{◌≡◌};
ghost use Rattle.om_value.specs.Meaning as spec;

use crate::{Compare, Polarity, Truth, Value};

/// The truth of BETWEEN.
#[tactic(auto, unfolding(crate::specs::Meaning::between))]
pub(crate) fn between(what: &Value<'_>, low: &Value<'_>, high: &Value<'_>) -> Truth
    ensures { result ≡ spec.between (spec.owned what.now) (spec.owned low.now) (spec.owned high.now) }
{
    both(
        Compare::GreaterEqual.truth(what, low),
        Compare::LessEqual.truth(what, high),
    )
}

/// The truth of the AND of two.
fn both(left: Truth, right: Truth) -> Truth
    ensures { result ≡ spec.both left right }
{
    match left {
        Truth::No => Truth::No,
        Truth::Yes => right,
        Truth::Unknown => match right {
            Truth::No => Truth::No,
            Truth::Yes => Truth::Unknown,
            Truth::Unknown => Truth::Unknown,
        },
    }
}

/// The truth of IS NULL.
pub(crate) fn is_null(value: &Value<'_>) -> Truth
    ensures { result ≡ spec.is_null (spec.owned value.now) }
{
    match value {
        Value::Int(_) => Truth::No,
        Value::Text(_) => Truth::No,
        Value::Null => Truth::Yes,
    }
}

/// The truth of NOT.
pub(crate) fn negated(truth: Truth) -> Truth
    ensures { result ≡ spec.negated truth }
{
    match truth {
        Truth::Yes => Truth::No,
        Truth::No => Truth::Yes,
        Truth::Unknown => Truth::Unknown,
    }
}

/// The truth of a test that is asked so.
pub(crate) fn with_polarity(polarity: Polarity, truth: Truth) -> Truth
    ensures { result ≡ spec.with_polarity polarity truth }
{
    match polarity {
        Polarity::Plain => truth,
        Polarity::Negated => negated(truth),
    }
}
