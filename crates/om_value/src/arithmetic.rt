//! What is computed of values: SQL-92, section 6.12. A number that passes 128 bits becomes the nearest
//! one that doesn't, so that no expression is without a value; typing refuses it.

ghost use Rattle.std.specs.Prelude.{◌≡◌, ◌≤◌, ◌<◌, pos};
ghost use Rattle.std.specs.Int.RustNames.{int_div};
ghost use Rattle.om_value.specs.Meaning as spec;

use crate::{ColumnId, RowView, Sign, Value, Width};

/// The cell of a row at a column, NULL past its 32 registers.
#[inline(always)]
pub(crate) fn cell_at<'a, V: RowView>(view: &'a V, column: ColumnId) -> Value<'a>
    ensures { spec.owned result ≡ spec.cell_at (V.answers view.now) column }
{
    if column.is_column() {
        view.cell(column)
    } else {
        Value::Null
    }
}

/// A value, with another one added to it or taken from it.
#[tactic(auto, unfolding(crate::specs::Meaning::summed))]
pub(crate) fn sum<'a>(left: &Value<'_>, sign: Sign, right: &Value<'_>) -> Value<'a>
    ensures { spec.owned result ≡ spec.summed spec.near sign (spec.owned left.now) (spec.owned right.now) }
{
    match (left, right) {
        (Value::Int(left), Value::Int(right)) => Value::Int(match sign {
            Sign::Plus => left.saturating_add(*right),
            Sign::Minus => left.saturating_sub(*right),
        }),
        _ => Value::Null,
    }
}

/// The product of two values.
#[tactic(auto, unfolding(crate::specs::Meaning::multiplied))]
pub(crate) fn product<'a>(left: &Value<'_>, right: &Value<'_>) -> Value<'a>
    ensures { spec.owned result ≡ spec.multiplied spec.near (spec.owned left.now) (spec.owned right.now) }
{
    match (left, right) {
        (Value::Int(left), Value::Int(right)) => Value::Int(left.saturating_mul(*right)),
        _ => Value::Null,
    }
}

/// The quotient of a number, rounded toward zero.
pub(crate) fn quotient_of(number: i128, divisor: u64) -> i128
    requires { 0 < divisor }
    ensures { result ≡ int_div number (pos divisor) }
{
    number / divisor as i128
}

/// The quotient by a number, rounded toward zero, and NULL by 0.
#[tactic(auto, unfolding(crate::specs::Meaning::divided))]
pub(crate) fn quotient<'a>(value: &Value<'_>, divisor: u64) -> Value<'a>
    ensures { spec.owned result ≡ spec.divided divisor (spec.owned value.now) }
{
    if divisor == 0 {
        return Value::Null;
    }
    match value {
        Value::Int(number) => Value::Int(quotient_of(*number, divisor)),
        Value::Text(_) => Value::Null,
        Value::Null => Value::Null,
    }
}

/// A value with a sign before it.
#[tactic(auto, unfolding(crate::specs::Meaning::with_sign))]
pub(crate) fn with_sign<'a>(sign: Sign, value: &Value<'_>) -> Value<'a>
    ensures { spec.owned result ≡ spec.with_sign spec.near sign (spec.owned value.now) }
{
    match value {
        Value::Int(number) => Value::Int(match sign {
            Sign::Plus => *number,
            Sign::Minus => 0i128.saturating_sub(*number),
        }),
        Value::Text(_) => Value::Null,
        Value::Null => Value::Null,
    }
}

/// The signed number that a word stands for.
#[tactic(auto, unfolding(crate::specs::Meaning::signed))]
pub(crate) fn signed<'a>(value: &Value<'_>) -> Value<'a>
    ensures { spec.owned result ≡ spec.signed (spec.owned value.now) }
{
    match value {
        Value::Int(number) => Value::Int(if *number < 1 << 31 {
            *number
        } else {
            *number - (1 << 32)
        }),
        Value::Text(_) => Value::Null,
        Value::Null => Value::Null,
    }
}

/// The bits of a number from `high` down to `low`.
fn bits_of(high: u8, low: u8, number: i128) -> i128
    requires ordered { low ≤ high }
    requires among { high < 64 }
    ensures { result ≡ spec.bits_of high low number }
{
    let quotient = number.div_euclid(1 << low);
    quotient.rem_euclid(1 << (high - low + 1))
}

/// The bits of a value from `high` down to `low`, and NULL where there are no such bits among 64.
#[tactic(auto, unfolding(crate::specs::Meaning::bits))]
pub(crate) fn bits<'a>(high: u8, low: u8, value: &Value<'_>) -> Value<'a>
    ensures { spec.owned result ≡ spec.bits high low (spec.owned value.now) }
{
    if high < low || 64 <= high {
        return Value::Null;
    }
    match value {
        Value::Int(number) => Value::Int(bits_of(high, low, *number)),
        Value::Text(_) => Value::Null,
        Value::Null => Value::Null,
    }
}

/// What stands in a row's memory at the address that a value gives, and NULL where it gives none.
#[tactic(auto, unfolding(crate::specs::Meaning::memory_at))]
pub(crate) fn memory_at<'a, V: RowView>(view: &'a V, width: Width, address: &Value<'_>) -> Value<'a>
    ensures { spec.owned result ≡ spec.memory_at (V.answers view.now) width (spec.owned address.now) }
{
    match address {
        Value::Int(address) => match u32::try_from(*address) {
            Ok(address) => view.mem(address, width),
            Err(_) => Value::Null,
        },
        Value::Text(_) => Value::Null,
        Value::Null => Value::Null,
    }
}
