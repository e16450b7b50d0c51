//! What an operator makes of the kinds of its operands, or why it is refused. Nothing is told of a fault
//! inside an operand: whoever calls these looks at the operands first.

ghost use Rattle.std.specs.Prelude.{◌≡◌, pos};
ghost use Rattle.om_value.specs.Kinds as spec;

use crate::arithmetic::quotient_of;
use crate::{Kind, Sign, Width, Wrong};
use om_base::Interval;

/// The least number that an expression may have.
const LEAST: i128 = -(1 << 63);
/// The greatest number that an expression may have.
const GREATEST: i128 = (1 << 64) - 1;

/// Whether a number is one that an expression may have.
fn is_number(number: i128) -> bool
    ensures { result ≡ spec.is_number number }
{
    LEAST <= number && number <= GREATEST
}

/// The numbers from `low` to `high`, refused where an end is no number that an expression may have.
fn in_range(low: i128, high: i128) -> Result<Kind, Wrong>
    ensures { result ≡ spec.in_range low high }
{
    if is_number(low) && is_number(high) {
        Ok(Kind::Int(Interval { lo: low, hi: high }))
    } else {
        Err(Wrong::Range)
    }
}

/// Whether all numbers of an interval are words.
fn is_word(found: Interval) -> bool
    ensures { result ≡ spec.is_word found }
{
    let greatest = (1 << 32) - 1;
    0 <= found.lo && found.lo <= greatest && 0 <= found.hi && found.hi <= greatest
}

/// The kind of an unsigned number.
pub fn numeral_kind(number: u64) -> Kind
    ensures { result ≡ spec.numbers (pos number) (pos number) }
{
    let number = number as i128;
    Kind::Int(Interval {
        lo: number,
        hi: number,
    })
}

#[tactic(auto, using(crate::proofs::Ranges::near_range))]
fn sum_range(sign: Sign, left: Interval, right: Interval) -> Result<Kind, Wrong>
    ensures { result ≡ spec.sum_range sign left right }
{
    match sign {
        Sign::Plus => in_range(
            left.lo.saturating_add(right.lo),
            left.hi.saturating_add(right.hi),
        ),
        Sign::Minus => in_range(
            left.lo.saturating_sub(right.hi),
            left.hi.saturating_sub(right.lo),
        ),
    }
}

/// The kind of a sum or a difference.
#[tactic(auto, unfolding(crate::specs::Kinds::sum_kind))]
pub fn sum_kind(left: &Kind, sign: Sign, right: &Kind) -> Result<Kind, Wrong>
    ensures { result ≡ spec.sum_kind sign left.now right.now }
{
    match left {
        Kind::Int(left) => match right {
            Kind::Int(right) => sum_range(sign, *left, *right),
            Kind::Text => Err(Wrong::Clash),
            Kind::Null => Ok(Kind::Null),
        },
        Kind::Text => Err(Wrong::Clash),
        Kind::Null => match right {
            Kind::Int(_) => Ok(Kind::Null),
            Kind::Text => Err(Wrong::Clash),
            Kind::Null => Ok(Kind::Null),
        },
    }
}

/// The least of four numbers.
fn least_of(a: i128, b: i128, c: i128, d: i128) -> i128
    ensures { result ≡ spec.least_of a b c d }
{
    a.min(b).min(c.min(d))
}

/// The greatest of four numbers.
fn greatest_of(a: i128, b: i128, c: i128, d: i128) -> i128
    ensures { result ≡ spec.greatest_of a b c d }
{
    a.max(b).max(c.max(d))
}

fn product_range(left: Interval, right: Interval) -> Result<Kind, Wrong>
    ensures { result ≡ spec.product_range left right }
{
    // A product that passes 128 bits passes the range, too.
    let a = left.lo.saturating_mul(right.lo);
    let b = left.lo.saturating_mul(right.hi);
    let c = left.hi.saturating_mul(right.lo);
    let d = left.hi.saturating_mul(right.hi);
    in_range(least_of(a, b, c, d), greatest_of(a, b, c, d))
}

/// The kind of a product.
#[tactic(auto, unfolding(crate::specs::Kinds::product_kind))]
pub fn product_kind(left: &Kind, right: &Kind) -> Result<Kind, Wrong>
    ensures { result ≡ spec.product_kind left.now right.now }
{
    match left {
        Kind::Int(left) => match right {
            Kind::Int(right) => product_range(*left, *right),
            Kind::Text => Err(Wrong::Clash),
            Kind::Null => Ok(Kind::Null),
        },
        Kind::Text => Err(Wrong::Clash),
        Kind::Null => match right {
            Kind::Int(_) => Ok(Kind::Null),
            Kind::Text => Err(Wrong::Clash),
            Kind::Null => Ok(Kind::Null),
        },
    }
}

/// The kind of a quotient.
#[tactic(auto, unfolding(crate::specs::Kinds::quotient_kind))]
pub fn quotient_kind(left: &Kind, divisor: u64) -> Result<Kind, Wrong>
    ensures { result ≡ spec.quotient_kind divisor left.now }
{
    if let Kind::Text = left {
        return Err(Wrong::Clash);
    }
    if divisor == 0 {
        return Err(Wrong::Divisor);
    }
    match left {
        Kind::Int(found) => in_range(
            quotient_of(found.lo, divisor),
            quotient_of(found.hi, divisor),
        ),
        Kind::Text => Err(Wrong::Clash),
        Kind::Null => Ok(Kind::Null),
    }
}

/// The kind of an expression with a sign before it.
#[tactic(auto, using(crate::proofs::Ranges::near_range), unfolding(crate::specs::Kinds::sign_kind))]
pub fn sign_kind(sign: Sign, kind: &Kind) -> Result<Kind, Wrong>
    ensures { result ≡ spec.sign_kind sign kind.now }
{
    match kind {
        Kind::Int(found) => match sign {
            Sign::Plus => in_range(found.lo, found.hi),
            Sign::Minus => in_range(
                0i128.saturating_sub(found.hi),
                0i128.saturating_sub(found.lo),
            ),
        },
        Kind::Text => Err(Wrong::Clash),
        Kind::Null => Ok(Kind::Null),
    }
}

/// The kind of SIGNED.
#[tactic(auto, unfolding(crate::specs::Kinds::signed_kind))]
pub fn signed_kind(kind: &Kind) -> Result<Kind, Wrong>
    ensures { result ≡ spec.signed_kind kind.now }
{
    match kind {
        Kind::Int(found) => {
            if is_word(*found) {
                Ok(Kind::Int(Interval {
                    lo: -(1 << 31),
                    hi: (1 << 31) - 1,
                }))
            } else {
                Err(Wrong::Range)
            }
        }
        Kind::Text => Err(Wrong::Clash),
        Kind::Null => Ok(Kind::Null),
    }
}

/// The kind of BITS.
#[tactic(auto, unfolding(crate::specs::Kinds::bits_kind))]
pub fn bits_kind(high: u8, low: u8, kind: &Kind) -> Result<Kind, Wrong>
    ensures { result ≡ spec.bits_kind high low kind.now }
{
    if let Kind::Text = kind {
        return Err(Wrong::Clash);
    }
    if high < low || 64 <= high {
        return Err(Wrong::Range);
    }
    match kind {
        Kind::Int(found) => {
            if 0 <= found.lo {
                Ok(Kind::Int(Interval {
                    lo: 0,
                    hi: (1 << (high - low + 1)) - 1,
                }))
            } else {
                Err(Wrong::Range)
            }
        }
        Kind::Text => Err(Wrong::Clash),
        Kind::Null => Ok(Kind::Null),
    }
}

/// The numbers in memory of a width.
pub fn width_kind(width: Width) -> Kind
    ensures { result ≡ spec.width_kind width }
{
    let hi = match width {
        Width::Byte => (1 << 8) - 1,
        Width::Half => (1 << 16) - 1,
        Width::Word => (1 << 32) - 1,
    };
    Kind::Int(Interval { lo: 0, hi })
}

/// The kind of a memory form, by that of its address.
#[tactic(auto, unfolding(crate::specs::Kinds::memory_kind))]
pub fn memory_kind(width: Width, address: &Kind) -> Result<Kind, Wrong>
    ensures { result ≡ spec.memory_kind width address.now }
{
    match address {
        Kind::Int(found) => {
            if is_word(*found) {
                Ok(width_kind(width))
            } else {
                Err(Wrong::Range)
            }
        }
        Kind::Text => Err(Wrong::Clash),
        Kind::Null => Ok(Kind::Null),
    }
}

/// Whether two kinds may be compared.
#[tactic(auto, unfolding(crate::specs::Kinds::compare_kinds))]
pub fn compare_kinds(left: &Kind, right: &Kind) -> Result<(), Wrong>
    ensures { result ≡ spec.compare_kinds left.now right.now }
{
    match (left, right) {
        (Kind::Int(_), Kind::Text) => Err(Wrong::Clash),
        (Kind::Text, Kind::Int(_)) => Err(Wrong::Clash),
        _ => Ok(()),
    }
}
