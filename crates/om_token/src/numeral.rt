//! The value of a numeral: decimal digits, or `0x` or `0X` and hexadecimal digits, below 2^64.

ghost use Rattle.std.specs.Prelude.{◌≡◌, ◌≤◌, ◌+◌, ◌*◌, ◌^◌, ◌&&◌, nat_lt, if◌then◌else◌};
ghost use Rattle.std.specs.Char.{is_digit, digit_value};
ghost use Rattle.om_token.specs.Numerals as spec;

/// The number whose digits are those of `value` and then `byte`, if `byte` is a digit and the number is
/// below 2^64.
fn with_digit(base: u32, value: u64, byte: u8) -> Option<u64>
    requires low { 2 ≤ base }
    requires high { base ≤ 16 }
    ensures { result ≡ (if is_digit byte base && nat_lt (value * base + digit_value byte) (2 ^ 64) then Some (value * base + digit_value byte) else None) }
{
    let digit = char::from(byte).to_digit(base)?;
    value
        .checked_mul(u64::from(base))?
        .checked_add(u64::from(digit))
}

/// The number that `digits` write in a base, if there are any, and nothing else, and it is below 2^64.
#[tactic(auto, using(crate::proofs::NumberLemmas::number_from_steps))]
fn number_in(base: u32, digits: &[u8]) -> Option<u64>
    requires low { 2 ≤ base }
    requires high { base ≤ 16 }
    ensures { result ≡ spec.number_in base digits.now }
{
    if digits.is_empty() {
        return None;
    }
    let mut value = 0u64;
    let mut rest = digits;
    while let Some((byte, others)) = rest.split_first() {
        value = with_digit(base, value, *byte)?;
        rest = others;
    }
    Some(value)
}

/// The value of the numeral that `word` spells, if it spells one.
#[tactic(auto, unfolding(crate::specs::Numerals::numeral_value))]
pub fn numeral_value(word: &[u8]) -> Option<u64>
    ensures { result ≡ spec.numeral_value word.now }
{
    match word {
        [b'0', b'x' | b'X', digits @ ..] => number_in(16, digits),
        _ => number_in(10, word),
    }
}
