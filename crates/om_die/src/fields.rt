//! Numbers and strings at the front of some bytes, each with the bytes behind it.

ghost use Rattle.std.specs.Prelude.{◌≡◌, drop};
ghost use Rattle.om_base.specs.Reading.{Gives};
ghost use Rattle.om_die.specs.Readers.{fixed, signed, text, unsigned, width_of};

use crate::attributes::Gap;
use om_base::{cstr_at, sleb, u8_at, u16_at, u32_at, u64_at, uleb};

/// How many bytes a number takes.
#[derive(Clone, Copy, Debug, PartialEq, Eq)]
pub enum Width {
    One,
    Two,
    Four,
    Eight,
}

/// The bytes from the place `at` on.
#[inline(always)]
fn behind(bytes: &[u8], at: usize) -> &[u8]
    ensures { result.now ≡ drop at bytes.now }
{
    bytes.get(at..).unwrap_or(&[])
}

/// The number in the first byte.
#[tactic(auto, unfolding(crate::specs::Readers::fixed), using(crate::proofs::FieldLemmas::number_gives))]
pub fn first_u8(bytes: &[u8]) -> Result<(u8, &[u8]), Gap>
    ensures { Gives (λ x. (x.0, x.1.now)) result (fixed 1 bytes.now) }
{
    let Ok(number) = u8_at(bytes, 0) else {
        return Err(Gap::Short);
    };
    Ok((number, behind(bytes, 1)))
}

/// The number in the first 2 bytes.
#[tactic(auto, unfolding(crate::specs::Readers::fixed), using(crate::proofs::FieldLemmas::number_gives))]
fn first_u16(bytes: &[u8]) -> Result<(u16, &[u8]), Gap>
    ensures { Gives (λ x. (x.0, x.1.now)) result (fixed 2 bytes.now) }
{
    let Ok(number) = u16_at(bytes, 0) else {
        return Err(Gap::Short);
    };
    Ok((number, behind(bytes, 2)))
}

/// The number in the first 4 bytes.
#[tactic(auto, unfolding(crate::specs::Readers::fixed), using(crate::proofs::FieldLemmas::number_gives))]
pub fn first_u32(bytes: &[u8]) -> Result<(u32, &[u8]), Gap>
    ensures { Gives (λ x. (x.0, x.1.now)) result (fixed 4 bytes.now) }
{
    let Ok(number) = u32_at(bytes, 0) else {
        return Err(Gap::Short);
    };
    Ok((number, behind(bytes, 4)))
}

/// The number in the first 8 bytes.
#[tactic(auto, unfolding(crate::specs::Readers::fixed), using(crate::proofs::FieldLemmas::number_gives))]
fn first_u64(bytes: &[u8]) -> Result<(u64, &[u8]), Gap>
    ensures { Gives (λ x. (x.0, x.1.now)) result (fixed 8 bytes.now) }
{
    let Ok(number) = u64_at(bytes, 0) else {
        return Err(Gap::Short);
    };
    Ok((number, behind(bytes, 8)))
}

/// The number in the first so many bytes.
pub fn first_number(bytes: &[u8], width: Width) -> Result<(u64, &[u8]), Gap>
    ensures { Gives (λ x. (x.0, x.1.now)) result (fixed (width_of width) bytes.now) }
{
    match width {
        Width::One => {
            let (number, rest) = first_u8(bytes)?;
            Ok((u64::from(number), rest))
        }
        Width::Two => {
            let (number, rest) = first_u16(bytes)?;
            Ok((u64::from(number), rest))
        }
        Width::Four => {
            let (number, rest) = first_u32(bytes)?;
            Ok((u64::from(number), rest))
        }
        Width::Eight => first_u64(bytes),
    }
}

/// The unsigned LEB128 number in front.
#[tactic(auto, unfolding(crate::specs::Readers::unsigned))]
pub fn first_uleb(bytes: &[u8]) -> Result<(u64, &[u8]), Gap>
    ensures { Gives (λ x. (x.0, x.1.now)) result (unsigned bytes.now) }
{
    let Ok((number, size)) = uleb(bytes, 0) else {
        return Err(Gap::Short);
    };
    Ok((number, &bytes[size..]))
}

/// The signed LEB128 number in front.
#[tactic(auto, unfolding(crate::specs::Readers::signed))]
pub fn first_sleb(bytes: &[u8]) -> Result<(i64, &[u8]), Gap>
    ensures { Gives (λ x. (x.0, x.1.now)) result (signed bytes.now) }
{
    let Ok((number, size)) = sleb(bytes, 0) else {
        return Err(Gap::Short);
    };
    Ok((number, &bytes[size..]))
}

/// The string in front, without the zero that ends it.
#[tactic(auto, unfolding(crate::specs::Readers::text))]
pub fn first_string(bytes: &[u8]) -> Result<(&[u8], &[u8]), Gap>
    ensures { Gives (λ x. (x.0.now, x.1.now)) result (text bytes.now) }
{
    let Ok(end) = cstr_at(bytes, 0) else {
        return Err(Gap::Form);
    };
    Ok((&bytes[..end], &bytes[end + 1..]))
}
