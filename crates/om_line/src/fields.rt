//! Numbers and strings at the front of some bytes, each with the bytes behind it.

ghost use Rattle.std.specs.Prelude.{◌≡◌, drop};
ghost use Rattle.om_base.specs.Reading.{Gives};
ghost use Rattle.om_line.specs.Fields.{behind_numbers, fixed, signed, text, unsigned};

use om_base::{cstr_at, sleb, u8_at, u16_at, u32_at, uleb};

/// The bytes break off, or a LEB128 number has more than ten bytes or more than 64 bits.
#[derive(Clone, Copy, Debug, PartialEq, Eq)]
pub struct Broken;

/// The bytes from the place `at` on.
#[inline(always)]
fn behind(bytes: &[u8], at: usize) -> &[u8]
    ensures { result.now ≡ drop at bytes.now }
{
    bytes.get(at..).unwrap_or(&[])
}

/// The number in the first byte.
#[tactic(auto, unfolding(crate::specs::Fields::fixed), using(crate::proofs::FieldLemmas::number_gives))]
pub fn first_u8(bytes: &[u8]) -> Result<(u8, &[u8]), Broken>
    ensures { Gives (λ x. (x.0, x.1.now)) result (fixed 1 bytes.now) }
{
    let Ok(number) = u8_at(bytes, 0) else {
        return Err(Broken);
    };
    Ok((number, behind(bytes, 1)))
}

/// The number in the first 2 bytes.
#[tactic(auto, unfolding(crate::specs::Fields::fixed), using(crate::proofs::FieldLemmas::number_gives))]
pub fn first_u16(bytes: &[u8]) -> Result<(u16, &[u8]), Broken>
    ensures { Gives (λ x. (x.0, x.1.now)) result (fixed 2 bytes.now) }
{
    let Ok(number) = u16_at(bytes, 0) else {
        return Err(Broken);
    };
    Ok((number, behind(bytes, 2)))
}

/// The number in the first 4 bytes.
#[tactic(auto, unfolding(crate::specs::Fields::fixed), using(crate::proofs::FieldLemmas::number_gives))]
pub fn first_u32(bytes: &[u8]) -> Result<(u32, &[u8]), Broken>
    ensures { Gives (λ x. (x.0, x.1.now)) result (fixed 4 bytes.now) }
{
    let Ok(number) = u32_at(bytes, 0) else {
        return Err(Broken);
    };
    Ok((number, behind(bytes, 4)))
}

/// The unsigned LEB128 number in front.
#[tactic(auto, unfolding(crate::specs::Fields::unsigned))]
pub fn first_uleb(bytes: &[u8]) -> Result<(u64, &[u8]), Broken>
    ensures { Gives (λ x. (x.0, x.1.now)) result (unsigned bytes.now) }
{
    let Ok((number, size)) = uleb(bytes, 0) else {
        return Err(Broken);
    };
    Ok((number, &bytes[size..]))
}

/// The signed LEB128 number in front.
#[tactic(auto, unfolding(crate::specs::Fields::signed))]
pub fn first_sleb(bytes: &[u8]) -> Result<(i64, &[u8]), Broken>
    ensures { Gives (λ x. (x.0, x.1.now)) result (signed bytes.now) }
{
    let Ok((number, size)) = sleb(bytes, 0) else {
        return Err(Broken);
    };
    Ok((number, &bytes[size..]))
}

/// The string in front, without the zero that ends it.
#[tactic(auto, unfolding(crate::specs::Fields::text))]
pub fn first_string(bytes: &[u8]) -> Result<(&[u8], &[u8]), Broken>
    ensures { Gives (λ x. (x.0.now, x.1.now)) result (text bytes.now) }
{
    let Ok(end) = cstr_at(bytes, 0) else {
        return Err(Broken);
    };
    Ok((&bytes[..end], &bytes[end + 1..]))
}

/// The bytes behind so many unsigned LEB128 numbers.
pub fn behind_numbers(count: u8, bytes: &[u8]) -> Result<&[u8], Broken>
    ensures { Gives (λ x. x.now) result (behind_numbers count bytes.now) }
{
    let mut rest = bytes;
    for _number in 0..count {
        let (_, behind) = first_uleb(rest)?;
        rest = behind;
    }
    Ok(rest)
}
