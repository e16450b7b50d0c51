//! Numbers, texts and blocks at the front of some bytes, each with the bytes behind it.

ghost use Rattle.std.specs.Prelude.{◌≡◌, drop};
ghost use Rattle.om_base.specs.Reading.{Gives};
ghost use Rattle.om_cfi.specs.Fields.{block, fixed, signed, skip_of, text, unsigned};

use om_base::{cstr_at, sleb, u8_at, u16_at, u32_at, uleb};

/// The bytes break off, or a LEB128 number has more than ten bytes or more than 64 bits.
#[derive(Clone, Copy, Debug, PartialEq, Eq)]
pub struct Short;

/// The bytes from the place `at` on.
pub fn behind(bytes: &[u8], at: usize) -> &[u8]
    ensures { result.now ≡ drop at bytes.now }
{
    bytes.get(at..).unwrap_or(&[])
}

/// The number in the first byte.
#[tactic(auto, unfolding(crate::specs::Fields::fixed), using(crate::proofs::FieldLemmas::number_gives))]
pub fn first_u8(bytes: &[u8]) -> Result<(u8, &[u8]), Short>
    ensures { Gives (λ x. (x.0, x.1.now)) result (fixed 1 bytes.now) }
{
    let Ok(number) = u8_at(bytes, 0) else {
        return Err(Short);
    };
    Ok((number, behind(bytes, 1)))
}

/// The number in the first 2 bytes.
#[tactic(auto, unfolding(crate::specs::Fields::fixed), using(crate::proofs::FieldLemmas::number_gives))]
pub fn first_u16(bytes: &[u8]) -> Result<(u16, &[u8]), Short>
    ensures { Gives (λ x. (x.0, x.1.now)) result (fixed 2 bytes.now) }
{
    let Ok(number) = u16_at(bytes, 0) else {
        return Err(Short);
    };
    Ok((number, behind(bytes, 2)))
}

/// The number in the first 4 bytes.
#[tactic(auto, unfolding(crate::specs::Fields::fixed), using(crate::proofs::FieldLemmas::number_gives))]
pub fn first_u32(bytes: &[u8]) -> Result<(u32, &[u8]), Short>
    ensures { Gives (λ x. (x.0, x.1.now)) result (fixed 4 bytes.now) }
{
    let Ok(number) = u32_at(bytes, 0) else {
        return Err(Short);
    };
    Ok((number, behind(bytes, 4)))
}

/// The unsigned LEB128 number in front.
#[tactic(auto, unfolding(crate::specs::Fields::unsigned))]
pub fn first_uleb(bytes: &[u8]) -> Result<(u64, &[u8]), Short>
    ensures { Gives (λ x. (x.0, x.1.now)) result (unsigned bytes.now) }
{
    let Ok((number, size)) = uleb(bytes, 0) else {
        return Err(Short);
    };
    Ok((number, &bytes[size..]))
}

/// The signed LEB128 number in front.
#[tactic(auto, unfolding(crate::specs::Fields::signed))]
pub fn first_sleb(bytes: &[u8]) -> Result<(i64, &[u8]), Short>
    ensures { Gives (λ x. (x.0, x.1.now)) result (signed bytes.now) }
{
    let Ok((number, size)) = sleb(bytes, 0) else {
        return Err(Short);
    };
    Ok((number, &bytes[size..]))
}

/// The string in front, without the zero that ends it.
#[tactic(auto, unfolding(crate::specs::Fields::text))]
pub fn first_string(bytes: &[u8]) -> Result<(&[u8], &[u8]), Short>
    ensures { Gives (λ x. (x.0.now, x.1.now)) result (text bytes.now) }
{
    let Ok(end) = cstr_at(bytes, 0) else {
        return Err(Short);
    };
    Ok((&bytes[..end], &bytes[end + 1..]))
}

/// The bytes behind so many.
#[tactic(auto, unfolding(crate::specs::Fields::skip_of))]
fn skip(size: u64, bytes: &[u8]) -> Result<(u64, &[u8]), Short>
    ensures { Gives (λ x. (x.0, x.1.now)) result (skip_of size bytes.now) }
{
    if size > bytes.len() as u64 {
        return Err(Short);
    }
    Ok((size, &bytes[size as usize..]))
}

/// The size of the block in front.
#[tactic(auto, unfolding(crate::specs::Fields::block))]
pub fn first_block(bytes: &[u8]) -> Result<(u64, &[u8]), Short>
    ensures { Gives (λ x. (x.0, x.1.now)) result (block bytes.now) }
{
    let (size, rest) = first_uleb(bytes)?;
    skip(size, rest)
}
