//! LEB128, numbers of as many bytes as they need: DWARF 4, section 7.6.
//!
//! A number has seven bits in each byte, the lowest first, and bit 7 is set in each byte but the last.
//! Padding is allowed, up to ten bytes.

ghost use Rattle.std.specs.Prelude.{◌≡◌, ◌^◌, ◌<◌, ◌≤◌, length, drop, IfOk};
ghost use Rattle.std.specs.Result.{result_map_both};
ghost use Rattle.om_base.specs.Leb.{from_place, leb_of, sleb_of, uleb_of};
ghost use Rattle.om_base.specs.LebParts.{parts_of, signed_by, unsigned_by};

use crate::numbers::Num;

/// The most bytes of a number: those that 64 bits need, and no more padding than fills them.
const MOST_LEB_BYTES: usize = 10;

/// What the bytes of a number say, whether it has a sign or not.
#[derive(Clone, Copy)]
struct Leb {
    /// The number in the low seven bits of each byte.
    sum: u128,
    /// The number that a further bit would stand for.
    weight: u128,
    /// The last byte.
    last: u8,
    /// How many bytes there are.
    size: usize,
}

/// The number in front of `bytes`.
#[tactic(auto, unfolding(crate::specs::Leb::leb_of))]
fn leb_in(bytes: &[u8]) -> Result<Leb, Num>
    ensures parts { result ≡ result_map_both parts_of (λ fault. fault) (leb_of bytes.now) }
    ensures small { IfOk result (λ leb. (leb.sum < 2 ^ 70) × (leb.weight ≤ 2 ^ 70)) }
    ensures within { IfOk result (λ leb. (0 < leb.size) × (leb.size ≤ length bytes.now)) }
{
    let mut sum: u128 = 0;
    let mut weight: u128 = 1;
    for (read, byte) in bytes.iter().enumerate() {
        if read == MOST_LEB_BYTES {
            return Err(Num::LebLong);
        }
        sum += (*byte % 128) as u128 * weight;
        weight *= 128;
        if *byte < 128 {
            return Ok(Leb {
                sum,
                weight,
                last: *byte,
                size: read + 1,
            });
        }
    }
    if bytes.len() < MOST_LEB_BYTES {
        Err(Num::Short)
    } else {
        Err(Num::LebLong)
    }
}

impl Leb {
    /// The number, and how many bytes it has.
    fn unsigned(&self) -> Result<(u64, usize), Num>
        ensures value { result ≡ unsigned_by self.now }
        ensures size { IfOk result (λ read. read.1 ≡ self.now.size) }
    {
        if self.sum > u64::MAX as u128 {
            return Err(Num::LebLong);
        }
        Ok((self.sum as u64, self.size))
    }

    /// The number with its sign, and how many bytes it has.
    fn signed(&self) -> Result<(i64, usize), Num>
        requires sum { self.now.sum < 2 ^ 70 }
        requires weight { self.now.weight ≤ 2 ^ 70 }
        ensures value { result ≡ signed_by self.now }
        ensures size { IfOk result (λ read. read.1 ≡ self.now.size) }
    {
        let sum = self.sum as i128;
        let value = if self.last < 64 {
            sum
        } else {
            sum - self.weight as i128
        };
        if value < i64::MIN as i128 || value > i64::MAX as i128 {
            return Err(Num::LebLong);
        }
        Ok((value as i64, self.size))
    }
}

/// The unsigned number in front of `bytes`, and how many bytes it has.
#[inline(always)]
#[tactic(auto, unfolding(crate::specs::Leb::uleb_of))]
fn uleb_in(bytes: &[u8]) -> Result<(u64, usize), Num>
    ensures value { result ≡ uleb_of bytes.now }
    ensures within { IfOk result (λ read. (0 < read.1) × (read.1 ≤ length bytes.now)) }
{
    if let [byte, ..] = bytes {
        if *byte < 128 {
            return Ok((*byte as u64, 1));
        }
    }
    leb_in(bytes)?.unsigned()
}

/// The signed number in front of `bytes`, and how many bytes it has.
#[inline(always)]
#[tactic(auto, unfolding(crate::specs::Leb::sleb_of))]
fn sleb_in(bytes: &[u8]) -> Result<(i64, usize), Num>
    ensures value { result ≡ sleb_of bytes.now }
    ensures within { IfOk result (λ read. (0 < read.1) × (read.1 ≤ length bytes.now)) }
{
    if let [byte, ..] = bytes {
        if *byte < 64 {
            return Ok((*byte as i64, 1));
        }
    }
    leb_in(bytes)?.signed()
}

/// The bytes from `at` on.
fn from(bytes: &[u8], at: usize) -> &[u8]
    ensures { result.now ≡ drop at bytes.now }
{
    bytes.get(at..).unwrap_or(&[])
}

/// The unsigned number that begins at `at`, and the place after it.
///
/// [`Num::Short`] where the bytes end before a last byte within ten; [`Num::LebLong`] where ten bytes
/// have no last one, or the number is 2^64 or more.
pub fn uleb(bytes: &[u8], at: usize) -> Result<(u64, usize), Num>
    ensures value { result ≡ from_place at (uleb_of (drop at bytes.now)) }
    ensures within { IfOk result (λ read. (at < read.1) × (read.1 ≤ length bytes.now)) }
{
    let (value, size) = uleb_in(from(bytes, at))?;
    Ok((value, at + size))
}

/// The signed number that begins at `at`, and the place after it.
///
/// [`Num::Short`] where the bytes end before a last byte within ten; [`Num::LebLong`] where ten bytes
/// have no last one, or the number is below -2^63 or above 2^63 - 1.
pub fn sleb(bytes: &[u8], at: usize) -> Result<(i64, usize), Num>
    ensures value { result ≡ from_place at (sleb_of (drop at bytes.now)) }
    ensures within { IfOk result (λ read. (at < read.1) × (read.1 ≤ length bytes.now)) }
{
    let (value, size) = sleb_in(from(bytes, at))?;
    Ok((value, at + size))
}
