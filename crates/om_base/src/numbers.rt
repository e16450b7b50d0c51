//! Fixed-width numbers in a file, all of them little-endian.

ghost use Rattle.std.specs.Prelude.{◌≡◌, ok_or};
ghost use Rattle.std.specs.Result.{result_map_both};
ghost use Rattle.om_base.specs.Numbers.{bytes_at, half, number_at, word};

use byteorder::{ByteOrder, LittleEndian};

/// Why no number could be read.
#[derive(Clone, Copy, Debug, PartialEq, Eq)]
pub enum Num {
    /// Too few bytes stand at the place: a number of a fixed width or a LEB128 number breaks off.
    Short,
    /// A LEB128 number has no last byte within ten, or is none of 64 bits.
    LebLong,
    /// No zero byte ends the text at the place.
    NoNul,
}

/// The `count` bytes that begin at `at`.
fn field(bytes: &[u8], at: usize, count: usize) -> Result<&[u8], Num>
    ensures { result_map_both (λ part. part.now) (λ fault. fault) result ≡ ok_or (bytes_at count bytes.now at) Num.Short }
{
    let rest = bytes.get(at..).ok_or(Num::Short)?;
    if rest.len() < count {
        return Err(Num::Short);
    }
    Ok(&rest[..count])
}

/// The byte at `at`.
#[tactic(auto, unfolding(crate::specs::Numbers::le, crate::specs::Numbers::number_at))]
pub fn u8_at(bytes: &[u8], at: usize) -> Result<u8, Num>
    ensures { result ≡ ok_or (number_at 1 bytes.now at) Num.Short }
{
    Ok(field(bytes, at, 1)?[0])
}

/// The number in the 2 bytes that begin at `at`.
#[tactic(auto, unfolding(crate::specs::Numbers::le, crate::specs::Numbers::number_at))]
pub fn u16_at(bytes: &[u8], at: usize) -> Result<u16, Num>
    ensures { result ≡ ok_or (number_at 2 bytes.now at) Num.Short }
{
    Ok(LittleEndian::read_u16(field(bytes, at, 2)?))
}

/// The number in the 4 bytes that begin at `at`.
#[tactic(auto, unfolding(crate::specs::Numbers::le, crate::specs::Numbers::number_at))]
pub fn u32_at(bytes: &[u8], at: usize) -> Result<u32, Num>
    ensures { result ≡ ok_or (number_at 4 bytes.now at) Num.Short }
{
    Ok(LittleEndian::read_u32(field(bytes, at, 4)?))
}

/// The number in the 8 bytes that begin at `at`.
#[tactic(auto, unfolding(crate::specs::Numbers::le, crate::specs::Numbers::number_at))]
pub fn u64_at(bytes: &[u8], at: usize) -> Result<u64, Num>
    ensures { result ≡ ok_or (number_at 8 bytes.now at) Num.Short }
{
    Ok(LittleEndian::read_u64(field(bytes, at, 8)?))
}

/// The number of two bytes at `at`, 0 where the bytes end before.
pub fn half_at(bytes: &[u8], at: usize) -> u16
    ensures { result ≡ half bytes.now at }
{
    u16_at(bytes, at).unwrap_or(0)
}

/// The number of four bytes at `at`, 0 where the bytes end before.
pub fn word_at(bytes: &[u8], at: usize) -> u32
    ensures { result ≡ word bytes.now at }
{
    u32_at(bytes, at).unwrap_or(0)
}
