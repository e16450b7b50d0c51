//! Fields that are read from the front of some bytes, each with the bytes after it.

ghost use Rattle.om_log.specs.Fields.{Reads, number, some_bytes};
ghost use Rattle.om_log.specs.EntryFields.{chunk_field};

use crate::write::Write;
use byteorder::{ByteOrder, LittleEndian};

/// The first `count` bytes.
#[tactic(auto, unfolding(crate::specs::Fields::some_bytes))]
fn bytes_of(bytes: &[u8], count: usize) -> Option<(&[u8], &[u8])>
    ensures { Reads (λ x. (x.0.now, x.1.now)) result (some_bytes count bytes.now) }
{
    if bytes.len() < count {
        return None;
    }
    Some(bytes.split_at(count))
}

/// The byte in front.
#[tactic(auto, unfolding(crate::specs::Fields::number, om_base::specs::Numbers::le))]
pub fn u8_of(bytes: &[u8]) -> Option<(u8, &[u8])>
    ensures { Reads (λ x. (x.0, x.1.now)) result (number 1 bytes.now) }
{
    if bytes.is_empty() {
        return None;
    }
    let (field, rest) = bytes.split_at(1);
    Some((field[0], rest))
}

/// The number in the first 4 bytes.
#[tactic(auto, unfolding(crate::specs::Fields::number, om_base::specs::Numbers::le))]
pub fn u32_of(bytes: &[u8]) -> Option<(u32, &[u8])>
    ensures { Reads (λ x. (x.0, x.1.now)) result (number 4 bytes.now) }
{
    if bytes.len() < 4 {
        return None;
    }
    let (field, rest) = bytes.split_at(4);
    Some((LittleEndian::read_u32(field), rest))
}

/// The number in the first 8 bytes.
#[tactic(auto, unfolding(crate::specs::Fields::number, om_base::specs::Numbers::le))]
pub fn u64_of(bytes: &[u8]) -> Option<(u64, &[u8])>
    ensures { Reads (λ x. (x.0, x.1.now)) result (number 8 bytes.now) }
{
    if bytes.len() < 8 {
        return None;
    }
    let (field, rest) = bytes.split_at(8);
    Some((LittleEndian::read_u64(field), rest))
}

/// An address, a length and so many bytes.
#[tactic(auto, unfolding(crate::specs::EntryFields::chunk_field))]
pub fn chunk_of(bytes: &[u8]) -> Option<(Write<'_>, &[u8])>
    ensures { Reads (λ x. (x.0, x.1.now)) result (chunk_field bytes.now) }
{
    let (addr, rest) = u32_of(bytes)?;
    let (length, rest) = u32_of(rest)?;
    let (bytes, rest) = bytes_of(rest, length as usize)?;
    Some((Write { addr, bytes }, rest))
}
