//! The head of a unit: DWARF 4, section 7.5.1.1 and section 7.4.

ghost use Rattle.std.specs.Prelude.{◌≡◌};
ghost use Rattle.om_die.specs.Units as spec;

use crate::fault::DieFault;
use om_base::{u8_at, u16_at, u32_at};

/// How many bytes the length, the version, the offset of the abbreviations and the size of an address
/// have in all.
pub const HEAD_SIZE: usize = 11;

/// The least length that marks DWARF's 64-bit format or is reserved.
const LEAST_RESERVED_LENGTH: u32 = 0xffff_fff0;

/// How many bytes of the unit in front of `bytes` stand behind its length.
pub fn unit_length(bytes: &[u8]) -> u32
    ensures { result ≡ spec.unit_length bytes.now }
{
    match u32_at(bytes, 0) {
        Ok(length) => length,
        Err(_) => 0,
    }
}

/// The version of the unit in front of `bytes`.
pub fn version(bytes: &[u8]) -> u16
    ensures { result ≡ spec.version bytes.now }
{
    match u16_at(bytes, 4) {
        Ok(version) => version,
        Err(_) => 0,
    }
}

/// Where the abbreviations of the unit in front of `bytes` begin in `.debug_abbrev`.
pub fn debug_abbrev_offset(bytes: &[u8]) -> u32
    ensures { result ≡ spec.debug_abbrev_offset bytes.now }
{
    match u32_at(bytes, 6) {
        Ok(offset) => offset,
        Err(_) => 0,
    }
}

/// How many bytes an address has in the unit in front of `bytes`.
fn address_size(bytes: &[u8]) -> u8
    ensures { result ≡ spec.address_size bytes.now }
{
    match u8_at(bytes, 10) {
        Ok(size) => size,
        Err(_) => 0,
    }
}

/// Whether the unit in front of `bytes` is of a version that is read.
pub fn is_read(bytes: &[u8]) -> bool
    ensures { result ≡ spec.is_read bytes.now }
{
    let version = version(bytes);
    2 <= version && version <= 4
}

/// Why the unit that begins at `at`, in front of `bytes`, has no lawful head. Where it has one, the
/// whole unit is there.
#[tactic(auto, unfolding(crate::specs::Units::head_fault))]
pub fn head_fault(at: u32, bytes: &[u8]) -> Option<DieFault>
    ensures { result ≡ spec.head_fault at bytes.now }
{
    if bytes.len() < 4 {
        return Some(DieFault::Short { at });
    }
    let length = unit_length(bytes);
    if length >= LEAST_RESERVED_LENGTH {
        return Some(DieFault::Form { at });
    }
    if bytes.len() < 4 + length as usize || length < 2 {
        return Some(DieFault::Short { at });
    }
    if !is_read(bytes) {
        return None;
    }
    if length < 7 {
        return Some(DieFault::Short { at });
    }
    if address_size(bytes) != 4 {
        return Some(DieFault::Form { at });
    }
    None
}
