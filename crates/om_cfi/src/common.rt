//! Common information entries: DWARF 4, section 6.4.1.

ghost use Rattle.std.specs.Prelude.{◌≡◌};
ghost use Rattle.om_base.specs.Reading.{Gives};
ghost use Rattle.om_cfi.specs.Common as spec;

use crate::decoding::item_in;
use crate::fields::{Short, first_sleb, first_string, first_u8, first_uleb};
use crate::instruction::Item;
use crate::rule::Factors;
use om_base::Name;

/// A common information entry (CIE): what some frame description entries have in common.
#[derive(Debug, Drop)]
pub enum CommonEntry<'a> {
    /// They have no rule, and hold no address.
    Ruleless,
    /// What their instructions count by, and the instructions before theirs.
    Ruled(Factors, Name<'a>),
}

/// Whether operands break off.
fn breaks(item: Item) -> bool
    ensures { result ≡ spec.breaks item }
{
    match item {
        Item::Known(_) => false,
        Item::Unknown => false,
        Item::Broken => true,
    }
}

/// Whether the operands of an instruction break off.
pub fn is_broken(bytes: &[u8]) -> bool
    ensures { result ≡ spec.is_broken bytes.now }
{
    let mut left = bytes;
    while let Some((opcode, rest)) = left.split_first() {
        let (item, rest) = item_in(*opcode, rest);
        if breaks(item) {
            return true;
        }
        left = rest;
    }
    false
}

/// The return address register, which counts for nothing.
fn return_register(version: u8, bytes: &[u8]) -> Result<(u64, &[u8]), Short>
    ensures { Gives (λ x. (x.0, x.1.now)) result (spec.return_register version bytes.now) }
{
    if version == 1 {
        let (register, rest) = first_u8(bytes)?;
        return Ok((u64::from(register), rest));
    }
    first_uleb(bytes)
}

/// The entry, by the bytes from the code alignment factor on.
#[tactic(auto, unfolding(crate::specs::Common::numbers_in))]
fn numbers_in<'a>(version: u8, bytes: &'a [u8]) -> Result<CommonEntry<'a>, Short>
    ensures { result ≡ spec.numbers_in version bytes.now }
{
    let (code_alignment, rest) = first_uleb(bytes)?;
    let (data_alignment, rest) = first_sleb(rest)?;
    let (_register, rest) = return_register(version, rest)?;
    if is_broken(rest) {
        return Err(Short);
    }
    Ok(CommonEntry::Ruled(
        Factors {
            code_alignment,
            data_alignment,
        },
        Name::of(rest),
    ))
}

/// The entry, by the bytes behind the augmentation.
#[tactic(auto, unfolding(crate::specs::Common::sizes_in))]
fn sizes_in<'a>(version: u8, bytes: &'a [u8]) -> Result<CommonEntry<'a>, Short>
    ensures { result ≡ spec.sizes_in version bytes.now }
{
    if version != 4 {
        return numbers_in(version, bytes);
    }
    let (size, rest) = first_u8(bytes)?;
    if size != 4 {
        return Ok(CommonEntry::Ruleless);
    }
    let (segment, rest) = first_u8(rest)?;
    if segment != 0 {
        return Ok(CommonEntry::Ruleless);
    }
    numbers_in(version, rest)
}

/// The entry, by the bytes behind its id. Nothing is looked at behind the field that shows that it gives no
/// rule.
#[tactic(auto, unfolding(crate::specs::Common::common_entry_in))]
pub fn common_entry_in<'a>(bytes: &'a [u8]) -> Result<CommonEntry<'a>, Short>
    ensures { result ≡ spec.common_entry_in bytes.now }
{
    let (version, rest) = first_u8(bytes)?;
    if version != 1 && version != 3 && version != 4 {
        return Ok(CommonEntry::Ruleless);
    }
    let (augmentation, rest) = first_string(rest)?;
    if !augmentation.is_empty() {
        return Ok(CommonEntry::Ruleless);
    }
    sizes_in(version, rest)
}
