//! The declarations of an abbreviation table, one by one: DWARF 4, section 7.5.3.

ghost use Rattle.std.specs.Prelude.{◌≡◌, IfOk};
ghost use Rattle.std.specs.Option.{option_map};
ghost use Rattle.om_base.specs.Reading.{Gives};
ghost use Rattle.om_die.specs.Abbreviations.{AreSpecifications, IsEntry};
ghost use Rattle.om_die.specs.Declarations.{IsFront, head_in, pair_in};
ghost use Rattle.om_die.specs.Forms.{capped};

use crate::abbreviation::{Abbreviation, Specification};
use crate::attribute_form::Form;
use crate::attributes::Gap;
use crate::fields::{first_u8, first_uleb};
use om_base::{Items, NoMemory};
use std::alloc::Global;

/// What stands in front of the attributes of a declaration.
#[derive(Clone, Copy, Debug)]
pub struct Head {
    pub code: u64,
    /// `DW_TAG_..`; a greater tag than 2^32 - 1 counts as that.
    pub tag: u32,
    pub has_children: bool,
}

/// The number, or 2^32 - 1 where it is greater.
fn saturated(number: u64) -> u32
    ensures { result ≡ capped number }
{
    u32::try_from(number).unwrap_or(u32::MAX)
}

/// The code, the tag and the byte for children.
#[tactic(auto, unfolding(crate::specs::Declarations::head_in))]
fn first_head(bytes: &[u8]) -> Result<(Head, &[u8]), Gap>
    ensures { Gives (λ x. (x.0, x.1.now)) result (head_in bytes.now) }
{
    let (code, rest) = first_uleb(bytes)?;
    let (tag, rest) = first_uleb(rest)?;
    let (children, rest) = first_u8(rest)?;
    let head = Head {
        code,
        tag: saturated(tag),
        has_children: children != 0,
    };
    Ok((head, rest))
}

/// The name of an attribute and the code of its form.
#[tactic(auto, unfolding(crate::specs::Declarations::pair_in))]
fn first_pair(bytes: &[u8]) -> Result<((u64, u64), &[u8]), Gap>
    ensures { Gives (λ x. (x.0, x.1.now)) result (pair_in bytes.now) }
{
    let (name, rest) = first_uleb(bytes)?;
    let (form, rest) = first_uleb(rest)?;
    Ok(((name, form), rest))
}

/// The attributes up to the pair of zeros; none where no such pair stands behind them.
fn first_specifications(
    alloc: Global,
    bytes: &[u8],
) -> Result<Option<(Items<Specification>, &[u8])>, NoMemory>
    ensures { IfOk result (λ found. IsFront AreSpecifications bytes.now (option_map (λ x. (x.0, x.1.now)) found)) }
{
    let mut list = Items::new(alloc);
    let mut rest = bytes;
    while let Ok(((name, form), behind)) = first_pair(rest) {
        rest = behind;
        if name == 0 && form == 0 {
            return Ok(Some((list, rest)));
        }
        list.push(Specification {
            name: saturated(name),
            form: Form::of(form),
        })?;
    }
    Ok(None)
}

/// The code and the abbreviation in front, with the bytes behind them; none at the code 0, and where
/// a declaration breaks off.
pub fn first_declaration(
    alloc: Global,
    bytes: &[u8],
) -> Result<Option<(u64, Abbreviation, &[u8])>, NoMemory>
    ensures { IfOk result (λ found. IsFront IsEntry bytes.now (option_map (λ x. (record { code = x.0; abbreviation = x.1 }, x.2.now)) found)) }
{
    let Ok((head, rest)) = first_head(bytes) else {
        return Ok(None);
    };
    if head.code == 0 {
        return Ok(None);
    }
    let Some((attributes, rest)) = first_specifications(alloc, rest)? else {
        return Ok(None);
    };
    let abbreviation = Abbreviation {
        tag: head.tag,
        has_children: head.has_children,
        attributes,
    };
    Ok(Some((head.code, abbreviation, rest)))
}
