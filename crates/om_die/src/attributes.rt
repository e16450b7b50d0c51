//! The attributes of an entry, read by its abbreviation: DWARF 4, section 7.5.2.

ghost use Rattle.std.specs.Prelude.{◌≡◌, ◌⊎◌, ◌++◌, List, ℕ, IfOk, IfErr};
ghost use Rattle.om_die.specs.Attributes.{AreAttributes, HasGap};

use crate::abbreviation::Specification;
use crate::attribute::Attr;
use crate::attribute_value::read_value;
use crate::context::Context;
use om_base::Items;
use std::alloc::Global;

/// Why an attribute isn't there.
#[derive(Clone, Copy, Debug, PartialEq, Eq)]
pub enum Gap {
    /// Its value isn't whole, or has a LEB128 number that is too long.
    Short,
    /// Its form isn't read, or its string has no end.
    Form,
}

/// Why no attributes are read.
#[derive(Clone, Copy, Debug, PartialEq, Eq)]
pub enum Lack {
    /// No memory was left.
    NoMemory,
    /// An attribute isn't there: the first that isn't.
    Gap(Gap),
}

/// The attributes of a `list` at the front of `bytes`, with the bytes behind them.
pub fn read_attributes<'a>(
    alloc: Global,
    context: &Context<'a>,
    list: &[Specification],
    bytes: &'a [u8],
) -> Result<(Items<Attr<'a>>, &'a [u8]), Lack>
    ensures read { IfOk result (λ read. (front : List ℕ) × (bytes.now ≡ front ++ read.1.now) × AreAttributes context.now list.now front read.0) }
    ensures lack { IfErr result (λ lack. (lack ≡ Lack.NoMemory) ⊎ ((why : Gap) × (lack ≡ Lack.Gap why) × HasGap context.now list.now bytes.now why)) }
{
    let Ok(mut attributes) = Vec::with_capacity(alloc, list.len()) else {
        return Err(Lack::NoMemory);
    };
    let mut rest = bytes;
    for specification in list {
        let (value, behind) = match read_value(context, specification.form, rest) {
            Ok(read) => read,
            Err(gap) => return Err(Lack::Gap(gap)),
        };
        let attribute = Attr {
            name: specification.name,
            value,
        };
        if attributes.push(attribute).is_err() {
            return Err(Lack::NoMemory);
        }
        rest = behind;
    }
    Ok((Items::from_vec(attributes), rest))
}
