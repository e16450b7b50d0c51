//! Values of attributes: DWARF 4, section 7.5.4.

ghost use Rattle.std.specs.Prelude.{◌≡◌, ◌+◌};
ghost use Rattle.om_base.specs.Reading.{Gives};
ghost use Rattle.om_die.specs.Forms.{capped};
ghost use Rattle.om_die.specs.Readers.{block_of, plain_in, plain_of, text_at, value_in};
ghost use Rattle.om_die.specs.Shown.{value_of};
ghost use Rattle.om_die.specs.AttributeValue as v;

use crate::attribute::AttrValue;
use crate::attribute_form::Form;
use crate::attributes::Gap;
use crate::context::Context;
use crate::fields::{
    Width, first_number, first_sleb, first_string, first_u8, first_u32, first_uleb,
};
use om_base::Name;

/// The value of this form at the front of `bytes`, and the bytes behind it. Takes no memory.
#[tactic(auto, unfolding(crate::specs::Readers::value_in))]
pub fn read_value<'a>(
    context: &Context<'a>,
    form: Option<Form>,
    bytes: &'a [u8],
) -> Result<(AttrValue<'a>, &'a [u8]), Gap>
    ensures { Gives (λ x. (value_of x.0, x.1.now)) result (value_in context.now form bytes.now) }
{
    match form {
        Some(Form::Indirect) => {
            let (code, rest) = first_uleb(bytes)?;
            plain_value(context, Form::of(code), rest)
        }
        _ => plain_value(context, form, bytes),
    }
}

/// A value of a form that may not be indirect.
#[tactic(auto, unfolding(crate::specs::Readers::plain_of))]
fn plain_value<'a>(
    context: &Context<'a>,
    form: Option<Form>,
    bytes: &'a [u8],
) -> Result<(AttrValue<'a>, &'a [u8]), Gap>
    ensures { Gives (λ x. (value_of x.0, x.1.now)) result (plain_of context.now form bytes.now) }
{
    match form {
        Some(form) => value_in_form(context, form, bytes),
        None => Err(Gap::Form),
    }
}

/// What a field is read as: a value of it, and the bytes behind it.
macro_rules! value {
    ($field:ident in $reads:expr => $value:expr) => {{
        let ($field, rest) = $reads?;
        Ok(($value, rest))
    }};
}

/// A value of a form that isn't indirect.
#[tactic(auto, unfolding(crate::specs::Readers::plain_in))]
fn value_in_form<'a>(
    context: &Context<'a>,
    form: Form,
    bytes: &'a [u8],
) -> Result<(AttrValue<'a>, &'a [u8]), Gap>
    ensures { Gives (λ x. (value_of x.0, x.1.now)) result (plain_in context.now form bytes.now) }
{
    match form {
        Form::Addr => value!(address in first_u32(bytes) => AttrValue::Addr(address)),
        Form::Block1 => block(first_number(bytes, Width::One)?),
        Form::Block2 => block(first_number(bytes, Width::Two)?),
        Form::Block4 => block(first_number(bytes, Width::Four)?),
        Form::Block | Form::Exprloc => block(first_uleb(bytes)?),
        Form::Data1 => value!(n in first_number(bytes, Width::One) => AttrValue::Number(n)),
        Form::Data2 => value!(n in first_number(bytes, Width::Two) => AttrValue::Number(n)),
        Form::Data4 => value!(n in first_number(bytes, Width::Four) => AttrValue::Number(n)),
        Form::Data8 => value!(n in first_number(bytes, Width::Eight) => AttrValue::Number(n)),
        Form::Udata => value!(n in first_uleb(bytes) => AttrValue::Number(n)),
        Form::Sdata => value!(n in first_sleb(bytes) => AttrValue::Signed(n)),
        Form::String => value!(text in first_string(bytes) => AttrValue::Text(Name::of(text))),
        Form::Strp => string_at(context, first_u32(bytes)?),
        Form::Flag => value!(n in first_u8(bytes) => AttrValue::Flag(n != 0)),
        Form::FlagPresent => Ok((AttrValue::Flag(true), bytes)),
        Form::SecOffset => value!(offset in first_u32(bytes) => AttrValue::Offset(offset)),
        Form::RefAddr => value!(offset in first_u32(bytes) => AttrValue::Target(offset)),
        Form::Ref1 => value!(n in first_number(bytes, Width::One) => target(context, n)),
        Form::Ref2 => value!(n in first_number(bytes, Width::Two) => target(context, n)),
        Form::Ref4 => value!(n in first_number(bytes, Width::Four) => target(context, n)),
        Form::Ref8 => value!(n in first_number(bytes, Width::Eight) => target(context, n)),
        Form::RefUdata => value!(n in first_uleb(bytes) => target(context, n)),
        Form::RefSig8 => value!(_n in first_number(bytes, Width::Eight) => AttrValue::Elsewhere),
        Form::Indirect => Err(Gap::Form),
    }
}

/// A block, from its size and the bytes behind that.
#[tactic(auto, unfolding(crate::specs::Readers::block_of))]
fn block<'a>(sized: (u64, &'a [u8])) -> Result<(AttrValue<'a>, &'a [u8]), Gap>
    ensures { Gives (λ x. (value_of x.0, x.1.now)) result (block_of sized.entry.0 sized.entry.1.now) }
{
    let (size, bytes) = sized;
    if size > bytes.len() as u64 {
        return Err(Gap::Short);
    }
    let (block, rest) = bytes.split_at(size as usize);
    Ok((AttrValue::Block(block), rest))
}

/// A string of `.debug_str`, from its offset and the bytes behind that.
#[tactic(auto, unfolding(crate::specs::Readers::text_at))]
fn string_at<'a>(
    context: &Context<'a>,
    placed: (u32, &'a [u8]),
) -> Result<(AttrValue<'a>, &'a [u8]), Gap>
    ensures { Gives (λ x. (value_of x.0, x.1.now)) result (text_at context.now.strings placed.entry.0 placed.entry.1.now) }
{
    let (offset, rest) = placed;
    let strings = context.strings.get(offset as usize..).unwrap_or(&[]);
    let (text, _) = first_string(strings)?;
    Ok((AttrValue::Text(Name::of(text)), rest))
}

/// A reference to an offset from the unit's beginning.
fn target<'a>(context: &Context<'a>, offset: u64) -> AttrValue<'a>
    ensures { value_of result ≡ v.Target (capped (context.now.unit + offset)) }
{
    let at = u64::from(context.unit).saturating_add(offset);
    AttrValue::Target(u32::try_from(at).unwrap_or(u32::MAX))
}
