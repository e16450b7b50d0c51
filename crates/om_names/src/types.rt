//! The types of variables: DWARF 4, section 5, with the encodings of section 7.8.

ghost use Rattle.std.specs.Prelude.{◌≡◌};
ghost use Rattle.om_names.specs.Names.{shape_of, type_from, typing_from, typing_through};
ghost use Rattle.om_names.specs.Types as spec;
ghost use Rattle.std.specs.Prelude.{option_copied};

use crate::constants::{
    DW_AT_BYTE_SIZE, DW_AT_ENCODING, DW_ATE_BOOLEAN, DW_ATE_SIGNED, DW_ATE_SIGNED_CHAR,
    DW_ATE_UNSIGNED, DW_ATE_UNSIGNED_CHAR, DW_TAG_BASE_TYPE, DW_TAG_CONST_TYPE,
    DW_TAG_ENUMERATION_TYPE, DW_TAG_POINTER_TYPE, DW_TAG_RESTRICT_TYPE, DW_TAG_TYPEDEF,
    DW_TAG_VOLATILE_TYPE,
};
use crate::kind::Kind;
use crate::names::{MOST_LINKS, Names, Told};
use om_die::{AttrValue, Die};

/// The most typedefs and qualifiers from the type of a variable to the one that they come to.
const MOST_TYPE_LINKS: u32 = 64;

/// What an entry is as a type, by itself.
#[derive(Clone, Copy, Debug, PartialEq, Eq)]
pub enum Shape {
    /// A typedef, or a const, volatile or restrict type: as a type it is what its own type is.
    Link,
    /// A scalar type.
    Scalar(Kind),
    /// Anything else.
    Other,
}

/// What a type comes to.
#[derive(Clone, Copy, Debug, PartialEq, Eq)]
pub enum Typing {
    /// Numbers of a kind.
    Scalar(Kind),
    /// No type, or one that isn't scalar.
    Other,
    /// More typedefs and qualifiers than are followed.
    Loop,
}

/// The numbers of a type, where it is scalar.
pub fn kind_in(typing: Typing) -> Option<Kind>
    ensures { result ≡ spec.kind_in typing }
{
    match typing {
        Typing::Scalar(kind) => Some(kind),
        _ => None,
    }
}

/// A constant; 0 where it is negative.
fn constant(die: &Die, name: u32) -> Option<u64>
    ensures { result ≡ spec.constant name die.now }
{
    match die.attribute(name) {
        Some(AttrValue::Number(number)) => Some(number),
        Some(AttrValue::Signed(number)) => Some(u64::try_from(number).unwrap_or(0)),
        _ => None,
    }
}

/// The numbers of so many bytes, where they are as many as are read.
fn of_size(size: u64, signed: bool) -> Option<Kind>
    ensures { result ≡ spec.of_size size signed }
{
    let size = match size {
        1 => 1,
        2 => 2,
        4 => 4,
        8 => 8,
        _ => return None,
    };
    Some(Kind { size, signed })
}

/// Whether numbers of an encoding may be negative, where it is one that is read.
fn sign_of(encoding: u64) -> Option<bool>
    ensures { result ≡ spec.sign_of encoding }
{
    match encoding {
        DW_ATE_SIGNED | DW_ATE_SIGNED_CHAR => Some(true),
        DW_ATE_BOOLEAN | DW_ATE_UNSIGNED | DW_ATE_UNSIGNED_CHAR => Some(false),
        _ => None,
    }
}

/// The numbers of a base type, where it is one that is read.
fn base_kind(die: &Die) -> Option<Kind>
    ensures { result ≡ spec.base_kind die.now }
{
    let Some(encoding) = constant(die, DW_AT_ENCODING) else {
        return None;
    };
    let Some(signed) = sign_of(encoding) else {
        return None;
    };
    let Some(size) = constant(die, DW_AT_BYTE_SIZE) else {
        return None;
    };
    of_size(size, signed)
}

/// The numbers of an enumeration, where it has a size that is read.
fn enumeration_kind(die: &Die) -> Option<Kind>
    ensures { result ≡ spec.enumeration_kind die.now }
{
    of_size(constant(die, DW_AT_BYTE_SIZE).unwrap_or(4), false)
}

/// The numbers of a scalar type, where it is one.
#[tactic(auto, unfolding(crate::specs::Types::scalar_of))]
fn scalar_of(die: &Die) -> Option<Kind>
    ensures { result ≡ spec.scalar_of die.now }
{
    match die.tag {
        DW_TAG_BASE_TYPE => base_kind(die),
        DW_TAG_POINTER_TYPE => of_size(4, false),
        DW_TAG_ENUMERATION_TYPE => enumeration_kind(die),
        _ => None,
    }
}

/// Whether an entry is as a type what its own type is.
fn is_link(die: &Die) -> bool
    ensures { result ≡ spec.is_link die.now }
{
    die.tag == DW_TAG_TYPEDEF
        || die.tag == DW_TAG_CONST_TYPE
        || die.tag == DW_TAG_VOLATILE_TYPE
        || die.tag == DW_TAG_RESTRICT_TYPE
}

impl Shape {
    /// What an entry is as a type.
    pub fn of(die: &Die) -> Shape
        ensures { result ≡ shape_of die.now }
    {
        if is_link(die) {
            return Shape::Link;
        }
        match scalar_of(die) {
            Some(kind) => Shape::Scalar(kind),
            None => Shape::Other,
        }
    }
}

impl<'a> Names<'a> {
    /// What the type of an entry tells.
    fn type_of(&self, told: &Told<'a>) -> Option<&Told<'a>>
        ensures { option_copied result ≡ type_from self.now told.now }
    {
        let Some(offset) = self.type_in(MOST_LINKS, told) else {
            return None;
        };
        self.by_offset.get(&offset)
    }

    /// What a type comes to, through so many links at most that have a type.
    fn typing_through(&self, links: u32, told: &Told<'a>) -> Typing
        ensures { result ≡ typing_through links self.now told.now }
    {
        match told.shape {
            Shape::Link => {}
            Shape::Scalar(kind) => return Typing::Scalar(kind),
            Shape::Other => return Typing::Other,
        }
        let Some(next) = self.type_of(told) else {
            return Typing::Other;
        };
        if links == 0 {
            return Typing::Loop;
        }
        self.typing_through(links - 1, next)
    }

    /// What the type of an entry comes to.
    pub fn typing_of(&self, die: &Die<'a>) -> Typing
        ensures { result ≡ typing_from self.now die.now }
    {
        match self.type_of(&Told::of(die)) {
            Some(told) => self.typing_through(MOST_TYPE_LINKS, told),
            None => Typing::Other,
        }
    }
}
