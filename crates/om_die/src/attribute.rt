//! Attributes with their values: DWARF 4, section 2.2 and section 7.5.4.

ghost use Rattle.std.specs.Prelude.{◌≡◌};
ghost use Rattle.om_die.specs.Shown.{value_of};

use om_base::Name;
use std::marker::Model;

/// The value of an attribute, by its class.
#[derive(Debug, Drop)]
pub enum AttrValue<'a> {
    /// An address of the program.
    Addr(u32),
    /// A constant without a sign.
    Number(u64),
    /// A constant with a sign.
    Signed(i64),
    /// A string, without the zero at its end.
    Text(Name<'a>),
    /// Some bytes: a block, or an expression.
    Block(&'a [u8]),
    /// A reference to an entry, by its offset in `.debug_info`; a greater offset than 2^32 - 1 counts
    /// as that.
    Target(u32),
    /// An offset of another section.
    Offset(u32),
    /// A flag.
    Flag(bool),
    /// A reference to an entry that isn't read: one of a skipped unit, or of a type unit.
    Elsewhere,
}

impl<'a> AttrValue<'a> {
    /// The same value.
    pub(crate) fn again(&self) -> AttrValue<'a>
        ensures { value_of result ≡ value_of self.now }
    {
        match self {
            AttrValue::Addr(address) => AttrValue::Addr(*address),
            AttrValue::Number(number) => AttrValue::Number(*number),
            AttrValue::Signed(number) => AttrValue::Signed(*number),
            AttrValue::Text(text) => AttrValue::Text(Name::of(text.bytes())),
            AttrValue::Block(bytes) => AttrValue::Block(bytes),
            AttrValue::Target(offset) => AttrValue::Target(*offset),
            AttrValue::Offset(offset) => AttrValue::Offset(*offset),
            AttrValue::Flag(flag) => AttrValue::Flag(*flag),
            AttrValue::Elsewhere => AttrValue::Elsewhere,
        }
    }
}

/// An attribute of an entry.
#[derive(Debug, Drop)]
pub struct Attr<'a> {
    /// `DW_AT_..`.
    pub name: u32,
    pub value: AttrValue<'a>,
}

// Clauses see the name and the value, borrowed pieces as their bytes.
impl<'a> Model for Attr<'a> {
    ghost use Rattle.om_die.specs.AttributeValue.{Attribute};

    ghost Value = { Attribute };

    ghost use Rattle.om_die.specs.Shown.{value_of};

    ghost view = { λ it. record { name = it.name; value = value_of it.value } };
}
