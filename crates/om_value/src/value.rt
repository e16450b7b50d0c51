//! Values: whole numbers, texts and NULL.

ghost use Rattle.std.specs.Prelude.{◌≡◌};

use om_base::{Name, Text};

/// A value whose text is borrowed from what it was read from.
#[derive(Debug, Drop)]
pub enum Value<'a> {
    /// A whole number.
    Int(i128),
    /// A text, which has no encoding.
    Text(Name<'a>),
    /// No value.
    Null,
}

/// A value with a text of its own.
#[derive(Debug, Drop)]
pub enum Owned {
    /// A whole number.
    Int(i128),
    /// A text, which has no encoding.
    Text(Text),
    /// No value.
    Null,
}

impl Owned {
    ghost use Rattle.om_value.specs.Meaning.{owned};

    /// The same value, with its text borrowed.
    pub fn value(&self) -> Value<'_>
        ensures { owned result ≡ self.now }
    {
        match self {
            Owned::Int(number) => Value::Int(*number),
            Owned::Text(text) => Value::Text(Name::of(text.bytes())),
            Owned::Null => Value::Null,
        }
    }
}
