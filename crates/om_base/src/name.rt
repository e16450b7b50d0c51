//! A borrowed piece of a file or of a query, seen as its bytes.

ghost use Rattle.std.specs.Prelude.{◌≡◌};

use std::marker::Model;

/// A piece of a file or of a query that names something: a section, a function, a variable.
///
/// It has no encoding, and two names are the same where their bytes are.
#[derive(Debug, Drop)]
pub struct Name<'a> {
    bytes: &'a [u8],
}

// Clauses see the bytes.
impl<'a> Model for Name<'a> {
    ghost use Rattle.std.specs.Prelude.{List, ℕ};

    ghost Value = { List ℕ };

    ghost view = { λ it. it.bytes.now };
}

impl<'a> Name<'a> {
    /// The name that `bytes` spell.
    pub fn of(bytes: &'a [u8]) -> Name<'a>
        ensures { result ≡ bytes.now }
    {
        Name { bytes }
    }

    /// The bytes that spell it.
    pub fn bytes(&self) -> &'a [u8]
        ensures { result.now ≡ self.now }
    {
        self.bytes
    }
}
