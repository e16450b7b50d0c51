//! The name of a variable, kept as the pieces of the executable that it is made of.

ghost use Rattle.std.specs.Prelude.{◌≡◌, ◌++◌};
ghost use Rattle.om_value.specs.Qualified.{qualified};

use om_base::Name;
use std::marker::Model;

/// The name by which a query names a variable: its own, and for one inside a function the function's
/// name and a point before it.
///
/// It isn't put together, since a function may have a long name and many variables.
#[derive(Debug, Drop)]
pub struct VariableName<'a> {
    function: Option<Name<'a>>,
    own: Name<'a>,
}

// Clauses see the bytes.
impl<'a> Model for VariableName<'a> {
    ghost use Rattle.std.specs.Prelude.{List, ℕ};
    ghost use Rattle.om_value.specs.Qualified.{qualified};

    ghost Value = { List ℕ };

    ghost view = { λ it. qualified it.function it.own };
}

impl<'a> VariableName<'a> {
    /// The name of the variable `own` of a function, or outside functions.
    pub fn of(function: Option<Name<'a>>, own: Name<'a>) -> VariableName<'a>
        ensures { result ≡ qualified function.entry own.entry }
    {
        VariableName { function, own }
    }

    /// The same name.
    pub fn again(&self) -> VariableName<'a>
        ensures { result ≡ self.now }
    {
        let own = Name::of(self.own.bytes());
        match &self.function {
            Some(function) => VariableName {
                function: Some(Name::of(function.bytes())),
                own,
            },
            None => VariableName {
                function: None,
                own,
            },
        }
    }

    /// The function's name, the point and the variable's own, of which the first two are empty outside
    /// functions.
    pub fn pieces(&self) -> (&'a [u8], &'a [u8], &'a [u8])
        ensures { result.0.now ++ (result.1.now ++ result.2.now) ≡ self.now }
    {
        match &self.function {
            Some(function) => (function.bytes(), b".", self.own.bytes()),
            None => (b"", b"", self.own.bytes()),
        }
    }
}
