//! A place among tokens, from which the parser reads.

ghost use Rattle.std.specs.Prelude.{◌≡◌, if◌then◌else◌};
ghost use Rattle.om_parse.specs.Refusals.{place_of};
ghost use Rattle.om_parse.specs.Reading as spec;
ghost use Rattle.om_parse.specs.Reading.{Reads};

use crate::tree::{ColumnName, CompareOp, Identifier, Numeral, TableName};
use om_base::{Name, NoMemory};
use om_token::{Kind, Terminal, Token};
use std::alloc::AllocError;
use std::marker::Model;

/// Why a part of a query wasn't read.
#[derive(Clone, Copy, Debug, PartialEq, Eq)]
pub enum Stop {
    /// No memory was left for the tree.
    NoMemory,
    /// The next token doesn't fit, or there is none.
    Wrong,
}

impl From<NoMemory> for Stop {
    ghost use Rattle.std.specs.Prelude.{◌≡◌};
    ghost use Rattle.om_parse.specs.declared.cursor.Stop.TheVariants.{NoMemory};

    ghost from_gives = { λ _ it. it ≡ NoMemory };

    fn from(_error: NoMemory) -> Stop {
        Stop::NoMemory
    }
}

impl From<AllocError> for Stop {
    ghost use Rattle.std.specs.Prelude.{◌≡◌};
    ghost use Rattle.om_parse.specs.declared.cursor.Stop.TheVariants.{NoMemory};

    ghost from_gives = { λ _ it. it ≡ NoMemory };

    fn from(_error: AllocError) -> Stop {
        Stop::NoMemory
    }
}

/// The tokens that are still to be read.
#[derive(Drop)]
pub struct Cursor<'t, 'a> {
    rest: &'t [Token<'a>],
}

// Clauses see the tokens, first to last.
impl<'t, 'a> Model for Cursor<'t, 'a> {
    ghost use Rattle.std.specs.Prelude.{List};
    ghost use Rattle.om_token.specs.declared.token.Token.{Token};

    ghost Value = { List Token };

    ghost view = { λ it. it.rest.now };
}

impl<'t, 'a> Cursor<'t, 'a> {
    /// A place before the first of `tokens`.
    pub fn new(tokens: &'t [Token<'a>]) -> Cursor<'t, 'a>
        ensures { result ≡ tokens.now }
    {
        Cursor { rest: tokens }
    }

    /// Passes the next token where it is `which`, and gives its offset.
    pub fn expect(&mut self, which: Terminal) -> Result<u32, Stop>
        ensures { Reads (spec.expect which self.old) result self.new }
    {
        let [token, rest @ ..] = self.rest else {
            return Err(Stop::Wrong);
        };
        if !is(which, &token.kind) {
            return Err(Stop::Wrong);
        }
        self.rest = rest;
        Ok(token.at)
    }

    /// Whether the next token is `which`.
    pub fn begins(&self, which: Terminal) -> bool
        ensures { result ≡ spec.begins which self.now }
    {
        match self.rest {
            [token, ..] => is(which, &token.kind),
            [] => false,
        }
    }

    /// Passes the next token where it is `which`, and says whether it was.
    pub fn eat(&mut self, which: Terminal) -> bool
        ensures found { result ≡ spec.begins which self.old }
        ensures after { self.new ≡ (if spec.begins which self.old then spec.passed self.old else self.old) }
    {
        let found = self.begins(which);
        if found {
            self.rest = &self.rest[1..];
        }
        found
    }

    /// A column.
    #[tactic(auto, unfolding(crate::specs::Reading::column))]
    pub fn column(&mut self) -> Result<ColumnName<'a>, Stop>
        ensures { Reads (spec.column self.old) result self.new }
    {
        let [token, rest @ ..] = self.rest else {
            return Err(Stop::Wrong);
        };
        let Some(name) = identifier(&token.kind) else {
            return Err(Stop::Wrong);
        };
        self.rest = rest;
        Ok(ColumnName { at: token.at, name })
    }

    /// A table.
    #[tactic(auto, unfolding(crate::specs::Reading::table))]
    pub fn table(&mut self) -> Result<TableName<'a>, Stop>
        ensures { Reads (spec.table self.old) result self.new }
    {
        let [token, rest @ ..] = self.rest else {
            return Err(Stop::Wrong);
        };
        let Kind::Regular(name) = &token.kind else {
            return Err(Stop::Wrong);
        };
        self.rest = rest;
        Ok(TableName {
            at: token.at,
            name: Name::of(name.bytes()),
        })
    }

    /// A numeral.
    #[tactic(auto, unfolding(crate::specs::Reading::numeral))]
    pub fn numeral(&mut self) -> Result<Numeral, Stop>
        ensures { Reads (spec.numeral self.old) result self.new }
    {
        let [token, rest @ ..] = self.rest else {
            return Err(Stop::Wrong);
        };
        let Kind::Numeral(value) = &token.kind else {
            return Err(Stop::Wrong);
        };
        self.rest = rest;
        Ok(Numeral {
            at: token.at,
            value: *value,
        })
    }

    /// The operator of a comparison, and its offset.
    #[tactic(auto, unfolding(crate::specs::Reading::operator))]
    pub fn operator(&mut self) -> Result<(u32, CompareOp), Stop>
        ensures { Reads (spec.operator self.old) result self.new }
    {
        let [token, rest @ ..] = self.rest else {
            return Err(Stop::Wrong);
        };
        let Some(op) = operator(&token.kind) else {
            return Err(Stop::Wrong);
        };
        self.rest = rest;
        Ok((token.at, op))
    }

    /// That no token is left.
    #[tactic(auto, unfolding(crate::specs::Reading::end))]
    pub fn end(&self) -> Result<(), Stop>
        ensures { Reads (spec.end self.now) result self.now }
    {
        match self.rest {
            [] => Ok(()),
            [_, ..] => Err(Stop::Wrong),
        }
    }

    /// The offset of the next token, or `end` where there is none.
    pub fn place(&self, end: u32) -> u32
        ensures { result ≡ place_of end self.now }
    {
        match self.rest {
            [token, ..] => token.at,
            [] => end,
        }
    }
}

/// The identifier that a token is.
fn identifier<'a>(kind: &Kind<'a>) -> Option<Identifier<'a>>
    ensures { result ≡ spec.identifier_in kind.now }
{
    match kind {
        Kind::Regular(name) => Some(Identifier::Regular(Name::of(name.bytes()))),
        Kind::Delimited(name) => Some(Identifier::Delimited(Name::of(name.bytes()))),
        _ => None,
    }
}

/// The operator that a token is.
fn operator(kind: &Kind<'_>) -> Option<CompareOp>
    ensures { result ≡ spec.operator_in kind.now }
{
    let Kind::Terminal(which) = kind else {
        return None;
    };
    match which {
        Terminal::Equal => Some(CompareOp::Equal),
        Terminal::NotEqual => Some(CompareOp::NotEqual),
        Terminal::Less => Some(CompareOp::Less),
        Terminal::LessOrEqual => Some(CompareOp::LessOrEqual),
        Terminal::Greater => Some(CompareOp::Greater),
        Terminal::GreaterOrEqual => Some(CompareOp::GreaterOrEqual),
        _ => None,
    }
}

/// Whether a token is this reserved word or symbol.
#[tactic(auto, unfolding(om_token::specs::Terminals::same))]
fn is(which: Terminal, kind: &Kind<'_>) -> bool
    ensures { result ≡ spec.is which kind.now }
{
    match kind {
        Kind::Terminal(other) => which == *other,
        _ => false,
    }
}
