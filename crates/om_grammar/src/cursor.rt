//! A place among tokens, from which the parser reads.

ghost use Rattle.std.specs.Prelude.{◌≡◌, IfOk};
ghost use Rattle.om_grammar.specs.Parsers.{Reads, found, behind, one};
ghost use Rattle.om_grammar.specs.Reading as spec;
ghost use Rattle.om_grammar.specs.Refusals.{place_of};

use crate::aggregates::Aggregates;
use crate::expr_tree::{Numeral, Scale, Sign};
use crate::lead::{Dotted, Lead, Negatable, Word};
use crate::readers;
use crate::stop::Stop;
use crate::tree::{Alias, Direction, Key, Label};
use om_base::NoMemory;
use om_token::{Terminal, Token};
use std::alloc::Global;
use std::marker::Model;

/// The tokens that are still to be read.
#[derive(Drop)]
pub struct Cursor<'t, 'a> {
    rest: &'t [Token<'a>],
}

// Clauses see the tokens, first to last.
impl<'t, 'a> Model for Cursor<'t, 'a> {
    ghost use Rattle.std.specs.Prelude.{List};
    ghost use Rattle.om_token.specs.declared.token.Token.{Token};

    ghost Value = { List Token };

    ghost view = { λ it. it.rest.now };
}

// Each method but the last two passes the next token where it is what the method reads, and no other token.
impl<'t, 'a> Cursor<'t, 'a> {
    /// A place before the first of `tokens`.
    pub fn new(tokens: &'t [Token<'a>]) -> Cursor<'t, 'a>
        ensures { result ≡ tokens.now }
    {
        Cursor { rest: tokens }
    }

    /// The offset of `which`, if it is next.
    pub fn eat(&mut self, which: Terminal) -> Option<u32>
        ensures seen { result ≡ found (spec.offset_of which) self.old }
        ensures after { self.new ≡ behind result self.old }
    {
        let [token, rest @ ..] = self.rest else {
            return None;
        };
        let Some(at) = readers::offset(which, token) else {
            return None;
        };
        self.rest = rest;
        Some(at)
    }

    /// The sign that is next, if one is, and its offset.
    pub fn sign(&mut self) -> Option<(u32, Sign)>
        ensures seen { result ≡ found spec.sign_of self.old }
        ensures after { self.new ≡ behind result self.old }
    {
        let [token, rest @ ..] = self.rest else {
            return None;
        };
        let Some(sign) = readers::sign(token) else {
            return None;
        };
        self.rest = rest;
        Some(sign)
    }

    /// The operator of a product that is next, if one is, and its offset.
    pub fn scale(&mut self) -> Option<(u32, Scale)>
        ensures seen { result ≡ found spec.scale_of self.old }
        ensures after { self.new ≡ behind result self.old }
    {
        let [token, rest @ ..] = self.rest else {
            return None;
        };
        let Some(scale) = readers::scale(token) else {
            return None;
        };
        self.rest = rest;
        Some(scale)
    }

    /// What makes a predicate of the expression before it, if that is next.
    pub fn word(&mut self) -> Option<Word>
        ensures seen { result ≡ found spec.word_of self.old }
        ensures after { self.new ≡ behind result self.old }
    {
        let [token, rest @ ..] = self.rest else {
            return None;
        };
        let Some(word) = readers::word(token) else {
            return None;
        };
        self.rest = rest;
        Some(word)
    }

    /// The direction that is next, if one is.
    pub fn direction(&mut self) -> Option<Direction>
        ensures seen { result ≡ found spec.direction_of self.old }
        ensures after { self.new ≡ behind result self.old }
    {
        let [token, rest @ ..] = self.rest else {
            return None;
        };
        let Some(direction) = readers::direction(token) else {
            return None;
        };
        self.rest = rest;
        Some(direction)
    }

    /// The regular identifier that is next, if one is.
    pub fn optional_label(&mut self) -> Option<Label<'a>>
        ensures seen { result ≡ found spec.label_of self.old }
        ensures after { self.new ≡ behind result self.old }
    {
        let [token, rest @ ..] = self.rest else {
            return None;
        };
        let Some(label) = readers::label(token) else {
            return None;
        };
        self.rest = rest;
        Some(label)
    }

    /// The identifier that is next, if one is.
    pub fn alias(&mut self, alloc: Global) -> Result<Option<Alias<'a>>, NoMemory>
        ensures seen { IfOk result (λ it. it ≡ found spec.alias_of self.old) }
        ensures after { IfOk result (λ it. self.new ≡ behind it self.old) }
    {
        let [token, rest @ ..] = self.rest else {
            return Ok(None);
        };
        let Some(alias) = readers::alias(alloc, token)? else {
            return Ok(None);
        };
        self.rest = rest;
        Ok(Some(alias))
    }

    /// What rows are sorted by, if that is next, and its offset.
    pub fn key(&mut self, alloc: Global) -> Result<Option<(u32, Key<'a>)>, NoMemory>
        ensures seen { IfOk result (λ it. it ≡ found spec.key_of self.old) }
        ensures after { IfOk result (λ it. self.new ≡ behind it self.old) }
    {
        let [token, rest @ ..] = self.rest else {
            return Ok(None);
        };
        let Some(key) = readers::key(alloc, token)? else {
            return Ok(None);
        };
        self.rest = rest;
        Ok(Some(key))
    }

    /// The offset of `which`.
    pub fn expect(&mut self, which: Terminal) -> Result<u32, Stop>
        ensures { Reads (spec.expect which self.old) result self.new }
    {
        let Some(at) = self.eat(which) else {
            return Err(Stop::Wrong);
        };
        Ok(at)
    }

    /// What begins a primary.
    pub fn lead(&mut self, aggregates: Aggregates) -> Result<Lead<'a>, Stop>
        ensures { Reads (one (spec.lead_of aggregates) self.old) result self.new }
    {
        let [token, rest @ ..] = self.rest else {
            return Err(Stop::Wrong);
        };
        let Some(lead) = readers::lead(aggregates, token) else {
            return Err(Stop::Wrong);
        };
        self.rest = rest;
        Ok(lead)
    }

    /// What stands after a range variable and its point.
    pub fn dotted(&mut self) -> Result<Dotted<'a>, Stop>
        ensures { Reads (one spec.dotted_of self.old) result self.new }
    {
        let [token, rest @ ..] = self.rest else {
            return Err(Stop::Wrong);
        };
        let Some(dotted) = readers::dotted(token) else {
            return Err(Stop::Wrong);
        };
        self.rest = rest;
        Ok(dotted)
    }

    /// What makes a predicate of the expression and the NOT before it.
    pub fn negatable(&mut self) -> Result<Negatable, Stop>
        ensures { Reads (one spec.negatable_of self.old) result self.new }
    {
        let [token, rest @ ..] = self.rest else {
            return Err(Stop::Wrong);
        };
        let Some(negatable) = readers::negatable(token) else {
            return Err(Stop::Wrong);
        };
        self.rest = rest;
        Ok(negatable)
    }

    /// A numeral.
    pub fn numeral(&mut self) -> Result<Numeral, Stop>
        ensures { Reads (one spec.numeral_of self.old) result self.new }
    {
        let [token, rest @ ..] = self.rest else {
            return Err(Stop::Wrong);
        };
        let Some(numeral) = readers::numeral(token) else {
            return Err(Stop::Wrong);
        };
        self.rest = rest;
        Ok(numeral)
    }

    /// A regular identifier.
    pub fn label(&mut self) -> Result<Label<'a>, Stop>
        ensures { Reads (one spec.label_of self.old) result self.new }
    {
        let Some(label) = self.optional_label() else {
            return Err(Stop::Wrong);
        };
        Ok(label)
    }

    /// That no token is left.
    pub fn end(&mut self) -> Result<(), Stop>
        ensures { Reads (spec.at_end self.old) result self.new }
    {
        match self.rest {
            [] => Ok(()),
            [_, ..] => Err(Stop::Wrong),
        }
    }

    /// The offset of the next token, or `end` where there is none.
    pub fn place(&self, end: u32) -> u32
        ensures { result ≡ place_of end self.now }
    {
        match self.rest {
            [token, ..] => token.at,
            [] => end,
        }
    }
}
