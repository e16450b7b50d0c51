//! What an identifier says: SQL-92, section 5.2.

ghost use Rattle.std.specs.Prelude.{◌≡◌, ℕ, false, List, ◌++◌, IfOk};
ghost use Rattle.std.specs.Option.{option_map_or};
ghost use Rattle.std.specs.Str.{bytes_eq};
ghost use Rattle.om_parse.specs.Identifiers as spec;
ghost use Rattle.om_token.specs.Quotes.{unquoted};

use crate::tree::Identifier;
use om_base::{NoMemory, Text};
use om_token::{first_said, unquoted};
use std::alloc::Global;

/// What stands behind these bytes, if bytes begin with them.
fn behind<'a>(whole: &'a [u8], bytes: &[u8]) -> Option<&'a [u8]>
    ensures { (more : List ℕ) → bytes_eq whole.now (bytes.now ++ more) ≡ option_map_or (λ rest. bytes_eq rest.now more) result false }
{
    whole.strip_prefix(bytes)
}

/// What stands between double quotes behind what says these bytes, if it begins by saying them.
fn behind_said<'a>(mut inside: &'a [u8], mut bytes: &[u8]) -> Option<&'a [u8]>
    ensures { (more : List ℕ) → bytes_eq (unquoted 34 inside.entry.now) (bytes.entry.now ++ more) ≡ option_map_or (λ rest. bytes_eq (unquoted 34 rest.now) more) result false }
{
    while let [first, others @ ..] = bytes {
        let (byte, rest) = first_said(b'"', inside)?;
        if byte != *first {
            return None;
        }
        inside = rest;
        bytes = others;
    }
    Some(inside)
}

/// Whether bytes are these three pieces, one behind another.
fn is_joined(whole: &[u8], first: &[u8], second: &[u8], third: &[u8]) -> bool
    ensures { result ≡ bytes_eq whole.now (first.now ++ (second.now ++ third.now)) }
{
    let Some(rest) = behind(whole, first) else {
        return false;
    };
    let Some(rest) = behind(rest, second) else {
        return false;
    };
    rest == third
}

/// Whether these bytes are what is said between double quotes.
fn is_unquoted(inside: &[u8], bytes: &[u8]) -> bool
    ensures { result ≡ bytes_eq (unquoted 34 inside.now) bytes.now }
{
    match behind_said(inside, bytes) {
        Some(rest) => first_said(b'"', rest).is_none(),
        None => false,
    }
}

/// Whether these three pieces, one behind another, are what is said between double quotes.
fn is_unquoted_joined(inside: &[u8], first: &[u8], second: &[u8], third: &[u8]) -> bool
    ensures { result ≡ bytes_eq (unquoted 34 inside.now) (first.now ++ (second.now ++ third.now)) }
{
    let Some(rest) = behind_said(inside, first) else {
        return false;
    };
    let Some(rest) = behind_said(rest, second) else {
        return false;
    };
    is_unquoted(rest, third)
}

impl<'a> Identifier<'a> {
    /// A copy of the bytes that it says.
    pub fn said(&self, alloc: Global) -> Result<Text, NoMemory>
        ensures { IfOk result (λ text. text ≡ spec.said self.now) }
    {
        match self {
            Identifier::Regular(name) => Text::copy_of(alloc, name.bytes()),
            Identifier::Delimited(name) => unquoted(alloc, b'"', name.bytes()),
        }
    }

    /// Whether the bytes that it says are these three pieces, one behind another. They aren't put
    /// together.
    pub fn says(&self, first: &[u8], second: &[u8], third: &[u8]) -> bool
        ensures { result ≡ bytes_eq (spec.said self.now) (first.now ++ (second.now ++ third.now)) }
    {
        match self {
            Identifier::Regular(name) => is_joined(name.bytes(), first, second, third),
            Identifier::Delimited(name) => is_unquoted_joined(name.bytes(), first, second, third),
        }
    }
}
