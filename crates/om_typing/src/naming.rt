//! The names of the result's columns.

ghost use Rattle.std.specs.Prelude.{◌≡◌, nat_eq, IfOk};
ghost use Rattle.std.specs.Option.{option_map};
ghost use Rattle.om_typing.specs.Queries as spec;

use crate::columns::is_same_name;
use om_base::{Items, NoMemory, Text, put_decimal};
use om_grammar::{ExprTree, Identifier, Item, Key};
use std::alloc::Global;

/// What an identifier says.
fn said<'a>(name: &'a Identifier<'_>) -> &'a [u8]
    ensures { result.now ≡ spec.said name.now }
{
    match name {
        Identifier::Regular(name) => name.bytes(),
        Identifier::Delimited(said) => said.bytes(),
    }
}

/// The identifier that names an item's column: the one that it is given, or else that of the column that it
/// is.
#[tactic(auto, unfolding(crate::specs::Queries::own_identifier))]
fn identifier_of<'a, 'q>(item: &'a Item<'q>) -> Option<&'a Identifier<'q>>
    ensures { option_map (λ name. name.now) result ≡ spec.identifier_of item.now }
{
    if let Some(alias) = &item.alias {
        return Some(&alias.name);
    }
    match &item.expr {
        ExprTree::Column(column) => Some(&column.name),
        _ => None,
    }
}

/// The name of the column of the item at a position, from 1.
#[tactic(auto, unfolding(crate::specs::Queries::column_name))]
pub(crate) fn column_name(alloc: Global, position: usize, item: &Item<'_>) -> Result<Text, NoMemory>
    ensures { IfOk result (λ name. name ≡ spec.column_name position item.now) }
{
    match identifier_of(item) {
        Some(name) => Text::copy_of(alloc, said(name)),
        None => {
            let mut name = Text::copy_of(alloc, b"col")?;
            put_decimal(&mut name, position as i128)?;
            Ok(name)
        }
    }
}

/// Whether the name of an item's column comes from a delimited identifier.
fn is_delimited(item: &Item<'_>) -> bool
    ensures { result ≡ spec.is_delimited_name item.now }
{
    match identifier_of(item) {
        Some(Identifier::Delimited(_)) => true,
        Some(Identifier::Regular(_)) => false,
        None => false,
    }
}

/// What stands above a column of the result.
#[derive(Debug, Drop)]
pub(crate) struct Heading {
    pub name: Text,
    /// Whether it comes from a delimited identifier.
    pub is_delimited: bool,
}

/// The heading of the column of the item at a position, from 1.
fn heading_of(alloc: Global, position: usize, item: &Item<'_>) -> Result<Heading, NoMemory>
    ensures { IfOk result (λ heading. heading ≡ spec.heading_of position item.now) }
{
    let name = column_name(alloc, position, item)?;
    Ok(Heading {
        name,
        is_delimited: is_delimited(item),
    })
}

/// The headings of items.
pub(crate) fn headings(alloc: Global, items: &[Item<'_>]) -> Result<Items<Heading>, NoMemory>
    ensures { IfOk result (λ headings. headings ≡ spec.headings_from 1 items.now) }
{
    let mut headings = Items::new(alloc);
    let mut rest = items;
    while let [item, others @ ..] = rest {
        let heading = heading_of(alloc, headings.len() + 1, item)?;
        headings.push(heading)?;
        rest = others;
    }
    Ok(headings)
}

/// Whether a key means the column at a position with a heading.
fn fits(key: &Key<'_>, position: usize, heading: &Heading) -> bool
    ensures { result ≡ spec.fits key.now position heading.now }
{
    match key {
        Key::Position(number) => *number == position as u64,
        Key::Named(Identifier::Regular(name)) => {
            !heading.is_delimited && is_same_name(name.bytes(), heading.name.bytes())
        }
        Key::Named(Identifier::Delimited(said)) => said.bytes() == heading.name.bytes(),
    }
}

/// Whether a key means exactly one of the columns with these headings.
pub(crate) fn fits_one(key: &Key<'_>, headings: &[Heading]) -> bool
    ensures { result ≡ nat_eq (spec.fitting key.now 1 headings.now) 1 }
{
    let mut found = false;
    let mut rest = headings;
    while let [heading, others @ ..] = rest {
        if fits(key, headings.len() - others.len(), heading) {
            if found {
                return false;
            }
            found = true;
        }
        rest = others;
    }
    found
}
