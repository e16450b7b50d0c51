//! Names, tables, columns and what rows are sorted by.

ghost use Rattle.std.specs.Prelude.{None, Some};
ghost use Rattle.om_grammar.specs.Parsers.{Reads, branch, one, pure};
ghost use Rattle.om_grammar.specs.Reading as spec;

use crate::cursor::Cursor;
use crate::stop::Stop;
use crate::tree::{Alias, ColumnName, Direction, Identifier, Key, Label, SortKey, TableName};
use om_token::Terminal;
use std::alloc::Global;

/// An identifier.
pub fn alias<'a>(alloc: Global, tokens: &mut Cursor<'_, 'a>) -> Result<Alias<'a>, Stop>
    ensures { Reads (one spec.alias_of tokens.old) result tokens.new }
{
    let Some(alias) = tokens.alias(alloc)? else {
        return Err(Stop::Wrong);
    };
    Ok(alias)
}

/// An identifier, if one is next.
pub fn optional_alias<'a>(
    alloc: Global,
    tokens: &mut Cursor<'_, 'a>,
) -> Result<Option<Alias<'a>>, Stop>
    ensures { Reads (branch spec.alias_of (λ x. pure (Some x)) (pure None) tokens.old) result tokens.new }
{
    let Some(alias) = tokens.alias(alloc)? else {
        return Ok(None);
    };
    Ok(Some(alias))
}

/// The name of a column of the result, with AS or without, if one is next.
#[tactic(auto, unfolding(crate::specs::Reading::naming))]
pub fn naming_alias<'a>(
    alloc: Global,
    tokens: &mut Cursor<'_, 'a>,
) -> Result<Option<Alias<'a>>, Stop>
    ensures { Reads (spec.naming spec.alias_of tokens.old) result tokens.new }
{
    let Some(_) = tokens.eat(Terminal::As) else {
        return optional_alias(alloc, tokens);
    };
    let alias = alias(alloc, tokens)?;
    Ok(Some(alias))
}

/// The name of a range variable, with AS or without, if one is next.
#[tactic(auto, unfolding(crate::specs::Reading::naming))]
pub fn naming_label<'a>(tokens: &mut Cursor<'_, 'a>) -> Result<Option<Label<'a>>, Stop>
    ensures { Reads (spec.naming spec.label_of tokens.old) result tokens.new }
{
    let Some(_) = tokens.eat(Terminal::As) else {
        return Ok(tokens.optional_label());
    };
    let label = tokens.label()?;
    Ok(Some(label))
}

/// A table, and the range variable that is named.
#[tactic(auto, unfolding(crate::specs::Reading::table))]
pub fn table<'a>(tokens: &mut Cursor<'_, 'a>) -> Result<TableName<'a>, Stop>
    ensures { Reads (spec.table tokens.old) result tokens.new }
{
    let name = tokens.label()?;
    let variable = naming_label(tokens)?;
    Ok(TableName {
        at: name.at,
        name: name.name,
        variable,
    })
}

/// A column whose first token is a regular identifier.
#[tactic(auto, unfolding(crate::specs::Reading::column_named))]
fn column_named<'a>(
    alloc: Global,
    first: Label<'a>,
    tokens: &mut Cursor<'_, 'a>,
) -> Result<ColumnName<'a>, Stop>
    ensures { Reads (spec.column_named first.entry tokens.old) result tokens.new }
{
    let Some(_) = tokens.eat(Terminal::Dot) else {
        return Ok(ColumnName {
            qualifier: None,
            at: first.at,
            name: Identifier::Regular(first.name),
        });
    };
    let name = alias(alloc, tokens)?;
    Ok(ColumnName {
        qualifier: Some(first),
        at: name.at,
        name: name.name,
    })
}

/// A column.
#[tactic(auto, unfolding(crate::specs::Reading::column))]
pub fn column<'a>(alloc: Global, tokens: &mut Cursor<'_, 'a>) -> Result<ColumnName<'a>, Stop>
    ensures { Reads (spec.column tokens.old) result tokens.new }
{
    let Some(first) = tokens.optional_label() else {
        let name = alias(alloc, tokens)?;
        return Ok(ColumnName {
            qualifier: None,
            at: name.at,
            name: name.name,
        });
    };
    column_named(alloc, first, tokens)
}

/// What rows are sorted by, and its offset.
pub fn key<'a>(alloc: Global, tokens: &mut Cursor<'_, 'a>) -> Result<(u32, Key<'a>), Stop>
    ensures { Reads (one spec.key_of tokens.old) result tokens.new }
{
    let Some(key) = tokens.key(alloc)? else {
        return Err(Stop::Wrong);
    };
    Ok(key)
}

/// What rows are sorted by, and which way.
#[tactic(auto, unfolding(crate::specs::Reading::sort_key))]
pub fn sort_key<'a>(alloc: Global, tokens: &mut Cursor<'_, 'a>) -> Result<SortKey<'a>, Stop>
    ensures { Reads (spec.sort_key tokens.old) result tokens.new }
{
    let (at, key) = key(alloc, tokens)?;
    let direction = match tokens.direction() {
        Some(direction) => direction,
        None => Direction::Ascending,
    };
    Ok(SortKey { at, key, direction })
}
