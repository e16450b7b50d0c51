//! Writes a query as text.

ghost use Rattle.std.specs.Prelude.{◌≡◌, ℕ, List, ◌++◌, codes, IfOk};
ghost use Rattle.om_base.specs.Appending.{PutsBehind};
ghost use Rattle.om_token.specs.declared.token.Token.{Token};
ghost use Rattle.om_token.specs.Tokens.{AreTokens};
ghost use Rattle.om_grammar.specs.Grammar.{IsQuery};
ghost use Rattle.om_grammar.specs.Spelling.{Spells};
ghost use Rattle.om_grammar.specs.Words as spec;

use crate::cond_tree::CondTree;
use crate::tree::{Alias, ColumnName, Direction, Item, Key, Label, Query, SortKey, TableName};
use crate::words::{put_column, put_cond, put_expr, put_identifier, put_number};
use om_base::{NoMemory, Text};
use std::alloc::Global;

// ---- parts

/// Appends the name that an item is given.
fn put_alias(text: &mut Text, alias: &Option<Alias<'_>>) -> Result<(), NoMemory>
    ensures { PutsBehind result text.old (spec.naming_text spec.alias_text alias.now) text.new }
{
    match alias {
        Some(alias) => {
            text.add(b" AS ")?;
            put_identifier(text, &alias.name)
        }
        None => Ok(()),
    }
}

/// Appends the range variable that a table is given.
fn put_variable(text: &mut Text, variable: &Option<Label<'_>>) -> Result<(), NoMemory>
    ensures { PutsBehind result text.old (spec.naming_text spec.label_text variable.now) text.new }
{
    match variable {
        Some(label) => {
            text.add(b" AS ")?;
            text.add(label.name.bytes())
        }
        None => Ok(()),
    }
}

/// Appends an item.
#[tactic(auto, unfolding(crate::specs::Words::item_text))]
fn put_item(text: &mut Text, item: &Item<'_>) -> Result<(), NoMemory>
    ensures { PutsBehind result text.old (spec.item_text item.now) text.new }
{
    put_expr(text, &item.expr)?;
    put_alias(text, &item.alias)
}

/// Appends a table.
#[tactic(auto, unfolding(crate::specs::Words::table_text))]
fn put_table(text: &mut Text, table: &TableName<'_>) -> Result<(), NoMemory>
    ensures { PutsBehind result text.old (spec.table_text table.now) text.new }
{
    text.add(table.name.bytes())?;
    put_variable(text, &table.variable)
}

/// Appends what rows are sorted by.
fn put_key(text: &mut Text, key: &Key<'_>) -> Result<(), NoMemory>
    ensures { PutsBehind result text.old (spec.key_text key.now) text.new }
{
    match key {
        Key::Position(number) => put_number(text, *number),
        Key::Named(name) => put_identifier(text, name),
    }
}

/// Appends which way rows are sorted.
fn put_direction(text: &mut Text, direction: Direction) -> Result<(), NoMemory>
    ensures { PutsBehind result text.old (spec.direction_text direction) text.new }
{
    match direction {
        Direction::Ascending => Ok(()),
        Direction::Descending => text.add(b" DESC"),
    }
}

/// Appends what rows are sorted by, and which way.
#[tactic(auto, unfolding(crate::specs::Words::sort_key_text))]
fn put_sort_key(text: &mut Text, key: &SortKey<'_>) -> Result<(), NoMemory>
    ensures { PutsBehind result text.old (spec.sort_key_text key.now) text.new }
{
    put_key(text, &key.key)?;
    put_direction(text, key.direction)
}

// ---- lists

/// Appends items, with commas between them.
fn put_items(text: &mut Text, items: &[Item<'_>]) -> Result<(), NoMemory>
    ensures { PutsBehind result text.old (spec.list_text spec.item_text items.now) text.new }
{
    let [first, rest @ ..] = items else {
        return Ok(());
    };
    put_item(text, first)?;
    for item in rest {
        text.add(b", ")?;
        put_item(text, item)?;
    }
    Ok(())
}

/// Appends tables, with commas between them.
fn put_tables(text: &mut Text, tables: &[TableName<'_>]) -> Result<(), NoMemory>
    ensures { PutsBehind result text.old (spec.list_text spec.table_text tables.now) text.new }
{
    let [first, rest @ ..] = tables else {
        return Ok(());
    };
    put_table(text, first)?;
    for table in rest {
        text.add(b", ")?;
        put_table(text, table)?;
    }
    Ok(())
}

/// Appends columns, with commas between them.
fn put_columns(text: &mut Text, columns: &[ColumnName<'_>]) -> Result<(), NoMemory>
    ensures { PutsBehind result text.old (spec.list_text spec.column_text columns.now) text.new }
{
    let [first, rest @ ..] = columns else {
        return Ok(());
    };
    put_column(text, first)?;
    for column in rest {
        text.add(b", ")?;
        put_column(text, column)?;
    }
    Ok(())
}

/// Appends what rows are sorted by, with commas between the keys.
fn put_sort_keys(text: &mut Text, keys: &[SortKey<'_>]) -> Result<(), NoMemory>
    ensures { PutsBehind result text.old (spec.list_text spec.sort_key_text keys.now) text.new }
{
    let [first, rest @ ..] = keys else {
        return Ok(());
    };
    put_sort_key(text, first)?;
    for key in rest {
        text.add(b", ")?;
        put_sort_key(text, key)?;
    }
    Ok(())
}

// ---- clauses

/// Appends the condition after WHERE.
#[tactic(auto, unfolding(crate::specs::Words::filter_text))]
fn put_filter(text: &mut Text, filter: &Option<CondTree<'_>>) -> Result<(), NoMemory>
    ensures { PutsBehind result text.old (spec.filter_text filter.now) text.new }
{
    match filter {
        Some(cond) => {
            text.add(b" WHERE ")?;
            put_cond(text, cond)
        }
        None => Ok(()),
    }
}

/// Appends the columns after GROUP BY.
fn put_groups(text: &mut Text, groups: &[ColumnName<'_>]) -> Result<(), NoMemory>
    ensures { PutsBehind result text.old (spec.by_text (codes " GROUP BY ") spec.column_text groups.now) text.new }
{
    if groups.is_empty() {
        return Ok(());
    }
    text.add(b" GROUP BY ")?;
    put_columns(text, groups)
}

/// Appends what stands after ORDER BY.
fn put_order(text: &mut Text, keys: &[SortKey<'_>]) -> Result<(), NoMemory>
    ensures { PutsBehind result text.old (spec.by_text (codes " ORDER BY ") spec.sort_key_text keys.now) text.new }
{
    if keys.is_empty() {
        return Ok(());
    }
    text.add(b" ORDER BY ")?;
    put_sort_keys(text, keys)
}

/// Appends what stands after the tables.
#[tactic(auto, unfolding(crate::specs::Words::clauses_text))]
fn put_clauses(text: &mut Text, query: &Query<'_>) -> Result<(), NoMemory>
    ensures { PutsBehind result text.old (spec.clauses_text query.now) text.new }
{
    put_filter(text, &query.filter)?;
    put_groups(text, query.groups.as_slice())?;
    put_order(text, query.keys.as_slice())
}

/// Appends the tables, and what stands after them.
fn put_sources(text: &mut Text, query: &Query<'_>) -> Result<(), NoMemory>
    ensures { PutsBehind result text.old (codes " FROM " ++ (spec.list_text spec.table_text query.now.tables ++ spec.clauses_text query.now)) text.new }
{
    text.add(b" FROM ")?;
    put_tables(text, query.tables.as_slice())?;
    put_clauses(text, query)
}

/// The text that spells the tree of `query`: reserved words in capitals, AS before each name that is given,
/// parentheses only where the tree needs them, one space between words.
#[tactic(auto, unfolding(crate::specs::Words::query_text))]
pub fn text_of(alloc: Global, query: &Query<'_>) -> Result<Text, NoMemory>
    ensures text { IfOk result (λ text. text ≡ spec.query_text query.now) }
    ensures spells { IfOk result (λ text. (source : List ℕ) (tokens : List Token) → AreTokens source tokens → IsQuery tokens query.now → Spells text query.now) }
{
    let mut text = Text::copy_of(alloc, b"SELECT ")?;
    put_items(&mut text, query.items.as_slice())?;
    put_sources(&mut text, query)?;
    Ok(text)
}
