//! The parser of the parts of a query, and of a whole query.

ghost use Rattle.om_token.specs.declared.terminal.Terminal.TheVariants as t;
ghost use Rattle.om_grammar.specs.Parsers.{Reads};
ghost use Rattle.om_grammar.specs.Reading as spec;

use crate::aggregates::Aggregates;
use crate::cond_tree::CondTree;
use crate::cursor::Cursor;
use crate::stop::Stop;
use crate::tree::{ColumnName, Item, Query, SortKey, TableName};
use crate::{conditions, expressions, names};
use om_base::Items;
use om_token::Terminal;
use std::alloc::Global;

/// A column of the result.
#[tactic(auto, unfolding(crate::specs::Reading::item))]
fn item<'a>(alloc: Global, depth: usize, tokens: &mut Cursor<'_, 'a>) -> Result<Item<'a>, Stop>
    ensures { Reads (spec.item depth tokens.old) result tokens.new }
{
    let expr = expressions::expr(alloc, depth, Aggregates::Allowed, tokens)?;
    let alias = names::naming_alias(alloc, tokens)?;
    Ok(Item { expr, alias })
}

/// Columns of the result.
#[tactic(auto, unfolding(crate::specs::Reading::listed))]
fn items<'a>(
    alloc: Global,
    depth: usize,
    tokens: &mut Cursor<'_, 'a>,
) -> Result<Items<Item<'a>>, Stop>
    ensures { Reads (spec.listed (spec.item depth) tokens.old) result tokens.new }
{
    let mut items = Items::new(alloc);
    items.push(item(alloc, depth, tokens)?)?;
    'commas: while let Some(_) = tokens.eat(Terminal::Comma) {
        items.push(item(alloc, depth, tokens)?)?;
    }
    Ok(items)
}

/// Tables.
#[tactic(auto, unfolding(crate::specs::Reading::listed))]
fn tables<'a>(alloc: Global, tokens: &mut Cursor<'_, 'a>) -> Result<Items<TableName<'a>>, Stop>
    ensures { Reads (spec.listed spec.table tokens.old) result tokens.new }
{
    let mut tables = Items::new(alloc);
    tables.push(names::table(tokens)?)?;
    'commas: while let Some(_) = tokens.eat(Terminal::Comma) {
        tables.push(names::table(tokens)?)?;
    }
    Ok(tables)
}

/// Columns that rows are grouped by.
#[tactic(auto, unfolding(crate::specs::Reading::listed))]
fn columns<'a>(alloc: Global, tokens: &mut Cursor<'_, 'a>) -> Result<Items<ColumnName<'a>>, Stop>
    ensures { Reads (spec.listed spec.column tokens.old) result tokens.new }
{
    let mut columns = Items::new(alloc);
    columns.push(names::column(alloc, tokens)?)?;
    'commas: while let Some(_) = tokens.eat(Terminal::Comma) {
        columns.push(names::column(alloc, tokens)?)?;
    }
    Ok(columns)
}

/// What rows are sorted by, first to last.
#[tactic(auto, unfolding(crate::specs::Reading::listed))]
fn sort_keys<'a>(alloc: Global, tokens: &mut Cursor<'_, 'a>) -> Result<Items<SortKey<'a>>, Stop>
    ensures { Reads (spec.listed spec.sort_key tokens.old) result tokens.new }
{
    let mut keys = Items::new(alloc);
    keys.push(names::sort_key(alloc, tokens)?)?;
    'commas: while let Some(_) = tokens.eat(Terminal::Comma) {
        keys.push(names::sort_key(alloc, tokens)?)?;
    }
    Ok(keys)
}

/// The columns after GROUP BY, if it is next.
#[tactic(auto, unfolding(crate::specs::Reading::by))]
fn groups<'a>(alloc: Global, tokens: &mut Cursor<'_, 'a>) -> Result<Items<ColumnName<'a>>, Stop>
    ensures { Reads (spec.by t.Group spec.column tokens.old) result tokens.new }
{
    let Some(_) = tokens.eat(Terminal::Group) else {
        return Ok(Items::new(alloc));
    };
    tokens.expect(Terminal::By)?;
    columns(alloc, tokens)
}

/// What stands after ORDER BY, if it is next.
#[tactic(auto, unfolding(crate::specs::Reading::by))]
fn keys<'a>(alloc: Global, tokens: &mut Cursor<'_, 'a>) -> Result<Items<SortKey<'a>>, Stop>
    ensures { Reads (spec.by t.Order spec.sort_key tokens.old) result tokens.new }
{
    let Some(_) = tokens.eat(Terminal::Order) else {
        return Ok(Items::new(alloc));
    };
    tokens.expect(Terminal::By)?;
    sort_keys(alloc, tokens)
}

/// The condition after WHERE, if it is next.
#[tactic(auto, unfolding(crate::specs::Reading::filter))]
fn filter<'a>(
    alloc: Global,
    depth: usize,
    tokens: &mut Cursor<'_, 'a>,
) -> Result<Option<CondTree<'a>>, Stop>
    ensures { Reads (spec.filter depth tokens.old) result tokens.new }
{
    let Some(_) = tokens.eat(Terminal::Where) else {
        return Ok(None);
    };
    let cond = conditions::cond(alloc, depth, tokens)?;
    Ok(Some(cond))
}

/// A semicolon, if it is next, and then no token.
#[tactic(auto, unfolding(crate::specs::Reading::closing))]
fn closing(tokens: &mut Cursor<'_, '_>) -> Result<(), Stop>
    ensures { Reads (spec.closing tokens.old) result tokens.new }
{
    tokens.eat(Terminal::Semicolon);
    tokens.end()
}

/// SELECT and the columns of the result.
#[tactic(auto, unfolding(crate::specs::Reading::select_list))]
fn select_list<'a>(
    alloc: Global,
    depth: usize,
    tokens: &mut Cursor<'_, 'a>,
) -> Result<Items<Item<'a>>, Stop>
    ensures { Reads (spec.select_list depth tokens.old) result tokens.new }
{
    tokens.expect(Terminal::Select)?;
    items(alloc, depth, tokens)
}

/// FROM and the tables.
#[tactic(auto, unfolding(crate::specs::Reading::from_clause))]
fn from_clause<'a>(alloc: Global, tokens: &mut Cursor<'_, 'a>) -> Result<Items<TableName<'a>>, Stop>
    ensures { Reads (spec.from_clause tokens.old) result tokens.new }
{
    tokens.expect(Terminal::From)?;
    tables(alloc, tokens)
}

/// The columns that rows are grouped by, and what they are sorted by, up to the end of the query.
#[tactic(auto, unfolding(crate::specs::Reading::sorting))]
fn sorting<'a>(
    alloc: Global,
    tokens: &mut Cursor<'_, 'a>,
) -> Result<(Items<ColumnName<'a>>, Items<SortKey<'a>>), Stop>
    ensures { Reads (spec.sorting tokens.old) result tokens.new }
{
    let groups = groups(alloc, tokens)?;
    let keys = keys(alloc, tokens)?;
    closing(tokens)?;
    Ok((groups, keys))
}

/// What goes on from the columns of the result.
fn after_items<'a>(
    alloc: Global,
    depth: usize,
    items: Items<Item<'a>>,
    tokens: &mut Cursor<'_, 'a>,
) -> Result<Query<'a>, Stop>
    ensures { Reads (spec.after_items depth items.entry tokens.old) result tokens.new }
{
    let tables = from_clause(alloc, tokens)?;
    let filter = filter(alloc, depth, tokens)?;
    let (groups, keys) = sorting(alloc, tokens)?;
    Ok(Query {
        items,
        tables,
        filter,
        groups,
        keys,
    })
}

/// A query, and no token after it.
#[tactic(auto, unfolding(crate::specs::Reading::whole))]
pub fn whole<'a>(
    alloc: Global,
    depth: usize,
    tokens: &mut Cursor<'_, 'a>,
) -> Result<Query<'a>, Stop>
    ensures { Reads (spec.whole depth tokens.old) result tokens.new }
{
    let items = select_list(alloc, depth, tokens)?;
    after_items(alloc, depth, items, tokens)
}
