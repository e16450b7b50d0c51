//! The parser: a function for each production, which reads from a [`Cursor`].

ghost use Rattle.om_parse.specs.Reading as spec;
ghost use Rattle.om_parse.specs.Reading.{Reads};

use crate::cursor::{Cursor, Stop};
use crate::tree::{CondTree, ExprTree, Item, Query, TableName};
use om_base::Items;
use om_token::Terminal;
use sqlite_items::Items as Members;
use std::alloc::Global;

#[tactic(auto, unfolding(crate::specs::Reading::item))]
fn item<'a>(tokens: &mut Cursor<'_, 'a>) -> Result<Item<'a>, Stop>
    ensures { Reads (spec.item tokens.old) result tokens.new }
{
    let name = tokens.column()?;
    Ok(Item {
        expr: ExprTree::Column(name),
    })
}

#[tactic(auto, unfolding(crate::specs::Reading::items))]
fn items<'a>(alloc: Global, tokens: &mut Cursor<'_, 'a>) -> Result<Items<Item<'a>>, Stop>
    ensures { Reads (spec.items tokens.old) result tokens.new }
{
    let mut items = Items::new(alloc);
    items.push(item(tokens)?)?;
    'commas: while tokens.eat(Terminal::Comma) {
        items.push(item(tokens)?)?;
    }
    Ok(items)
}

/// `column op numeral`.
#[tactic(auto, unfolding(crate::specs::Reading::one_test))]
fn test<'a>(tokens: &mut Cursor<'_, 'a>) -> Result<CondTree<'a>, Stop>
    ensures { Reads (spec.one_test tokens.old) result tokens.new }
{
    let left = tokens.column()?;
    let (at, op) = tokens.operator()?;
    let right = tokens.numeral()?;
    Ok(CondTree::Compare {
        at,
        op,
        left: ExprTree::Column(left),
        right: ExprTree::Numeral(right),
    })
}

/// Two or more tests joined by AND, of which the first and its AND are read.
#[tactic(auto, unfolding(crate::specs::Reading::joined))]
fn joined<'a>(
    alloc: Global,
    first: CondTree<'a>,
    tokens: &mut Cursor<'_, 'a>,
) -> Result<CondTree<'a>, Stop>
    ensures { Reads (spec.joined first.entry tokens.old) result tokens.new }
{
    let mut tests = Members::new(alloc);
    tests.push(first)?;
    tests.push(test(tokens)?)?;
    'ands: while tokens.eat(Terminal::And) {
        tests.push(test(tokens)?)?;
    }
    Ok(CondTree::All(tests))
}

/// A condition: a test alone, or several joined by AND.
#[tactic(auto, unfolding(crate::specs::Reading::cond))]
fn cond<'a>(alloc: Global, tokens: &mut Cursor<'_, 'a>) -> Result<CondTree<'a>, Stop>
    ensures { Reads (spec.cond tokens.old) result tokens.new }
{
    let first = test(tokens)?;
    if tokens.eat(Terminal::And) {
        joined(alloc, first, tokens)
    } else {
        Ok(first)
    }
}

/// The condition after WHERE, if there is one.
#[tactic(auto, unfolding(crate::specs::Reading::filter))]
fn filter<'a>(alloc: Global, tokens: &mut Cursor<'_, 'a>) -> Result<Option<CondTree<'a>>, Stop>
    ensures { Reads (spec.filter tokens.old) result tokens.new }
{
    if !tokens.eat(Terminal::Where) {
        return Ok(None);
    }
    let cond = cond(alloc, tokens)?;
    Ok(Some(cond))
}

#[tactic(auto, unfolding(crate::specs::Reading::select_list))]
fn select_list<'a>(alloc: Global, tokens: &mut Cursor<'_, 'a>) -> Result<Items<Item<'a>>, Stop>
    ensures { Reads (spec.select_list tokens.old) result tokens.new }
{
    tokens.expect(Terminal::Select)?;
    items(alloc, tokens)
}

#[tactic(auto, unfolding(crate::specs::Reading::from_clause))]
fn from_clause<'a>(tokens: &mut Cursor<'_, 'a>) -> Result<TableName<'a>, Stop>
    ensures { Reads (spec.from_clause tokens.old) result tokens.new }
{
    tokens.expect(Terminal::From)?;
    tokens.table()
}

#[tactic(auto, unfolding(crate::specs::Reading::query))]
fn query<'a>(alloc: Global, tokens: &mut Cursor<'_, 'a>) -> Result<Query<'a>, Stop>
    ensures { Reads (spec.query tokens.old) result tokens.new }
{
    let items = select_list(alloc, tokens)?;
    let table = from_clause(tokens)?;
    let filter = filter(alloc, tokens)?;
    let mut tables = Items::new(alloc);
    tables.push(table)?;
    Ok(Query {
        items,
        tables,
        filter,
    })
}

/// A query, and no token after it.
#[tactic(auto, unfolding(crate::specs::Reading::whole))]
pub fn whole<'a>(alloc: Global, tokens: &mut Cursor<'_, 'a>) -> Result<Query<'a>, Stop>
    ensures { Reads (spec.whole tokens.old) result tokens.new }
{
    let query = query(alloc, tokens)?;
    tokens.end()?;
    Ok(query)
}
