//! The parser of predicates.

ghost use Rattle.om_grammar.specs.Parsers.{Reads};
ghost use Rattle.om_grammar.specs.Reading as spec;

use crate::aggregates::Aggregates;
use crate::cond_tree::{CondTree, Polarity, Predicate};
use crate::cursor::Cursor;
use crate::expr_tree::ExprTree;
use crate::expressions;
use crate::found::Found;
use crate::lead::{Negatable, Word};
use crate::stop::Stop;
use om_token::Terminal;
use sqlite_items::Items as Members;
use std::alloc::Global;

/// An expression without aggregates.
#[tactic(auto, unfolding(crate::specs::Reading::expr))]
pub fn value<'a>(
    alloc: Global,
    depth: usize,
    tokens: &mut Cursor<'_, 'a>,
) -> Result<ExprTree<'a>, Stop>
    ensures { Reads (spec.value depth tokens.old) result tokens.new }
{
    expressions::expr(alloc, depth, Aggregates::Refused, tokens)
}

/// `low AND high`, behind BETWEEN.
#[tactic(auto, unfolding(crate::specs::Reading::between))]
fn between<'a>(
    alloc: Global,
    depth: usize,
    at: u32,
    polarity: Polarity,
    what: ExprTree<'a>,
    tokens: &mut Cursor<'_, 'a>,
) -> Result<Predicate<'a>, Stop>
    ensures { Reads (spec.between at polarity what.entry (spec.value depth) tokens.old) result tokens.new }
{
    let low = value(alloc, depth, tokens)?;
    tokens.expect(Terminal::And)?;
    let high = value(alloc, depth, tokens)?;
    Ok(Predicate::Between {
        at,
        polarity,
        what,
        low,
        high,
    })
}

/// Expressions, with commas between them.
#[tactic(auto, unfolding(crate::specs::Reading::listed))]
fn values<'a>(
    alloc: Global,
    depth: usize,
    tokens: &mut Cursor<'_, 'a>,
) -> Result<Members<ExprTree<'a>>, Stop>
    ensures { Reads (spec.listed (spec.value depth) tokens.old) result tokens.new }
{
    let mut values = Members::new(alloc);
    values.push(value(alloc, depth, tokens)?)?;
    'commas: while let Some(_) = tokens.eat(Terminal::Comma) {
        values.push(value(alloc, depth, tokens)?)?;
    }
    Ok(values)
}

/// Expressions between parentheses.
#[tactic(auto, unfolding(crate::specs::Reading::enclosed, crate::specs::Reading::closed))]
fn enclosed_values<'a>(
    alloc: Global,
    depth: usize,
    tokens: &mut Cursor<'_, 'a>,
) -> Result<Members<ExprTree<'a>>, Stop>
    ensures { Reads (spec.enclosed (spec.listed (spec.value depth)) tokens.old) result tokens.new }
{
    tokens.expect(Terminal::LeftParen)?;
    let values = values(alloc, depth, tokens)?;
    tokens.expect(Terminal::RightParen)?;
    Ok(values)
}

/// A list in parentheses, behind IN.
#[tactic(auto, unfolding(crate::specs::Reading::within))]
fn within<'a>(
    alloc: Global,
    depth: usize,
    at: u32,
    polarity: Polarity,
    what: ExprTree<'a>,
    tokens: &mut Cursor<'_, 'a>,
) -> Result<Predicate<'a>, Stop>
    ensures { Reads (spec.within at polarity what.entry (spec.value depth) tokens.old) result tokens.new }
{
    let list = enclosed_values(alloc, depth, tokens)?;
    Ok(Predicate::In {
        at,
        polarity,
        what,
        list,
    })
}

/// What goes on from NOT behind an expression.
#[tactic(auto, unfolding(crate::specs::Reading::after_not))]
fn after_not<'a>(
    alloc: Global,
    depth: usize,
    what: ExprTree<'a>,
    negatable: Negatable,
    tokens: &mut Cursor<'_, 'a>,
) -> Result<Predicate<'a>, Stop>
    ensures { Reads (spec.after_not what.entry (spec.value depth) negatable tokens.old) result tokens.new }
{
    match negatable {
        Negatable::Between { at } => between(alloc, depth, at, Polarity::Negated, what, tokens),
        Negatable::In { at } => within(alloc, depth, at, Polarity::Negated, what, tokens),
    }
}

/// NOT, if it is next.
fn polarity(tokens: &mut Cursor<'_, '_>) -> Polarity
    ensures { Reads (spec.polarity_parser tokens.old) (Ok result) tokens.new }
{
    match tokens.eat(Terminal::Not) {
        Some(_) => Polarity::Negated,
        None => Polarity::Plain,
    }
}

/// `[NOT] NULL`, behind IS.
#[tactic(auto, unfolding(crate::specs::Reading::is_null))]
fn is_null<'a>(
    at: u32,
    what: ExprTree<'a>,
    tokens: &mut Cursor<'_, 'a>,
) -> Result<Predicate<'a>, Stop>
    ensures { Reads (spec.is_null at what.entry tokens.old) result tokens.new }
{
    let polarity = polarity(tokens);
    tokens.expect(Terminal::Null)?;
    Ok(Predicate::IsNull { at, polarity, what })
}

/// What goes on from the word behind an expression.
#[tactic(auto, unfolding(crate::specs::Reading::after_word))]
fn after_word<'a>(
    alloc: Global,
    depth: usize,
    what: ExprTree<'a>,
    word: Word,
    tokens: &mut Cursor<'_, 'a>,
) -> Result<Predicate<'a>, Stop>
    ensures { Reads (spec.after_word what.entry (spec.value depth) word tokens.old) result tokens.new }
{
    match word {
        Word::Compare { at, op } => {
            let right = value(alloc, depth, tokens)?;
            Ok(Predicate::Compare {
                at,
                op,
                left: what,
                right,
            })
        }
        Word::Not => {
            let negatable = tokens.negatable()?;
            after_not(alloc, depth, what, negatable, tokens)
        }
        Word::Between { at } => between(alloc, depth, at, Polarity::Plain, what, tokens),
        Word::In { at } => within(alloc, depth, at, Polarity::Plain, what, tokens),
        Word::Is { at } => is_null(at, what, tokens),
    }
}

/// The expression itself, or the predicate that begins with it.
#[tactic(auto, unfolding(crate::specs::Reading::compared))]
pub fn compared<'a>(
    alloc: Global,
    depth: usize,
    what: ExprTree<'a>,
    tokens: &mut Cursor<'_, 'a>,
) -> Result<Found<'a>, Stop>
    ensures { Reads (spec.compared (spec.value depth) what.entry tokens.old) result tokens.new }
{
    let Some(word) = tokens.word() else {
        return Ok(Found::Value(what));
    };
    let predicate = after_word(alloc, depth, what, word, tokens)?;
    Ok(Found::Truth(CondTree::Predicate(predicate)))
}
