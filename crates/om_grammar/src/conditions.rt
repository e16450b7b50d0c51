//! The parser of conditions. Where an expression may stand as well as a condition, it reads what is there and
//! says which it was.

ghost use Rattle.std.specs.Prelude.{◌<◌, ◌-◌};
ghost use Rattle.om_grammar.specs.declared.aggregates.Aggregates.TheVariants as aggregates;
ghost use Rattle.om_grammar.specs.Parsers.{Reads};
ghost use Rattle.om_grammar.specs.Reading as spec;

use crate::aggregates::Aggregates;
use crate::cond_tree::CondTree;
use crate::cursor::Cursor;
use crate::found::Found;
use crate::stop::Stop;
use crate::{expressions, predicates};
use om_token::Terminal;
use sqlite_items::{Boxed, Items as Members};
use std::alloc::Global;

/// A condition, where no expression may stand.
fn only_truth<'a>(found: Found<'a>, tokens: &Cursor<'_, 'a>) -> Result<CondTree<'a>, Stop>
    ensures { Reads (spec.only_truth found.entry tokens.now) result tokens.now }
{
    match found {
        Found::Truth(cond) => Ok(cond),
        Found::Value(_) => Err(Stop::Wrong),
    }
}

/// The rest of a test that begins with parentheses.
#[tactic(auto, unfolding(crate::specs::Reading::after_parens))]
fn after_parens<'a>(
    alloc: Global,
    depth: usize,
    found: Found<'a>,
    tokens: &mut Cursor<'_, 'a>,
) -> Result<Found<'a>, Stop>
    ensures { Reads (spec.after_parens (spec.factor_at depth aggregates.Refused) found.entry tokens.old) result tokens.new }
{
    match found {
        Found::Truth(cond) => Ok(Found::Truth(cond)),
        Found::Value(first) => {
            let value = expressions::resumed(alloc, depth, Aggregates::Refused, first, tokens)?;
            predicates::compared(alloc, depth, value, tokens)
        }
    }
}

/// An expression, or the predicate that begins with it.
fn plain_test<'a>(
    alloc: Global,
    depth: usize,
    tokens: &mut Cursor<'_, 'a>,
) -> Result<Found<'a>, Stop>
    ensures { Reads (spec.plain_test (spec.factor_at depth aggregates.Refused) tokens.old) result tokens.new }
{
    let value = predicates::value(alloc, depth, tokens)?;
    predicates::compared(alloc, depth, value, tokens)
}

/// A test, or an expression.
#[cycle(cond)]
#[tactic(auto, unfolding(crate::specs::Reading::one_test, crate::specs::Reading::closed))]
fn one_test<'a>(alloc: Global, depth: usize, tokens: &mut Cursor<'_, 'a>) -> Result<Found<'a>, Stop>
    requires { 0 < depth }
    ensures { Reads (spec.one_test (spec.cond_over (spec.neg_at (depth - 1))) (spec.factor_at depth aggregates.Refused) tokens.old) result tokens.new }
{
    let Some(_) = tokens.eat(Terminal::LeftParen) else {
        return plain_test(alloc, depth, tokens);
    };
    let found = both(alloc, depth - 1, tokens)?;
    tokens.expect(Terminal::RightParen)?;
    after_parens(alloc, depth, found, tokens)
}

/// A negation, or an expression.
#[cycle(cond)]
fn neg<'a>(alloc: Global, depth: usize, tokens: &mut Cursor<'_, 'a>) -> Result<Found<'a>, Stop>
    ensures { Reads (spec.neg_at depth tokens.old) result tokens.new }
{
    if depth == 0 {
        return Err(Stop::Deep);
    }
    let Some(at) = tokens.eat(Terminal::Not) else {
        return one_test(alloc, depth, tokens);
    };
    let cond = truth(alloc, depth - 1, tokens)?;
    let cond = Boxed::new(alloc, cond)?;
    Ok(Found::Truth(CondTree::Not { at, cond }))
}

/// A negation.
#[cycle(cond)]
#[tactic(auto, unfolding(crate::specs::Reading::truth))]
fn truth<'a>(alloc: Global, depth: usize, tokens: &mut Cursor<'_, 'a>) -> Result<CondTree<'a>, Stop>
    ensures { Reads (spec.truth (spec.neg_at depth) tokens.old) result tokens.new }
{
    let found = neg(alloc, depth, tokens)?;
    only_truth(found, tokens)
}

/// The rest of a conjunction whose first negation is read.
#[cycle(cond)]
fn conjunction<'a>(
    alloc: Global,
    depth: usize,
    first: CondTree<'a>,
    tokens: &mut Cursor<'_, 'a>,
) -> Result<CondTree<'a>, Stop>
    ensures { Reads (spec.conjunction (spec.neg_at depth) first.entry tokens.old) result tokens.new }
{
    let Some(_) = tokens.eat(Terminal::And) else {
        return Ok(first);
    };
    let mut members = Members::new(alloc);
    members.push(first)?;
    members.push(truth(alloc, depth, tokens)?)?;
    'ands: while let Some(_) = tokens.eat(Terminal::And) {
        members.push(truth(alloc, depth, tokens)?)?;
    }
    Ok(CondTree::All(members))
}

/// A conjunction.
#[cycle(cond)]
#[tactic(auto, unfolding(crate::specs::Reading::conj))]
fn conj<'a>(alloc: Global, depth: usize, tokens: &mut Cursor<'_, 'a>) -> Result<CondTree<'a>, Stop>
    ensures { Reads (spec.conj (spec.neg_at depth) tokens.old) result tokens.new }
{
    let first = truth(alloc, depth, tokens)?;
    conjunction(alloc, depth, first, tokens)
}

/// The rest of a disjunction whose first conjunction is read.
#[cycle(cond)]
fn disjunction<'a>(
    alloc: Global,
    depth: usize,
    first: CondTree<'a>,
    tokens: &mut Cursor<'_, 'a>,
) -> Result<CondTree<'a>, Stop>
    ensures { Reads (spec.disjunction (spec.neg_at depth) first.entry tokens.old) result tokens.new }
{
    let Some(_) = tokens.eat(Terminal::Or) else {
        return Ok(first);
    };
    let mut members = Members::new(alloc);
    members.push(first)?;
    members.push(conj(alloc, depth, tokens)?)?;
    'ors: while let Some(_) = tokens.eat(Terminal::Or) {
        members.push(conj(alloc, depth, tokens)?)?;
    }
    Ok(CondTree::Any(members))
}

/// The rest of a condition whose first negation is read, or an expression.
#[cycle(cond)]
#[tactic(auto, unfolding(crate::specs::Reading::after_neg))]
fn after_neg<'a>(
    alloc: Global,
    depth: usize,
    found: Found<'a>,
    tokens: &mut Cursor<'_, 'a>,
) -> Result<Found<'a>, Stop>
    ensures { Reads (spec.after_neg (spec.neg_at depth) found.entry tokens.old) result tokens.new }
{
    match found {
        Found::Value(value) => Ok(Found::Value(value)),
        Found::Truth(first) => {
            let first = conjunction(alloc, depth, first, tokens)?;
            let cond = disjunction(alloc, depth, first, tokens)?;
            Ok(Found::Truth(cond))
        }
    }
}

/// A condition, or an expression.
#[cycle(cond)]
#[tactic(auto, unfolding(crate::specs::Reading::cond_over))]
fn both<'a>(alloc: Global, depth: usize, tokens: &mut Cursor<'_, 'a>) -> Result<Found<'a>, Stop>
    ensures { Reads (spec.cond_over (spec.neg_at depth) tokens.old) result tokens.new }
{
    let found = neg(alloc, depth, tokens)?;
    after_neg(alloc, depth, found, tokens)
}

/// A condition.
#[tactic(auto, unfolding(crate::specs::Reading::cond, crate::specs::Reading::truth))]
pub fn cond<'a>(
    alloc: Global,
    depth: usize,
    tokens: &mut Cursor<'_, 'a>,
) -> Result<CondTree<'a>, Stop>
    ensures { Reads (spec.cond depth tokens.old) result tokens.new }
{
    let found = both(alloc, depth, tokens)?;
    only_truth(found, tokens)
}
