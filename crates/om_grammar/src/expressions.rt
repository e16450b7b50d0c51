//! The parser of expressions. `depth` is how many more parentheses and signs may be open.

ghost use Rattle.std.specs.Prelude.{◌≡◌, IfOk};
ghost use Rattle.om_grammar.specs.Grammar as tree;
ghost use Rattle.om_grammar.specs.Parsers.{Reads};
ghost use Rattle.om_grammar.specs.Reading as spec;

use crate::aggregates::Aggregates;
use crate::cursor::Cursor;
use crate::expr_tree::{Addend, ExprTree, Factor, Numeral};
use crate::fronts::front;
use crate::start::{Form, Start};
use crate::stop::Stop;
use om_base::NoMemory;
use om_token::Terminal;
use sqlite_items::{Boxed, Items as Members};
use std::alloc::Global;

/// A comma and a numeral.
#[tactic(auto, unfolding(crate::specs::Reading::comma_numeral))]
fn comma_numeral(tokens: &mut Cursor<'_, '_>) -> Result<Numeral, Stop>
    ensures { Reads (spec.comma_numeral tokens.old) result tokens.new }
{
    tokens.expect(Terminal::Comma)?;
    tokens.numeral()
}

/// The rest of BITS behind its expression, up to the parenthesis.
#[tactic(auto, unfolding(crate::specs::Reading::bit_numbers))]
fn bit_numbers<'a>(
    alloc: Global,
    at: u32,
    x: ExprTree<'a>,
    tokens: &mut Cursor<'_, 'a>,
) -> Result<ExprTree<'a>, Stop>
    ensures { Reads (spec.bit_numbers at x.entry tokens.old) result tokens.new }
{
    let high = comma_numeral(tokens)?;
    let low = comma_numeral(tokens)?;
    let expr = Boxed::new(alloc, x)?;
    Ok(ExprTree::Bits {
        at,
        expr,
        high,
        low,
    })
}

/// What goes on from the expression in parentheses, up to the parenthesis that closes.
#[tactic(auto, unfolding(crate::specs::Reading::completed))]
fn completed<'a>(
    alloc: Global,
    form: Form<'a>,
    x: ExprTree<'a>,
    tokens: &mut Cursor<'_, 'a>,
) -> Result<ExprTree<'a>, Stop>
    ensures { Reads (spec.completed form.entry x.entry tokens.old) result tokens.new }
{
    match form {
        Form::Paren => Ok(x),
        Form::Signed { at } => {
            let expr = Boxed::new(alloc, x)?;
            Ok(ExprTree::Signed { at, expr })
        }
        Form::Bits { at } => bit_numbers(alloc, at, x, tokens),
        Form::Memory {
            qualifier,
            at,
            width,
        } => {
            let address = Boxed::new(alloc, x)?;
            Ok(ExprTree::Memory {
                qualifier,
                at,
                width,
                address,
            })
        }
        Form::Aggregate { at, function } => {
            let expr = Boxed::new(alloc, x)?;
            Ok(ExprTree::Aggregate { at, function, expr })
        }
    }
}

/// Whether aggregates may stand in the parentheses.
#[tactic(auto, unfolding(crate::specs::Reading::inside))]
fn inside(aggregates: Aggregates, form: &Form<'_>) -> Aggregates
    ensures { result ≡ spec.inside aggregates form.now }
{
    match form {
        Form::Aggregate { at: _, function: _ } => Aggregates::Refused,
        _ => aggregates,
    }
}

/// A product of a first factor and more of them, if there are.
fn product_of<'a>(
    alloc: Global,
    first: ExprTree<'a>,
    factors: Members<Factor<'a>>,
) -> Result<ExprTree<'a>, NoMemory>
    ensures { IfOk result (λ it. it ≡ tree.product_of first.entry factors.entry) }
{
    if factors.is_empty() {
        return Ok(first);
    }
    let first = Boxed::new(alloc, first)?;
    Ok(ExprTree::Product(first, factors))
}

/// A sum of a first term and more of them, if there are.
fn sum_of<'a>(
    alloc: Global,
    first: ExprTree<'a>,
    addends: Members<Addend<'a>>,
) -> Result<ExprTree<'a>, NoMemory>
    ensures { IfOk result (λ it. it ≡ tree.sum_of first.entry addends.entry) }
{
    if addends.is_empty() {
        return Ok(first);
    }
    let first = Boxed::new(alloc, first)?;
    Ok(ExprTree::Sum(first, addends))
}

/// An expression.
#[cycle(parser)]
#[tactic(auto, unfolding(crate::specs::Reading::expr, crate::specs::Reading::expr_over))]
pub fn expr<'a>(
    alloc: Global,
    depth: usize,
    aggregates: Aggregates,
    tokens: &mut Cursor<'_, 'a>,
) -> Result<ExprTree<'a>, Stop>
    ensures { Reads (spec.expr depth aggregates tokens.old) result tokens.new }
{
    let first = term(alloc, depth, aggregates, tokens)?;
    sum(alloc, depth, aggregates, first, tokens)
}

/// A term of a sum.
#[cycle(parser)]
#[tactic(auto, unfolding(crate::specs::Reading::term))]
fn term<'a>(
    alloc: Global,
    depth: usize,
    aggregates: Aggregates,
    tokens: &mut Cursor<'_, 'a>,
) -> Result<ExprTree<'a>, Stop>
    ensures { Reads (spec.term (spec.factor_at depth aggregates) tokens.old) result tokens.new }
{
    let first = factor(alloc, depth, aggregates, tokens)?;
    product(alloc, depth, aggregates, first, tokens)
}

/// The factors of a product, after the first.
#[cycle(parser)]
#[tactic(auto, unfolding(crate::specs::Reading::more_factors))]
fn more_factors<'a>(
    alloc: Global,
    depth: usize,
    aggregates: Aggregates,
    tokens: &mut Cursor<'_, 'a>,
) -> Result<Members<Factor<'a>>, Stop>
    ensures { Reads (spec.more_factors (spec.factor_at depth aggregates) tokens.old) result tokens.new }
{
    let mut factors = Members::new(alloc);
    'factors: while let Some((at, scale)) = tokens.scale() {
        let factor = factor(alloc, depth, aggregates, tokens)?;
        factors.push(Factor { at, scale, factor })?;
    }
    Ok(factors)
}

/// The rest of a product.
#[cycle(parser)]
#[tactic(auto, unfolding(crate::specs::Reading::product))]
fn product<'a>(
    alloc: Global,
    depth: usize,
    aggregates: Aggregates,
    first: ExprTree<'a>,
    tokens: &mut Cursor<'_, 'a>,
) -> Result<ExprTree<'a>, Stop>
    ensures { Reads (spec.product (spec.factor_at depth aggregates) first.entry tokens.old) result tokens.new }
{
    let factors = more_factors(alloc, depth, aggregates, tokens)?;
    let product = product_of(alloc, first, factors)?;
    Ok(product)
}

/// The terms of a sum, after the first.
#[cycle(parser)]
#[tactic(auto, unfolding(crate::specs::Reading::more_addends))]
fn more_addends<'a>(
    alloc: Global,
    depth: usize,
    aggregates: Aggregates,
    tokens: &mut Cursor<'_, 'a>,
) -> Result<Members<Addend<'a>>, Stop>
    ensures { Reads (spec.more_addends (spec.factor_at depth aggregates) tokens.old) result tokens.new }
{
    let mut addends = Members::new(alloc);
    'addends: while let Some((at, sign)) = tokens.sign() {
        let term = term(alloc, depth, aggregates, tokens)?;
        addends.push(Addend { at, sign, term })?;
    }
    Ok(addends)
}

/// The rest of a sum.
#[cycle(parser)]
#[tactic(auto, unfolding(crate::specs::Reading::sum))]
fn sum<'a>(
    alloc: Global,
    depth: usize,
    aggregates: Aggregates,
    first: ExprTree<'a>,
    tokens: &mut Cursor<'_, 'a>,
) -> Result<ExprTree<'a>, Stop>
    ensures { Reads (spec.sum (spec.factor_at depth aggregates) first.entry tokens.old) result tokens.new }
{
    let addends = more_addends(alloc, depth, aggregates, tokens)?;
    let sum = sum_of(alloc, first, addends)?;
    Ok(sum)
}

/// A factor of a product.
#[cycle(parser)]
#[tactic(auto, unfolding(crate::specs::Reading::factor_at, crate::specs::Reading::expr))]
fn factor<'a>(
    alloc: Global,
    depth: usize,
    aggregates: Aggregates,
    tokens: &mut Cursor<'_, 'a>,
) -> Result<ExprTree<'a>, Stop>
    ensures { Reads (spec.factor_at depth aggregates tokens.old) result tokens.new }
{
    if depth == 0 {
        return Err(Stop::Deep);
    }
    let Some((at, sign)) = tokens.sign() else {
        return primary(alloc, depth - 1, aggregates, tokens);
    };
    let factor = factor(alloc, depth - 1, aggregates, tokens)?;
    let expr = Boxed::new(alloc, factor)?;
    Ok(ExprTree::Sign { at, sign, expr })
}

/// A primary.
#[cycle(parser)]
#[tactic(auto, unfolding(crate::specs::Reading::primary, crate::specs::Reading::finish))]
fn primary<'a>(
    alloc: Global,
    depth: usize,
    aggregates: Aggregates,
    tokens: &mut Cursor<'_, 'a>,
) -> Result<ExprTree<'a>, Stop>
    ensures { Reads (spec.primary (spec.expr depth) aggregates tokens.old) result tokens.new }
{
    let start = front(alloc, aggregates, tokens)?;
    match start {
        Start::Whole(x) => Ok(x),
        Start::Rows { at } => {
            tokens.expect(Terminal::RightParen)?;
            Ok(ExprTree::CountRows { at })
        }
        Start::Open(form) => nested(alloc, depth, aggregates, form, tokens),
    }
}

/// The rest of a primary with an expression in parentheses.
#[cycle(parser)]
#[tactic(auto, unfolding(crate::specs::Reading::nested))]
fn nested<'a>(
    alloc: Global,
    depth: usize,
    aggregates: Aggregates,
    form: Form<'a>,
    tokens: &mut Cursor<'_, 'a>,
) -> Result<ExprTree<'a>, Stop>
    ensures { Reads (spec.nested (spec.expr depth) aggregates form.entry tokens.old) result tokens.new }
{
    let inside = inside(aggregates, &form);
    let x = expr(alloc, depth, inside, tokens)?;
    let whole = completed(alloc, form, x, tokens)?;
    tokens.expect(Terminal::RightParen)?;
    Ok(whole)
}

/// The rest of an expression that begins with a primary.
#[tactic(auto, unfolding(crate::specs::Reading::resumed))]
pub fn resumed<'a>(
    alloc: Global,
    depth: usize,
    aggregates: Aggregates,
    first: ExprTree<'a>,
    tokens: &mut Cursor<'_, 'a>,
) -> Result<ExprTree<'a>, Stop>
    ensures { Reads (spec.resumed (spec.factor_at depth aggregates) first.entry tokens.old) result tokens.new }
{
    let first = product(alloc, depth, aggregates, first, tokens)?;
    sum(alloc, depth, aggregates, first, tokens)
}
