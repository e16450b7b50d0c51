//! Writes expressions and conditions as text.

ghost use Rattle.std.specs.Prelude.{◌≡◌, [], ◌∷◌, ◌++◌, codes};
ghost use Rattle.std.specs.Fmt.{decimal};
ghost use Rattle.om_base.specs.Appending.{PutsBehind};
ghost use Rattle.om_token.specs.Quotes.{quoted};
ghost use Rattle.om_grammar.specs.Words as spec;

use crate::cond_tree::{CompareOp, CondTree, Polarity, Predicate};
use crate::expr_tree::{ExprTree, Function, Scale, Sign, Width};
use crate::tree::{ColumnName, Identifier, Label};
use om_base::{NoMemory, Text, put_decimal};

// ---- words

/// A sign between two spaces.
fn spaced_sign(sign: Sign) -> &'static [u8]
    ensures { result.now ≡ spec.spaced (spec.sign_word sign) }
{
    match sign {
        Sign::Plus => b" + ",
        Sign::Minus => b" - ",
    }
}

/// A sign before its factor.
fn leading_sign(sign: Sign) -> &'static [u8]
    ensures { result.now ≡ spec.word (spec.sign_word sign) ++ (32 ∷ []) }
{
    match sign {
        Sign::Plus => b"+ ",
        Sign::Minus => b"- ",
    }
}

/// The operator of a product between two spaces.
fn spaced_scale(scale: Scale) -> &'static [u8]
    ensures { result.now ≡ spec.spaced (spec.scale_word scale) }
{
    match scale {
        Scale::Times => b" * ",
        Scale::Divide => b" / ",
    }
}

/// The word of a memory form, and the parenthesis behind it.
fn width_call(width: Width) -> &'static [u8]
    ensures { result.now ≡ spec.word (spec.width_word width) ++ codes "(" }
{
    match width {
        Width::Byte => b"MEM8(",
        Width::Half => b"MEM16(",
        Width::Word => b"MEM32(",
    }
}

/// The word of an aggregate, and the parenthesis behind it.
fn function_call(function: Function) -> &'static [u8]
    ensures { result.now ≡ spec.word (spec.function_word function) ++ codes "(" }
{
    match function {
        Function::Count => b"COUNT(",
        Function::Min => b"MIN(",
        Function::Max => b"MAX(",
    }
}

/// The operator of a comparison between two spaces.
fn spaced_operator(op: CompareOp) -> &'static [u8]
    ensures { result.now ≡ spec.spaced (spec.operator_word op) }
{
    match op {
        CompareOp::Equal => b" = ",
        CompareOp::NotEqual => b" <> ",
        CompareOp::Less => b" < ",
        CompareOp::LessOrEqual => b" <= ",
        CompareOp::Greater => b" > ",
        CompareOp::GreaterOrEqual => b" >= ",
    }
}

// ---- numbers and names

/// Appends a number.
pub fn put_number(text: &mut Text, number: u64) -> Result<(), NoMemory>
    ensures { PutsBehind result text.old (decimal number) text.new }
{
    put_decimal(text, number as i128)
}

/// Appends what stands between quotes for one byte.
fn put_said(text: &mut Text, quote: u8, byte: u8) -> Result<(), NoMemory>
    ensures { PutsBehind result text.old (spec.said quote byte) text.new }
{
    if byte == quote {
        text.add(&[quote, quote])
    } else {
        text.add(&[byte])
    }
}

/// Appends what stands between quotes so that `said` is said.
fn put_quoted(text: &mut Text, quote: u8, said: &[u8]) -> Result<(), NoMemory>
    ensures { PutsBehind result text.old (quoted quote said.now) text.new }
{
    for byte in said {
        put_said(text, quote, *byte)?;
    }
    Ok(())
}

/// Appends what `said` says, between quotes.
pub fn put_in_quotes(text: &mut Text, quote: u8, said: &[u8]) -> Result<(), NoMemory>
    ensures { PutsBehind result text.old (spec.in_quotes quote said.now) text.new }
{
    text.add(&[quote])?;
    put_quoted(text, quote, said)?;
    text.add(&[quote])
}

/// Appends a name.
pub fn put_identifier(text: &mut Text, name: &Identifier<'_>) -> Result<(), NoMemory>
    ensures { PutsBehind result text.old (spec.identifier_text name.now) text.new }
{
    match name {
        Identifier::Regular(name) => text.add(name.bytes()),
        Identifier::Delimited(said) => put_in_quotes(text, b'"', said.bytes()),
    }
}

/// Appends a range variable and its point.
fn put_qualifier(text: &mut Text, qualifier: &Option<Label<'_>>) -> Result<(), NoMemory>
    ensures { PutsBehind result text.old (spec.qualifier_text qualifier.now) text.new }
{
    match qualifier {
        Some(label) => {
            text.add(label.name.bytes())?;
            text.add(b".")
        }
        None => Ok(()),
    }
}

/// Appends a column.
pub fn put_column(text: &mut Text, column: &ColumnName<'_>) -> Result<(), NoMemory>
    ensures { PutsBehind result text.old (spec.column_text column.now) text.new }
{
    put_qualifier(text, &column.qualifier)?;
    put_identifier(text, &column.name)
}

/// Appends a number, behind a comma.
fn put_bound(text: &mut Text, number: u64) -> Result<(), NoMemory>
    ensures { PutsBehind result text.old (codes ", " ++ decimal number) text.new }
{
    text.add(b", ")?;
    put_number(text, number)
}

/// Appends the bounds of BITS, and the parenthesis that closes.
fn put_bounds(text: &mut Text, high: u64, low: u64) -> Result<(), NoMemory>
    ensures { PutsBehind result text.old (spec.bounds_text high low ++ codes ")") text.new }
{
    put_bound(text, high)?;
    put_bound(text, low)?;
    text.add(b")")
}

// ---- expressions

/// Appends an expression.
#[cycle(expr_text)]
pub fn put_expr(text: &mut Text, expr: &ExprTree<'_>) -> Result<(), NoMemory>
    ensures { PutsBehind result text.old (spec.expr_text expr.now) text.new }
{
    match expr {
        ExprTree::Numeral(numeral) => put_number(text, numeral.value),
        ExprTree::Text { at: _, text: said } => put_in_quotes(text, b'\'', said.bytes()),
        ExprTree::Null { at: _ } => text.add(b"NULL"),
        ExprTree::Column(column) => put_column(text, column),
        ExprTree::Sum(first, rest) => {
            put_term(text, first.get())?;
            for addend in rest.as_slice() {
                text.add(spaced_sign(addend.sign))?;
                put_term(text, &addend.term)?;
            }
            Ok(())
        }
        ExprTree::Product(first, rest) => {
            put_factor(text, first.get())?;
            for factor in rest.as_slice() {
                text.add(spaced_scale(factor.scale))?;
                put_factor(text, &factor.factor)?;
            }
            Ok(())
        }
        ExprTree::Sign { at: _, sign, expr } => {
            text.add(leading_sign(*sign))?;
            put_factor(text, expr.get())
        }
        ExprTree::Signed { at: _, expr } => put_call(text, b"SIGNED(", expr.get()),
        ExprTree::Bits {
            at: _,
            expr,
            high,
            low,
        } => {
            text.add(b"BITS(")?;
            put_expr(text, expr.get())?;
            put_bounds(text, high.value, low.value)
        }
        ExprTree::Memory {
            qualifier,
            at: _,
            width,
            address,
        } => {
            put_qualifier(text, qualifier)?;
            put_call(text, width_call(*width), address.get())
        }
        ExprTree::CountRows { at: _ } => text.add(b"COUNT(*)"),
        ExprTree::Aggregate {
            at: _,
            function,
            expr,
        } => put_call(text, function_call(*function), expr.get()),
    }
}

/// Appends an expression as a term of a sum.
#[cycle(expr_text)]
fn put_term(text: &mut Text, expr: &ExprTree<'_>) -> Result<(), NoMemory>
    ensures { PutsBehind result text.old (spec.expr_texts expr.now).term text.new }
{
    match expr {
        ExprTree::Sum(_, _) => put_call(text, b"(", expr),
        _ => put_expr(text, expr),
    }
}

/// Appends an expression as a factor of a product.
#[cycle(expr_text)]
fn put_factor(text: &mut Text, expr: &ExprTree<'_>) -> Result<(), NoMemory>
    ensures { PutsBehind result text.old (spec.expr_texts expr.now).factor text.new }
{
    match expr {
        ExprTree::Sum(_, _) | ExprTree::Product(_, _) => put_call(text, b"(", expr),
        _ => put_expr(text, expr),
    }
}

/// Appends an expression between a parenthesis, with what stands before it, and the one that closes.
#[cycle(expr_text)]
fn put_call(text: &mut Text, opening: &[u8], expr: &ExprTree<'_>) -> Result<(), NoMemory>
    ensures { PutsBehind result text.old (opening.now ++ (spec.expr_text expr.now ++ codes ")")) text.new }
{
    text.add(opening)?;
    put_expr(text, expr)?;
    text.add(b")")
}

// ---- predicates

/// A word behind an expression, between two spaces, with NOT before it where the predicate is negated.
fn negatable(polarity: Polarity, plain: &'static [u8], negated: &'static [u8]) -> &'static [u8]
    ensures { result.now ≡ spec.chosen polarity plain.now negated.now }
{
    match polarity {
        Polarity::Plain => plain,
        Polarity::Negated => negated,
    }
}

/// Appends the bounds of BETWEEN.
fn put_range(text: &mut Text, low: &ExprTree<'_>, high: &ExprTree<'_>) -> Result<(), NoMemory>
    ensures { PutsBehind result text.old (spec.range_text low.now high.now) text.new }
{
    put_expr(text, low)?;
    text.add(b" AND ")?;
    put_expr(text, high)
}

/// Appends expressions, with commas between them.
fn put_exprs(text: &mut Text, list: &[ExprTree<'_>]) -> Result<(), NoMemory>
    ensures { PutsBehind result text.old (spec.list_text spec.expr_text list.now) text.new }
{
    let [first, rest @ ..] = list else {
        return Ok(());
    };
    put_expr(text, first)?;
    for expr in rest {
        text.add(b", ")?;
        put_expr(text, expr)?;
    }
    Ok(())
}

/// Appends expressions between parentheses.
fn put_list(text: &mut Text, list: &[ExprTree<'_>]) -> Result<(), NoMemory>
    ensures { PutsBehind result text.old (spec.in_brackets (spec.list_text spec.expr_text list.now)) text.new }
{
    text.add(b"(")?;
    put_exprs(text, list)?;
    text.add(b")")
}

/// Appends a predicate.
#[tactic(auto, unfolding(crate::specs::Words::predicate_text))]
fn put_predicate(text: &mut Text, predicate: &Predicate<'_>) -> Result<(), NoMemory>
    ensures { PutsBehind result text.old (spec.predicate_text predicate.now) text.new }
{
    match predicate {
        Predicate::Compare {
            at: _,
            op,
            left,
            right,
        } => {
            put_expr(text, left)?;
            text.add(spaced_operator(*op))?;
            put_expr(text, right)
        }
        Predicate::Between {
            at: _,
            polarity,
            what,
            low,
            high,
        } => {
            put_expr(text, what)?;
            text.add(negatable(*polarity, b" BETWEEN ", b" NOT BETWEEN "))?;
            put_range(text, low, high)
        }
        Predicate::In {
            at: _,
            polarity,
            what,
            list,
        } => {
            put_expr(text, what)?;
            text.add(negatable(*polarity, b" IN ", b" NOT IN "))?;
            put_list(text, list.as_slice())
        }
        Predicate::IsNull {
            at: _,
            polarity,
            what,
        } => {
            put_expr(text, what)?;
            text.add(negatable(*polarity, b" IS NULL", b" IS NOT NULL"))
        }
    }
}

// ---- conditions

/// Appends a condition.
#[cycle(cond_text)]
pub fn put_cond(text: &mut Text, cond: &CondTree<'_>) -> Result<(), NoMemory>
    ensures { PutsBehind result text.old (spec.cond_texts cond.now).whole text.new }
{
    match cond {
        CondTree::Predicate(predicate) => put_predicate(text, predicate),
        CondTree::Not { at: _, cond } => {
            text.add(b"NOT ")?;
            put_neg(text, cond.get())
        }
        CondTree::All(conds) => {
            let [first, rest @ ..] = conds.as_slice() else {
                return Ok(());
            };
            put_neg(text, first)?;
            for neg in rest {
                text.add(b" AND ")?;
                put_neg(text, neg)?;
            }
            Ok(())
        }
        CondTree::Any(conds) => {
            let [first, rest @ ..] = conds.as_slice() else {
                return Ok(());
            };
            put_conj(text, first)?;
            for conj in rest {
                text.add(b" OR ")?;
                put_conj(text, conj)?;
            }
            Ok(())
        }
    }
}

/// Appends a condition as a member of OR.
#[cycle(cond_text)]
fn put_conj(text: &mut Text, cond: &CondTree<'_>) -> Result<(), NoMemory>
    ensures { PutsBehind result text.old (spec.cond_texts cond.now).conj text.new }
{
    match cond {
        CondTree::Any(_) => put_nested(text, cond),
        _ => put_cond(text, cond),
    }
}

/// Appends a condition as a member of AND, or behind NOT.
#[cycle(cond_text)]
fn put_neg(text: &mut Text, cond: &CondTree<'_>) -> Result<(), NoMemory>
    ensures { PutsBehind result text.old (spec.cond_texts cond.now).neg text.new }
{
    match cond {
        CondTree::Any(_) | CondTree::All(_) => put_nested(text, cond),
        _ => put_cond(text, cond),
    }
}

/// Appends a condition between parentheses.
#[cycle(cond_text)]
fn put_nested(text: &mut Text, cond: &CondTree<'_>) -> Result<(), NoMemory>
    ensures { PutsBehind result text.old (spec.in_brackets (spec.cond_texts cond.now).whole) text.new }
{
    text.add(b"(")?;
    put_cond(text, cond)?;
    text.add(b")")
}
