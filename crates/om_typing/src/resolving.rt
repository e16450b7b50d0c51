//! Resolves the names of expressions and conditions.

ghost use Rattle.std.specs.Prelude.{◌≡◌, [], ◌∷◌, ◌++◌, map, IfOk, OnOk};
ghost use Rattle.om_typing.specs.Names as names;
ghost use Rattle.om_typing.specs.Typing as spec;

use crate::judging::{bound_of, sign_of, width_of};
use crate::scope::{Grouped, Scope, column_named, place_meant, table_named};
use om_base::{Items, NoMemory, Text};
use om_grammar::{
    ColumnName, CompareOp, CondTree, ExprTree, Polarity as TreePolarity, Predicate, Scale,
};
use om_value::{Addend, Column, Compare, Cond, Expr, Factor, Polarity};
use sqlite_items::{Boxed, Items as Members};
use std::alloc::Global;

/// The cell of a column, or NULL where it isn't known.
fn column_expr(place: Option<Grouped>) -> Expr
    ensures { result ≡ spec.column_expr place }
{
    match place {
        Some(place) => Expr::Column(Column {
            table: place.table,
            id: place.column,
        }),
        None => Expr::Null,
    }
}

/// A divisor, 0 for what is no numeral.
fn divisor_of(expr: &Expr) -> u64
    ensures { result ≡ spec.divisor_of expr.now }
{
    match expr {
        Expr::Numeral(value) => *value,
        _ => 0,
    }
}

/// A factor or a divisor.
fn factor_of(scale: Scale, expr: Expr) -> Factor
    ensures { result ≡ spec.factor_of scale expr }
{
    match scale {
        Scale::Times => Factor::Times(expr),
        Scale::Divide => Factor::Over(divisor_of(&expr)),
    }
}

/// A column with its names resolved.
fn resolve_column(scope: &Scope<'_>, column: &ColumnName<'_>) -> Expr
    ensures { result ≡ spec.column_expr (names.place_of scope.now.catalog scope.now.tables column.now) }
{
    let table = table_named(scope.tables, &column.qualifier);
    column_expr(place_meant(table, column_named(scope.catalog, &column.name)))
}

/// The place of a range variable, of the first where it isn't known.
fn table_or_first(table: Option<u32>) -> u32
    ensures { result ≡ spec.table_or_first table }
{
    match table {
        Some(table) => table,
        None => 0,
    }
}

/// An expression with its names resolved.
#[tactic(auto, using(crate::proofs::Resolutions::resolved_numeral, crate::proofs::Resolutions::resolved_text, crate::proofs::Resolutions::resolved_null, crate::proofs::Resolutions::resolved_column, crate::proofs::Resolutions::resolved_sum, crate::proofs::Resolutions::resolved_product, crate::proofs::Resolutions::resolved_sign, crate::proofs::Resolutions::resolved_signed, crate::proofs::Resolutions::resolved_bits, crate::proofs::Resolutions::resolved_memory, crate::proofs::Resolutions::resolved_count_rows, crate::proofs::Resolutions::resolved_aggregate))]
pub(crate) fn resolve(
    alloc: Global,
    scope: &Scope<'_>,
    tree: &ExprTree<'_>,
) -> Result<Expr, NoMemory>
    ensures { IfOk result (λ expr. expr ≡ spec.expr_in scope.now tree.now) }
{
    match tree {
        ExprTree::Numeral(numeral) => Ok(Expr::Numeral(numeral.value)),
        ExprTree::Text { at: _, text } => Ok(Expr::Text(Text::copy_of(alloc, text.bytes())?)),
        ExprTree::Null { at: _ } => Ok(Expr::Null),
        ExprTree::Column(column) => Ok(resolve_column(scope, column)),
        ExprTree::Sum(first, rest) => {
            let first = Boxed::new(alloc, resolve(alloc, scope, first.get())?)?;
            let mut addends = Members::new(alloc);
            for addend in rest.as_slice() {
                let term = resolve(alloc, scope, &addend.term)?;
                addends.push(Addend {
                    sign: sign_of(addend.sign),
                    term,
                })?;
            }
            Ok(Expr::Sum(first, addends))
        }
        ExprTree::Product(first, rest) => {
            let first = Boxed::new(alloc, resolve(alloc, scope, first.get())?)?;
            let mut factors = Members::new(alloc);
            for factor in rest.as_slice() {
                let expr = resolve(alloc, scope, &factor.factor)?;
                factors.push(factor_of(factor.scale, expr))?;
            }
            Ok(Expr::Product(first, factors))
        }
        ExprTree::Sign { at: _, sign, expr } => {
            let expr = Boxed::new(alloc, resolve(alloc, scope, expr.get())?)?;
            Ok(Expr::Sign(sign_of(*sign), expr))
        }
        ExprTree::Signed { at: _, expr } => {
            let expr = Boxed::new(alloc, resolve(alloc, scope, expr.get())?)?;
            Ok(Expr::Signed(expr))
        }
        ExprTree::Bits {
            at: _,
            expr,
            high,
            low,
        } => {
            let expr = Boxed::new(alloc, resolve(alloc, scope, expr.get())?)?;
            Ok(Expr::Bits {
                expr,
                high: bound_of(high.value),
                low: bound_of(low.value),
            })
        }
        ExprTree::Memory {
            qualifier,
            at: _,
            width,
            address,
        } => {
            let address = Boxed::new(alloc, resolve(alloc, scope, address.get())?)?;
            Ok(Expr::Memory {
                table: table_or_first(table_named(scope.tables, qualifier)),
                width: width_of(*width),
                address,
            })
        }
        ExprTree::CountRows { at: _ } => Ok(Expr::Null),
        ExprTree::Aggregate {
            at: _,
            function: _,
            expr: _,
        } => Ok(Expr::Null),
    }
}

/// The comparison that an operator stands for.
fn compare_of(op: CompareOp) -> Compare
    ensures { result ≡ spec.compare_of op }
{
    match op {
        CompareOp::Equal => Compare::Equal,
        CompareOp::NotEqual => Compare::NotEqual,
        CompareOp::Less => Compare::Less,
        CompareOp::LessOrEqual => Compare::LessEqual,
        CompareOp::Greater => Compare::Greater,
        CompareOp::GreaterOrEqual => Compare::GreaterEqual,
    }
}

/// Whether a predicate is asked as it is, or with NOT.
fn polarity_of(polarity: TreePolarity) -> Polarity
    ensures { result ≡ spec.asked_of polarity }
{
    match polarity {
        TreePolarity::Plain => Polarity::Plain,
        TreePolarity::Negated => Polarity::Negated,
    }
}

/// Expressions with their names resolved.
fn resolve_all(
    alloc: Global,
    scope: &Scope<'_>,
    trees: &[ExprTree<'_>],
) -> Result<Members<Expr>, NoMemory>
    ensures { IfOk result (λ exprs. exprs ≡ map (spec.expr_in scope.now) trees.now) }
{
    let mut exprs = Members::new(alloc);
    for tree in trees {
        exprs.push(resolve(alloc, scope, tree)?)?;
    }
    Ok(exprs)
}

/// A predicate with its names resolved.
#[tactic(auto, unfolding(crate::specs::Typing::predicate_in))]
fn resolve_predicate(
    alloc: Global,
    scope: &Scope<'_>,
    predicate: &Predicate<'_>,
) -> Result<Cond, NoMemory>
    ensures { IfOk result (λ cond. cond ≡ spec.predicate_in scope.now predicate.now) }
{
    match predicate {
        Predicate::Compare {
            at: _,
            op,
            left,
            right,
        } => {
            let left = resolve(alloc, scope, left)?;
            let right = resolve(alloc, scope, right)?;
            Ok(Cond::Compare(compare_of(*op), left, right))
        }
        Predicate::Between {
            at: _,
            polarity,
            what,
            low,
            high,
        } => {
            let what = resolve(alloc, scope, what)?;
            let low = resolve(alloc, scope, low)?;
            let high = resolve(alloc, scope, high)?;
            Ok(Cond::Between(polarity_of(*polarity), what, low, high))
        }
        Predicate::In {
            at: _,
            polarity,
            what,
            list,
        } => {
            let what = resolve(alloc, scope, what)?;
            let list = resolve_all(alloc, scope, list.as_slice())?;
            Ok(Cond::In(polarity_of(*polarity), what, list))
        }
        Predicate::IsNull {
            at: _,
            polarity,
            what,
        } => {
            let what = resolve(alloc, scope, what)?;
            Ok(Cond::IsNull(polarity_of(*polarity), what))
        }
    }
}

/// A condition with its names resolved.
#[tactic(auto, using(crate::proofs::ConditionsIn::whole_predicate, crate::proofs::ConditionsIn::whole_not, crate::proofs::ConditionsIn::whole_all, crate::proofs::ConditionsIn::whole_any))]
fn resolve_condition(
    alloc: Global,
    scope: &Scope<'_>,
    tree: &CondTree<'_>,
) -> Result<Cond, NoMemory>
    ensures { IfOk result (λ cond. cond ≡ (spec.condition_in scope.now tree.now).whole) }
{
    match tree {
        CondTree::Predicate(predicate) => resolve_predicate(alloc, scope, predicate),
        CondTree::Not { at: _, cond } => {
            let member = Boxed::new(alloc, resolve_condition(alloc, scope, cond.get())?)?;
            Ok(Cond::Not(member))
        }
        CondTree::All(trees) => {
            let mut members = Members::new(alloc);
            for tree in trees.as_slice() {
                members.push(resolve_condition(alloc, scope, tree)?)?;
            }
            Ok(Cond::All(members))
        }
        CondTree::Any(trees) => {
            let mut members = Members::new(alloc);
            for tree in trees.as_slice() {
                members.push(resolve_condition(alloc, scope, tree)?)?;
            }
            Ok(Cond::Any(members))
        }
    }
}

/// Appends a condition that joins none by AND, with its names resolved.
fn push_single(
    alloc: Global,
    scope: &Scope<'_>,
    tree: &CondTree<'_>,
    conjuncts: &mut Items<Cond>,
) -> Result<(), NoMemory>
    ensures { OnOk result (conjuncts.new ≡ conjuncts.old ++ (spec.condition_in scope.now tree.now).whole ∷ []) }
{
    conjuncts.push(resolve_condition(alloc, scope, tree)?)
}

/// Appends the conditions that a condition joins by AND, each with its names resolved.
#[tactic(auto, using(crate::proofs::ConditionsIn::split_predicate, crate::proofs::ConditionsIn::split_not, crate::proofs::ConditionsIn::split_all, crate::proofs::ConditionsIn::split_any))]
pub(crate) fn push_conjuncts(
    alloc: Global,
    scope: &Scope<'_>,
    tree: &CondTree<'_>,
    conjuncts: &mut Items<Cond>,
) -> Result<(), NoMemory>
    ensures { OnOk result (conjuncts.new ≡ conjuncts.old ++ (spec.condition_in scope.now tree.now).conjuncts) }
{
    match tree {
        CondTree::Predicate(_) => push_single(alloc, scope, tree, conjuncts),
        CondTree::Not { at: _, cond: _ } => push_single(alloc, scope, tree, conjuncts),
        CondTree::Any(_) => push_single(alloc, scope, tree, conjuncts),
        CondTree::All(members) => {
            for member in members.as_slice() {
                push_conjuncts(alloc, scope, member, conjuncts)?;
            }
            Ok(())
        }
    }
}
