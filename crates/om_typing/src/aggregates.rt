//! Whether aggregates stand in a query.

ghost use Rattle.std.specs.Prelude.{◌≡◌};
ghost use Rattle.std.specs.List.{list_any};
ghost use Rattle.om_typing.specs.Queries.{condition_has_aggregate, filter_has_aggregate, has_aggregate, predicate_has_aggregate};

use om_grammar::{CondTree, ExprTree, Item, Predicate};

/// Whether an aggregate stands in an expression.
fn is_aggregated(tree: &ExprTree<'_>) -> bool
    ensures { result ≡ has_aggregate tree.now }
{
    match tree {
        ExprTree::Numeral(_) => false,
        ExprTree::Text { at: _, text: _ } => false,
        ExprTree::Null { at: _ } => false,
        ExprTree::Column(_) => false,
        ExprTree::Sum(first, rest) => {
            let mut found = is_aggregated(first.get());
            for addend in rest.as_slice() {
                found = found || is_aggregated(&addend.term);
            }
            found
        }
        ExprTree::Product(first, rest) => {
            let mut found = is_aggregated(first.get());
            for factor in rest.as_slice() {
                found = found || is_aggregated(&factor.factor);
            }
            found
        }
        ExprTree::Sign {
            at: _,
            sign: _,
            expr,
        } => is_aggregated(expr.get()),
        ExprTree::Signed { at: _, expr } => is_aggregated(expr.get()),
        ExprTree::Bits {
            at: _,
            expr,
            high: _,
            low: _,
        } => is_aggregated(expr.get()),
        ExprTree::Memory {
            qualifier: _,
            at: _,
            width: _,
            address,
        } => is_aggregated(address.get()),
        ExprTree::CountRows { at: _ } => true,
        ExprTree::Aggregate {
            at: _,
            function: _,
            expr: _,
        } => true,
    }
}

/// Whether an aggregate stands in one of several items.
pub(crate) fn are_aggregated(items: &[Item<'_>]) -> bool
    ensures { result ≡ list_any (λ item. has_aggregate item.expr) items.now }
{
    let mut rest = items;
    while let [item, others @ ..] = rest {
        if is_aggregated(&item.expr) {
            return true;
        }
        rest = others;
    }
    false
}

/// Whether an aggregate stands in one of several expressions.
fn in_list(list: &[ExprTree<'_>]) -> bool
    ensures { result ≡ list_any has_aggregate list.now }
{
    let mut rest = list;
    while let [tree, others @ ..] = rest {
        if is_aggregated(tree) {
            return true;
        }
        rest = others;
    }
    false
}

/// Whether an aggregate stands in a predicate.
fn in_predicate(predicate: &Predicate<'_>) -> bool
    ensures { result ≡ predicate_has_aggregate predicate.now }
{
    match predicate {
        Predicate::Compare {
            at: _,
            op: _,
            left,
            right,
        } => is_aggregated(left) || is_aggregated(right),
        Predicate::Between {
            at: _,
            polarity: _,
            what,
            low,
            high,
        } => is_aggregated(what) || is_aggregated(low) || is_aggregated(high),
        Predicate::In {
            at: _,
            polarity: _,
            what,
            list,
        } => is_aggregated(what) || in_list(list.as_slice()),
        Predicate::IsNull {
            at: _,
            polarity: _,
            what,
        } => is_aggregated(what),
    }
}

/// Whether an aggregate stands in a condition.
#[tactic(auto, using(crate::proofs::AggregateLemmas::in_predicate_is, crate::proofs::AggregateLemmas::in_not_is, crate::proofs::AggregateLemmas::in_all_is, crate::proofs::AggregateLemmas::in_any_is))]
fn in_condition(tree: &CondTree<'_>) -> bool
    ensures { result ≡ condition_has_aggregate tree.now }
{
    match tree {
        CondTree::Predicate(predicate) => in_predicate(predicate),
        CondTree::Not { at: _, cond } => in_condition(cond.get()),
        CondTree::All(members) => {
            for member in members.as_slice() {
                if in_condition(member) {
                    return true;
                }
            }
            false
        }
        CondTree::Any(members) => {
            for member in members.as_slice() {
                if in_condition(member) {
                    return true;
                }
            }
            false
        }
    }
}

/// Whether an aggregate stands in the condition after WHERE.
pub(crate) fn in_filter(filter: &Option<CondTree<'_>>) -> bool
    ensures { result ≡ filter_has_aggregate filter.now }
{
    match filter {
        Some(cond) => in_condition(cond),
        None => false,
    }
}
