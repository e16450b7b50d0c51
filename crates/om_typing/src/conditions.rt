//! Judges conditions.

ghost use Rattle.std.specs.Prelude.{◌≡◌, ◌++◌, ◌∷◌, [], map};
ghost use Rattle.std.specs.List.{flat_map};
ghost use Rattle.om_typing.specs.Conditions as spec;
ghost use Rattle.om_typing.specs.Conditions.{kind_in, mistakes_in};
ghost use Rattle.om_typing.specs.Mistakes.{noted_all};

use crate::judging::judge;
use crate::mistake::{Foremost, Rule};
use crate::scope::Scope;
use om_grammar::{CondTree, ExprTree, Predicate};
use om_value::{Kind, compare_kinds};

/// The kind of an expression without a mistake.
fn judge_freely(scope: &Scope<'_>, tree: &ExprTree<'_>, foremost: &mut Foremost) -> Option<Kind>
    ensures kind { result ≡ kind_in scope.now tree.now }
    ensures noted { foremost.new ≡ noted_all foremost.old (mistakes_in scope.now tree.now) }
{
    judge(scope, false, tree, foremost).kind
}

/// Whether two kinds are there and can't be compared.
fn clash(one: &Option<Kind>, other: &Option<Kind>) -> bool
    ensures { result ≡ spec.clash one.now other.now }
{
    let (Some(one), Some(other)) = (one, other) else {
        return false;
    };
    compare_kinds(one, other).is_err()
}

/// Judges an expression that is compared with another.
#[tactic(auto, using(crate::proofs::Noting::noted_append))]
fn judge_comparison(
    scope: &Scope<'_>,
    at: u32,
    one: &ExprTree<'_>,
    other: &ExprTree<'_>,
    foremost: &mut Foremost,
)
    ensures { foremost.new ≡ noted_all foremost.old (spec.compared_mistakes scope.now at one.now (other.now ∷ [])) }
{
    let one = judge_freely(scope, one, foremost);
    let other = judge_freely(scope, other, foremost);
    foremost.note_if(clash(&one, &other), at, Rule::Clash);
}

/// Judges an expression that is compared with two others.
#[tactic(auto, using(crate::proofs::Noting::noted_append))]
fn judge_range(
    scope: &Scope<'_>,
    at: u32,
    what: &ExprTree<'_>,
    low: &ExprTree<'_>,
    high: &ExprTree<'_>,
    foremost: &mut Foremost,
)
    ensures { foremost.new ≡ noted_all foremost.old (spec.compared_mistakes scope.now at what.now (low.now ∷ high.now ∷ [])) }
{
    let what = judge_freely(scope, what, foremost);
    let low = judge_freely(scope, low, foremost);
    let high = judge_freely(scope, high, foremost);
    let are_known = low.is_some() && high.is_some();
    let clashes = are_known && (clash(&what, &low) || clash(&what, &high));
    foremost.note_if(clashes, at, Rule::Clash);
}

/// Judges an expression that is compared with the members of a list.
#[tactic(auto, using(crate::proofs::Noting::noted_append))]
fn judge_list(
    scope: &Scope<'_>,
    at: u32,
    what: &ExprTree<'_>,
    list: &[ExprTree<'_>],
    foremost: &mut Foremost,
)
    ensures { foremost.new ≡ noted_all foremost.old (spec.compared_mistakes scope.now at what.now list.now) }
{
    let what = judge_freely(scope, what, foremost);
    let mut are_known = what.is_some();
    let mut clashes = false;
    let mut rest = list;
    while let [member, others @ ..] = rest {
        let kind = judge_freely(scope, member, foremost);
        are_known = are_known && kind.is_some();
        clashes = clashes || clash(&what, &kind);
        rest = others;
    }
    foremost.note_if(are_known && clashes, at, Rule::Clash);
}

/// Judges a predicate.
#[tactic(auto, unfolding(crate::specs::Conditions::predicate_mistakes))]
fn judge_predicate(scope: &Scope<'_>, predicate: &Predicate<'_>, foremost: &mut Foremost)
    ensures { foremost.new ≡ noted_all foremost.old (spec.predicate_mistakes scope.now predicate.now) }
{
    match predicate {
        Predicate::Compare {
            at,
            op: _,
            left,
            right,
        } => judge_comparison(scope, *at, left, right, foremost),
        Predicate::Between {
            at,
            polarity: _,
            what,
            low,
            high,
        } => judge_range(scope, *at, what, low, high, foremost),
        Predicate::In {
            at,
            polarity: _,
            what,
            list,
        } => judge_list(scope, *at, what, list.as_slice(), foremost),
        Predicate::IsNull {
            at: _,
            polarity: _,
            what,
        } => {
            judge_freely(scope, what, foremost);
        }
    }
}

/// Judges a condition.
#[tactic(auto, using(crate::proofs::Noting::noted_append, crate::proofs::ConditionsIn::mistakes_predicate, crate::proofs::ConditionsIn::mistakes_not, crate::proofs::ConditionsIn::mistakes_all, crate::proofs::ConditionsIn::mistakes_any))]
pub(crate) fn judge_condition(scope: &Scope<'_>, tree: &CondTree<'_>, foremost: &mut Foremost)
    ensures { foremost.new ≡ noted_all foremost.old (spec.condition_mistakes scope.now tree.now) }
{
    match tree {
        CondTree::Predicate(predicate) => judge_predicate(scope, predicate, foremost),
        CondTree::Not { at: _, cond } => judge_condition(scope, cond.get(), foremost),
        CondTree::All(members) => {
            for member in members.as_slice() {
                judge_condition(scope, member, foremost);
            }
        }
        CondTree::Any(members) => {
            for member in members.as_slice() {
                judge_condition(scope, member, foremost);
            }
        }
    }
}
