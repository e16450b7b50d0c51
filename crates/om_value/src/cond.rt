//! The conditions of a query.

ghost use Rattle.std.specs.Prelude.{◌≡◌, IfOk};

use crate::{Compare, Expr};
use om_base::NoMemory;
use sqlite_items::{Boxed, Items};
use std::alloc::Global;

/// A condition.
#[derive(Debug, Drop)]
pub enum Cond {
    /// A comparison of the first expression with the second.
    Compare(Compare, Expr, Expr),
    /// BETWEEN: whether the first lies from the second to the third, both among it.
    Between(Polarity, Expr, Expr, Expr),
    /// IN: whether the first equals one of the others.
    In(Polarity, Expr, Items<Expr>),
    /// IS NULL.
    IsNull(Polarity, Expr),
    /// NOT.
    Not(Boxed<Cond>),
    /// AND: that all of these hold.
    All(Items<Cond>),
    /// OR: that any of these holds.
    Any(Items<Cond>),
}

impl Cond {
    /// An equal tree.
    #[cycle(copies)]
    pub fn copy(&self, alloc: Global) -> Result<Cond, NoMemory>
        ensures { IfOk result (λ copy. copy ≡ self.now) }
    {
        match self {
            Cond::Compare(compare, left, right) => {
                let left = left.copy(alloc)?;
                let right = right.copy(alloc)?;
                Ok(Cond::Compare(*compare, left, right))
            }
            Cond::Between(polarity, what, low, high) => {
                let what = what.copy(alloc)?;
                let low = low.copy(alloc)?;
                let high = high.copy(alloc)?;
                Ok(Cond::Between(*polarity, what, low, high))
            }
            Cond::In(polarity, what, list) => {
                let what = what.copy(alloc)?;
                let list = copy_all(alloc, list.as_slice())?;
                Ok(Cond::In(*polarity, what, list))
            }
            Cond::IsNull(polarity, what) => {
                let what = what.copy(alloc)?;
                Ok(Cond::IsNull(*polarity, what))
            }
            Cond::Not(member) => {
                let member = Boxed::new(alloc, member.get().copy(alloc)?)?;
                Ok(Cond::Not(member))
            }
            Cond::All(members) => Ok(Cond::All(copy_members(alloc, members.as_slice())?)),
            Cond::Any(members) => Ok(Cond::Any(copy_members(alloc, members.as_slice())?)),
        }
    }
}

/// Equal trees.
#[cycle(copies)]
fn copy_members(alloc: Global, members: &[Cond]) -> Result<Items<Cond>, NoMemory>
    ensures { IfOk result (λ copies. copies ≡ members.now) }
{
    let mut copies = Items::new(alloc);
    for member in members {
        copies.push(member.copy(alloc)?)?;
    }
    Ok(copies)
}

/// Equal trees.
fn copy_all(alloc: Global, exprs: &[Expr]) -> Result<Items<Expr>, NoMemory>
    ensures { IfOk result (λ copies. copies ≡ exprs.now) }
{
    let mut copies = Items::new(alloc);
    for expr in exprs {
        copies.push(expr.copy(alloc)?)?;
    }
    Ok(copies)
}

/// Whether a test is asked as it is, or with NOT.
#[derive(Clone, Copy, Debug, PartialEq, Eq)]
pub enum Polarity {
    Plain,
    Negated,
}
