//! The conditions of a query.

ghost use Rattle.std.specs.Prelude.{◌≡◌, IfOk};

use crate::{Compare, Expr};
use om_base::NoMemory;
use sqlite_items::Items;
use std::alloc::Global;

/// A condition.
#[derive(Debug, Drop)]
pub enum Cond {
    /// A comparison of the first expression with the second.
    Compare(Compare, Expr, Expr),
    /// That all of these hold.
    And(Items<Cond>),
}

impl Cond {
    /// An equal tree.
    pub fn copy(&self, alloc: Global) -> Result<Cond, NoMemory>
        ensures { IfOk result (λ copy. copy ≡ self.now) }
    {
        match self {
            Cond::Compare(compare, left, right) => {
                let left = left.copy(alloc)?;
                let right = right.copy(alloc)?;
                Ok(Cond::Compare(*compare, left, right))
            }
            Cond::And(conds) => {
                let mut copies = Items::new(alloc);
                for cond in conds.as_slice() {
                    copies.push(cond.copy(alloc)?)?;
                }
                Ok(Cond::And(copies))
            }
        }
    }
}
