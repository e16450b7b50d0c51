//! What a query asks of the relation `states`, or which of its mistakes is told.
#![tactic(auto)]

mod aggregates;
mod checking;
mod columns;
mod conditions;
mod fault;
mod judged;
mod judging;
mod mistake;
mod naming;
mod queries;
mod resolving;
mod scope;
mod typed;

pub use checking::check;
pub use fault::TypeFault;
pub use mistake::{Mistake, Rule};
pub use typed::{Output, Typed};
