//! The rows of the relation `states`: what each column has at a state of the machine.
#![tactic(auto)]

mod variable;
mod view;

pub use view::View;
