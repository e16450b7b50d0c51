//! What a query asks of the relation `states`, or why it asks nothing that is built.
//!
//! A regular identifier means a fixed column or a register, whatever the case of its letters, and a
//! delimited one a variable of the catalog, by its bytes. A comparison is of numbers. WHERE is split at its
//! ANDs.
#![tactic(auto)]

mod checking;
mod columns;
mod fault;
mod laws;
mod typed;
mod variables;

pub use checking::check;
pub use fault::TypeFault;
pub use laws::{
    never_both, one_column, one_typing, one_variable, splitting, typing_function, typing_or_unbuilt,
};
pub use typed::{Output, Typed};
