//! Whose an address is, of things that claim addresses: an index over claims, asked by one binary
//! search.
//!
//! A thing is its place in a list, as a function, a row of a line table or a variable.
#![tactic(auto)]

mod claim;
mod index;
mod laws;
mod merging;
mod piece;

pub use claim::Claim;
pub use index::{ClaimIndex, index_of};
pub use laws::{deeper_wins, first_wins, nobody};
