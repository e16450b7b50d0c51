//! Reads where a variable, or the frame that variables are counted from, is: location expressions of one
//! operation, DWARF 4, sections 2.5 and 2.6.1.1.
#![tactic(auto)]

mod constants;
mod laws;
mod place;
mod reading;

pub use laws::{gone_otherwise, one_place};
pub use place::Place;
pub use reading::read_place;
