//! Replays a recorded run from its log, and tells the first step at which the two depart.
#![tactic(auto)]

mod departure;
mod judge;
mod laws;
mod logged;
mod replay;

pub use departure::{Departure, Halt, Reason};
pub use laws::{causality, in_order, reach};
pub use logged::{LoggedCall, RunEnd, is_exit};
pub use replay::Replay;
