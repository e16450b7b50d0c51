//! Records a run: makes the log of an executable with an input, its calls answered by a small kernel.
#![tactic(auto)]

mod kernel;
mod laws;
mod making;
mod process;
mod recorded;
mod regions;
mod telling;

pub use laws::never_departs;
pub use making::make_log;
pub use recorded::{RecordFault, Recorded};
