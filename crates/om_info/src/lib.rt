//! What is told of an executable: its entry, its segments, and what its debugging information has.
#![tactic(auto)]

mod fault;
mod filled;
mod lines;
mod printing;

pub use fault::InfoFault;
pub use printing::info_text;
