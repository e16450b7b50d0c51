//! All that `omni` does, over any shelf and sinks.
#![tactic(auto)]

mod answer;
mod delivery;
mod ending;
mod escaping;
mod faults;
mod information;
mod laws;
mod limits;
mod lines;
mod outcome;
mod program;
mod reading;
mod recording;
mod refusal;
mod rows;
mod told;
mod words;

pub use program::{omni, out_of_memory};
