//! Reads `.debug_frame`, which tells at each address how the canonical frame address is computed:
//! DWARF 4, section 6.4.
#![tactic(auto)]

mod common;
mod commons;
mod decoding;
mod describing;
mod description;
mod entries;
mod fault;
mod fields;
mod frames;
mod instruction;
mod kept_common;
mod laws;
mod rows;
mod rule;
mod running;

pub use fault::CfiFault;
pub use frames::{Frames, read_frames};
pub use laws::{one_by_one, rules_change_at_locations, saved_rules_come_back};
