//! What a program's debugging information says of an address: which function it lies in. After
//! DWARF 4, sections 2 and 3.
//!
//! The names and numbers of everything else in `.debug_info` aren't read from it.
#![tactic(auto)]

mod around;
mod by_name;
mod constants;
mod debug;
mod debug_counts;
mod fault;
mod fixed;
mod found;
mod functions;
mod held;
mod judging;
mod kind;
mod laws;
mod line_tables;
mod list_ends;
mod local;
mod name_key;
mod name_pieces;
mod names;
mod open_entries;
mod places;
mod ranges;
mod scope;
mod stretches;
mod types;
mod variable;
mod variables;

pub use debug::{Debug, read_debug};
pub use debug_counts::Counts;
pub use fault::NamesFault;
pub use held::Held;
pub use kind::Kind;
pub use laws::{ambiguous_names, first_function, no_variable, one_debug, scalar_numbers};
