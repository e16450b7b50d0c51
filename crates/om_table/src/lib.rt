//! The printed text of a table of named columns.
#![tactic(auto)]

mod escaping;
mod fault;
mod lines;
mod printed;
mod printing;
mod quotes;
mod table;
mod widths;

pub use escaping::{escape, escape_into};
pub use fault::TableFault;
pub use printing::print_table;
pub use table::{Style, Table};
