//! Reads the line tables of `.debug_line`, which tell where code comes from: DWARF 4, section 6.2.
#![tactic(auto)]

mod decoding;
mod fault;
mod fields;
mod files;
mod gathering;
mod head;
mod instruction;
mod laws;
mod lines;
mod reading;
mod registers;
mod row;
mod sharing;
mod start;
mod table;
mod tables;

pub use fault::LineFault;
pub use laws::{common_end, instructions_in_turn, lower_rows, special_opcodes};
pub use lines::Lines;
pub use row::LineRow;
pub use table::{LineTable, read_lines};
pub use tables::{LineTables, read_tables};
