//! The log of a run: format OTL1, its reader, the list that the reader gives, and its writer.
//!
//! All numbers of the format are little-endian. A header of 20 bytes is followed by entries, each a
//! kind byte and the fields of that kind, up to one END, which stands last.
#![tactic(auto)]

mod body;
mod end_cause;
mod entry;
mod entry_fields;
mod fault;
mod fields;
mod header;
mod laws;
mod log;
mod putting;
mod reader;
mod spelling;
mod start;
mod write;
mod writer;
mod writes;

pub use end_cause::{BY_CUT, BY_EXIT, BY_STOP};
pub use entry::Entry;
pub use fault::LogFault;
pub use laws::{body_or_fault, log_or_fault, longest, one_cause, one_reading};
pub use log::Log;
pub use reader::read_log;
pub use start::Start;
pub use write::Write;
pub use writer::{LogWriter, write_log};
pub use writes::Writes;
