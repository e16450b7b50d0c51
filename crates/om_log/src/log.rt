//! A log that was read.

use crate::entry::Entry;
use crate::start::Start;
use om_base::Items;

/// The log of one run.
#[derive(Debug, Drop)]
pub struct Log<'a> {
    pub start: Start,
    /// All entries, first to last. The last one of a log that was read is its one END.
    pub entries: Items<Entry<'a>>,
}
