//! How much is read and made, and the size of a page.

/// The most bytes of a file that is read, of a log that is made, of a text that is printed.
pub const MOST_BYTES: u64 = 67_108_864;

/// The bytes of a page of memory.
pub const PAGE_SIZE: u32 = 4096;
