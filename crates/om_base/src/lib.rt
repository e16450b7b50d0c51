//! What every other crate of `omni` stands on: numbers in files, byte strings, names, lists and
//! ranges.
//!
//! Nothing here knows a format. A reader of a format takes its fixed-width numbers by [`u8_at`] to
//! [`u64_at`], its LEB128 numbers by [`uleb`] and [`sleb`] and the ends of its texts by [`cstr_at`], and
//! hands on parts of a file as [`Name`]s, which borrow it.
#![tactic(auto)]

mod bytes;
mod decimal;
mod interval;
mod items;
mod laws;
mod leb;
mod limits;
mod name;
mod no_memory;
mod nul;
mod numbers;
mod span;
mod spans;

pub use bytes::{Bytes, Text};
pub use decimal::put_decimal;
pub use interval::Interval;
pub use items::Items;
pub use laws::{
    one_limit, one_list_of_numbers, read_from_a_place, read_what_stands_there,
    short_where_bytes_break_off, spans_share_a_number,
};
pub use leb::{sleb, uleb};
pub use limits::{MOST_BYTES, PAGE_SIZE};
pub use name::Name;
pub use no_memory::NoMemory;
pub use nul::cstr_at;
pub use numbers::{Num, half_at, u8_at, u16_at, u32_at, u64_at, word_at};
pub use span::Span;
pub use spans::overlap;
