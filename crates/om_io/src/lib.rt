//! The outside of `omni`: files come in through a [`Shelf`] and are put there, and bytes go out through a
//! [`Sink`].
//!
//! What the program does is written over these two traits, whose contracts say what a file holds, what
//! was written, and which failures may be told. [`MemShelf`] and [`MemSink`] keep all in memory and fail
//! at the calls that they are given; [`DirShelf`] and [`StdSink`] are the real folder and the real output.
#![tactic(auto)]

mod dir_shelf;
mod files;
mod mem_shelf;
mod mem_sink;
mod shelf;
mod sink;
mod std_sink;
mod writing;

pub use dir_shelf::DirShelf;
pub use files::{Calls, Files};
pub use mem_shelf::MemShelf;
pub use mem_sink::MemSink;
pub use shelf::{Shelf, ShelfFail, Taken};
pub use sink::{Sink, SinkFail};
pub use std_sink::StdSink;
pub use writing::{put_all, put_pieces};
