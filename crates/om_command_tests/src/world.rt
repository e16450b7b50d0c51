//! A shelf and two sinks in memory, over which the top call is tried, and what it leaves there.

use om_base::{Bytes, NoMemory};
use om_command::omni;
use om_image::{Which, small_specimen, worked};
use om_io::{Calls, Files, MemShelf, MemSink};
use std::alloc::Global;
use std::test::Fail;

/// The log of P: two regions of 1 MiB, the call of step 8 that exits, and the end at step 9 by that exit.
/// The bytes were put together by another program, from the table of the format.
pub static LOG: &[u8; 79] = b"OTL1\x00\x00\xf0\x7f\x00\x00\x10\x00\x00\x10\x01\x00\x00\x00\x10\x00\
    \x01\x08\x00\x00\x00\x00\x00\x00\x00\x5d\x00\x00\x00\
    \x00\x00\x00\x00\x00\x00\x00\x00\x00\x00\x00\x00\x00\x00\x00\x00\x00\x00\x00\x00\x00\x00\x00\x00\
    \x00\x00\x00\x00\x00\x00\x00\x00\
    \x03\x09\x00\x00\x00\x00\x00\x00\x00\x00\x00\x00\x00\x00";

/// `LOG` with another value at the end.
static OTHER: &[u8; 79] = b"OTL1\x00\x00\xf0\x7f\x00\x00\x10\x00\x00\x10\x01\x00\x00\x00\x10\x00\
    \x01\x08\x00\x00\x00\x00\x00\x00\x00\x5d\x00\x00\x00\
    \x00\x00\x00\x00\x00\x00\x00\x00\x00\x00\x00\x00\x00\x00\x00\x00\x00\x00\x00\x00\x00\x00\x00\x00\
    \x00\x00\x00\x00\x00\x00\x00\x00\
    \x03\x09\x00\x00\x00\x00\x00\x00\x00\x00\x07\x00\x00\x00";

/// `LOG` with its end at step 5,000,000.
static LONG: &[u8; 79] = b"OTL1\x00\x00\xf0\x7f\x00\x00\x10\x00\x00\x10\x01\x00\x00\x00\x10\x00\
    \x01\x08\x00\x00\x00\x00\x00\x00\x00\x5d\x00\x00\x00\
    \x00\x00\x00\x00\x00\x00\x00\x00\x00\x00\x00\x00\x00\x00\x00\x00\x00\x00\x00\x00\x00\x00\x00\x00\
    \x00\x00\x00\x00\x00\x00\x00\x00\
    \x03\x40\x4b\x4c\x00\x00\x00\x00\x00\x00\x00\x00\x00\x00";

/// The log of G: two regions of 1 MiB, the call of step 4 that reads 7 into the four bytes at 131072, the call of
/// step 6 that exits, and the end at step 7 by that exit. The bytes were put together as those of `LOG`.
static READS: &[u8; 136] = b"OTL1\x00\x00\xf0\x7f\x00\x00\x10\x00\x00\x10\x02\x00\x00\x00\x10\x00\
    \x01\x04\x00\x00\x00\x00\x00\x00\x00\x3f\x00\x00\x00\
    \x00\x00\x00\x00\x00\x00\x02\x00\x04\x00\x00\x00\x00\x00\x00\x00\x00\x00\x00\x00\x00\x00\x00\x00\
    \x04\x00\x00\x00\x01\x00\x00\x00\
    \x00\x00\x02\x00\x04\x00\x00\x00\x07\x00\x00\x00\
    \x01\x06\x00\x00\x00\x00\x00\x00\x00\x5d\x00\x00\x00\
    \x04\x00\x00\x00\x00\x00\x02\x00\x04\x00\x00\x00\x00\x00\x00\x00\x00\x00\x00\x00\x00\x00\x00\x00\
    \x00\x00\x00\x00\x00\x00\x00\x00\
    \x03\x07\x00\x00\x00\x00\x00\x00\x00\x00\x04\x00\x00\x00";

/// The log of S: two regions of 1 MiB, the call of step 59 that exits, and the end at step 60 by that exit. The bytes
/// were put together as those of `LOG`.
static CALLS: &[u8; 79] = b"OTL1\x00\x00\xf0\x7f\x00\x00\x10\x00\x00\x10\x01\x00\x00\x00\x10\x00\
    \x01\x3b\x00\x00\x00\x00\x00\x00\x00\x5d\x00\x00\x00\
    \x00\x00\x00\x00\x00\x00\x00\x00\x00\x00\x00\x00\x00\x00\x00\x00\x00\x00\x00\x00\x00\x00\x00\x00\
    \x00\x00\x00\x00\x00\x00\x00\x00\
    \x03\x3c\x00\x00\x00\x00\x00\x00\x00\x00\x00\x00\x00\x00";

/// A use of the top call over the files `P` (the program P), `LOG`, `OTHER` and `LONG` (logs of it), `G` (the
/// program G), `READS` (its log), `B` (the program B, whose log is `LOG`), `S` (the small specimen), `CALLS` (its
/// log), `EMPTY` (no bytes), `WORD` (the text `omni`) and `NEW` (the text `before`).
#[derive(Clone, Copy)]
pub struct Case {
    /// The words after the program's own name.
    pub words: &'static [&'static str],
    /// The calls of the shelf that fail.
    pub failing: &'static [u64],
    /// How many bytes the output takes at a write, one at least, and the calls at which it fails.
    pub out: (usize, &'static [u64]),
    /// The calls at which the sink of the line fails.
    pub err: &'static [u64],
    /// What is expected.
    pub leaves: Leaves,
}

/// What a use of the top call leaves.
#[derive(Clone, Copy)]
pub struct Leaves {
    /// The exit status.
    pub status: u8,
    /// What was printed.
    pub printed: &'static [u8],
    /// What was told.
    pub told: &'static [u8],
    /// What the shelf holds under the name `NEW`.
    pub new: Option<&'static [u8]>,
}

/// The calls of those numbers.
fn calls(alloc: Global, numbers: &[u64]) -> Result<Calls, NoMemory> {
    let mut calls = Calls::new(alloc);
    for number in numbers {
        calls.add(*number)?;
    }
    Ok(calls)
}

/// The words as a list.
fn words(alloc: Global, texts: &[&str]) -> Result<Vec<String>, Fail> {
    let mut words = Vec::new(alloc);
    for text in texts {
        words.push(format!(in alloc; "{text}")?)?;
    }
    Ok(words)
}

/// The files that each case begins with.
fn files(alloc: Global) -> Result<Files, Fail> {
    let program: Bytes = worked(alloc, Which::P)?.elf;
    let reader: Bytes = worked(alloc, Which::G)?.elf;
    let blocks: Bytes = worked(alloc, Which::B)?.elf;
    let small: Bytes = small_specimen(alloc)?.elf;
    let mut files = Files::new(alloc);
    files.add("P", program.bytes())?;
    files.add("LOG", LOG)?;
    files.add("OTHER", OTHER)?;
    files.add("LONG", LONG)?;
    files.add("G", reader.bytes())?;
    files.add("READS", READS)?;
    files.add("B", blocks.bytes())?;
    files.add("S", small.bytes())?;
    files.add("CALLS", CALLS)?;
    files.add("EMPTY", b"")?;
    files.add("WORD", b"omni")?;
    files.add("NEW", b"before")?;
    Ok(files)
}

/// Whether the top call leaves what the case expects.
pub(crate) fn comes_true(alloc: Global, case: &Case) -> Result<bool, Fail> {
    let mut shelf = MemShelf::new(files(alloc)?, calls(alloc, case.failing)?);
    let mut out = MemSink::new(alloc, case.out.0.max(1), calls(alloc, case.out.1)?);
    let mut err = MemSink::new(alloc, 100, calls(alloc, case.err)?);
    let words = words(alloc, case.words)?;
    let status = omni(alloc, words.as_slice(), &mut shelf, &mut out, &mut err);
    let leaves = &case.leaves;
    Ok(
        status == leaves.status
            && out.written() == leaves.printed
            && err.written() == leaves.told
            && shelf.held("NEW") == leaves.new,
    )
}
