//! The writer of a log.

ghost use Rattle.std.specs.Prelude.{◌≡◌, ◌≢◌, [], ◌++◌, length, IfOk, OnOk, OnErr};
ghost use Rattle.std.specs.List.{AllByRecursion};
ghost use Rattle.om_base.specs.Appending.{PutsBehind};
ghost use Rattle.om_log.specs.Grammar.{spelling, spellings, IsLawfulLog, IsLog};
ghost use Rattle.om_log.specs.Fronts.{IsFront, headed};
ghost use Rattle.om_log.specs.Writing.{HasShortWrites, file_of};

use crate::entry::Entry;
use crate::header::HEADER;
use crate::log::Log;
use crate::spelling::{put_entry, put_header};
use crate::start::Start;
use om_base::{Bytes, NoMemory};
use std::alloc::Global;
use std::marker::Model;

/// A log that is being written: its header and the entries so far.
///
/// It keeps no order: whoever pushes keeps the rules of the format.
#[derive(Debug, Drop)]
pub struct LogWriter {
    start: Start,
    /// Nothing before the first entry; then the header and all entries.
    bytes: Vec<u8>,
}

// Clauses see the regions of the header and the bytes behind it. The invariant is that the header stands
// before the first entry.
impl Model for LogWriter {
    ghost use Rattle.std.specs.Prelude.{drop};
    ghost use Rattle.om_log.specs.Fronts.{IsHeaded};
    ghost use Rattle.om_log.specs.Writing.{Written};

    ghost Value = { Written };

    ghost view = { λ it. record { start = it.start; body = drop 20 it.bytes.items } };

    ghost invariant = { λ it. IsHeaded it.start it.bytes.items };
}

impl LogWriter {
    /// A log without entries. Takes no memory.
    pub fn new(alloc: Global, start: Start) -> LogWriter
        ensures { result ≡ record { start = start; body = [] } }
    {
        LogWriter {
            start,
            bytes: Vec::new(alloc),
        }
    }

    /// Writes an entry behind the others. At an error nothing changes.
    pub fn push(&mut self, entry: &Entry<'_>) -> Result<(), NoMemory>
        requires { HasShortWrites entry.now }
        ensures ok { OnOk result (self.new
            ≡ record self.old { body = self.old.body ++ spelling entry.now }) }
        ensures err { OnErr result (self.new ≡ self.old) }
    {
        let len = self.bytes.len();
        if let Err(error) = put_next(&mut self.bytes, &self.start, entry) {
            self.bytes.truncate(len);
            return Err(error);
        }
        Ok(())
    }

    /// How many bytes the header and the entries have.
    pub fn len(&self) -> usize
        ensures { result ≡ length (file_of self.now) }
    {
        if self.bytes.is_empty() {
            HEADER
        } else {
            self.bytes.len()
        }
    }

    /// The bytes of the log. Takes no memory.
    pub fn finish(self) -> Bytes
        requires { self.body ≢ [] }
        ensures { result ≡ file_of self }
    {
        let LogWriter { bytes, .. } = self;
        Bytes::from_vec(bytes)
    }
}

/// The bytes that spell `log`; reading them gives it again.
pub fn write_log(alloc: Global, log: &Log<'_>) -> Result<Bytes, NoMemory>
    requires { IsLawfulLog log.now }
    ensures { IfOk result (λ bytes. IsLog bytes log.now) }
{
    let mut writer = LogWriter::new(alloc, log.start);
    push_all(&mut writer, log.entries.as_slice())?;
    Ok(writer.finish())
}

/// Writes some entries, one after another.
#[tactic(auto, unfolding(crate::specs::Grammar::spellings))]
fn push_all(writer: &mut LogWriter, entries: &[Entry<'_>]) -> Result<(), NoMemory>
    requires { AllByRecursion HasShortWrites entries.now }
    ensures { OnOk result (writer.new
        ≡ record writer.old { body = writer.old.body ++ spellings entries.now }) }
{
    for entry in entries {
        writer.push(entry)?;
    }
    Ok(())
}

/// Appends an entry, behind the header where nothing was there before.
fn put_next(bytes: &mut Vec<u8>, start: &Start, entry: &Entry<'_>) -> Result<(), NoMemory>
    requires { HasShortWrites entry.now }
    ensures ok { PutsBehind result (headed start.now bytes.old.items) (spelling entry.now) bytes.new.items }
    ensures front { IsFront bytes.old.items bytes.new.items }
{
    if bytes.is_empty() {
        put_header(bytes, start)?;
    }
    put_entry(bytes, entry)
}
