//! A sink that keeps what is written in memory, and fails at the calls that it is told to.

ghost use Rattle.std.specs.Prelude.{◌≡◌, ◌≢◌, ◌≤◌, ◌↔◌, min, [], Some, Ok, IfOk, IsErrOf, Contains, length};
ghost use Rattle.std.specs.Io.KnownBytes.{WriteAppends};
ghost use Rattle.om_io.specs.Counts.{one_more};
ghost use Rattle.om_io.specs.Sink.{IsCountOf, SinkFailsByCount};
ghost use Rattle.om_io.specs.MemSink.{after_write, told_by};

use crate::{Calls, Sink, SinkFail};
use std::alloc::Global;
use std::marker::Model;

/// Bytes in memory. Calls are counted from 1, and the last number that a `u64` has stands for all later
/// ones.
#[derive(Debug, Drop)]
pub struct MemSink {
    written: Vec<u8>,
    most: usize,
    failing: Calls,
    calls: u64,
    faults: u64,
    refused_growths: u64,
}

// Clauses see all of it.
impl Model for MemSink {
    ghost use Rattle.std.specs.Prelude.{◌≤◌};
    ghost use Rattle.om_io.specs.MemSink.{SinkState};

    ghost Value = { SinkState };

    ghost view = { λ it. record { written = it.written.items; most = it.most; failing = it.failing; calls = it.calls; faults = it.faults; refused_growths = it.refused_growths } };

    ghost invariant = { λ it. 1 ≤ it.most };
}

impl MemSink {
    /// A sink to which nothing was written yet, and of whose pieces one write takes at most `most` bytes.
    /// Takes no memory.
    pub fn new(alloc: Global, most: usize, failing: Calls) -> MemSink
        requires { 1 ≤ most }
        ensures { result ≡ record { written = []; most = most; failing = failing; calls = 0; faults = 0; refused_growths = 0 } }
    {
        MemSink {
            written: Vec::new(alloc),
            most,
            failing,
            calls: 0,
            faults: 0,
            refused_growths: 0,
        }
    }

    /// All that was written.
    pub fn written(&self) -> &[u8]
        ensures { result.now ≡ self.now.written }
    {
        self.written.as_slice()
    }
}

impl Sink for MemSink {
    ghost told = { told_by };

    fn write(&mut self, bytes: &[u8]) -> Result<usize, SinkFail>
        ensures bytes { WriteAppends (Some self.old.written) (Some self.new.written) result bytes.now }
        ensures count { IfOk result (IsCountOf bytes.now) }
        ensures empty { bytes.now ≡ [] → (result ≡ Ok 0) × (self.new.faults ≡ self.old.faults)
            × (self.new.refused_growths ≡ self.old.refused_growths) }
        ensures cause { SinkFailsByCount (told_by self.old) (told_by self.new) result }

        // It fails at the calls that it was told to, unless nothing is to be written, and nowhere else.
        ensures honest { IsErrOf result SinkFail.Failed ↔
            ((bytes.now ≢ []) × Contains self.old.failing (one_more self.old.calls)) }

        ensures takes { IfOk result (λ count. count ≡ min (length bytes.now) self.old.most) }
        ensures state { self.new ≡ after_write self.old bytes.now result }
    {
        self.calls = self.calls.saturating_add(1);
        if bytes.is_empty() {
            return Ok(0);
        }
        if self.failing.has(self.calls) {
            self.faults = self.faults.saturating_add(1);
            return Err(SinkFail::Failed);
        }
        let count = bytes.len().min(self.most);
        match self.written.extend_from_slice(&bytes[..count]) {
            Ok(()) => Ok(count),
            Err(_) => {
                self.refused_growths = self.refused_growths.saturating_add(1);
                Err(SinkFail::NoMemory)
            }
        }
    }
}
