//! A real output.

ghost use Rattle.std.specs.Prelude.{◌≡◌, ◌<◌, ◌≤◌, [], None, Ok, false, IfOk, OnOk, OnErr, length, take};
ghost use Rattle.std.specs.Io.KnownBytes.{Appends};
ghost use Rattle.om_io.specs.Counts.{one_more};
ghost use Rattle.om_io.specs.Sink.{AppendsPrefix, IsCountOf, SinkFailsByCount};

use crate::{Sink, SinkFail};
use std::io;
use std::io::{ErrorKind, Write};

/// Standard output, standard error or another writer. Each write is flushed, so that nothing waits in a
/// buffer when the process ends.
///
/// One count stands for every error, and for every write that takes nothing of what isn't empty.
#[derive(Drop)]
pub struct StdSink<W> {
    out: W,
    faults: u64,
}

impl<W: Write> StdSink<W> {
    /// A sink that writes to `out`.
    pub fn new(out: W) -> StdSink<W>
        ensures out { result.out ≡ out }
        ensures faults { result.faults ≡ 0 }
    {
        StdSink { out, faults: 0 }
    }
}

/// How many of the first of these bytes, which are not none, were written and flushed.
fn write_through<W: Write>(out: &mut W, bytes: &[u8]) -> io::Result<usize>
    ensures count { IfOk result (λ count. (0 < count) × (count ≤ length bytes.now)) }
    ensures taken { IfOk result (λ count. Appends (W.contents out.old) (W.contents out.new) (take count bytes.now)) }
    ensures refused { OnErr result (AppendsPrefix (W.contents out.old) (W.contents out.new) bytes.now) }
{
    let count = out.write(bytes)?;
    if count == 0 {
        return Err(io::Error::from(ErrorKind::WriteZero));
    }
    out.flush()?;
    Ok(count)
}

impl<W: Write> Sink for StdSink<W> {
    ghost told = { λ it. record { written = None; faults = it.faults; refused_growths = 0; is_faultless = false } };

    /// A flush that fails is an error too. Memory is never wanting.
    fn write(&mut self, bytes: &[u8]) -> Result<usize, SinkFail>
        ensures count { IfOk result (IsCountOf bytes.now) }
        ensures empty { bytes.now ≡ [] → (result ≡ Ok 0) × (self.new ≡ self.old) }
        ensures cause { SinkFailsByCount (record { written = None; faults = self.old.faults; refused_growths = 0; is_faultless = false })
            (record { written = None; faults = self.new.faults; refused_growths = 0; is_faultless = false }) result }

        // Each failure is counted once.
        ensures fault { OnErr result (self.new.faults ≡ one_more self.old.faults) }
        ensures none { OnOk result (self.new.faults ≡ self.old.faults) }

        // The writer took what is told as written, and at a failure the first bytes at most.
        ensures taken { IfOk result (λ count.
            Appends (W.contents self.old.out) (W.contents self.new.out) (take count bytes.now)) }
        ensures refused { OnErr result (AppendsPrefix (W.contents self.old.out) (W.contents self.new.out) bytes.now) }
    {
        if bytes.is_empty() {
            return Ok(0);
        }
        match write_through(&mut self.out, bytes) {
            Ok(count) => Ok(count),
            Err(_) => {
                self.faults = self.faults.saturating_add(1);
                Err(SinkFail::Failed)
            }
        }
    }
}
