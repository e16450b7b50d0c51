//! Where bytes go to.

ghost use Rattle.std.specs.Prelude.{◌≡◌, [], Ok, IfOk};
ghost use Rattle.std.specs.Io.KnownBytes.{WriteAppends};
ghost use Rattle.om_io.specs.Sink.{IsCountOf, SinkFailsByCount, SinkTold};

/// Why bytes were not written.
#[derive(Clone, Copy, Debug, PartialEq, Eq)]
pub enum SinkFail {
    /// No memory was left for them.
    NoMemory,
    /// The bytes can't be written.
    Failed,
}

/// Bytes that are written one after another.
pub trait Sink {
    /// What was written, where the sink tells it, how often a write failed and how often memory was
    /// wanting for one, which never fall, and whether it is known that no write fails.
    ghost told: { Self → SinkTold };

    /// Writes some of the first of these bytes, and says how many.
    fn write(&mut self, bytes: &[u8]) -> Result<usize, SinkFail>
        ensures bytes { WriteAppends (told self.old).written (told self.new).written result bytes.now }
        ensures count { IfOk result (IsCountOf bytes.now) }
        ensures empty { bytes.now ≡ [] → (result ≡ Ok 0) × ((told self.new).faults ≡ (told self.old).faults)
            × ((told self.new).refused_growths ≡ (told self.old).refused_growths) }
        ensures cause { SinkFailsByCount (told self.old) (told self.new) result };
}
