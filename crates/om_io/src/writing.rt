//! Writing all of some bytes to a sink.

ghost use Rattle.std.specs.Prelude.{flat_map};
ghost use Rattle.om_io.specs.Writing.{Puts};

use crate::{Sink, SinkFail};

/// Writes all of these bytes. After a failure, which is that of its last write, the first of them are
/// written.
pub fn put_all<S: Sink>(sink: &mut S, bytes: &[u8]) -> Result<(), SinkFail>
    ensures { Puts (S.told sink.old) (S.told sink.new) bytes.now result }
{
    let mut rest = bytes;
    while !rest.is_empty() {
        match sink.write(rest) {
            Ok(count) => rest = &rest[count..],
            Err(fail) => return Err(fail),
        }
    }
    Ok(())
}

/// Writes all of these pieces, one after another, and stops at the first failure.
pub fn put_pieces<S: Sink>(sink: &mut S, pieces: &[&[u8]]) -> Result<(), SinkFail>
    ensures { Puts (S.told sink.old) (S.told sink.new) (flat_map (λ piece. piece.now) pieces.now) result }
{
    for piece in pieces {
        match put_all(sink, piece) {
            Ok(()) => {}
            Err(fail) => return Err(fail),
        }
    }
    Ok(())
}
