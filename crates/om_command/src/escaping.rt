//! Names of files as they are printed.

ghost use Rattle.std.specs.Prelude.{◌≡◌};
ghost use Rattle.om_table.specs.Escape.{escaped, escaped_byte};
ghost use Rattle.om_io.specs.Writing.{Puts};

use om_io::{Sink, SinkFail, put_all};
use om_table::escape;

/// Writes a byte of a name as it is printed.
fn put_escaped_byte<P: Sink>(sink: &mut P, byte: u8) -> Result<(), SinkFail>
    ensures { Puts (P.told sink.old) (P.told sink.new) (escaped_byte byte) result }
{
    match escape(byte) {
        Some(escape) => put_all(sink, &escape),
        None => put_all(sink, &[byte]),
    }
}

/// Writes a name as it is printed.
pub fn put_escaped<P: Sink>(sink: &mut P, name: &[u8]) -> Result<(), SinkFail>
    ensures { Puts (P.told sink.old) (P.told sink.new) (escaped name.now) result }
{
    for byte in name {
        match put_escaped_byte(sink, *byte) {
            Ok(()) => {}
            Err(fail) => return Err(fail),
        }
    }
    Ok(())
}
