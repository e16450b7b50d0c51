//! Numbers as text.

ghost use Rattle.std.specs.Prelude.{◌≡◌, OnErr};
ghost use Rattle.std.specs.Fmt.{signed_decimal};
ghost use Rattle.om_base.specs.Appending.{PutsBehind};

use crate::{NoMemory, Text};
use itoa::Buffer;

/// Appends the decimal text of `value`: its digits without leading zeros, after a minus sign where it
/// is below 0.
pub fn put_decimal(text: &mut Text, value: i128) -> Result<(), NoMemory>
    ensures ok { PutsBehind result text.old (signed_decimal value) text.new }
    ensures err { OnErr result (text.new ≡ text.old) }
{
    let mut buffer = Buffer::new();
    text.add(buffer.format(value).as_bytes())
}
