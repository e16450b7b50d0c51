//! Bytes in double quotes, as RFC 4180, section 2, has them in a field.

ghost use Rattle.std.specs.Prelude.{◌≡◌, ◌++◌, OnOk};
ghost use Rattle.om_table.specs.Text.{quoted, quoted_byte};

use om_base::{NoMemory, Text};

/// Appends a byte that stands between double quotes.
fn put_quoted_byte(text: &mut Text, byte: u8) -> Result<(), NoMemory>
    ensures { OnOk result (text.new ≡ text.old ++ quoted_byte byte) }
{
    if byte == b'"' {
        return text.add(b"\"\"");
    }
    text.add(&[byte])
}

/// Appends `bytes` in double quotes. After a refusal a part of them may stand at the end of `text`.
pub fn quote_into(text: &mut Text, bytes: &[u8]) -> Result<(), NoMemory>
    ensures { OnOk result (text.new ≡ text.old ++ quoted bytes.now) }
{
    text.add(b"\"")?;
    for byte in bytes {
        put_quoted_byte(text, *byte)?;
    }
    text.add(b"\"")
}
