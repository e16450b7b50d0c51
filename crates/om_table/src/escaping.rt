//! Bytes as they are printed in a line of text.
//!
//! A control character, DEL and the backslash are a backslash and two hexadecimal digits, so that the
//! line stays one line and can be read back.

ghost use Rattle.std.specs.Prelude.{◌≡◌, ℕ, ◌<◌, ◌≤◌, ◌^◌, ◌++◌, length, take, IfOk, OnOk, OnErr};
ghost use Rattle.om_table.specs.Escape.{escape_in, escaped, escaped_byte, hex_digit};

use om_base::{NoMemory, Text};

/// A hexadecimal digit, in lower case.
fn hex(digit: u8) -> u8
    requires { digit < 16 }
    ensures { result ≡ hex_digit digit }
{
    if digit < 10 {
        b'0' + digit
    } else {
        b'a' - 10 + digit
    }
}

/// The three bytes for a byte that isn't printed as it stands; none for any other.
pub fn escape(byte: u8) -> Option<[u8; 3]>
    ensures { result ≡ escape_in byte }
{
    if byte < 32 || byte == 127 || byte == b'\\' {
        Some([b'\\', hex(byte / 16), hex(byte % 16)])
    } else {
        None
    }
}

/// How many bytes a byte is printed as.
fn escaped_byte_len(byte: u8) -> usize
    ensures { result ≡ length (escaped_byte byte) }
{
    match escape(byte) {
        Some(escape) => escape.len(),
        None => 1,
    }
}

/// Appends a byte as it is printed.
fn escape_byte(text: &mut Text, byte: u8) -> Result<(), NoMemory>
    ensures ok { OnOk result (text.new ≡ text.old ++ escaped_byte byte) }
    ensures err { OnErr result (text.new ≡ text.old) }
{
    match escape(byte) {
        Some(escape) => text.add(&escape),
        None => text.add(&[byte]),
    }
}

/// How many bytes `bytes` are printed as. There is no memory for a text whose length isn't a `usize`.
pub fn escaped_len(bytes: &[u8]) -> Result<usize, NoMemory>
    ensures len { IfOk result (λ len. len ≡ length (escaped bytes.now)) }
    ensures refused { OnErr result (2 ^ 64 ≤ length (escaped bytes.now)) }
{
    let mut len = 0usize;
    for byte in bytes {
        len = len.checked_add(escaped_byte_len(*byte)).ok_or(NoMemory)?;
    }
    Ok(len)
}

/// Appends `bytes` as they are printed: some of them, from the first on, where there is no memory for
/// all.
pub fn escape_into(text: &mut Text, bytes: &[u8]) -> Result<(), NoMemory>
    ensures ok { OnOk result (text.new ≡ text.old ++ escaped bytes.now) }
    ensures err { OnErr result ((count : ℕ) × (text.new ≡ text.old ++ escaped (take count bytes.now))) }
{
    for byte in bytes {
        escape_byte(text, *byte)?;
    }
    Ok(())
}
