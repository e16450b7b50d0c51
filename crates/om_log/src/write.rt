//! What a call wrote into memory.

use std::marker::Model;

/// Bytes that a call wrote, from an address on.
#[derive(Debug, Drop)]
pub struct Write<'a> {
    /// The address of the first byte.
    pub addr: u32,
    /// The bytes, as they stand in the log.
    pub bytes: &'a [u8],
}

// Clauses see the address and the bytes.
impl<'a> Model for Write<'a> {
    ghost use Rattle.om_log.specs.Chunk.{Chunk};

    ghost Value = { Chunk };

    ghost view = { λ write. record { addr = write.addr; bytes = write.bytes.now } };
}
