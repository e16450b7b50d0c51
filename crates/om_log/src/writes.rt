//! The writes of a call, in log order.

ghost use Rattle.std.specs.Prelude.{◌≡◌, ◌<◌, ◌^◌, [], ◌∷◌, length};
ghost use Rattle.om_log.specs.Chunk.{first_and_others};
ghost use Rattle.om_log.specs.EntryFields.{chunks_in};

use crate::fields::chunk_of;
use crate::write::Write;
use std::marker::Model;

/// How the writes are held.
#[derive(Debug, Drop)]
enum Held<'a> {
    Empty,
    One(Write<'a>),
    /// So many writes, spelled one after another.
    Spelled(u32, &'a [u8]),
}

/// A borrowed list of writes, which takes no memory: those of a log stay in the file until they are
/// split off.
#[derive(Debug, Drop)]
pub struct Writes<'a> {
    held: Held<'a>,
}

// Clauses see the list.
impl<'a> Model for Writes<'a> {
    ghost use Rattle.std.specs.Prelude.{List};
    ghost use Rattle.om_log.specs.Chunk.{Chunk};

    ghost Value = { List Chunk };

    ghost use Rattle.om_log.specs.Held.{writes_of};

    ghost view = { λ writes. writes_of writes.held };
}

impl<'a> Writes<'a> {
    /// No writes.
    pub fn none() -> Writes<'a>
        ensures { result ≡ [] }
    {
        Writes { held: Held::Empty }
    }

    /// This one write.
    pub fn one(write: Write<'a>) -> Writes<'a>
        ensures { result ≡ write.entry ∷ [] }
    {
        Writes {
            held: Held::One(write),
        }
    }

    /// The same list.
    pub fn again(&self) -> Writes<'a>
        ensures { result ≡ self.now }
    {
        match &self.held {
            Held::Empty => Writes { held: Held::Empty },
            Held::One(write) => Writes::one(Write {
                addr: write.addr,
                bytes: write.bytes,
            }),
            Held::Spelled(count, bytes) => Writes {
                held: Held::Spelled(*count, bytes),
            },
        }
    }

    /// The first write with the others, if there is one.
    pub fn split_first(&self) -> Option<(Write<'a>, Writes<'a>)>
        ensures { result ≡ first_and_others self.now }
    {
        match &self.held {
            Held::Empty => None,
            Held::One(write) => Some((
                Write {
                    addr: write.addr,
                    bytes: write.bytes,
                },
                Writes::none(),
            )),
            Held::Spelled(count, bytes) => Writes::split_spelled(*count, bytes),
        }
    }

    /// How many writes there are.
    pub(crate) fn count(&self) -> u32
        requires { length self.now < 2 ^ 32 }
        ensures { result ≡ length self.now }
    {
        let mut count = 0;
        let mut rest = self.again();
        while let Some((_, others)) = rest.split_first() {
            count += 1;
            rest = others;
        }
        count
    }

    /// As many writes as `bytes` begin with, at most `count`.
    pub(crate) fn spelled(count: u32, bytes: &'a [u8]) -> Writes<'a>
        ensures { result ≡ chunks_in count bytes.now }
    {
        Writes {
            held: Held::Spelled(count, bytes),
        }
    }

    /// The first of at most `count` writes that `bytes` begin with, with the others.
    fn split_spelled(count: u32, bytes: &'a [u8]) -> Option<(Write<'a>, Writes<'a>)>
        ensures { result ≡ first_and_others (chunks_in count bytes.now) }
    {
        if count == 0 {
            return None;
        }
        let (write, rest) = chunk_of(bytes)?;
        Some((write, Writes::spelled(count - 1, rest)))
    }
}
