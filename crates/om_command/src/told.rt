//! What a fault tells: some words and up to two numbers.

ghost use Rattle.std.specs.Prelude.{◌≡◌, [], ◌∷◌, ◌++◌, decimal};
ghost use Rattle.om_command.specs.Lines.{with_numbers};
ghost use Rattle.om_command.specs.Told.{number_text, told_text};
ghost use Rattle.om_io.specs.Writing.{Puts};

use itoa::Buffer;
use om_io::{Sink, SinkFail, put_all, put_pieces};

/// Some words, and up to two numbers that are told behind them.
#[derive(Clone, Copy, Debug)]
pub struct Told {
    /// The words, as they are printed.
    pub words: &'static [u8],
    /// The number behind them.
    pub first: Option<u64>,
    /// The number behind that.
    pub second: Option<u64>,
}

impl Told {
    /// Words alone.
    pub fn words(words: &'static [u8]) -> Told
        ensures { told_text result ≡ with_numbers words.now [] }
    {
        Told {
            words,
            first: None,
            second: None,
        }
    }

    /// Words and a number.
    pub fn number(words: &'static [u8], first: u64) -> Told
        ensures { told_text result ≡ with_numbers words.now (first ∷ []) }
    {
        Told {
            words,
            first: Some(first),
            second: None,
        }
    }

    /// Words and two places in a list.
    pub fn places(words: &'static [u8], first: u32, second: u32) -> Told
        ensures { told_text result ≡ with_numbers words.now (first ∷ second ∷ []) }
    {
        Told {
            words,
            first: Some(u64::from(first)),
            second: Some(u64::from(second)),
        }
    }
}

/// Writes some words and a number.
pub fn put_place<P: Sink>(sink: &mut P, words: &[u8], at: u64) -> Result<(), SinkFail>
    ensures { Puts (P.told sink.old) (P.told sink.new) (words.now ++ decimal at) result }
{
    let mut buffer = Buffer::new();
    put_pieces(sink, &[words, buffer.format(at).as_bytes()])
}

/// Writes a space and a number, if there is one.
#[tactic(auto, using(om_io::proofs::PutsLemmas::puts_nothing))]
fn put_number<P: Sink>(sink: &mut P, number: Option<u64>) -> Result<(), SinkFail>
    ensures { Puts (P.told sink.old) (P.told sink.new) (number_text number) result }
{
    match number {
        Some(number) => put_place(sink, b" ", number),
        None => Ok(()),
    }
}

/// Writes what a fault tells behind some words.
pub fn put_told<P: Sink>(sink: &mut P, before: &[u8], told: &Told) -> Result<(), SinkFail>
    ensures { Puts (P.told sink.old) (P.told sink.new) (before.now ++ told_text told.now) result }
{
    match put_all(sink, before) {
        Ok(()) => {}
        Err(fail) => return Err(fail),
    }
    match put_all(sink, told.words) {
        Ok(()) => {}
        Err(fail) => return Err(fail),
    }
    match put_number(sink, told.first) {
        Ok(()) => put_number(sink, told.second),
        Err(fail) => Err(fail),
    }
}
