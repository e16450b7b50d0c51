//! How a command ends: its status, and the line that it tells on standard error.

ghost use Rattle.std.specs.Prelude.{◌≡◌, IsTrue, [], ◌∷◌, ◌++◌, codes};
ghost use Rattle.om_command.specs.Lines.{line_of, status_of};
ghost use Rattle.om_command.specs.declared.ending.Ending.TheVariants as ending;
ghost use Rattle.om_table.specs.Escape.{escaped};
ghost use Rattle.om_io.specs.Writing.{Puts, Tells};

use crate::escaping::put_escaped;
use crate::lines::put_refusal;
use crate::refusal::Refusal;
use om_base::NoMemory;
use om_io::{Sink, SinkFail, put_all};

/// How a command ends.
#[derive(Clone, Copy, Debug)]
pub enum Ending<'a> {
    /// All was put and printed.
    Done,
    /// There is no answer.
    Refused(Refusal),
    /// The file of this name has more bytes than are read.
    Exceeded(&'a str),
    /// The file of this name was not read.
    Unread(&'a str),
    /// The file of this name was not put.
    Unput(&'a str),
    /// The text was not written.
    Unwritten,
    /// No memory was left.
    NoMemory,
}

impl From<NoMemory> for Ending<'_> {
    ghost use Rattle.std.specs.Prelude.{◌≡◌};
    ghost use Rattle.om_command.specs.declared.ending.Ending.TheVariants as ending;

    ghost from_gives = { λ _ e. e ≡ ending.NoMemory };

    fn from(_error: NoMemory) -> Self {
        Ending::NoMemory
    }
}

/// Writes a line with the name of a file between some words.
fn put_name<P: Sink>(sink: &mut P, before: &[u8], name: &str, after: &[u8]) -> Result<(), SinkFail>
    ensures { Puts (P.told sink.old) (P.told sink.new)
        (before.now ++ (escaped name.now ++ after.now)) result }
{
    match put_all(sink, before) {
        Ok(()) => {}
        Err(fail) => return Err(fail),
    }
    match put_escaped(sink, name.as_bytes()) {
        Ok(()) => {}
        Err(fail) => return Err(fail),
    }
    put_all(sink, after)
}

impl Ending<'_> {
    /// The exit status.
    pub fn status(&self) -> u8
        ensures { result ≡ status_of self.now }
    {
        match self {
            Ending::Done => 0,
            Ending::Exceeded(_) => 7,
            Ending::Unread(_) => 8,
            Ending::Unput(_) | Ending::Unwritten => 9,
            Ending::NoMemory => 10,
            Ending::Refused(refusal) => refusal.status(),
        }
    }

    /// Writes the line of the ending, if it has one.
    #[tactic(auto, unfolding(crate::specs::Lines::line_of))]
    fn put<P: Sink>(&self, sink: &mut P) -> Result<(), SinkFail>
        ensures line { Puts (P.told sink.old) (P.told sink.new) (line_of self.now) result }
        ensures nothing { self.now ≡ ending.Done → sink.new ≡ sink.old }
    {
        match self {
            Ending::Done => Ok(()),
            Ending::Refused(refusal) => put_refusal(sink, refusal),
            Ending::NoMemory => put_all(sink, b"omni: memory\n"),
            Ending::Unread(name) => put_name(sink, b"omni: read: ", name, b"\n"),
            Ending::Exceeded(name) => put_name(
                sink,
                b"omni: limit: file ",
                name,
                b" is longer than 67108864\n",
            ),
            Ending::Unput(name) => put_name(sink, b"omni: write: ", name, b"\n"),
            Ending::Unwritten => put_all(sink, b"omni: write\n"),
        }
    }

    /// Tells the line of the ending, if it has one, as far as the sink takes it.
    #[tactic(auto, using(om_io::proofs::PutsLemmas::puts_tells))]
    pub fn tell<P: Sink>(&self, sink: &mut P)
        ensures line { Tells (P.told sink.old) (P.told sink.new) (line_of self.now) }
        ensures nothing { self.now ≡ ending.Done → sink.new ≡ sink.old }
        ensures faultless { IsTrue (P.told sink.old).is_faultless → (P.told sink.new).faults ≡ (P.told sink.old).faults }
    {
        let _ = self.put(sink);
    }
}
