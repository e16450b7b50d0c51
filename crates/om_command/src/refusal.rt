//! Why a command has no answer.

ghost use Rattle.std.specs.Prelude.{◌≡◌};
ghost use Rattle.om_command.specs.Lines.{refusal_status};

use om_elf::ElfFault;
use om_log::LogFault;
use om_names::NamesFault;
use om_run::Departure;

/// A part of a command whose form isn't built.
#[derive(Clone, Copy, Debug, PartialEq, Eq)]
pub enum Part {
    /// The words of the command line.
    Words,
    /// The text of the query.
    Query,
}

/// Why a command has no answer, apart from faults of the outside and want of memory.
#[derive(Clone, Copy, Debug)]
pub enum Refusal {
    /// This part isn't built.
    Unbuilt(Part),
    /// The executable isn't one.
    Executable(ElfFault),
    /// The executable's debugging information can't be read.
    Debug(NamesFault),
    /// The regions at these places of the run's list share an address, the least such pair; or both are
    /// the place of a heap that passes the last address.
    NoRoom {
        a: u32,
        b: u32,
    },
    /// The log isn't one.
    Log(LogFault),
    /// The regions at these places of the run's list share an address; the least such pair.
    Overlap {
        /// The lesser place.
        a: u32,
        /// The greater place.
        b: u32,
    },
    /// The run has more steps than are replayed.
    TooLong {
        /// The number of its last step.
        steps: u64,
    },
    /// The log that is made would be longer than a log that is read may be.
    LogTooLong {
        /// The first step with whose entries it would be longer.
        step: u64,
    },
    /// The text has more bytes than are printed.
    TooManyBytes,
    /// The run departs from its log.
    Departs(Departure),
}

impl Refusal {
    /// The exit status.
    pub fn status(&self) -> u8
        ensures { result ≡ refusal_status self.now }
    {
        match self {
            Refusal::Unbuilt(_) => 11,
            Refusal::Executable(_) | Refusal::NoRoom { .. } => 3,
            Refusal::Debug(_) => 4,
            Refusal::Log(_) | Refusal::Overlap { .. } => 5,
            Refusal::TooLong { .. } | Refusal::LogTooLong { .. } | Refusal::TooManyBytes => 7,
            Refusal::Departs(_) => 6,
        }
    }
}
