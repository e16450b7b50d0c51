//! Why debugging information is refused.

ghost use Rattle.std.specs.Prelude.{◌≡◌};
ghost use Rattle.om_names.specs.declared.fault.NamesFault.TheVariants as fault;

use om_base::NoMemory;
use om_cfi::CfiFault;
use om_die::DieFault;
use om_line::LineFault;

/// Why an executable's debugging information can't be read, in the order in which it is judged.
#[derive(Clone, Copy, Debug, PartialEq, Eq)]
pub enum NamesFault {
    /// No memory was left.
    NoMemory,
    /// `.debug_info` isn't what it should be.
    Info(DieFault),
    /// A range list of `.debug_ranges`, that of a subprogram or of a lexical block, has no end.
    Ranges(DieFault),
    /// A table of `.debug_line`, one that a unit names, isn't what it should be.
    Lines(LineFault),
    /// An entry of `.debug_frame` isn't what it should be.
    Frame(CfiFault),
    /// The type of a variable or a parameter of `.debug_info` takes too many typedefs, or leads back to
    /// itself.
    TypeLoop {
        /// Where the entry of the variable or the parameter begins.
        at: u32,
    },
}

impl From<NoMemory> for NamesFault {
    ghost from_gives = { λ _ given. given ≡ fault.NoMemory };

    fn from(_error: NoMemory) -> NamesFault {
        NamesFault::NoMemory
    }
}
