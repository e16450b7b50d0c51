//! Why the machine can't go on.

ghost use Rattle.std.specs.Prelude.{◌≡◌};

/// A stop: nothing changes at it.
#[derive(Clone, Copy, Debug, PartialEq, Eq)]
pub enum Cause {
    /// The pc is a multiple of 4, and a byte of the word there may not be fetched.
    Fetch,
    /// The word is no instruction.
    Illegal,
    /// The pc, or the target of a jump or of a taken branch, isn't a multiple of 4.
    Misaligned,
    /// A byte to load isn't in a region.
    Load,
    /// A byte to store isn't in a region with the right to write.
    Store,
    /// The instruction is EBREAK.
    Break,
}

impl Cause {
    ghost use Rattle.om_step.specs.Step.{code_of};

    /// The number of the stop in a log, from 1 to 6.
    pub fn code(&self) -> u32
        ensures { result ≡ code_of self.now }
    {
        match self {
            Cause::Fetch => 1,
            Cause::Illegal => 2,
            Cause::Misaligned => 3,
            Cause::Load => 4,
            Cause::Store => 5,
            Cause::Break => 6,
        }
    }
}
