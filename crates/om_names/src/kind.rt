//! What a variable of a scalar type holds: DWARF 4, section 5.1.

ghost use Rattle.std.specs.Prelude.{◌≡◌};
ghost use Rattle.om_names.specs.Variables.{interval_of};

use om_base::Interval;

/// The numbers of a scalar type.
#[derive(Clone, Copy, Debug, PartialEq, Eq)]
pub struct Kind {
    /// How many bytes they have: 1, 2, 4 or 8.
    pub size: u8,
    /// Whether some are negative.
    pub signed: bool,
}

/// The numbers from `lo` to `hi`.
macro_rules! between {
    ($lo:expr, $hi:expr) => {
        Some(Interval { lo: $lo, hi: $hi })
    };
}

impl Kind {
    /// The least and the greatest number, of a size that is read.
    pub(crate) fn interval(&self) -> Option<Interval>
        ensures { result ≡ interval_of self.now }
    {
        match (self.size, self.signed) {
            (1, false) => between!(0, 0xff),
            (1, true) => between!(-0x80, 0x7f),
            (2, false) => between!(0, 0xffff),
            (2, true) => between!(-0x8000, 0x7fff),
            (4, false) => between!(0, 0xffff_ffff),
            (4, true) => between!(-0x8000_0000, 0x7fff_ffff),
            (8, false) => between!(0, 0xffff_ffff_ffff_ffff),
            (8, true) => between!(-0x8000_0000_0000_0000, 0x7fff_ffff_ffff_ffff),
            _ => None,
        }
    }
}
