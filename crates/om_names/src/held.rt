//! Where the number that a variable holds is to be found.

use crate::kind::Kind;
use om_loc::Place;

/// A variable of a scalar type.
#[derive(Clone, Copy, Debug, PartialEq, Eq)]
pub struct Held {
    /// Where it is.
    pub place: Place,
    /// Where the frame of its function is; gone where it is in none.
    pub base: Place,
    /// What it holds.
    pub kind: Kind,
}
