//! Frame description entries: DWARF 4, section 6.4.1.

ghost use Rattle.std.specs.Prelude.{◌≡◌, IfOk};
ghost use Rattle.om_cfi.specs.Common as spec;

use crate::common::is_broken;
use crate::fields::{Short, first_u32};
use crate::rule::Factors;
use om_base::Name;

/// A frame description entry (FDE), with what it has in common with others.
#[derive(Debug, Drop)]
pub struct Description<'a> {
    /// The first address.
    pub first: u32,
    /// How many addresses there are.
    pub length: u32,
    pub factors: Factors,
    /// The instructions that it has in common with others.
    pub common: Name<'a>,
    /// Its own instructions.
    pub own: Name<'a>,
}

/// A description, by the bytes behind its id.
#[tactic(auto, unfolding(crate::specs::Common::description_in))]
pub fn description_in<'a>(
    factors: Factors,
    common: &Name<'a>,
    bytes: &'a [u8],
) -> Result<Description<'a>, Short>
    ensures described { result ≡ spec.description_in factors common.now bytes.now }
    ensures common { IfOk result (λ it. (it.factors ≡ factors) × (it.common ≡ common.now)) }
{
    let (first, rest) = first_u32(bytes)?;
    let (length, rest) = first_u32(rest)?;
    if is_broken(rest) {
        return Err(Short);
    }
    Ok(Description {
        first,
        length,
        factors,
        common: Name::of(common.bytes()),
        own: Name::of(rest),
    })
}
