//! The claims of local variables to the addresses that they are in scope at.

ghost use Rattle.std.specs.Prelude.{◌≡◌, ◌+◌, ◌*◌, ◌<◌, ◌^◌, ◌++◌, [], ◌∷◌, filter_map, length, map, IfOk, OnOk};
ghost use Rattle.om_names.specs.ByName.{HasPlaces};
ghost use Rattle.om_names.specs.FoundList.{scoped_by};
ghost use Rattle.om_names.specs.Stretches as spec;
ghost use Rattle.om_names.specs.Stretches.{all_claimed, claimed_by, claimed_in, claims_of, helds_of};
ghost use Rattle.om_names.specs.Variables.{depth_of, local_held};

use crate::by_name::ByName;
use crate::found::Found;
use crate::held::Held;
use crate::scope::spans_of;
use crate::variable::Variable;
use om_base::{Items, NoMemory, Span};
use om_claims::Claim;
use std::alloc::Global;

/// The number of addresses, and so of those in a stretch.
const ADDRESSES: u64 = 4_294_967_296;

/// What local variables claim: each name of the catalog has a stretch of addresses of its own, so that one index serves
/// all names.
#[derive(Debug, Drop)]
pub struct Claimed {
    pub claims: Items<Claim>,
    /// For each claim where the variable is, if its type is scalar.
    pub held: Items<Option<Held>>,
}

/// The address of a name's stretch that stands for an address.
pub fn in_stretch(place: u32, address: u32) -> u64
    ensures { result ≡ spec.in_stretch place address }
{
    ADDRESSES * u64::from(place) + u64::from(address)
}

/// The addresses of a name's stretch that stand for those of a range, if it has some.
#[tactic(auto, unfolding(crate::specs::Stretches::stretch))]
fn stretch(place: u32, span: Span) -> Option<Span>
    requires { place + 1 < 2 ^ 32 }
    ensures { result ≡ spec.stretch place span }
{
    let hi = if ADDRESSES < span.hi {
        ADDRESSES
    } else {
        span.hi
    };
    if span.lo >= hi {
        return None;
    }
    let first = ADDRESSES * u64::from(place);
    Some(Span {
        lo: first + span.lo,
        hi: first + hi,
    })
}

impl Claimed {
    /// Adds what a variable claims by a range, whose name has a place.
    fn add_span(&mut self, place: u32, span: Span, variable: &Variable<'_>) -> Result<(), NoMemory>
        requires { place + 1 < 2 ^ 32 }
        ensures claims { OnOk result (self.new.claims ≡ self.old.claims ++ claims_of (map (claimed_by variable.now) (filter_map (spec.stretch place) (span ∷ [])))) }
        ensures held { OnOk result (self.new.held ≡ self.old.held ++ helds_of (map (claimed_by variable.now) (filter_map (spec.stretch place) (span ∷ [])))) }
    {
        if let Some(span) = stretch(place, span) {
            self.claims.push(Claim {
                span,
                depth: variable.depth(),
            })?;
            self.held.push(variable.held())?;
        }
        Ok(())
    }

    /// Adds what a variable claims, whose name has a place.
    fn add(&mut self, place: u32, spans: &[Span], variable: &Variable<'_>) -> Result<(), NoMemory>
        requires { place + 1 < 2 ^ 32 }
        ensures claims { OnOk result (self.new.claims ≡ self.old.claims ++ claims_of (map (claimed_by variable.now) (filter_map (spec.stretch place) spans.now))) }
        ensures held { OnOk result (self.new.held ≡ self.old.held ++ helds_of (map (claimed_by variable.now) (filter_map (spec.stretch place) spans.now))) }
    {
        for span in spans {
            self.add_span(place, *span, variable)?;
        }
        Ok(())
    }
}

impl Claimed {
    /// Adds what a variable claims.
    fn add_found<'a>(
        &mut self,
        alloc: Global,
        ranges: &[u8],
        names: &ByName<'a>,
        found: &Found<'a>,
    ) -> Result<(), NoMemory>
        requires places { HasPlaces names.now }
        requires few { length names.now.list.items < 2 ^ 32 }
        ensures claims { OnOk result (self.new.claims ≡ self.old.claims ++ claims_of (claimed_in names.now.list.items (scoped_by ranges.now found.now))) }
        ensures held { OnOk result (self.new.held ≡ self.old.held ++ helds_of (claimed_in names.now.list.items (scoped_by ranges.now found.now))) }
    {
        let Some(_) = found.scope else {
            return Ok(());
        };
        let Some(place) = names.place_of(&found.variable.name()) else {
            return Ok(());
        };
        let spans = spans_of(alloc, ranges, found.base, found.scope)?;
        self.add(place as u32, spans.as_slice(), &found.variable)?;
        Ok(())
    }
}

/// What all variables claim, by the places of their names.
pub fn read_claimed<'a>(
    alloc: Global,
    ranges: &[u8],
    names: &ByName<'a>,
    found: &[Found<'a>],
) -> Result<Claimed, NoMemory>
    requires places { HasPlaces names.now }
    requires few { length names.now.list.items < 2 ^ 32 }
    ensures claims { IfOk result (λ it. it.claims ≡ claims_of (all_claimed names.now.list.items (map (scoped_by ranges.now) found.now))) }
    ensures held { IfOk result (λ it. it.held ≡ helds_of (all_claimed names.now.list.items (map (scoped_by ranges.now) found.now))) }
{
    let mut claimed = Claimed {
        claims: Items::new(alloc),
        held: Items::new(alloc),
    };
    for one in found {
        claimed.add_found(alloc, ranges, names, one)?;
    }
    Ok(claimed)
}
