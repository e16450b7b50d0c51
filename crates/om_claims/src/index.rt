//! The index of some claims.

ghost use Rattle.std.specs.Prelude.{◌≡◌, ◌≤◌, ◌*◌, ◌^◌, length, List, IfOk, IsErr};
ghost use Rattle.om_claims.specs.Claims.{meant_at};
ghost use Rattle.om_claims.specs.Pieces.{IsIndexOf};
ghost use Rattle.om_claims.specs.declared.claim.Claim.{Claim};

use crate::claim::Claim;
use crate::merging::pieces_within;
use crate::piece::{Piece, owner_in};
use om_base::{Items, NoMemory};
use std::alloc::Global;
use std::marker::Model;

/// The address space in pieces, by the claims that are meant there.
///
/// It holds 16 bytes for each piece, and none of the claims.
#[derive(Debug, Drop)]
pub struct ClaimIndex {
    pieces: Items<Piece>,
}

// Clauses see the pieces.
impl Model for ClaimIndex {
    ghost use Rattle.std.specs.Prelude.{List, None};
    ghost use Rattle.om_claims.specs.declared.piece.Piece.{Piece};

    ghost Value = { List Piece };

    ghost view = { λ it. it.pieces };

    ghost use Rattle.om_claims.specs.Pieces.{AreTidy};

    ghost invariant = { λ it. AreTidy 0 None it.pieces };
}

/// The index of some claims. Where they are 2^32 or more, there is no room for their places.
///
/// Takes time in the number of claims, times its logarithm, however they lie in one another.
pub fn index_of(alloc: Global, claims: &[Claim]) -> Result<ClaimIndex, NoMemory>
    ensures index { IfOk result (IsIndexOf claims.now) }
    ensures many { 2 ^ 32 ≤ length claims.now → IsErr result }
    ensures size { IfOk result (λ pieces. length pieces ≤ 2 * length claims.now) }
{
    let Ok(count) = u32::try_from(claims.len()) else {
        return Err(NoMemory);
    };
    let pieces = pieces_within(alloc, claims, 0, count)?;
    Ok(ClaimIndex {
        pieces: Items::from_vec(pieces),
    })
}

impl ClaimIndex {
    /// The place of the claim that is meant by an address: of the deepest that hold it the first. None
    /// where no claim holds it.
    ///
    /// Makes one binary search, and takes no memory.
    pub fn owner_at(&self, address: u64) -> Option<u32>
        ensures { (claims : List Claim) → IsIndexOf claims self.now → result ≡ meant_at claims address }
    {
        owner_in(self.pieces.as_slice(), address)
    }
}
