//! The address space in pieces, each with its owner.
//!
//! Pieces stand in rising order, and each reaches to the beginning of the next.

ghost use Rattle.std.specs.Prelude.{◌≡◌, None};
ghost use Rattle.om_claims.specs.Pieces.{AreTidy, owner_in};

/// The addresses from one on, up to the next piece.
#[derive(Clone, Copy, Debug, PartialEq, Eq)]
pub struct Piece {
    /// The first address.
    pub from: u64,
    /// Whose they are, by its place in the list of claims, if they are anybody's.
    pub owner: Option<u32>,
}

/// Whose an address is.
pub fn owner_in(pieces: &[Piece], address: u64) -> Option<u32>
    requires { AreTidy 0 None pieces.now }
    ensures { result ≡ owner_in pieces.now address }
{
    let place = pieces.partition_point(|piece| piece.from <= address);
    if place == 0 {
        return None;
    }
    pieces[place - 1].owner
}
