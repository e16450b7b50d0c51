//! The pieces of claims, made half by half: those of two halves of the claims are merged into those
//! of all.

ghost use Rattle.std.specs.Prelude.{◌≡◌, ◌≤◌, ◌∷◌, [], length, IfOk, MatchOption, None, ◌+◌};
ghost use Rattle.om_claims.specs.Merging.{ArePiecesOf, deeper, depth_at, half_of, joined, least, left_in, merged, next_from, passed, pieces_of};

use crate::claim::Claim;
use crate::piece::Piece;
use om_base::NoMemory;
use std::alloc::Global;

/// The depth of the claim at a place, 0 where there is none.
fn depth_at(claims: &[Claim], place: u32) -> u32
    ensures { result ≡ depth_at claims.now place }
{
    match claims.get(place as usize) {
        Some(claim) => claim.depth,
        None => 0,
    }
}

/// The deeper of two owners, of equals the first.
#[tactic(auto, unfolding(crate::specs::Merging::deeper))]
fn deeper(claims: &[Claim], first: Option<u32>, second: Option<u32>) -> Option<u32>
    ensures { result ≡ deeper claims.now first second }
{
    match (first, second) {
        (Some(one), Some(other)) => {
            if depth_at(claims, one) < depth_at(claims, other) {
                second
            } else {
                first
            }
        }
        (None, _) => second,
        (_, None) => first,
    }
}

/// The lower of two addresses that may not be there.
fn least(first: Option<u64>, second: Option<u64>) -> Option<u64>
    ensures { result ≡ least first second }
{
    match (first, second) {
        (Some(one), Some(other)) => Some(one.min(other)),
        (None, _) => second,
        (_, None) => first,
    }
}

/// What is left of a list of pieces.
#[derive(Drop)]
struct Left<'a> {
    /// The owner of the addresses before what is left.
    owner: Option<u32>,
    pieces: &'a [Piece],
}

impl<'a> Left<'a> {
    /// All of some pieces.
    fn all(pieces: &'a [Piece]) -> Left<'a>
        ensures owner { result.owner ≡ None }
        ensures pieces { result.pieces.now ≡ pieces.now }
    {
        Left {
            owner: None,
            pieces,
        }
    }

    /// Where the next piece begins.
    fn next_from(&self) -> Option<u64>
        ensures { result ≡ next_from self.now.pieces.now }
    {
        match self.pieces.first() {
            Some(piece) => Some(piece.from),
            None => None,
        }
    }

    /// Takes the next piece if it begins at the address.
    fn pass(&mut self, from: u64)
        ensures { half_of self.new ≡ passed from (half_of self.old) }
    {
        if let Some((piece, pieces)) = self.pieces.split_first() {
            if piece.from == from {
                self.owner = piece.owner;
                self.pieces = pieces;
            }
        }
    }
}

/// What is left of two lists of pieces that are merged.
#[derive(Drop)]
struct Merging<'a> {
    first: Left<'a>,
    second: Left<'a>,
}

impl<'a> Merging<'a> {
    /// Takes the next piece, if one is left.
    fn next(&mut self, claims: &[Claim]) -> Option<Piece>
        ensures { MatchOption result (left_in claims.now self.old ≡ []) (λ piece. left_in claims.now self.old ≡ piece ∷ left_in claims.now self.new) }
    {
        let from = least(self.first.next_from(), self.second.next_from())?;
        self.first.pass(from);
        self.second.pass(from);
        let owner = deeper(claims, self.first.owner, self.second.owner);
        Some(Piece { from, owner })
    }
}

/// The pieces of two lists, where an address is of the deeper owner, of equals the first list's.
fn merge(
    alloc: Global,
    claims: &[Claim],
    first: &[Piece],
    second: &[Piece],
) -> Result<Vec<Piece>, NoMemory>
    ensures { IfOk result (λ pieces. pieces.items ≡ joined None (merged claims.now None None first.now second.now)) }
{
    let mut pieces = Vec::new(alloc);
    let mut last = None;
    let mut left = Merging {
        first: Left::all(first),
        second: Left::all(second),
    };
    while let Some(piece) = left.next(claims) {
        if piece.owner == last {
            continue;
        }
        last = piece.owner;
        pieces.push(piece)?;
    }
    Ok(pieces)
}

/// The pieces of the claim at a place.
fn pieces_of(alloc: Global, place: u32, claim: &Claim) -> Result<Vec<Piece>, NoMemory>
    ensures { IfOk result (λ pieces. pieces.items ≡ pieces_of place claim.now) }
{
    let mut pieces = Vec::new(alloc);
    if claim.span.lo < claim.span.hi {
        pieces.push(Piece {
            from: claim.span.lo,
            owner: Some(place),
        })?;
        pieces.push(Piece {
            from: claim.span.hi,
            owner: None,
        })?;
    }
    Ok(pieces)
}

/// The pieces of the claims from a place up to another.
pub fn pieces_within(
    alloc: Global,
    claims: &[Claim],
    low: u32,
    high: u32,
) -> Result<Vec<Piece>, NoMemory>
    requires order { low ≤ high }
    requires within { high ≤ length claims.now }
    ensures { IfOk result (λ pieces. ArePiecesOf claims.now low high pieces.items) }
{
    if low == high {
        return Ok(Vec::new(alloc));
    }
    if low + 1 == high {
        return pieces_of(alloc, low, &claims[low as usize]);
    }
    let middle = low + (high - low) / 2;
    let first = pieces_within(alloc, claims, low, middle)?;
    let second = pieces_within(alloc, claims, middle, high)?;
    merge(alloc, claims, &first, &second)
}
