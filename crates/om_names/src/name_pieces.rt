//! The order of bytes that are kept in pieces.

ghost use Rattle.std.specs.Prelude.{◌≡◌, ◌≤◌, ◌<◌, ◌↔◌, IsTrue, length, drop};
ghost use Rattle.std.specs.Ordering.{nat_cmp};
ghost use Rattle.std.specs.Cmp.Lexicographic.{slice_cmp};
ghost use Rattle.om_names.specs.NamePieces.{joined, pieces_left};

use om_eval::VariableName;
use std::cmp::Ordering;

/// Bytes in three pieces, one behind another.
#[derive(Clone, Copy, Debug)]
pub struct Pieces<'a> {
    pub first: &'a [u8],
    pub second: &'a [u8],
    pub third: &'a [u8],
}

impl<'a> Pieces<'a> {
    /// The bytes of a name. One of a single piece has it first.
    pub fn of(name: &VariableName<'a>) -> Pieces<'a>
        ensures { joined result ≡ name.now }
    {
        let (function, point, own) = name.pieces();
        if function.is_empty() && point.is_empty() {
            return Pieces {
                first: own,
                second: b"",
                third: b"",
            };
        }
        Pieces {
            first: function,
            second: point,
            third: own,
        }
    }

    /// How many bytes there are.
    pub fn len(self) -> u128
        ensures { result ≡ length (joined self.entry) }
    {
        self.first.len() as u128 + self.second.len() as u128 + self.third.len() as u128
    }

    /// Whether there is no byte.
    fn is_empty(self) -> bool
        ensures { IsTrue result ↔ (length (joined self.entry) ≡ 0) }
    {
        self.len() == 0
    }

    /// What stands behind so many bytes of the first piece. Behind all of them it begins with the next
    /// piece.
    fn behind(self, count: usize) -> Pieces<'a>
        requires { count ≤ length self.first.now }
        ensures value { joined result ≡ drop count (joined self.entry) }
        ensures left { pieces_left result ≤ pieces_left self.entry }
        ensures fewer { count ≡ length self.entry.first.now → 0 < length (joined self.entry) → pieces_left result < pieces_left self.entry }
    {
        if count == self.first.len() {
            return Pieces {
                first: self.second,
                second: self.third,
                third: b"",
            };
        }
        Pieces {
            first: &self.first[count..],
            ..self
        }
    }
}

/// The order of the bytes of two texts in pieces. As many bytes are compared at once as both first
/// pieces have.
pub fn compare(mut left: Pieces<'_>, mut right: Pieces<'_>) -> Ordering
    ensures { result ≡ slice_cmp nat_cmp (joined left.entry) (joined right.entry) }
{
    while !left.is_empty() && !right.is_empty() {
        let count = left.first.len().min(right.first.len());
        match left.first[..count].cmp(&right.first[..count]) {
            Ordering::Equal => {}
            apart => return apart,
        }
        left = left.behind(count);
        right = right.behind(count);
    }
    left.len().cmp(&right.len())
}
