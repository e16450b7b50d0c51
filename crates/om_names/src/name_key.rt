//! Names as keys of a map.

ghost use Rattle.std.specs.Prelude.{◌≡◌, bytes_eq, refl};
ghost use Rattle.std.proofs.Common.{rules};
ghost use Rattle.std.specs.Cmp.{partial_equiv_from_equiv};
ghost use Rattle.std.specs.Cmp.Lexicographic.{nat_list_eq_equiv};
ghost use Rattle.std.specs.Ordering.{as_partial_cmp};
ghost use Rattle.om_names.specs.NameOrder.{name_cmp, name_po, name_ties, name_total};

use crate::name_pieces::{Pieces, compare};
use om_eval::VariableName;
use std::cmp::Ordering;
use std::marker::Model;

/// A name as a key.
///
/// Shorter names come before longer ones, so that names of different lengths are told apart without a
/// look at their bytes: those of an executable may be all the ends of one long string.
#[derive(Debug, Drop)]
pub struct NameKey<'a> {
    name: VariableName<'a>,
}

// Clauses see the bytes.
impl<'a> Model for NameKey<'a> {
    ghost use Rattle.std.specs.Prelude.{List, ℕ};

    ghost Value = { List ℕ };

    ghost view = { λ it. it.name };
}

impl<'a> NameKey<'a> {
    /// The key of a name.
    pub fn of(name: &VariableName<'a>) -> NameKey<'a>
        ensures { result ≡ name.now }
    {
        NameKey { name: name.again() }
    }

    /// How it stands to another.
    fn order(&self, other: &NameKey<'a>) -> Ordering
        ensures { result ≡ name_cmp self.now other.now }
    {
        let (left, right) = (Pieces::of(&self.name), Pieces::of(&other.name));
        match left.len().cmp(&right.len()) {
            Ordering::Equal => compare(left, right),
            apart => apart,
        }
    }
}

impl<'a> PartialEq for NameKey<'a> {
    ghost eq = { bytes_eq };

    ghost laws = { partial_equiv_from_equiv nat_list_eq_equiv };

    fn eq(&self, other: &NameKey<'a>) -> bool {
        self.order(other).is_eq()
    }
}

impl<'a> Eq for NameKey<'a> {
    ghost laws = { nat_list_eq_equiv };
}

impl<'a> PartialOrd for NameKey<'a> {
    ghost partial_cmp = { as_partial_cmp name_cmp };

    ghost laws = { name_po };

    fn partial_cmp(&self, other: &NameKey<'a>) -> Option<Ordering> {
        Some(self.cmp(other))
    }
}

impl<'a> Ord for NameKey<'a> {
    ghost cmp = { name_cmp };

    ghost total = { name_total };

    ghost matches_partial_cmp = { λ x y. refl };

    ghost matches_eq = { name_ties };

    fn cmp(&self, other: &NameKey<'a>) -> Ordering {
        self.order(other)
    }
}
