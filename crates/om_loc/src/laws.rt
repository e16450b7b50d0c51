//! Laws of location expressions. They have no code.

ghost use Rattle.std.specs.Prelude.{◌≡◌, ◌≢◌, ℕ, List};
ghost use Rattle.om_loc.specs.Expressions.{IsExpression};
ghost use Rattle.om_loc.specs.Places.{place_of};
ghost use Rattle.om_loc.specs.declared.place.Place.{Place};

/// An expression that says a place is read as that place, so it says no other.
pub fn one_place()
    ensures { (text : List ℕ) (place : Place) → IsExpression text place → place_of text ≡ place }
{}

/// What is read as a place that isn't gone is an expression that says it, and no expression says that it
/// is gone.
pub fn gone_otherwise()
    ensures says { (text : List ℕ) → place_of text ≢ Place.Gone → IsExpression text (place_of text) }
    ensures never { (text : List ℕ) → IsExpression text Place.Gone → ⊥ }
{}
