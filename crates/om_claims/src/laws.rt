//! Laws of claims. They have no code of their own.

ghost use Rattle.std.specs.Prelude.{◌≡◌, ◌≤◌, ◌<◌, ◌++◌, ◌∷◌, ℕ, true, false, List, Some, None, All, length};
ghost use Rattle.om_claims.specs.Claims.{holds, meant_at};
ghost use Rattle.om_claims.specs.declared.claim.Claim.{Claim};

/// An address that no claim holds is nobody's.
pub fn nobody()
    ensures { (claims : List Claim) (address : ℕ) → All (λ claim. holds address claim ≡ false) claims → meant_at claims address ≡ None }
{}

/// Where all claims are as deep, the first that holds an address is meant.
pub fn first_wins()
    ensures { (before after : List Claim) (claim : Claim) (address depth : ℕ)
        → All (λ other. holds address other ≡ false) before → holds address claim ≡ true
        → All (λ other. other.depth ≡ depth) (before ++ claim ∷ after)
        → meant_at (before ++ claim ∷ after) address ≡ Some (length before) }
{}

/// A claim that holds an address, and is deeper than each other that does, is meant wherever it stands.
pub fn deeper_wins()
    ensures { (before after : List Claim) (claim : Claim) (address : ℕ)
        → holds address claim ≡ true
        → All (λ other. holds address other ≡ true → other.depth < claim.depth) before
        → All (λ other. holds address other ≡ true → other.depth < claim.depth) after
        → meant_at (before ++ claim ∷ after) address ≡ Some (length before) }
{}
