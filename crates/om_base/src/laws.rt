//! Laws of readers and of spans. They have no code.

ghost use Rattle.std.specs.Prelude.{drop, option_map, ◌≡◌, ◌<◌, ◌≤◌, ◌↔◌, ◌⊎◌, ℕ, ◌+◌, ◌∷◌, ◌++◌, [], List, All, Err, length, true};
ghost use Rattle.om_base.specs.Leb.{IsSleb, IsUleb, from_place, sleb_of, uleb_of};
ghost use Rattle.om_base.specs.Limits.{most_bytes, page_size};
ghost use Rattle.om_base.specs.Nul.{nul_from};
ghost use Rattle.om_base.specs.Numbers.{number_at};
ghost use Rattle.om_base.specs.Reading.{EachFrom, GoesOn, InTurn, IsNumber, IsReading, IsText, NoMore, first_then, number_of, text_of, with_rest};
ghost use Rattle.om_base.specs.Spans.{IsIn, shares};
ghost use Rattle.om_base.specs.declared.numbers.Num.{Num};
ghost use Rattle.om_base.specs.declared.span.Span.{Span};

use crate::limits::{MOST_BYTES, PAGE_SIZE};

/// What is read in front of some bytes is what stands there.
pub fn read_what_stands_there()
    ensures unsigned { IsReading (with_rest uleb_of) IsUleb }
    ensures signed { IsReading (with_rest sleb_of) IsSleb }
    ensures number { (width : ℕ) → IsReading (with_rest (number_of width)) (IsNumber width) }
    ensures text { IsReading (with_rest text_of) IsText }
    ensures in_turn { IsReading (first_then (with_rest uleb_of) (λ _. with_rest sleb_of)) (InTurn IsUleb (λ _. IsSleb)) }
{}

/// What is read from a place on is what is read in front of the bytes from there on.
pub fn read_from_a_place()
    ensures number { (width at : ℕ) (bytes : List ℕ)
        → 0 < width → number_at width bytes at ≡ number_at width (drop at bytes) 0 }
    ensures nul { (at : ℕ) (bytes : List ℕ)
        → nul_from at bytes ≡ option_map (λ k. at + k) (nul_from 0 (drop at bytes)) }
    ensures start { (bytes : List ℕ) → from_place 0 (uleb_of (drop 0 bytes)) ≡ uleb_of bytes }
{}

/// A LEB128 number is short exactly where its bytes break off within ten.
pub fn short_where_bytes_break_off()
    ensures unsigned { (bytes : List ℕ)
        → (uleb_of bytes ≡ Err Num.Short) ↔ (All (λ b. 128 ≤ b) bytes × (length bytes < 10)) }
    ensures signed { (bytes : List ℕ)
        → (sleb_of bytes ≡ Err Num.Short) ↔ (All (λ b. 128 ≤ b) bytes × (length bytes < 10)) }
{}

/// Lists of unsigned LEB128 numbers in front of the same bytes agree as far as both go, and are the
/// same where no number follows.
pub fn one_list_of_numbers()
    ensures more { (at : ℕ) (xs : List ℕ) (front text : List ℕ) (x : ℕ)
        → EachFrom (λ _. IsUleb) at xs front → IsUleb text x
        → EachFrom (λ _. IsUleb) at (xs ++ x ∷ []) (front ++ text) }
    ensures front { (at : ℕ) (xs ys : List ℕ) (s u t v : List ℕ)
        → EachFrom (λ _. IsUleb) at xs s → EachFrom (λ _. IsUleb) at ys t → s ++ u ≡ t ++ v
        → GoesOn (λ _. IsUleb) at xs s u ys t v ⊎ GoesOn (λ _. IsUleb) at ys t v xs s u }
    ensures longest { (at : ℕ) (xs ys : List ℕ) (s u t v : List ℕ)
        → EachFrom (λ _. IsUleb) at xs s → NoMore (λ _. IsUleb) (at + length s) u
        → EachFrom (λ _. IsUleb) at ys t → NoMore (λ _. IsUleb) (at + length t) v
        → s ++ u ≡ t ++ v → (xs ≡ ys) × (u ≡ v) }
{}

/// Two spans share a number exactly where some number is in both.
pub fn spans_share_a_number()
    ensures { (a b : Span) → (shares a b ≡ true) ↔ ((n : ℕ) × IsIn a n × IsIn b n) }
{}

/// The code and the definitions have one limit of bytes, and one size of a page.
pub fn one_limit()
    ensures bytes { MOST_BYTES ≡ most_bytes }
    ensures page { PAGE_SIZE ≡ page_size }
{}
