//! Spans that have a number in common.

ghost use Rattle.std.specs.Prelude.{◌≡◌, ◌^◌, ◌<◌, length, position, IfSome};
ghost use Rattle.om_base.specs.Spans.{overlap_of, shares};

use crate::span::Span;

/// Whether some number is in both spans.
fn share(a: &Span, b: &Span) -> bool
    ensures { result ≡ shares a.now b.now }
{
    a.lo.max(b.lo) < a.hi.min(b.hi)
}

/// The place of the first span that shares a number with `span`.
fn first_sharing(span: &Span, others: &[Span]) -> Option<usize>
    ensures place { result ≡ position (shares span.now) others.now }
    ensures within { IfSome result (λ place. place < length others.now) }
{
    others.iter().position(|other| share(span, other))
}

/// The least pair of places whose spans share a number, if any do.
///
/// Takes time in the square of the number of spans.
#[tactic(auto, using(crate::proofs::SpanLemmas::overlaps))]
pub fn overlap(spans: &[Span]) -> Option<(u32, u32)>
    requires { length spans.now < 2 ^ 32 }
    ensures { result ≡ overlap_of spans.now }
{
    let mut first = 0;
    let mut rest = spans;
    while let Some((span, others)) = rest.split_first() {
        if let Some(place) = first_sharing(span, others) {
            return Some((first, first + 1 + place as u32));
        }
        first += 1;
        rest = others;
    }
    None
}
