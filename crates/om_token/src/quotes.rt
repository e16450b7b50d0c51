//! What stands between quotes, where two stand for one: SQL-92, section 5.2.

ghost use Rattle.std.specs.Prelude.{◌≡◌, ◌<◌, [], ◌∷◌, length, IfOk, IfSome, None};
ghost use Rattle.om_token.specs.Quotes as spec;

use om_base::{NoMemory, Text};
use std::alloc::Global;

/// The first byte that is said between quotes, and what stands after it.
#[tactic(auto, unfolding(crate::specs::Quotes::unquoted))]
pub fn first_said(quote: u8, inside: &[u8]) -> Option<(u8, &[u8])>
    ensures none { result ≡ None → spec.unquoted quote inside.now ≡ [] }
    ensures some { IfSome result (λ x. spec.unquoted quote inside.now ≡ x.0 ∷ spec.unquoted quote x.1.now) }
    ensures shorter { IfSome result (λ x. length x.1.now < length inside.now) }
{
    match inside {
        [first, second, rest @ ..] if *first == quote && *second == quote => Some((quote, rest)),
        [byte, rest @ ..] => Some((*byte, rest)),
        [] => None,
    }
}

/// What is said between quotes.
pub fn unquoted(alloc: Global, quote: u8, inside: &[u8]) -> Result<Text, NoMemory>
    ensures { IfOk result (λ text. text ≡ spec.unquoted quote inside.now) }
{
    let mut text = Text::copy_of(alloc, b"")?;
    let mut rest = inside;
    while let Some((byte, others)) = first_said(quote, rest) {
        text.add(&[byte])?;
        rest = others;
    }
    Ok(text)
}
