//! Texts that end with a zero byte, as those of string tables: System V gABI, chapter 4, "String Table".

ghost use Rattle.std.specs.Prelude.{◌≡◌, ◌<◌, ◌≤◌, nat_eq, length, ok_or, position, IfOk, IfSome};
ghost use Rattle.om_base.specs.Nul.{nul_from};

use crate::numbers::Num;
use memchr::memchr;

/// The place of the first zero byte.
fn nul_in(bytes: &[u8]) -> Option<usize>
    ensures place { result ≡ position (λ b. nat_eq b 0) bytes.now }
    ensures within { IfSome result (λ nul. nul < length bytes.now) }
{
    memchr(0, bytes)
}

/// The place of the zero byte that ends the text at `at`, or [`Num::NoNul`] where none does.
#[tactic(auto, unfolding(crate::specs::Nul::nul_from))]
pub fn cstr_at(bytes: &[u8], at: usize) -> Result<usize, Num>
    ensures place { result ≡ ok_or (nul_from at bytes.now) Num.NoNul }
    ensures within { IfOk result (λ nul. (at ≤ nul) × (nul < length bytes.now)) }
{
    let rest = bytes.get(at..).ok_or(Num::NoNul)?;
    let nul = nul_in(rest).ok_or(Num::NoNul)?;
    Ok(at + nul)
}
