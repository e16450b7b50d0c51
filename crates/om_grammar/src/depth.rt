//! Whether tokens nest too deep.

ghost use Rattle.std.specs.Prelude.{◌≡◌, ◌≤◌, IfSome};
ghost use Rattle.om_grammar.specs.Counts as counts;
ghost use Rattle.om_grammar.specs.Depth as spec;
ghost use Rattle.om_grammar.specs.Depth.{IsShallow, IsTooDeep};

use crate::readers::is;
use om_token::{Terminal, Token};

/// How many parentheses may be open, and how long a run of NOT, `+` and `-` may be.
const MOST: u32 = 64;

/// Whether a token is NOT, `+` or `-`.
fn runs_on(token: &Token<'_>) -> bool
    ensures { result ≡ spec.runs_on token.now }
{
    let kind = &token.kind;
    is(Terminal::Not, kind) || is(Terminal::Plus, kind) || is(Terminal::Minus, kind)
}

/// Whether a token nests too deep behind `parens` open parentheses and a run of `run` tokens.
fn is_past(parens: u32, run: u32, token: &Token<'_>) -> bool
    ensures { result ≡ counts.is_past parens run token.now }
{
    is(Terminal::LeftParen, &token.kind) && MOST <= parens || runs_on(token) && MOST <= run
}

/// How many parentheses are open behind a token, of `parens` before it.
fn parens_behind(parens: u32, token: &Token<'_>) -> u32
    requires { parens ≤ 64 }
    ensures { result ≡ counts.parens_behind parens token.now }
{
    if is(Terminal::LeftParen, &token.kind) {
        parens + 1
    } else if is(Terminal::RightParen, &token.kind) {
        parens.saturating_sub(1)
    } else {
        parens
    }
}

/// How long the run is that ends with a token, behind a run of `run`.
fn run_behind(run: u32, token: &Token<'_>) -> u32
    requires { run ≤ 64 }
    ensures { result ≡ counts.run_behind run token.now }
{
    if runs_on(token) { run + 1 } else { 0 }
}

/// Where the first token begins that nests too deep, in bytes from the start of the text.
pub fn too_deep(tokens: &[Token<'_>]) -> Option<u32>
    ensures some { IfSome result (λ at. IsTooDeep tokens.now at) }
    ensures none { result ≡ None → IsShallow tokens.now }
{
    let mut parens = 0;
    let mut run = 0;
    for token in tokens {
        if is_past(parens, run, token) {
            return Some(token.at);
        }
        parens = parens_behind(parens, token);
        run = run_behind(run, token);
    }
    None
}
