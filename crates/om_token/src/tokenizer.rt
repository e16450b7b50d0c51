//! Cuts a text into tokens.

ghost use Rattle.std.specs.Prelude.{◌≤◌, length, IfOk, IfErr};
ghost use Rattle.om_token.specs.Tokens.{AreTokens, IsUncut};

use crate::fault::TokenFault;
use crate::piece;
use crate::token::{Piece, Token};
use om_base::Items;
use std::alloc::Global;

/// The tokens of `text`, first to last.
pub fn tokens<'a>(alloc: Global, text: &'a [u8]) -> Result<Items<Token<'a>>, TokenFault>
    requires { length text.now ≤ 16384 }
    ensures ok { IfOk result (λ tokens. AreTokens text.now tokens) }
    ensures err { IfErr result (λ fault. IsUncut text.now fault) }
{
    let mut tokens = Items::new(alloc);
    let mut rest = text;
    while !rest.is_empty() {
        let at = (text.len() - rest.len()) as u32;
        let Some((piece, after)) = piece::cut(rest) else {
            return Err(TokenFault::NoToken { at });
        };
        if let Piece::Token(kind) = piece {
            tokens.push(Token { at, kind })?;
        }
        rest = after;
    }
    Ok(tokens)
}
