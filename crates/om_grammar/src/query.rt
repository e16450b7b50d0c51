//! Reads a query from its text.

ghost use Rattle.std.specs.Prelude.{◌≡◌, ◌≢◌, ◌≤◌, length, IfOk, IfErr};
ghost use Rattle.om_grammar.specs.declared.tree.Query.{Query};
ghost use Rattle.om_grammar.specs.declared.fault.ParseFault.{ParseFault};
ghost use Rattle.om_grammar.specs.declared.fault.ParseFault.TheVariants as faults;
ghost use Rattle.om_grammar.specs.Grammar.{IsQuery};
ghost use Rattle.om_grammar.specs.Refusals.{HasTree, IsRefusal, Answers, IsTokenFault};

use crate::cursor::Cursor;
use crate::fault::ParseFault;
use crate::stop::Stop;
use crate::tree::Query;
use crate::{depth, parts};
use om_token::{Token, TokenFault};
use std::alloc::Global;

/// The most bytes that the text of a query may have.
const MAX_LENGTH: usize = 16384;

/// The tree of a list of tokens, whose text has `end` bytes.
fn parse_tokens<'a>(alloc: Global, tokens: &[Token<'a>], end: u32) -> Result<Query<'a>, ParseFault>
    ensures tree { IfOk result (λ query. IsQuery tokens.now query) }
    ensures fault { IfErr result (λ fault. IsTokenFault tokens.now end fault) }
{
    let mut cursor = Cursor::new(tokens);
    match parts::whole(alloc, tokens.len(), &mut cursor) {
        Ok(query) => Ok(query),
        Err(Stop::NoMemory) => Err(ParseFault::NoMemory),
        Err(Stop::Wrong) => Err(ParseFault::Syntax {
            at: cursor.place(end),
        }),
        // Each level takes a token.
        Err(Stop::Deep) => unreachable!(),
    }
}

/// The tree of `text`, or why it has none.
fn read<'a>(alloc: Global, text: &'a [u8]) -> Result<Query<'a>, ParseFault>
    ensures tree { IfOk result (λ query. HasTree text.now query) }
    ensures fault { IfErr result (λ fault. fault ≢ faults.NoMemory → IsRefusal text.now fault) }
{
    if text.len() > MAX_LENGTH {
        return Err(ParseFault::TooWide {
            length: text.len() as u64,
        });
    }
    let cut = match om_token::tokens(alloc, text) {
        Ok(tokens) => tokens,
        Err(TokenFault::NoMemory) => return Err(ParseFault::NoMemory),
        Err(TokenFault::NoToken { at }) => return Err(ParseFault::Syntax { at }),
    };
    let tokens = cut.as_slice();
    if let Some(at) = depth::too_deep(tokens) {
        return Err(ParseFault::TooDeep { at });
    }
    parse_tokens(alloc, tokens, text.len() as u32)
}

/// The tree of the query that `text` spells. Its regular names are parts of `text`.
pub fn parse<'a>(alloc: Global, text: &'a [u8]) -> Result<Query<'a>, ParseFault>
    // What is read is a tree of the text, and what is refused is refused there.
    ensures tree { IfOk result (λ query. HasTree text.now query) }
    ensures fault { IfErr result (λ fault. fault ≢ faults.NoMemory → IsRefusal text.now fault) }

    // A text that has a tree is read, and one that has a refusal is refused so, unless memory runs out.
    ensures finds { (query : Query) → HasTree text.now query → Answers result (Ok query) }
    ensures refuses { (fault : ParseFault) → IsRefusal text.now fault → Answers result (Err fault) }
{
    read(alloc, text)
}
