//! What the parser sees in one token.

ghost use Rattle.std.specs.Prelude.{◌≡◌, IfOk};
ghost use Rattle.om_grammar.specs.Reading as spec;

use crate::aggregates::Aggregates;
use crate::cond_tree::CompareOp;
use crate::expr_tree::{Function, Numeral, Scale, Sign, Width};
use crate::lead::{Dotted, Lead, Negatable, Word};
use crate::tree::{Alias, Direction, Identifier, Key, Label};
use om_base::{Name, NoMemory};
use om_token::{Kind, Terminal, Token, unquoted};
use std::alloc::Global;

/// The offset of a token that is this reserved word or symbol.
pub fn offset(which: Terminal, token: &Token<'_>) -> Option<u32>
    ensures { result ≡ spec.offset_of which token.now }
{
    if is(which, &token.kind) {
        Some(token.at)
    } else {
        None
    }
}

/// Whether a token is this reserved word or symbol.
#[tactic(auto, unfolding(om_token::specs::Terminals::same))]
pub fn is(which: Terminal, kind: &Kind<'_>) -> bool
    ensures { result ≡ spec.is which kind.now }
{
    match kind {
        Kind::Terminal(other) => which == *other,
        _ => false,
    }
}

/// The sign that a token is, and its offset.
pub fn sign(token: &Token<'_>) -> Option<(u32, Sign)>
    ensures { result ≡ spec.sign_of token.now }
{
    match token.kind {
        Kind::Terminal(Terminal::Plus) => Some((token.at, Sign::Plus)),
        Kind::Terminal(Terminal::Minus) => Some((token.at, Sign::Minus)),
        _ => None,
    }
}

/// The operator of a product that a token is, and its offset.
pub fn scale(token: &Token<'_>) -> Option<(u32, Scale)>
    ensures { result ≡ spec.scale_of token.now }
{
    match token.kind {
        Kind::Terminal(Terminal::Star) => Some((token.at, Scale::Times)),
        Kind::Terminal(Terminal::Slash) => Some((token.at, Scale::Divide)),
        _ => None,
    }
}

/// The numeral that a token is.
pub fn numeral(token: &Token<'_>) -> Option<Numeral>
    ensures { result ≡ spec.numeral_of token.now }
{
    match token.kind {
        Kind::Numeral(value) => Some(Numeral {
            at: token.at,
            value,
        }),
        _ => None,
    }
}

/// The regular identifier that a token is.
pub fn label<'a>(token: &Token<'a>) -> Option<Label<'a>>
    ensures { result ≡ spec.label_of token.now }
{
    match &token.kind {
        Kind::Regular(name) => Some(Label {
            at: token.at,
            name: Name::of(name.bytes()),
        }),
        _ => None,
    }
}

/// The identifier that a token is.
pub fn alias<'a>(alloc: Global, token: &Token<'a>) -> Result<Option<Alias<'a>>, NoMemory>
    ensures { IfOk result (λ it. it ≡ spec.alias_of token.now) }
{
    let at = token.at;
    match &token.kind {
        Kind::Regular(name) => Ok(Some(Alias {
            at,
            name: Identifier::Regular(Name::of(name.bytes())),
        })),
        Kind::Delimited(inside) => {
            let name = unquoted(alloc, b'"', inside.bytes())?;
            Ok(Some(Alias {
                at,
                name: Identifier::Delimited(name),
            }))
        }
        _ => Ok(None),
    }
}

/// What a token is that rows are sorted by, and its offset.
pub fn key<'a>(alloc: Global, token: &Token<'a>) -> Result<Option<(u32, Key<'a>)>, NoMemory>
    ensures { IfOk result (λ it. it ≡ spec.key_of token.now) }
{
    let at = token.at;
    match &token.kind {
        Kind::Numeral(value) => Ok(Some((at, Key::Position(*value)))),
        Kind::Regular(name) => {
            let name = Identifier::Regular(Name::of(name.bytes()));
            Ok(Some((at, Key::Named(name))))
        }
        Kind::Delimited(inside) => {
            let name = unquoted(alloc, b'"', inside.bytes())?;
            Ok(Some((at, Key::Named(Identifier::Delimited(name)))))
        }
        _ => Ok(None),
    }
}

/// What a reserved word or a symbol begins, where aggregates are refused.
fn lead_word<'a>(at: u32, which: Terminal) -> Option<Lead<'a>>
    ensures { result ≡ spec.lead_word at which }
{
    match which {
        Terminal::Null => Some(Lead::Null { at }),
        Terminal::LeftParen => Some(Lead::Paren),
        Terminal::Signed => Some(Lead::Signed { at }),
        Terminal::Bits => Some(Lead::Bits { at }),
        Terminal::Mem8 => Some(Lead::Memory {
            at,
            width: Width::Byte,
        }),
        Terminal::Mem16 => Some(Lead::Memory {
            at,
            width: Width::Half,
        }),
        Terminal::Mem32 => Some(Lead::Memory {
            at,
            width: Width::Word,
        }),
        _ => None,
    }
}

/// What a reserved word or a symbol begins, where aggregates are allowed.
fn lead_aggregate<'a>(at: u32, which: Terminal) -> Option<Lead<'a>>
    ensures { result ≡ spec.lead_aggregate at which }
{
    match which {
        Terminal::Count => Some(Lead::Count { at }),
        Terminal::Min => Some(Lead::Extreme {
            at,
            function: Function::Min,
        }),
        Terminal::Max => Some(Lead::Extreme {
            at,
            function: Function::Max,
        }),
        _ => lead_word(at, which),
    }
}

/// What a reserved word or a symbol begins.
fn lead_terminal<'a>(aggregates: Aggregates, at: u32, which: Terminal) -> Option<Lead<'a>>
    ensures { result ≡ spec.lead_terminal aggregates at which }
{
    match aggregates {
        Aggregates::Allowed => lead_aggregate(at, which),
        Aggregates::Refused => lead_word(at, which),
    }
}

/// What a token begins of a primary.
pub fn lead<'a>(aggregates: Aggregates, token: &Token<'a>) -> Option<Lead<'a>>
    ensures { result ≡ spec.lead_of aggregates token.now }
{
    let at = token.at;
    match &token.kind {
        Kind::Terminal(which) => lead_terminal(aggregates, at, *which),
        Kind::Regular(name) => Some(Lead::Regular {
            at,
            name: Name::of(name.bytes()),
        }),
        Kind::Delimited(inside) => Some(Lead::Delimited {
            at,
            inside: Name::of(inside.bytes()),
        }),
        Kind::Numeral(value) => Some(Lead::Numeral(Numeral { at, value: *value })),
        Kind::Text(inside) => Some(Lead::Text {
            at,
            inside: Name::of(inside.bytes()),
        }),
    }
}

/// What a token is behind a range variable and its point.
pub fn dotted<'a>(token: &Token<'a>) -> Option<Dotted<'a>>
    ensures { result ≡ spec.dotted_of token.now }
{
    let at = token.at;
    match &token.kind {
        Kind::Regular(name) => Some(Dotted::Regular {
            at,
            name: Name::of(name.bytes()),
        }),
        Kind::Delimited(inside) => Some(Dotted::Delimited {
            at,
            inside: Name::of(inside.bytes()),
        }),
        Kind::Terminal(Terminal::Mem8) => Some(Dotted::Memory {
            at,
            width: Width::Byte,
        }),
        Kind::Terminal(Terminal::Mem16) => Some(Dotted::Memory {
            at,
            width: Width::Half,
        }),
        Kind::Terminal(Terminal::Mem32) => Some(Dotted::Memory {
            at,
            width: Width::Word,
        }),
        _ => None,
    }
}

/// What a token makes of the expression before it.
pub fn word(token: &Token<'_>) -> Option<Word>
    ensures { result ≡ spec.word_of token.now }
{
    let at = token.at;
    let Kind::Terminal(which) = token.kind else {
        return None;
    };
    match which {
        Terminal::Equal => Some(Word::Compare {
            at,
            op: CompareOp::Equal,
        }),
        Terminal::NotEqual => Some(Word::Compare {
            at,
            op: CompareOp::NotEqual,
        }),
        Terminal::Less => Some(Word::Compare {
            at,
            op: CompareOp::Less,
        }),
        Terminal::LessOrEqual => Some(Word::Compare {
            at,
            op: CompareOp::LessOrEqual,
        }),
        Terminal::Greater => Some(Word::Compare {
            at,
            op: CompareOp::Greater,
        }),
        Terminal::GreaterOrEqual => Some(Word::Compare {
            at,
            op: CompareOp::GreaterOrEqual,
        }),
        Terminal::Not => Some(Word::Not),
        Terminal::Between => Some(Word::Between { at }),
        Terminal::In => Some(Word::In { at }),
        Terminal::Is => Some(Word::Is { at }),
        _ => None,
    }
}

/// What a token makes of the expression and the NOT before it.
pub fn negatable(token: &Token<'_>) -> Option<Negatable>
    ensures { result ≡ spec.negatable_of token.now }
{
    match token.kind {
        Kind::Terminal(Terminal::Between) => Some(Negatable::Between { at: token.at }),
        Kind::Terminal(Terminal::In) => Some(Negatable::In { at: token.at }),
        _ => None,
    }
}

/// The direction that a token is.
pub fn direction(token: &Token<'_>) -> Option<Direction>
    ensures { result ≡ spec.direction_of token.now }
{
    match token.kind {
        Kind::Terminal(Terminal::Asc) => Some(Direction::Ascending),
        Kind::Terminal(Terminal::Desc) => Some(Direction::Descending),
        _ => None,
    }
}
