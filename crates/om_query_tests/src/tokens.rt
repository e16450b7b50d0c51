//! Texts and their tokens with the offsets, and what stands between quotes.

use om_base::{NoMemory, Text, put_decimal};
use om_token::{Kind, Token, TokenFault, first_said, tokens, unquoted};
use std::alloc::Global;
use std::test::Fail;

fn show_name(shown: &mut Text, what: &[u8], name: &[u8]) -> Result<(), NoMemory> {
    shown.add(what)?;
    shown.add(name)
}

fn show_kind(alloc: Global, shown: &mut Text, kind: &Kind<'_>) -> Result<(), NoMemory> {
    match kind {
        Kind::Terminal(which) => shown.add(format!(in alloc; "{which:?}")?.as_bytes()),
        Kind::Regular(name) => show_name(shown, b"regular ", name.bytes()),
        Kind::Delimited(name) => show_name(shown, b"delimited ", name.bytes()),
        Kind::Text(name) => show_name(shown, b"text ", name.bytes()),
        Kind::Numeral(value) => {
            shown.add(b"numeral ")?;
            put_decimal(shown, i128::from(*value))
        }
    }
}

fn show_place(shown: &mut Text, at: u32) -> Result<(), NoMemory> {
    put_decimal(shown, i128::from(at))?;
    shown.add(b":")
}

fn show_tokens(alloc: Global, shown: &mut Text, tokens: &[Token<'_>]) -> Result<(), NoMemory> {
    for token in tokens {
        shown.add(b" ")?;
        show_place(shown, token.at)?;
        show_kind(alloc, shown, &token.kind)?;
    }
    Ok(())
}

fn show_fault(shown: &mut Text, fault: TokenFault) -> Result<(), NoMemory> {
    match fault {
        TokenFault::NoMemory => shown.add(b" no memory"),
        TokenFault::NoToken { at } => {
            shown.add(b" ")?;
            show_place(shown, at)?;
            shown.add(b"none")
        }
    }
}

/// The tokens of a text, or its fault.
fn shown(alloc: Global, text: &[u8]) -> Result<Text, NoMemory> {
    let mut shown = Text::copy_of(alloc, b"")?;
    if text.len() > 16384 {
        shown.add(b" too long")?;
        return Ok(shown);
    }
    match tokens(alloc, text) {
        Ok(tokens) => show_tokens(alloc, &mut shown, tokens.as_slice())?,
        Err(fault) => show_fault(&mut shown, fault)?,
    }
    Ok(shown)
}

// Offsets are counted by hand, from 0.
#[test]
fn texts_have_these_tokens(rt: HostRuntime) -> Result<(), Fail> {
    let rows = [
        // Each kind of token, with white space and a comment between them.
        (
            "SELECT a_1, \"b \"\"c\" -- note\nFROM 'it''s' WHERE x<=0x1F",
            " 0:Select 7:regular a_1 10:Comma 12:delimited b \"\"c 28:From 33:text it''s 41:Where 47:regular x 48:LessOrEqual 50:numeral 31",
        ),
        // The reserved words, in any case.
        (
            "select FROM Where group BY order ASC desc AND or NOT between IN is NULL as COUNT min MAX signed BITS mem8 MEM16 mem32 DISTINCT having",
            " 0:Select 7:From 12:Where 18:Group 24:By 27:Order 33:Asc 37:Desc 42:And 46:Or 49:Not 53:Between 61:In 64:Is 67:Null 72:As 75:Count 81:Min 85:Max 89:Signed 96:Bits 101:Mem8 106:Mem16 112:Mem32 118:Distinct 127:Having",
        ),
        // The symbols, the longest taken.
        (
            "=<><<=>>=+-*/(),.;",
            " 0:Equal 1:NotEqual 3:Less 4:LessOrEqual 6:Greater 7:GreaterOrEqual 9:Plus 10:Minus 11:Star 12:Slash 13:LeftParen 14:RightParen 15:Comma 16:Dot 17:Semicolon",
        ),
        ("", ""),
        // Bytes that begin no token: an open quote, an empty identifier, a numeral with a letter.
        ("a 'b", " 2:none"),
        ("a, \"\"", " 3:none"),
        ("1 1a", " 2:none"),
    ];
    for (text, want) in rows {
        let shown = shown(rt.alloc(), text.as_bytes())?;
        assert_eq!(rt; shown.bytes(), want.as_bytes(), "of {text}");
    }
    Ok(())
}

#[test]
fn two_quotes_stand_for_one(rt: HostRuntime) -> Result<(), Fail> {
    let rows = [
        (b'"', "b \"\"c", "b \"c"),
        (b'\'', "it''s", "it's"),
        // Of the other quote two are two.
        (b'"', "it''s", "it''s"),
        (b'\'', "''", "'"),
    ];
    for (quote, inside, want) in rows {
        let said = unquoted(rt.alloc(), quote, inside.as_bytes())?;
        assert_eq!(rt; said.bytes(), want.as_bytes(), "of {inside}");
    }
    Ok(())
}

#[test]
fn what_is_said_begins_so(rt: HostRuntime) -> Result<(), Fail> {
    let pair = first_said(b'\'', b"''s");
    assert_eq!(rt; pair, Some((b'\'', b"s".as_slice())));
    let other = first_said(b'"', b"''s");
    assert_eq!(rt; other, Some((b'\'', b"'s".as_slice())));
    let nothing = first_said(b'"', b"");
    assert_eq!(rt; nothing, None);
    Ok(())
}
