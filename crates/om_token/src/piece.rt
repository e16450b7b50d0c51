//! Cuts the piece at the front of a text: SQL-92, section 5.2.

ghost use Rattle.std.specs.Prelude.{◌≡◌, ◌<◌, length, IfSome, Some};
ghost use Rattle.std.specs.Option.{option_map};
ghost use Rattle.std.specs.List.{prefix_len};
ghost use Rattle.om_token.specs.Tokens.{is_space, is_word_byte, is_line_byte};
ghost use Rattle.om_token.specs.Cutting as spec;

use crate::token::{Kind, Piece};
use crate::{numeral, terminal};
use om_base::Name;

fn is_space(byte: u8) -> bool
    ensures { result ≡ is_space byte }
{
    byte == b'\t' || byte == b'\n' || byte == b'\r' || byte == b' '
}

fn is_word_byte(byte: u8) -> bool
    ensures { result ≡ is_word_byte byte }
{
    byte.is_ascii_alphanumeric() || byte == b'_'
}

/// How many bytes at the front of `text` may belong to a word.
fn word_len(text: &[u8]) -> usize
    ensures { result ≡ prefix_len is_word_byte text.now }
{
    text.iter().take_while(|byte| is_word_byte(**byte)).count()
}

/// How many bytes at the front of `text` belong to its first line.
fn line_len(text: &[u8]) -> usize
    ensures { result ≡ prefix_len is_line_byte text.now }
{
    text.iter().take_while(|byte| **byte != b'\n').count()
}

/// The bytes at the front of `text` that may belong to a word, and those after them.
#[tactic(auto, using(crate::proofs::PieceLemmas::runs))]
fn split_word(text: &[u8]) -> (&[u8], &[u8])
    ensures front { result.0.now ≡ spec.front is_word_byte text.now }
    ensures after { result.1.now ≡ spec.after is_word_byte text.now }
{
    text.split_at(word_len(text))
}

/// A word, and what follows it.
fn word(text: &[u8]) -> (Piece<'_>, &[u8])
    ensures { Some (result.0, result.1.now) ≡ spec.word_at text.now }
{
    let (word, rest) = split_word(text);
    let kind = match terminal::reserved_word(word) {
        Some(terminal) => Kind::Terminal(terminal),
        None => Kind::Regular(Name::of(word)),
    };
    (Piece::Token(kind), rest)
}

/// A numeral, and what follows it.
fn number(text: &[u8]) -> Option<(Piece<'_>, &[u8])>
    ensures { option_map (λ x. (x.0, x.1.now)) result ≡ spec.numeral_at text.now }
{
    let (word, rest) = split_word(text);
    let value = numeral::numeral_value(word)?;
    Some((Piece::Token(Kind::Numeral(value)), rest))
}

/// What stands before the quote that closes, and what stands after it. A quote that stands twice closes
/// nothing.
fn within(quote: u8, text: &[u8]) -> Option<(&[u8], &[u8])>
    ensures { option_map (λ x. (x.0.now, x.1.now)) result ≡ spec.within quote text.now }
{
    let mut rest = text;
    while let Some((byte, others)) = rest.split_first() {
        if *byte != quote {
            rest = others;
        } else if begins_with(quote, others) {
            rest = &others[1..];
        } else {
            return Some((&text[..text.len() - rest.len()], others));
        }
    }
    None
}

fn begins_with(byte: u8, text: &[u8]) -> bool
    ensures { result ≡ spec.begins_with byte text.now }
{
    match text {
        [first, ..] => *first == byte,
        [] => false,
    }
}

/// A text, from after its first quote, and what follows it.
fn literal(rest: &[u8]) -> Option<(Piece<'_>, &[u8])>
    ensures { option_map (λ x. (x.0, x.1.now)) result ≡ spec.text_at rest.now }
{
    let (inside, after) = within(b'\'', rest)?;
    Some((Piece::Token(Kind::Text(Name::of(inside))), after))
}

/// A delimited identifier, from after its first quote, and what follows it.
fn delimited(rest: &[u8]) -> Option<(Piece<'_>, &[u8])>
    ensures { option_map (λ x. (x.0, x.1.now)) result ≡ spec.delimited_at rest.now }
{
    let (inside, after) = within(b'"', rest)?;
    match inside {
        [] => None,
        [_, ..] => Some((Piece::Token(Kind::Delimited(Name::of(inside))), after)),
    }
}

/// A symbol of one byte, and what follows it.
fn symbol(first: u8, rest: &[u8]) -> Option<(Piece<'_>, &[u8])>
    ensures { option_map (λ x. (x.0, x.1.now)) result ≡ spec.symbol_at first rest.now }
{
    let terminal = terminal::symbol(first)?;
    Some((Piece::Token(Kind::Terminal(terminal)), rest))
}

/// A comment or a symbol, and what follows it.
#[tactic(auto, using(crate::proofs::PieceLemmas::runs))]
fn sign(first: u8, rest: &[u8]) -> Option<(Piece<'_>, &[u8])>
    ensures { option_map (λ x. (x.0, x.1.now)) result ≡ spec.sign_at first rest.now }
{
    let Some((second, after)) = rest.split_first() else {
        return symbol(first, rest);
    };
    if first == b'-' && *second == b'-' {
        return Some((Piece::Blank, &after[line_len(after)..]));
    }
    match terminal::double_symbol(first, *second) {
        Some(terminal) => Some((Piece::Token(Kind::Terminal(terminal)), after)),
        None => symbol(first, rest),
    }
}

/// A text, a delimited identifier, a comment or a symbol, and what follows it.
fn other(first: u8, rest: &[u8]) -> Option<(Piece<'_>, &[u8])>
    ensures { option_map (λ x. (x.0, x.1.now)) result ≡ spec.other_at first rest.now }
{
    if first == b'\'' {
        literal(rest)
    } else if first == b'"' {
        delimited(rest)
    } else {
        sign(first, rest)
    }
}

/// The piece at the front of `text`, if there is one, and what follows it.
#[tactic(auto, unfolding(crate::specs::Cutting::cut))]
pub fn cut(text: &[u8]) -> Option<(Piece<'_>, &[u8])>
    ensures cut { option_map (λ x. (x.0, x.1.now)) result ≡ spec.cut text.now }
{
    let (first, rest) = text.split_first()?;
    if is_space(*first) {
        Some((Piece::Blank, rest))
    } else if first.is_ascii_alphabetic() {
        Some(word(text))
    } else if first.is_ascii_digit() {
        number(text)
    } else {
        other(*first, rest)
    }
}
