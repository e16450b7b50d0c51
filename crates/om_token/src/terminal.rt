//! Reserved words and symbols: the tokens that have one meaning each.

ghost use Rattle.om_token.specs.Terminals as spec;
ghost use Rattle.om_token.specs.Terminals.{reserved_words, word_in};
ghost use Rattle.std.specs.Prelude.{◌≡◌, map};
ghost use Rattle.std.specs.Str.{str_eq_ignore_ascii_case};

/// A reserved word, in any case, or a symbol.
#[derive(Clone, Copy, Debug, PartialEq, Eq)]
pub enum Terminal {
    Select,
    From,
    Where,
    Group,
    By,
    Order,
    Asc,
    Desc,
    And,
    Or,
    Not,
    Between,
    In,
    Is,
    Null,
    As,
    Count,
    Min,
    Max,
    Signed,
    Bits,
    Mem8,
    Mem16,
    Mem32,
    Distinct,
    Having,
    Equal,
    NotEqual,
    LessOrEqual,
    GreaterOrEqual,
    Less,
    Greater,
    Plus,
    Minus,
    Star,
    Slash,
    LeftParen,
    RightParen,
    Comma,
    Dot,
    Semicolon,
}

const RESERVED_WORDS: [(&[u8], Terminal); 26] = [
    (b"SELECT", Terminal::Select),
    (b"FROM", Terminal::From),
    (b"WHERE", Terminal::Where),
    (b"GROUP", Terminal::Group),
    (b"BY", Terminal::By),
    (b"ORDER", Terminal::Order),
    (b"ASC", Terminal::Asc),
    (b"DESC", Terminal::Desc),
    (b"AND", Terminal::And),
    (b"OR", Terminal::Or),
    (b"NOT", Terminal::Not),
    (b"BETWEEN", Terminal::Between),
    (b"IN", Terminal::In),
    (b"IS", Terminal::Is),
    (b"NULL", Terminal::Null),
    (b"AS", Terminal::As),
    (b"COUNT", Terminal::Count),
    (b"MIN", Terminal::Min),
    (b"MAX", Terminal::Max),
    (b"SIGNED", Terminal::Signed),
    (b"BITS", Terminal::Bits),
    (b"MEM8", Terminal::Mem8),
    (b"MEM16", Terminal::Mem16),
    (b"MEM32", Terminal::Mem32),
    (b"DISTINCT", Terminal::Distinct),
    (b"HAVING", Terminal::Having),
];

fn is_same_word(a: &[u8], b: &[u8]) -> bool
    ensures { result ≡ str_eq_ignore_ascii_case a.now b.now }
{
    a.eq_ignore_ascii_case(b)
}

fn find_word(mut table: &[(&[u8], Terminal)], word: &[u8]) -> Option<Terminal>
    ensures { result ≡ word_in (map (λ entry. (entry.0.now, entry.1)) table.entry.now) word.now }
{
    while let [entry, rest @ ..] = table {
        if is_same_word(entry.0, word) {
            return Some(entry.1);
        }
        table = rest;
    }
    None
}

/// The reserved word that a word is, in any case.
#[tactic(auto, unfolding(crate::specs::Terminals::reserved_word))]
pub fn reserved_word(word: &[u8]) -> Option<Terminal>
    ensures { result ≡ spec.reserved_word word.now }
{
    find_word(&RESERVED_WORDS, word)
}

/// The symbol that a byte is.
#[tactic(auto, unfolding(crate::specs::Terminals::symbol))]
pub fn symbol(byte: u8) -> Option<Terminal>
    ensures { result ≡ spec.symbol byte }
{
    match byte {
        b'=' => Some(Terminal::Equal),
        b'<' => Some(Terminal::Less),
        b'>' => Some(Terminal::Greater),
        b'+' => Some(Terminal::Plus),
        b'-' => Some(Terminal::Minus),
        b'*' => Some(Terminal::Star),
        b'/' => Some(Terminal::Slash),
        b'(' => Some(Terminal::LeftParen),
        b')' => Some(Terminal::RightParen),
        b',' => Some(Terminal::Comma),
        b'.' => Some(Terminal::Dot),
        b';' => Some(Terminal::Semicolon),
        _ => None,
    }
}

/// The symbol that two bytes are.
#[tactic(auto, unfolding(crate::specs::Terminals::double_symbol))]
pub fn double_symbol(first: u8, second: u8) -> Option<Terminal>
    ensures { result ≡ spec.double_symbol first second }
{
    match (first, second) {
        (b'<', b'>') => Some(Terminal::NotEqual),
        (b'<', b'=') => Some(Terminal::LessOrEqual),
        (b'>', b'=') => Some(Terminal::GreaterOrEqual),
        _ => None,
    }
}
