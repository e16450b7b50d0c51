//! The tokens of the query language, a subset of SQL-92: reserved words, symbols, identifiers, numerals
//! and texts, and where each stands.
//!
//! [`tokens`] gives the tokens of a text, first to last, or the offset of the first byte that begins
//! none. What a delimited identifier or a text says is what stands between its quotes, where two stand
//! for one: [`unquoted`].
#![tactic(auto)]

mod fault;
mod laws;
mod numeral;
mod piece;
mod quotes;
mod terminal;
mod token;
mod tokenizer;

pub use fault::TokenFault;
pub use laws::{one_spelling, one_token_list};
pub use quotes::{first_said, unquoted};
pub use terminal::Terminal;
pub use token::{Kind, Token};
pub use tokenizer::tokens;
