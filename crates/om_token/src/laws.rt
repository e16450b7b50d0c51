//! What holds of texts and tokens, whatever the tokenizer does.

ghost use Rattle.std.specs.Prelude.{◌≡◌, ℕ, ◌⊎◌, List};
ghost use Rattle.om_token.specs.declared.token.Token.{Token};
ghost use Rattle.om_token.specs.Quotes.{quoted, unquoted};
ghost use Rattle.om_token.specs.Tokens.{AreTokens, BeginsNone, IsQuoted};

/// Bytes have one spelling between quotes, in which each quote of theirs stands twice.
pub fn one_spelling()
    ensures says { (quote : ℕ) (bytes : List ℕ) → unquoted quote (quoted quote bytes) ≡ bytes }
    ensures alone { (quote : ℕ) (inside : List ℕ) → IsQuoted quote inside → inside ≡ quoted quote (unquoted quote inside) }
    ensures allowed { (quote : ℕ) (bytes : List ℕ) → IsQuoted quote (quoted quote bytes) }
{}

/// A text has one list of tokens, or one place at which bytes begin none, and never both.
pub fn one_token_list()
    ensures tokens { (text : List ℕ) (a b : List Token) → AreTokens text a → AreTokens text b → a ≡ b }
    ensures place { (text : List ℕ) (m n : ℕ) → BeginsNone text m → BeginsNone text n → m ≡ n }
    ensures never_both { (text : List ℕ) (tokens : List Token) (at : ℕ) → AreTokens text tokens → BeginsNone text at → ⊥ }
    ensures tokens_or_none { (text : List ℕ) → ((tokens : List Token) × AreTokens text tokens) ⊎ ((at : ℕ) × BeginsNone text at) }
{}
