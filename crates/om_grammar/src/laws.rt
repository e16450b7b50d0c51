//! What holds of texts, tokens and trees, whatever the parser does.

ghost use Rattle.std.specs.Prelude.{◌≡◌, ℕ, ◌⊎◌, List};
ghost use Rattle.om_token.specs.declared.token.Token.{Token};
ghost use Rattle.om_grammar.specs.declared.tree.Query.{Query};
ghost use Rattle.om_grammar.specs.declared.fault.ParseFault.{ParseFault};
ghost use Rattle.om_grammar.specs.Grammar.{IsQuery};
ghost use Rattle.om_grammar.specs.Depth.{IsShallow, IsTooDeep};
ghost use Rattle.om_grammar.specs.Refusals.{HasTree, IsRefused, IsRefusal};
ghost use Rattle.om_grammar.specs.Sameness.{SameQuery};
ghost use Rattle.om_grammar.specs.Spelling.{IsPastLimits};
ghost use Rattle.om_grammar.specs.Words.{query_text};

/// Tokens nest too deep at one place at most, and everywhere else they don't.
pub fn one_depth()
    ensures one { (tokens : List Token) (a b : ℕ) → IsTooDeep tokens a → IsTooDeep tokens b → a ≡ b }
    ensures never_both { (tokens : List Token) (at : ℕ) → IsTooDeep tokens at → IsShallow tokens → ⊥ }
    ensures either { (tokens : List Token) → IsShallow tokens ⊎ ((at : ℕ) × IsTooDeep tokens at) }
{}

/// A list of tokens has one tree at most, and so has a text, the offsets in the trees included.
pub fn one_tree()
    ensures of_tokens { (tokens : List Token) (a b : Query) → IsQuery tokens a → IsQuery tokens b → a ≡ b }
    ensures of_text { (text : List ℕ) (a b : Query) → HasTree text a → HasTree text b → a ≡ b }
{}

/// A list of tokens is refused at one place at most, and a text by one fault.
pub fn one_refusal()
    ensures of_tokens { (tokens a b : List Token) → IsRefused IsQuery tokens a → IsRefused IsQuery tokens b → a ≡ b }
    ensures of_text { (text : List ℕ) (a b : ParseFault) → IsRefusal text a → IsRefusal text b → a ≡ b }
{}

/// Nothing that has a tree is refused.
pub fn never_both()
    ensures of_tokens { (tokens rest : List Token) (query : Query) → IsQuery tokens query → IsRefused IsQuery tokens rest → ⊥ }
    ensures of_text { (text : List ℕ) (query : Query) (fault : ParseFault) → HasTree text query → IsRefusal text fault → ⊥ }
{}

/// Every text has a tree or is refused.
pub fn tree_or_refusal()
    ensures { (text : List ℕ) → ((query : Query) × HasTree text query) ⊎ ((fault : ParseFault) × IsRefusal text fault) }
{}

/// The text of a tree has a tree again unless it goes past the limits on length or depth. It is the same apart from offsets.
pub fn round_trip()
    ensures again { (text : List ℕ) (query : Query) → HasTree text query → ((again : Query) × HasTree (query_text query) again) ⊎ ((fault : ParseFault) × IsPastLimits (query_text query) fault) }
    ensures same { (text : List ℕ) (query again : Query) → HasTree text query → HasTree (query_text query) again → SameQuery query again }
{}
