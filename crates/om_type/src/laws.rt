//! What holds of typings, whatever the checker does. The laws have no code.

ghost use Rattle.std.specs.Prelude.{◌≡◌, ℕ, ◌⊎◌, ◌↔◌, List, Some, None};
ghost use Rattle.om_eval.specs.declared.column.ColumnId.{ColumnId};
ghost use Rattle.om_eval.specs.Meaning.{truth};
ghost use Rattle.om_eval.specs.Row.{Tuple};
ghost use Rattle.om_eval.specs.declared.cond.Cond.{Cond};
ghost use Rattle.om_eval.specs.declared.cond.Cond.TheViews as conds;
ghost use Rattle.om_parse.specs.declared.tree.CondTree.{CondTree};
ghost use Rattle.om_parse.specs.declared.tree.Query.{Query};
ghost use Rattle.om_type.specs.Checking.{typed_in};
ghost use Rattle.om_type.specs.Columns.{Means};
ghost use Rattle.om_type.specs.Splitting.{IsWhole};
ghost use Rattle.om_type.specs.Typing.{Variables, IsVariable, AreTests, IsTyped, conjuncts_in};
ghost use Rattle.om_type.specs.Unbuilt.{IsUnbuilt};
ghost use Rattle.om_type.specs.declared.typed.Typed.{Typed};

/// A name means one column at most.
pub fn one_column()
    ensures { (name : List ℕ) (a b : ColumnId) → Means name a → Means name b → a ≡ b }
{}

/// A name means one variable of a catalog at most.
pub fn one_variable()
    ensures { (catalog : Variables) (name : List ℕ) (a b : ℕ) → IsVariable catalog name a → IsVariable catalog name b → a ≡ b }
{}

/// A query has one typing at most.
pub fn one_typing()
    ensures { (catalog : Variables) (query : Query) (a b : Typed) → IsTyped catalog query a → IsTyped catalog query b → a ≡ b }
{}

/// Nothing that has a typing isn't built.
pub fn never_both()
    ensures { (catalog : Variables) (query : Query) (typed : Typed) → IsTyped catalog query typed → IsUnbuilt catalog query → ⊥ }
{}

/// Every query has a typing or isn't built.
pub fn typing_or_unbuilt()
    ensures { (catalog : Variables) (query : Query) → ((typed : Typed) × IsTyped catalog query typed) ⊎ IsUnbuilt catalog query }
{}

/// What a query asks is a function of its tree and the catalog, which callers may cite in place of the
/// relations.
pub fn typing_function()
    ensures typed { (catalog : Variables) (query : Query) (typed : Typed) → (typed_in catalog query ≡ Some typed) ↔ IsTyped catalog query typed }
    ensures unbuilt { (catalog : Variables) (query : Query) → (typed_in catalog query ≡ None) ↔ IsUnbuilt catalog query }
{}

/// The truth of a WHERE is that of the AND of its conjuncts, so that it is Yes at the rows at which each
/// of them is.
pub fn splitting()
    ensures { (catalog : Variables) (tree : CondTree) (whole : Cond) (conjuncts : List Cond) (tuple : Tuple)
        → IsWhole catalog tree whole → AreTests catalog (conjuncts_in tree) conjuncts
        → truth tuple whole ≡ truth tuple (conds.And conjuncts) }
{}
