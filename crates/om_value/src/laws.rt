//! Laws of what expressions and conditions mean. They have no code.

ghost use Rattle.std.specs.Prelude.{◌≡◌, ℤ, All, Ok};
ghost use Rattle.om_value.specs.Row.{Tuple};
ghost use Rattle.om_value.specs.Meaning.{value_with, value, near_value, truth_with, truth, near_truth};
ghost use Rattle.om_value.specs.Known.{Known, reads, cond_reads, value_by, truth_by, uses, cond_uses};
ghost use Rattle.om_value.specs.Kinds.{kind, accepts, IsOf, HasKinds};
ghost use Rattle.om_value.specs.declared.column.ColumnId.{ColumnId};
ghost use Rattle.om_value.specs.declared.cond.Cond.{Cond};
ghost use Rattle.om_value.specs.declared.expr.Expr.{Expr};
ghost use Rattle.om_value.specs.declared.kind.Kind.{Kind};

/// Where the columns and memory forms that an expression or a condition reads have their values at a
/// tuple, so has it.
pub fn answers_are_enough()
    ensures values { (round : ℤ → ℤ) (known : Known) (tuple : Tuple) (expr : Expr)
        → All (λ form. known form ≡ value_with round tuple form) (reads expr)
        → value_by round known expr ≡ value_with round tuple expr }
    ensures truths { (round : ℤ → ℤ) (known : Known) (tuple : Tuple) (cond : Cond)
        → All (λ form. known form ≡ value_with round tuple form) (cond_reads cond)
        → truth_by round known cond ≡ truth_with (value_with round tuple) cond }
{}

/// Where the answers are the values at a tuple, so is what is made of them.
pub fn rows_answer_for_themselves()
    ensures values { (round : ℤ → ℤ) (tuple : Tuple) (expr : Expr)
        → value_by round (value_with round tuple) expr ≡ value_with round tuple expr }
    ensures truths { (round : ℤ → ℤ) (tuple : Tuple) (cond : Cond)
        → truth_by round (value_with round tuple) cond ≡ truth_with (value_with round tuple) cond }
{}

/// An expression or a condition is about the rows of the range variables that it uses.
pub fn other_rows_are_free()
    ensures values { (round : ℤ → ℤ) (one other : Tuple) (expr : Expr)
        → All (λ table. one table ≡ other table) (uses expr)
        → value_with round one expr ≡ value_with round other expr }
    ensures truths { (round : ℤ → ℤ) (one other : Tuple) (cond : Cond)
        → All (λ table. one table ≡ other table) (cond_uses cond)
        → truth_with (value_with round one) cond ≡ truth_with (value_with round other) cond }
{}

/// What is accepted is computed exactly at rows whose cells are of their columns' kinds.
pub fn accepted_is_exact()
    ensures values { (columns : ColumnId → Kind) (tuple : Tuple) (expr : Expr) (found : Kind)
        → HasKinds columns tuple
        → kind columns expr ≡ Ok found
        → near_value tuple expr ≡ value tuple expr }
    ensures truths { (columns : ColumnId → Kind) (tuple : Tuple) (cond : Cond)
        → HasKinds columns tuple
        → accepts columns cond ≡ Ok tt
        → near_truth tuple cond ≡ truth tuple cond }
{}

/// The value of an expression that is accepted is of its kind: a number lies in the interval.
pub fn values_are_of_their_kinds()
    ensures { (columns : ColumnId → Kind) (tuple : Tuple) (expr : Expr) (found : Kind)
        → HasKinds columns tuple
        → kind columns expr ≡ Ok found
        → IsOf found (value tuple expr) }
{}
