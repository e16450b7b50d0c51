//! What parentheses held, or a test began with.

use crate::cond_tree::CondTree;
use crate::expr_tree::ExprTree;

/// An expression or a condition, where both may stand.
#[derive(Debug, Drop)]
pub enum Found<'a> {
    Value(ExprTree<'a>),
    Truth(CondTree<'a>),
}
