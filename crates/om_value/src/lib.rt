//! Values, three-valued truth, and the conditions and expressions of a query.
//!
//! A condition is evaluated over rows that are seen through a [`RowView`], as at a state of a replay,
//! or through [`Cells`], as for rows already taken out of their states. Both ways give one meaning,
//! and numbers of 128 bits are enough for whatever is accepted by its [`Kind`].
#![tactic(auto)]

mod arithmetic;
mod catalog;
mod cells;
mod column;
mod column_kinds;
mod comparison;
mod cond;
mod evaluation;
mod expr;
mod kind;
mod kinds;
mod laws;
mod look_meter;
mod predicates;
mod row_view;
mod truth;
mod value;
mod variable_name;

pub use catalog::{Catalog, VarInfo};
pub use cells::Cells;
pub use column::{Column, ColumnId};
pub use column_kinds::column_kind;
pub use comparison::Compare;
pub use cond::{Cond, Polarity};
pub use evaluation::{look, recheck, truth_of, value_at, value_of};
pub use expr::{Addend, Expr, Factor, Sign, Width};
pub use kind::{Kind, Wrong};
pub use kinds::{
    bits_kind, compare_kinds, memory_kind, numeral_kind, product_kind, quotient_kind, sign_kind,
    signed_kind, sum_kind, width_kind,
};
pub use laws::{
    accepted_is_exact, answers_are_enough, other_rows_are_free, rows_answer_for_themselves,
    values_are_of_their_kinds,
};
pub use look_meter::LookMeter;
pub use row_view::RowView;
pub use truth::Truth;
pub use value::{Owned, Value};
pub use variable_name::VariableName;
