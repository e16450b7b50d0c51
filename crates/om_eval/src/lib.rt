//! Values, three-valued truth, and the conditions and expressions of a query.
//!
//! A condition is evaluated over rows that are seen through a [`RowView`], as at a state of a replay,
//! or through [`Cells`], as for rows already taken out of their states. Both ways give one meaning.
#![tactic(auto)]

mod catalog;
mod cells;
mod column;
mod comparison;
mod cond;
mod evaluation;
mod expr;
mod look_meter;
mod row_view;
mod truth;
mod value;
mod variable_name;

pub use catalog::{Catalog, VarInfo};
pub use cells::Cells;
pub use column::{Column, ColumnId};
pub use comparison::Compare;
pub use cond::Cond;
pub use evaluation::{look, recheck, truth_of, value_at, value_of};
pub use expr::Expr;
pub use look_meter::LookMeter;
pub use row_view::RowView;
pub use truth::Truth;
pub use value::{Owned, Value};
pub use variable_name::VariableName;
