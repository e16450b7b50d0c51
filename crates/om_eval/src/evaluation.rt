//! The value of an expression and the truth of a condition.

ghost use Rattle.std.specs.Prelude.{◌≡◌, ◌+◌, ◌<◌, ◌^◌};
ghost use Rattle.om_eval.specs.Row.{row_tuple};
ghost use Rattle.om_eval.specs.Meaning as spec;

use crate::{Cells, Compare, Cond, Expr, LookMeter, RowView, Truth, Value};

/// The value of an expression at a row.
pub fn value_of<'a, V: RowView>(expr: &'a Expr, view: &'a V) -> Value<'a>
    ensures { spec.owned result ≡ spec.value (row_tuple (V.answers view.now)) expr.now }
{
    value_at(expr, view)
}

/// The value of an expression at a tuple of rows.
#[inline(always)] // so that no value goes through memory
#[tactic(auto, unfolding(crate::specs::Meaning::value))]
pub fn value_at<'a, C: Cells>(expr: &'a Expr, cells: &'a C) -> Value<'a>
    ensures { spec.owned result ≡ spec.value (C.tuple cells.now) expr.now }
{
    match expr {
        Expr::Column(column) if column.id.is_column() => cells.cell(column.table, column.id),
        // No row has such a register.
        Expr::Column(_) => Value::Null,
        Expr::Numeral(number) => Value::Int(*number as i128),
    }
}

/// The truth of a comparison at a tuple of rows.
#[inline(always)] // as above
fn truth_of_comparison<C: Cells>(compare: Compare, left: &Expr, right: &Expr, cells: &C) -> Truth
    ensures { result ≡ spec.compared compare (spec.value (C.tuple cells.now) left.now) (spec.value (C.tuple cells.now) right.now) }
{
    compare.truth(&value_at(left, cells), &value_at(right, cells))
}

/// The truth of a condition at a tuple of rows.
#[inline(always)] // as above
pub fn truth_of<C: Cells>(cond: &Cond, cells: &C) -> Truth
    ensures { result ≡ spec.truth (C.tuple cells.now) cond.now }
{
    // A condition is mostly one comparison, which needs no call.
    if let Cond::And(members) = cond {
        let members = members.as_slice();
        if members.len() == 1 {
            if let Cond::Compare(compare, left, right) = &members[0] {
                return truth_of_comparison(*compare, left, right, cells);
            }
        }
    }
    truth_of_tree(cond, cells)
}

/// The truth of a condition at a tuple of rows, its members' first.
fn truth_of_tree<C: Cells>(cond: &Cond, cells: &C) -> Truth
    ensures { result ≡ spec.truth (C.tuple cells.now) cond.now }
{
    match cond {
        Cond::Compare(compare, left, right) => truth_of_comparison(*compare, left, right, cells),
        Cond::And(members) => {
            let mut truth = Truth::Yes;
            for member in members.as_slice() {
                // Most members are comparisons, which need no call.
                let of_member = match member {
                    Cond::Compare(compare, left, right) => {
                        truth_of_comparison(*compare, left, right, cells)
                    }
                    Cond::And(_) => truth_of_tree(member, cells),
                };
                match of_member {
                    Truth::No => return Truth::No,
                    Truth::Unknown => truth = Truth::Unknown,
                    Truth::Yes => {}
                }
            }
            truth
        }
    }
}

/// The truth of a condition at a row, which counts as a look.
pub fn look<V: RowView>(cond: &Cond, view: &V, meter: &mut LookMeter) -> Truth
    requires { meter.old.looks + 1 < 2 ^ 64 }
    ensures truth { result ≡ spec.truth (row_tuple (V.answers view.now)) cond.now }
    ensures counted { meter.new ≡ record meter.old { looks = meter.old.looks + 1 } }
{
    meter.add_look();
    truth_of(cond, view)
}

/// The truth of a condition at a row, which counts as a recheck.
pub fn recheck<V: RowView>(cond: &Cond, view: &V, meter: &mut LookMeter) -> Truth
    requires { meter.old.rechecks + 1 < 2 ^ 64 }
    ensures truth { result ≡ spec.truth (row_tuple (V.answers view.now)) cond.now }
    ensures counted { meter.new ≡ record meter.old { rechecks = meter.old.rechecks + 1 } }
{
    meter.add_recheck();
    truth_of(cond, view)
}
