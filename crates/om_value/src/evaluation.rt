//! The value of an expression and the truth of a condition.

ghost use Rattle.std.specs.Prelude.{◌≡◌, ◌+◌, ◌<◌, ◌^◌, map};
ghost use Rattle.std.specs.List.{fold};
ghost use Rattle.om_value.specs.Row.{row_tuple};
ghost use Rattle.om_value.specs.Meaning as spec;
ghost use Rattle.om_value.specs.Meaning.{is_among, with_addend, with_factor};
ghost use Rattle.om_value.specs.Known.{value_by, truth_by};

use crate::arithmetic::{bits, cell_at, memory_at, product, quotient, signed, sum, with_sign};
use crate::predicates::{between, is_null, negated, with_polarity};
use crate::{Addend, Cells, Compare, Cond, Expr, Factor, LookMeter, RowView, Truth, Value};
use om_base::Name;

/// The value of an expression at a row.
#[cycle(value)]
pub fn value_of<'a, V: RowView>(expr: &'a Expr, view: &'a V) -> Value<'a>
    ensures { spec.owned result ≡ spec.near_value (row_tuple (V.answers view.now)) expr.now }
{
    match expr {
        Expr::Numeral(number) => Value::Int(*number as i128),
        Expr::Text(text) => Value::Text(Name::of(text.bytes())),
        Expr::Null => Value::Null,
        Expr::Column(column) => cell_at(view, column.id),
        Expr::Sum(first, rest) => sum_of(value_of(first.get(), view), rest.as_slice(), view),
        Expr::Product(first, rest) => product_of(
            value_of(first.get(), view),
            rest.as_slice(),
            view,
        ),
        Expr::Sign(sign, number) => with_sign(*sign, &value_of(number.get(), view)),
        Expr::Signed(word) => signed(&value_of(word.get(), view)),
        Expr::Bits { expr, high, low } => bits(*high, *low, &value_of(expr.get(), view)),
        Expr::Memory {
            table: _,
            width,
            address,
        } => memory_at(view, *width, &value_of(address.get(), view)),
    }
}

/// A value, with these added to it or taken from it in turn.
#[cycle(value)]
fn sum_of<'a, V: RowView>(first: Value<'a>, rest: &'a [Addend], view: &'a V) -> Value<'a>
    ensures { spec.owned result
        ≡ fold (with_addend spec.near (spec.near_value (row_tuple (V.answers view.now)))) (spec.owned first.entry) rest.now }
{
    let mut total = first;
    for addend in rest {
        let term = value_of(&addend.term, view);
        total = sum(&total, addend.sign, &term);
    }
    total
}

/// A value, multiplied and divided by these in turn.
#[cycle(value)]
fn product_of<'a, V: RowView>(first: Value<'a>, rest: &'a [Factor], view: &'a V) -> Value<'a>
    ensures { spec.owned result
        ≡ fold (with_factor spec.near (spec.near_value (row_tuple (V.answers view.now)))) (spec.owned first.entry) rest.now }
{
    let mut total = first;
    for factor in rest {
        total = match factor {
            Factor::Times(factor) => product(&total, &value_of(factor, view)),
            Factor::Over(divisor) => quotient(&total, *divisor),
        };
    }
    total
}

/// The value of an expression where rows were already taken out of their states.
#[inline(always)] // so that no value goes through memory
pub fn value_at<'a, C: Cells>(expr: &'a Expr, cells: &'a C) -> Value<'a>
    ensures { spec.owned result ≡ value_by spec.near (C.known cells.now) expr.now }
{
    match expr {
        Expr::Column(column) => cells.cell(column.table, column.id),
        Expr::Numeral(number) => Value::Int(*number as i128),
        _ => value_of_tree(expr, cells),
    }
}

/// The value of an expression, its parts' first.
#[cycle(value_tree)]
fn value_of_tree<'a, C: Cells>(expr: &'a Expr, cells: &'a C) -> Value<'a>
    ensures { spec.owned result ≡ value_by spec.near (C.known cells.now) expr.now }
{
    match expr {
        Expr::Numeral(number) => Value::Int(*number as i128),
        Expr::Text(text) => Value::Text(Name::of(text.bytes())),
        Expr::Null => Value::Null,
        Expr::Column(column) => cells.cell(column.table, column.id),
        Expr::Sum(first, rest) => sum_of_tree(
            value_of_tree(first.get(), cells),
            rest.as_slice(),
            cells,
        ),
        Expr::Product(first, rest) => product_of_tree(
            value_of_tree(first.get(), cells),
            rest.as_slice(),
            cells,
        ),
        Expr::Sign(sign, number) => with_sign(*sign, &value_of_tree(number.get(), cells)),
        Expr::Signed(word) => signed(&value_of_tree(word.get(), cells)),
        Expr::Bits { expr, high, low } => bits(*high, *low, &value_of_tree(expr.get(), cells)),
        Expr::Memory {
            table: _,
            width: _,
            address: _,
        } => cells.memory(expr),
    }
}

/// A value, with these added to it or taken from it in turn.
#[cycle(value_tree)]
fn sum_of_tree<'a, C: Cells>(first: Value<'a>, rest: &'a [Addend], cells: &'a C) -> Value<'a>
    ensures { spec.owned result
        ≡ fold (with_addend spec.near (value_by spec.near (C.known cells.now))) (spec.owned first.entry) rest.now }
{
    let mut total = first;
    for addend in rest {
        let term = value_of_tree(&addend.term, cells);
        total = sum(&total, addend.sign, &term);
    }
    total
}

/// A value, multiplied and divided by these in turn.
#[cycle(value_tree)]
fn product_of_tree<'a, C: Cells>(first: Value<'a>, rest: &'a [Factor], cells: &'a C) -> Value<'a>
    ensures { spec.owned result
        ≡ fold (with_factor spec.near (value_by spec.near (C.known cells.now))) (spec.owned first.entry) rest.now }
{
    let mut total = first;
    for factor in rest {
        total = match factor {
            Factor::Times(factor) => product(&total, &value_of_tree(factor, cells)),
            Factor::Over(divisor) => quotient(&total, *divisor),
        };
    }
    total
}

/// The truth of a comparison where rows were already taken out of their states.
#[inline(always)] // as above
fn truth_of_comparison<C: Cells>(compare: Compare, left: &Expr, right: &Expr, cells: &C) -> Truth
    ensures { result ≡ spec.compared compare (value_by spec.near (C.known cells.now) left.now)
        (value_by spec.near (C.known cells.now) right.now) }
{
    compare.truth(&value_at(left, cells), &value_at(right, cells))
}

/// The truth of a condition where rows were already taken out of their states.
#[inline(always)] // as above
pub fn truth_of<C: Cells>(cond: &Cond, cells: &C) -> Truth
    ensures { result ≡ truth_by spec.near (C.known cells.now) cond.now }
{
    // A condition is mostly one comparison, which needs no call.
    if let Cond::All(members) = cond {
        let members = members.as_slice();
        if members.len() == 1 {
            if let Cond::Compare(compare, left, right) = &members[0] {
                return truth_of_comparison(*compare, left, right, cells);
            }
        }
    }
    truth_of_tree(cond, cells)
}

/// The truth of BETWEEN.
fn truth_of_between<C: Cells>(what: &Expr, low: &Expr, high: &Expr, cells: &C) -> Truth
    ensures { result ≡ spec.between (value_by spec.near (C.known cells.now) what.now)
        (value_by spec.near (C.known cells.now) low.now)
        (value_by spec.near (C.known cells.now) high.now) }
{
    let what = value_at(what, cells);
    between(&what, &value_at(low, cells), &value_at(high, cells))
}

/// The truth of IN.
fn truth_of_in<C: Cells>(what: &Expr, list: &[Expr], cells: &C) -> Truth
    ensures { result ≡ is_among (value_by spec.near (C.known cells.now)) what.now list.now }
{
    let what = value_at(what, cells);
    let mut truth = Truth::No;
    for one in list {
        match Compare::Equal.truth(&what, &value_at(one, cells)) {
            Truth::Yes => return Truth::Yes,
            Truth::Unknown => truth = Truth::Unknown,
            Truth::No => {}
        }
    }
    truth
}

/// The truth of a condition, its members' first.
#[cycle(truth)]
fn truth_of_tree<C: Cells>(cond: &Cond, cells: &C) -> Truth
    ensures { result ≡ truth_by spec.near (C.known cells.now) cond.now }
{
    match cond {
        Cond::Compare(compare, left, right) => truth_of_comparison(*compare, left, right, cells),
        Cond::Between(polarity, what, low, high) => {
            with_polarity(*polarity, truth_of_between(what, low, high, cells))
        }
        Cond::In(polarity, what, list) => {
            with_polarity(*polarity, truth_of_in(what, list.as_slice(), cells))
        }
        Cond::IsNull(polarity, what) => with_polarity(*polarity, is_null(&value_at(what, cells))),
        Cond::Not(member) => negated(truth_of_tree(member.get(), cells)),
        Cond::All(members) => truth_of_all(members.as_slice(), cells),
        Cond::Any(members) => truth_of_any(members.as_slice(), cells),
    }
}

/// The truth of AND.
#[cycle(truth)]
fn truth_of_all<C: Cells>(members: &[Cond], cells: &C) -> Truth
    ensures { result ≡ spec.all_of (map (truth_by spec.near (C.known cells.now)) members.now) }
{
    let mut truth = Truth::Yes;
    for member in members {
        match truth_of_tree(member, cells) {
            Truth::No => return Truth::No,
            Truth::Unknown => truth = Truth::Unknown,
            Truth::Yes => {}
        }
    }
    truth
}

/// The truth of OR.
#[cycle(truth)]
fn truth_of_any<C: Cells>(members: &[Cond], cells: &C) -> Truth
    ensures { result ≡ spec.any_of (map (truth_by spec.near (C.known cells.now)) members.now) }
{
    let mut truth = Truth::No;
    for member in members {
        match truth_of_tree(member, cells) {
            Truth::Yes => return Truth::Yes,
            Truth::Unknown => truth = Truth::Unknown,
            Truth::No => {}
        }
    }
    truth
}

/// The truth of a condition at a row, which counts as a look.
pub fn look<V: RowView>(cond: &Cond, view: &V, meter: &mut LookMeter) -> Truth
    requires { meter.old.looks + 1 < 2 ^ 64 }
    ensures truth { result ≡ spec.near_truth (row_tuple (V.answers view.now)) cond.now }
    ensures counted { meter.new ≡ record meter.old { looks = meter.old.looks + 1 } }
{
    meter.add_look();
    truth_of(cond, view)
}

/// The truth of a condition at a row, which counts as a recheck.
pub fn recheck<V: RowView>(cond: &Cond, view: &V, meter: &mut LookMeter) -> Truth
    requires { meter.old.rechecks + 1 < 2 ^ 64 }
    ensures truth { result ≡ spec.near_truth (row_tuple (V.answers view.now)) cond.now }
    ensures counted { meter.new ≡ record meter.old { rechecks = meter.old.rechecks + 1 } }
{
    meter.add_recheck();
    truth_of(cond, view)
}
