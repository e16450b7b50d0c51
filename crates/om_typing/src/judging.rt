//! Judges expressions: what is wrong with them, and of which kind they are where nothing is.

ghost use Rattle.std.specs.Prelude.{◌≡◌, ◌&&◌, [], None, if◌then◌else◌};
ghost use Rattle.std.specs.Option.{option_map};
ghost use Rattle.om_typing.specs.Judging as spec;
ghost use Rattle.om_typing.specs.Judging.{Judges};
ghost use Rattle.om_typing.specs.Mistakes.{noted_all};
ghost use Rattle.om_typing.specs.Names.{column_meant, table_meant};
ghost use Rattle.om_value.specs.ColumnKinds as columns;
ghost use Rattle.om_value.specs.Kinds as kinds;

use crate::judged::{Judged, Reach};
use crate::mistake::{Foremost, Rule};
use crate::scope::{Grouped, Scope, column_named, info_of, is_grouped, place_meant, table_named};
use om_grammar::{
    ColumnName, ExprTree, Function, Label, Scale, Sign as TreeSign, TableName, Width as TreeWidth,
};
use om_value::{
    Catalog, ColumnId, Kind, Sign, VarInfo, Width, Wrong, bits_kind, column_kind, memory_kind,
    numeral_kind, product_kind, quotient_kind, sign_kind, signed_kind, sum_kind, width_kind,
};

// ---- words of the tree

/// A sign.
pub(crate) fn sign_of(sign: TreeSign) -> Sign
    ensures { result ≡ spec.sign_of sign }
{
    match sign {
        TreeSign::Plus => Sign::Plus,
        TreeSign::Minus => Sign::Minus,
    }
}

/// How many bytes make a number.
pub(crate) fn width_of(width: TreeWidth) -> Width
    ensures { result ≡ spec.width_of width }
{
    match width {
        TreeWidth::Byte => Width::Byte,
        TreeWidth::Half => Width::Half,
        TreeWidth::Word => Width::Word,
    }
}

/// A bound of BITS, where 255 stands for each that is greater.
pub(crate) fn bound_of(value: u64) -> u8
    ensures { result ≡ spec.bound_of value }
{
    if value < 256 { value as u8 } else { 255 }
}

// ---- operators

/// What is known of an expression that is no numeral.
fn known(kind: Option<Kind>, reach: Reach) -> Judged
    ensures { result ≡ (spec.judgement [] kind reach).judged }
{
    Judged {
        kind,
        reach,
        numeral: None,
    }
}

/// What is known of a numeral.
fn numeral(value: u64) -> Judged
    ensures { result ≡ (spec.numeral_judged value).judged }
{
    Judged {
        kind: Some(numeral_kind(value)),
        reach: Reach::Nothing,
        numeral: Some(value),
    }
}

/// The kind that an operator at a place gives, noting why it is refused where it is.
fn given(at: u32, made: Option<Result<Kind, Wrong>>, foremost: &mut Foremost) -> Option<Kind>
    ensures kind { result ≡ spec.given made }
    ensures noted { foremost.new ≡ noted_all foremost.old (spec.told at made) }
{
    match made {
        Some(Ok(kind)) => Some(kind),
        Some(Err(wrong)) => {
            foremost.note(at, Rule::of(wrong));
            None
        }
        None => None,
    }
}

/// What a sign makes of a kind, if there is one.
fn signed_by(sign: TreeSign, operand: &Judged) -> Option<Result<Kind, Wrong>>
    ensures { result ≡ spec.of_one (kinds.sign_kind (spec.sign_of sign)) operand.now }
{
    match &operand.kind {
        Some(kind) => Some(sign_kind(sign_of(sign), kind)),
        None => None,
    }
}

/// What SIGNED makes of a kind, if there is one.
fn as_signed(operand: &Judged) -> Option<Result<Kind, Wrong>>
    ensures { result ≡ spec.of_one kinds.signed_kind operand.now }
{
    match &operand.kind {
        Some(kind) => Some(signed_kind(kind)),
        None => None,
    }
}

/// What BITS makes of a kind, if there is one.
fn bits_of(high: u64, low: u64, operand: &Judged) -> Option<Result<Kind, Wrong>>
    ensures { result ≡ spec.of_one (kinds.bits_kind (spec.bound_of high) (spec.bound_of low)) operand.now }
{
    match &operand.kind {
        Some(kind) => Some(bits_kind(bound_of(high), bound_of(low), kind)),
        None => None,
    }
}

/// What a memory form makes of the kind of its address, if there is one.
fn memory_of(table: Option<u32>, width: TreeWidth, address: &Judged) -> Option<Result<Kind, Wrong>>
    ensures { result ≡ spec.form_kind table (spec.width_of width) address.now }
{
    let Some(kind) = &address.kind else {
        return None;
    };
    if address.reach.strays_from(table) {
        return Some(Err(Wrong::Clash));
    }
    Some(memory_kind(width_of(width), kind))
}

/// What is made of two kinds that are added, if both are there.
fn sum_of(sign: TreeSign, left: &Judged, right: &Judged) -> Option<Result<Kind, Wrong>>
    ensures { result ≡ spec.of_kinds (kinds.sum_kind (spec.sign_of sign)) left.now.kind right.now.kind }
{
    let (Some(left), Some(right)) = (&left.kind, &right.kind) else {
        return None;
    };
    Some(sum_kind(left, sign_of(sign), right))
}

/// The kind of a quotient: the divisor has to be a numeral; a text is refused first.
fn divided_kind(numeral: Option<u64>, left: &Kind, right: &Kind) -> Result<Kind, Wrong>
    ensures { result ≡ spec.divided_kind numeral left.now right.now }
{
    let Some(divisor) = numeral else {
        return match (left, right) {
            (_, Kind::Text) => Err(Wrong::Clash),
            (Kind::Text, _) => Err(Wrong::Clash),
            _ => Err(Wrong::Divisor),
        };
    };
    quotient_kind(left, divisor)
}

/// What is made of two kinds that are multiplied or divided, if both are there.
fn product_of(scale: Scale, left: &Judged, right: &Judged) -> Option<Result<Kind, Wrong>>
    ensures { result ≡ spec.of_kinds (spec.scaled_kind scale right.now.numeral) left.now.kind right.now.kind }
{
    let (Some(left), Some(kind)) = (&left.kind, &right.kind) else {
        return None;
    };
    Some(match scale {
        Scale::Times => product_kind(left, kind),
        Scale::Divide => divided_kind(right.numeral, left, kind),
    })
}

// ---- names

/// Where the first token of a name stands: its range variable's or its own.
pub(crate) fn first_at(qualifier: &Option<Label<'_>>, at: u32) -> u32
    ensures { result ≡ spec.first_at qualifier.now at }
{
    match qualifier {
        Some(label) => label.at,
        None => at,
    }
}

/// The place of the range variable of a name whose own token stands at a place. Also answers whether there
/// is one, noting why there is none where there isn't.
fn judge_table(
    tables: &[TableName<'_>],
    qualifier: &Option<Label<'_>>,
    at: u32,
    foremost: &mut Foremost,
) -> (Option<u32>, bool)
    ensures table { result.0 ≡ table_meant tables.now qualifier.now }
    ensures right { result.1 ≡ spec.is_empty (spec.table_mistakes tables.now qualifier.now at) }
    ensures noted { foremost.new ≡ noted_all foremost.old (spec.table_mistakes tables.now qualifier.now at) }
{
    let table = table_named(tables, qualifier);
    let is_wrong = match qualifier {
        Some(_) => table.is_none(),
        None => tables.len() > 1,
    };
    match qualifier {
        Some(label) => foremost.note_if(is_wrong, label.at, Rule::NoColumn),
        None => foremost.note_if(is_wrong, at, Rule::Ambiguous),
    }
    (table, !is_wrong)
}

/// Whether a variable can be asked for, noting why not where it can't.
fn judge_variable(first: u32, at: u32, info: Option<&VarInfo<'_>>, foremost: &mut Foremost) -> bool
    ensures right { result ≡ spec.is_empty (spec.variable_mistakes first at (option_map (λ info. info.now) info.entry)) }
    ensures noted { foremost.new ≡ noted_all foremost.old (spec.variable_mistakes first at (option_map (λ info. info.now) info.entry)) }
{
    let Some(info) = info else {
        return true;
    };
    foremost.note_if(info.ambiguous, at, Rule::Ambiguous);
    foremost.note_if(info.scalar.is_none(), first, Rule::NoScalar);
    !info.ambiguous && info.scalar.is_some()
}

/// The column that a name means. Also answers whether it can be asked for, noting why not where it can't.
fn judge_own(
    catalog: &Catalog<'_>,
    column: &ColumnName<'_>,
    foremost: &mut Foremost,
) -> (Option<ColumnId>, bool)
    ensures column { result.0 ≡ column_meant catalog.now column.now.name }
    ensures right { result.1 ≡ spec.is_empty (spec.own_mistakes catalog.now column.now) }
    ensures noted { foremost.new ≡ noted_all foremost.old (spec.own_mistakes catalog.now column.now) }
{
    let first = first_at(&column.qualifier, column.at);
    let meant = column_named(catalog, &column.name);
    foremost.note_if(meant.is_none(), first, Rule::NoColumn);
    let is_right = judge_variable(first, column.at, info_of(catalog, meant), foremost);
    (meant, meant.is_some() && is_right)
}

/// The kind of the column that is meant, where nothing is wrong with it.
fn kind_where(is_right: bool, meant: Option<ColumnId>, catalog: &Catalog<'_>) -> Option<Kind>
    ensures { result ≡ (if is_right then option_map (columns.column_kind catalog.now) meant else None) }
{
    if !is_right {
        return None;
    }
    match meant {
        Some(column) => Some(column_kind(column, catalog)),
        None => None,
    }
}

/// Whether a column has to be grouped and isn't, which is noted.
fn judge_group(
    scope: &Scope<'_>,
    must_group: bool,
    place: Option<Grouped>,
    first: u32,
    foremost: &mut Foremost,
) -> bool
    ensures right { result ≡ spec.is_empty (spec.group_mistakes scope.now must_group place first) }
    ensures noted { foremost.new ≡ noted_all foremost.old (spec.group_mistakes scope.now must_group place first) }
{
    let is_astray = must_group && !is_grouped(scope.groups, place);
    foremost.note_if(is_astray, first, Rule::NotGrouped);
    !is_astray
}

/// Whether all three hold.
fn are_all(first: bool, second: bool, third: bool) -> bool
    ensures { result ≡ (first && (second && third)) }
{
    first && second && third
}

/// A column.
pub(crate) fn judge_column(
    scope: &Scope<'_>,
    must_group: bool,
    column: &ColumnName<'_>,
    foremost: &mut Foremost,
) -> Judged
    ensures { Judges result foremost.old (spec.column_judged scope.now must_group column.now) foremost.new }
{
    let (table, has_table) = judge_table(scope.tables, &column.qualifier, column.at, foremost);
    let (meant, is_right) = judge_own(scope.catalog, column, foremost);
    let first = first_at(&column.qualifier, column.at);
    let place = place_meant(table, meant);
    let is_at_home = judge_group(scope, must_group, place, first, foremost);
    let is_sound = are_all(has_table, is_right, is_at_home);
    let kind = kind_where(is_sound, meant, scope.catalog);
    known(kind, Reach::of(table))
}

// ---- memory forms and aggregates

/// A memory form whose word stands at a place.
fn judge_memory(
    scope: &Scope<'_>,
    must_group: bool,
    qualifier: &Option<Label<'_>>,
    at: u32,
    foremost: &mut Foremost,
) -> (Option<u32>, bool)
    ensures table { result.0 ≡ table_meant scope.now.tables qualifier.now }
    ensures right { result.1 ≡ spec.is_empty (spec.form_mistakes scope.now must_group qualifier.now at) }
    ensures noted { foremost.new ≡ noted_all foremost.old (spec.form_mistakes scope.now must_group qualifier.now at) }
{
    let (table, has_table) = judge_table(scope.tables, qualifier, at, foremost);
    foremost.note_if(must_group, first_at(qualifier, at), Rule::NotGrouped);
    (table, has_table && !must_group)
}

/// A kind, where nothing is wrong.
fn where_right(is_right: bool, kind: Option<Kind>) -> Option<Kind>
    ensures { result ≡ (if is_right then kind else None) }
{
    if is_right { kind } else { None }
}

/// The kind of an aggregate of what is of this kind, if it has one.
fn judge_aggregate(
    scope: &Scope<'_>,
    at: u32,
    function: Function,
    what: Option<Kind>,
    foremost: &mut Foremost,
) -> Option<Kind>
    ensures kind { result ≡ spec.aggregate_kind scope.now.tables at function what }
    ensures noted { foremost.new ≡ noted_all foremost.old (spec.aggregate_mistakes scope.now.tables at function) }
{
    match function {
        Function::Count => judge_count(scope.tables, at, what, foremost),
        Function::Min | Function::Max => what,
    }
}

/// COUNT of what is of this kind, if it has one.
fn judge_count(
    tables: &[TableName<'_>],
    at: u32,
    what: Option<Kind>,
    foremost: &mut Foremost,
) -> Option<Kind>
    ensures kind { result ≡ spec.count_kind tables.now at what }
    ensures noted { foremost.new ≡ noted_all foremost.old (spec.join_mistakes tables.now at) }
{
    let is_join = tables.len() > 1;
    foremost.note_if(is_join, at, Rule::CountOverJoin);
    if is_join || what.is_none() {
        return None;
    }
    Some(width_kind(Width::Word))
}

// ---- expressions

/// Judges an expression, where each column outside aggregates must be grouped, or need not.
pub(crate) fn judge(
    scope: &Scope<'_>,
    must_group: bool,
    tree: &ExprTree<'_>,
    foremost: &mut Foremost,
) -> Judged
    ensures { Judges result foremost.old (spec.judged scope.now tree.now must_group) foremost.new }
{
    match tree {
        ExprTree::Numeral(it) => numeral(it.value),
        ExprTree::Text { at: _, text: _ } => known(Some(Kind::Text), Reach::Nothing),
        ExprTree::Null { at: _ } => known(Some(Kind::Null), Reach::Nothing),
        ExprTree::Column(column) => judge_column(scope, must_group, column, foremost),
        ExprTree::Sum(first, rest) => {
            let first = judge(scope, must_group, first.get(), foremost);
            let mut sum = known(first.kind, first.reach);
            for addend in rest.as_slice() {
                let term = judge(scope, must_group, &addend.term, foremost);
                let made = sum_of(addend.sign, &sum, &term);
                sum = known(
                    given(addend.at, made, foremost),
                    sum.reach.joined(term.reach),
                );
            }
            sum
        }
        ExprTree::Product(first, rest) => {
            let first = judge(scope, must_group, first.get(), foremost);
            let mut product = known(first.kind, first.reach);
            for factor in rest.as_slice() {
                let right = judge(scope, must_group, &factor.factor, foremost);
                let made = product_of(factor.scale, &product, &right);
                product = known(
                    given(factor.at, made, foremost),
                    product.reach.joined(right.reach),
                );
            }
            product
        }
        ExprTree::Sign { at, sign, expr } => {
            let operand = judge(scope, must_group, expr.get(), foremost);
            known(
                given(*at, signed_by(*sign, &operand), foremost),
                operand.reach,
            )
        }
        ExprTree::Signed { at, expr } => {
            let operand = judge(scope, must_group, expr.get(), foremost);
            known(given(*at, as_signed(&operand), foremost), operand.reach)
        }
        ExprTree::Bits {
            at,
            expr,
            high,
            low,
        } => {
            let operand = judge(scope, must_group, expr.get(), foremost);
            let made = bits_of(high.value, low.value, &operand);
            known(given(*at, made, foremost), operand.reach)
        }
        ExprTree::Memory {
            qualifier,
            at,
            width,
            address,
        } => {
            let (table, is_right) = judge_memory(scope, must_group, qualifier, *at, foremost);
            let address = judge(scope, must_group, address.get(), foremost);
            let kind = given(*at, memory_of(table, *width, &address), foremost);
            let kind = where_right(is_right, kind);
            known(kind, Reach::of(table).joined(address.reach))
        }
        ExprTree::CountRows { at } => {
            let what = Some(Kind::Null);
            let kind = judge_aggregate(scope, *at, Function::Count, what, foremost);
            known(kind, Reach::Nothing)
        }
        ExprTree::Aggregate { at, function, expr } => {
            let what = judge(scope, false, expr.get(), foremost);
            let kind = judge_aggregate(scope, *at, *function, what.kind, foremost);
            known(kind, what.reach)
        }
    }
}
