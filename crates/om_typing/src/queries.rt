//! Judges queries.

ghost use Rattle.std.specs.Prelude.{◌≡◌, [], None, IfOk};
ghost use Rattle.std.specs.List.{flat_map, list_any};
ghost use Rattle.om_typing.specs.Mistakes.{noted_all};
ghost use Rattle.om_typing.specs.Names as names;
ghost use Rattle.om_typing.specs.Queries as spec;
ghost use Rattle.om_typing.specs.Queries.{tables_mistakes};

use crate::aggregates::are_aggregated;
use crate::columns::{is_same_name, is_states};
use crate::conditions::judge_condition;
use crate::judging::{judge, judge_column};
use crate::mistake::{Foremost, Rule};
use crate::naming::{Heading, fits_one};
use crate::scope::{Grouped, Scope, column_named, place_meant, table_named, variable_name};
use om_base::{Items, NoMemory};
use om_grammar::{ColumnName, CondTree, ExprTree, Item, Query, SortKey, TableName};
use om_value::Catalog;
use std::alloc::Global;

// ---- FROM

/// Where a range variable is named: by its own name, or by its table's.
fn variable_at(table: &TableName<'_>) -> u32
    ensures { result ≡ spec.variable_at table.now }
{
    match &table.variable {
        Some(label) => label.at,
        None => table.at,
    }
}

/// Whether one of several tables has the same range variable as another.
fn has_same_variable(tables: &[TableName<'_>], table: &TableName<'_>) -> bool
    ensures { result ≡ list_any (λ one. spec.has_same_variable one table.now) tables.now }
{
    let name = variable_name(table);
    let mut rest = tables;
    while let [one, others @ ..] = rest {
        if is_same_name(variable_name(one), name) {
            return true;
        }
        rest = others;
    }
    false
}

/// Judges a table behind others.
#[tactic(auto, using(crate::proofs::Noting::noted_append))]
fn judge_table(before: &[TableName<'_>], table: &TableName<'_>, foremost: &mut Foremost)
    ensures { foremost.new ≡ noted_all foremost.old (spec.table_mistakes before.now table.now) }
{
    foremost.note_if(!is_states(table.name.bytes()), table.at, Rule::NoTable);
    let is_double = has_same_variable(before, table);
    foremost.note_if(is_double, variable_at(table), Rule::Ambiguous);
    foremost.note_if(before.len() == 4, table.at, Rule::TooManyTables);
}

/// Judges tables.
fn judge_tables(tables: &[TableName<'_>], foremost: &mut Foremost)
    ensures { foremost.new ≡ noted_all foremost.old (tables_mistakes [] tables.now) }
{
    let mut before = 0;
    let mut rest = tables;
    while let [table, others @ ..] = rest {
        judge_table(&tables[..before], table, foremost);
        before += 1;
        rest = others;
    }
}

// ---- GROUP BY and items

/// The column of a range variable that a name means, where both are known.
fn place_of(
    catalog: &Catalog<'_>,
    tables: &[TableName<'_>],
    column: &ColumnName<'_>,
) -> Option<Grouped>
    ensures { result ≡ names.place_of catalog.now tables.now column.now }
{
    let table = table_named(tables, &column.qualifier);
    place_meant(table, column_named(catalog, &column.name))
}

/// The columns of GROUP BY, but for those that are none of a range variable.
#[tactic(auto, unfolding(crate::specs::Queries::groups_of))]
pub(crate) fn groups_of(
    alloc: Global,
    catalog: &Catalog<'_>,
    query: &Query<'_>,
) -> Result<Items<Grouped>, NoMemory>
    ensures { IfOk result (λ groups. groups ≡ spec.groups_of catalog.now query.now) }
{
    let tables = query.tables.as_slice();
    let mut groups = Items::new(alloc);
    let mut rest = query.groups.as_slice();
    while let [column, others @ ..] = rest {
        if let Some(place) = place_of(catalog, tables, column) {
            groups.push(place)?;
        }
        rest = others;
    }
    Ok(groups)
}

/// Whether the rows of a query are grouped: whether it has GROUP BY or an aggregate.
pub(crate) fn is_folded(query: &Query<'_>) -> bool
    ensures { result ≡ spec.is_folded query.now }
{
    query.groups.len() > 0 || are_aggregated(query.items.as_slice())
}

/// Judges the columns of GROUP BY.
#[tactic(auto, using(crate::proofs::Noting::noted_append))]
fn judge_groups(scope: &Scope<'_>, columns: &[ColumnName<'_>], foremost: &mut Foremost)
    ensures { foremost.new ≡ noted_all foremost.old (flat_map (spec.group_mistakes scope.now) columns.now) }
{
    let mut rest = columns;
    while let [column, others @ ..] = rest {
        judge_column(scope, false, column, foremost);
        rest = others;
    }
}

/// Judges items.
#[tactic(auto, using(crate::proofs::Noting::noted_append))]
fn judge_items(scope: &Scope<'_>, must_group: bool, items: &[Item<'_>], foremost: &mut Foremost)
    ensures { foremost.new ≡ noted_all foremost.old (flat_map (spec.item_mistakes scope.now must_group) items.now) }
{
    let mut rest = items;
    while let [item, others @ ..] = rest {
        judge(scope, must_group, &item.expr, foremost);
        rest = others;
    }
}

/// Judges what stands after WHERE.
fn judge_filter(scope: &Scope<'_>, filter: &Option<CondTree<'_>>, foremost: &mut Foremost)
    ensures { foremost.new ≡ noted_all foremost.old (spec.filter_mistakes scope.now filter.now) }
{
    if let Some(cond) = filter {
        judge_condition(scope, cond, foremost);
    }
}

// ---- ORDER BY

/// Judges what stands after ORDER BY.
#[tactic(auto, using(crate::proofs::Noting::noted_append))]
fn judge_keys(headings: &[Heading], keys: &[SortKey<'_>], foremost: &mut Foremost)
    ensures { foremost.new ≡ noted_all foremost.old (flat_map (spec.key_mistakes headings.now) keys.now) }
{
    let mut rest = keys;
    while let [key, others @ ..] = rest {
        foremost.note_if(!fits_one(&key.key, headings), key.at, Rule::Position);
        rest = others;
    }
}

// ---- queries

/// The mistake that is told of a query, whose headings are given.
pub(crate) fn judge_query(scope: &Scope<'_>, query: &Query<'_>, headings: &[Heading]) -> Foremost
    requires scope { scope.now ≡ spec.scope_of scope.now.catalog query.now }
    requires headings { headings.now ≡ spec.headings_from 1 query.now.items }
    ensures { result ≡ noted_all (record { mistake = None }) (spec.query_mistakes scope.now.catalog query.now) }
{
    let mut foremost = Foremost { mistake: None };
    judge_tables(query.tables.as_slice(), &mut foremost);
    judge_groups(scope, query.groups.as_slice(), &mut foremost);
    judge_items(
        scope,
        is_folded(query),
        query.items.as_slice(),
        &mut foremost,
    );
    judge_filter(scope, &query.filter, &mut foremost);
    judge_keys(headings, query.keys.as_slice(), &mut foremost);
    foremost
}
