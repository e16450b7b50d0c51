//! Checks a query: finds its mistakes, resolves its names and splits its condition.

ghost use Rattle.std.specs.Prelude.{◌≡◌, map, IfOk};
ghost use Rattle.om_typing.specs.Queries as queries;
ghost use Rattle.om_typing.specs.Typing as spec;
ghost use Rattle.om_typing.specs.Typing.{Answers, AreAccepted, verdict};

use crate::aggregates::in_filter;
use crate::fault::TypeFault;
use crate::naming::{column_name, headings};
use crate::queries::{groups_of, is_folded, judge_query};
use crate::resolving::{push_conjuncts, resolve};
use crate::scope::Scope;
use crate::typed::{Output, Typed};
use om_base::{Items, Name, NoMemory};
use om_grammar::{CondTree, Item, Query, TableName};
use om_value::{Catalog, Cond};
use std::alloc::Global;

/// A range variable's name as written: its own, or else its table's.
fn written_name<'q>(table: &TableName<'q>) -> Name<'q>
    ensures { result ≡ spec.written_name table.now }
{
    match &table.variable {
        Some(label) => Name::of(label.name.bytes()),
        None => Name::of(table.name.bytes()),
    }
}

/// The names of the range variables, as written.
fn written_names<'q>(alloc: Global, tables: &[TableName<'q>]) -> Result<Items<Name<'q>>, NoMemory>
    ensures { IfOk result (λ names. names ≡ map spec.written_name tables.now) }
{
    let mut names = Items::new(alloc);
    for table in tables {
        names.push(written_name(table))?;
    }
    Ok(names)
}

/// The conjuncts of a WHERE; none where there is none.
fn conjuncts_of(
    alloc: Global,
    scope: &Scope<'_>,
    filter: &Option<CondTree<'_>>,
) -> Result<Items<Cond>, NoMemory>
    ensures { IfOk result (λ conjuncts. conjuncts ≡ spec.conjuncts_in scope.now filter.now) }
{
    let mut conjuncts = Items::new(alloc);
    if let Some(tree) = filter {
        push_conjuncts(alloc, scope, tree, &mut conjuncts)?;
    }
    Ok(conjuncts)
}

/// The output of the item at a position, from 1.
fn output_of(
    alloc: Global,
    scope: &Scope<'_>,
    position: usize,
    item: &Item<'_>,
) -> Result<Output, NoMemory>
    ensures { IfOk result (λ output. output ≡ spec.output_in scope.now position item.now) }
{
    let name = column_name(alloc, position, item)?;
    let expr = resolve(alloc, scope, &item.expr)?;
    Ok(Output { name, expr })
}

/// The outputs of items.
fn outputs_of(
    alloc: Global,
    scope: &Scope<'_>,
    items: &[Item<'_>],
) -> Result<Items<Output>, NoMemory>
    ensures { IfOk result (λ outputs. outputs ≡ spec.outputs_from scope.now 1 items.now) }
{
    let mut outputs = Items::new(alloc);
    let mut rest = items;
    while let [item, others @ ..] = rest {
        let output = output_of(alloc, scope, outputs.len() + 1, item)?;
        outputs.push(output)?;
        rest = others;
    }
    Ok(outputs)
}

/// Whether a query has one range variable, no groups, no aggregates and no order.
fn is_plain(query: &Query<'_>) -> bool
    ensures { result ≡ queries.is_plain query.now }
{
    query.tables.len() == 1
        && !is_folded(query)
        && !in_filter(&query.filter)
        && query.keys.len() == 0
}

/// What a query asks of the relation `states`, whose variables are those of `catalog`.
///
/// Errors: the mistake of the query that is told; `Unbuilt` where there is none and the query asks for more
/// than rows of one range variable; `NoMemory`.
pub fn check<'q>(
    alloc: Global,
    query: &Query<'q>,
    catalog: &Catalog<'_>,
) -> Result<Typed<'q>, TypeFault>
    // What is answered is what the query asks, or the mistake that is told, unless memory runs out.
    ensures gives { Answers result (verdict catalog.now query.now) }

    // Each expression and each condition that is given is accepted.
    ensures accepted { IfOk result (AreAccepted catalog.now) }
{
    let headings = headings(alloc, query.items.as_slice())?;
    let groups = groups_of(alloc, catalog, query)?;
    let scope = Scope {
        catalog,
        tables: query.tables.as_slice(),
        groups: groups.as_slice(),
    };
    if let Some(mistake) = judge_query(&scope, query, headings.as_slice()).mistake {
        return Err(TypeFault::Mistaken(mistake));
    }
    if !is_plain(query) {
        return Err(TypeFault::Unbuilt);
    }
    let tables = written_names(alloc, query.tables.as_slice())?;
    let conjuncts = conjuncts_of(alloc, &scope, &query.filter)?;
    let outputs = outputs_of(alloc, &scope, query.items.as_slice())?;
    Ok(Typed {
        tables,
        conjuncts,
        outputs,
    })
}
