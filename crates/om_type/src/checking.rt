//! Checks a query: resolves its names, splits its condition and names its outputs.

ghost use Rattle.std.specs.Prelude.{◌≡◌, [], ◌∷◌, Ok, Err, IfOk};
ghost use Rattle.om_type.specs.Checking as spec;
ghost use Rattle.om_type.specs.Checking.{Gives, after, all_some, grown, tests_of};
ghost use Rattle.om_type.specs.Typing as typing;
ghost use Rattle.om_type.specs.Typing.{IsTyped, conjuncts_of};
ghost use Rattle.om_type.specs.Unbuilt.{Answers, IsUnbuilt};
ghost use Rattle.om_type.specs.Existing.{AllExist};
ghost use Rattle.om_type.specs.declared.fault.TypeFault.{TypeFault};
ghost use Rattle.om_type.specs.declared.typed.Typed.{Typed};

use crate::columns::{column_of, is_states};
use crate::fault::TypeFault;
use crate::typed::{Output, Typed};
use crate::variables::variable_of;
use om_base::{Items, Name, NoMemory, Text, put_decimal};
use om_eval::{Catalog, Column, ColumnId, Compare, Cond, Expr};
use om_parse::{CompareOp, CondTree, ExprTree, Identifier, Item, Query, TableName};
use std::alloc::Global;

/// What an identifier means.
fn meant(name: &Identifier<'_>, catalog: &Catalog) -> Option<ColumnId>
    ensures { result ≡ spec.meant catalog.now name.now }
{
    match name {
        Identifier::Regular(column) => column_of(column.bytes()),
        Identifier::Delimited(_) => variable_of(name, catalog).map(ColumnId::Var),
    }
}

/// An expression with its names resolved.
#[tactic(auto, unfolding(crate::specs::Checking::expr_in))]
fn check_expr(tree: &ExprTree<'_>, catalog: &Catalog) -> Result<Expr, TypeFault>
    ensures { Gives (spec.expr_in catalog.now tree.now) result }
{
    match tree {
        ExprTree::Column(column) => match meant(&column.name, catalog) {
            Some(id) => Ok(Expr::Column(Column { table: 0, id })),
            None => Err(TypeFault::Unbuilt),
        },
        ExprTree::Numeral(numeral) => Ok(Expr::Numeral(numeral.value)),
    }
}

/// Whether the values of an expression are texts.
fn is_text(expr: &Expr) -> bool
    ensures { result ≡ typing.is_text expr.now }
{
    match expr {
        Expr::Column(column) => match column.id {
            ColumnId::Func | ColumnId::File => true,
            ColumnId::Step
            | ColumnId::Pc
            | ColumnId::Insn
            | ColumnId::Line
            | ColumnId::Reg(_)
            | ColumnId::Var(_) => false,
        },
        Expr::Numeral(_) => false,
    }
}

/// An expression with its names resolved, where its values are numbers.
#[tactic(auto, unfolding(crate::specs::Checking::number_in))]
fn check_number(tree: &ExprTree<'_>, catalog: &Catalog) -> Result<Expr, TypeFault>
    ensures { Gives (spec.number_in catalog.now tree.now) result }
{
    let expr = check_expr(tree, catalog)?;
    if is_text(&expr) {
        return Err(TypeFault::Unbuilt);
    }
    Ok(expr)
}

/// The comparison that an operator stands for.
fn compare_of(op: CompareOp) -> Compare
    ensures { result ≡ typing.compare_of op }
{
    match op {
        CompareOp::Equal => Compare::Equal,
        CompareOp::NotEqual => Compare::NotEqual,
        CompareOp::Less => Compare::Less,
        CompareOp::LessOrEqual => Compare::LessEqual,
        CompareOp::Greater => Compare::Greater,
        CompareOp::GreaterOrEqual => Compare::GreaterEqual,
    }
}

/// A comparison with its names resolved.
#[tactic(auto, unfolding(crate::specs::Checking::comparison_in))]
fn check_comparison(
    op: CompareOp,
    left: &ExprTree<'_>,
    right: &ExprTree<'_>,
    catalog: &Catalog,
) -> Result<Cond, TypeFault>
    ensures { Gives (spec.comparison_in catalog.now op left.now right.now) result }
{
    let left = check_number(left, catalog)?;
    let right = check_number(right, catalog)?;
    Ok(Cond::Compare(compare_of(op), left, right))
}

/// Appends a comparison with its names resolved.
fn push_comparison(
    op: CompareOp,
    left: &ExprTree<'_>,
    right: &ExprTree<'_>,
    catalog: &Catalog,
    conjuncts: &mut Items<Cond>,
) -> Result<(), TypeFault>
    ensures { Gives (after conjuncts.old (all_some (spec.comparison_in catalog.now op left.now right.now ∷ []))) (grown result conjuncts.new) }
{
    let comparison = check_comparison(op, left, right, catalog)?;
    conjuncts.push(comparison)?;
    Ok(())
}

/// Appends the conjuncts of a condition, each with its names resolved.
fn push_conjuncts(
    tree: &CondTree<'_>,
    catalog: &Catalog,
    conjuncts: &mut Items<Cond>,
) -> Result<(), TypeFault>
    ensures { Gives (after conjuncts.old (tests_of catalog.now tree.now)) (grown result conjuncts.new) }
{
    match tree {
        CondTree::Compare {
            op,
            left,
            right,
            ..
        } => push_comparison(*op, left, right, catalog, conjuncts),
        CondTree::All(members) => {
            for member in members.as_slice() {
                push_conjuncts(member, catalog, conjuncts)?;
            }
            Ok(())
        }
    }
}

/// The conjuncts of a WHERE, each with its names resolved.
#[tactic(auto, unfolding(crate::specs::Checking::tests_of, crate::specs::Checking::tests_in), using(crate::proofs::SomesLemmas::none_found))]
fn check_filter(
    alloc: Global,
    filter: &Option<CondTree<'_>>,
    catalog: &Catalog,
) -> Result<Items<Cond>, TypeFault>
    ensures { Gives (spec.tests_in catalog.now (conjuncts_of filter.now)) result }
{
    let mut conjuncts = Items::new(alloc);
    let Some(tree) = filter else {
        return Ok(conjuncts);
    };
    push_conjuncts(tree, catalog, &mut conjuncts)?;
    Ok(conjuncts)
}

/// The name of the output at a position, from 1.
fn name_of(alloc: Global, position: usize, tree: &ExprTree<'_>) -> Result<Text, NoMemory>
    ensures { IfOk result (λ name. name ≡ typing.name_of position tree.now) }
{
    match tree {
        ExprTree::Column(column) => column.name.said(alloc),
        ExprTree::Numeral(_) => {
            let mut name = Text::copy_of(alloc, b"col")?;
            put_decimal(&mut name, position as i128)?;
            Ok(name)
        }
    }
}

/// The output of the item at a position, from 1.
#[tactic(auto, unfolding(crate::specs::Checking::output_in))]
fn check_item(
    alloc: Global,
    position: usize,
    item: &Item<'_>,
    catalog: &Catalog,
) -> Result<Output, TypeFault>
    ensures { Gives (spec.output_in catalog.now position item.now) result }
{
    let expr = check_expr(&item.expr, catalog)?;
    let name = name_of(alloc, position, &item.expr)?;
    Ok(Output { name, expr })
}

/// The outputs of the items.
#[tactic(auto, unfolding(crate::specs::Checking::outputs_in))]
fn check_items(
    alloc: Global,
    mut items: &[Item<'_>],
    catalog: &Catalog,
) -> Result<Items<Output>, TypeFault>
    ensures { Gives (spec.outputs_in catalog.now items.entry.now) result }
{
    let mut outputs = Items::new(alloc);
    while let [item, rest @ ..] = items {
        let output = check_item(alloc, outputs.len() + 1, item, catalog)?;
        outputs.push(output)?;
        items = rest;
    }
    Ok(outputs)
}

/// The names of the range variables, where the relation is the only table.
#[tactic(auto, unfolding(crate::specs::Checking::tables_in))]
fn check_tables<'q>(alloc: Global, tables: &[TableName<'q>]) -> Result<Items<Name<'q>>, TypeFault>
    ensures { Gives (spec.tables_in tables.now) result }
{
    let [table] = tables else {
        return Err(TypeFault::Unbuilt);
    };
    if !is_states(table.name.bytes()) {
        return Err(TypeFault::Unbuilt);
    }
    let mut names = Items::new(alloc);
    names.push(Name::of(table.name.bytes()))?;
    Ok(names)
}

/// What a query asks, with its names resolved.
#[tactic(auto, unfolding(crate::specs::Checking::typed_in))]
fn check_parts<'q>(
    alloc: Global,
    query: &Query<'q>,
    catalog: &Catalog,
) -> Result<Typed<'q>, TypeFault>
    ensures { Gives (spec.typed_in catalog.now query.now) result }
{
    let tables = check_tables(alloc, query.tables.as_slice())?;
    let outputs = check_items(alloc, query.items.as_slice(), catalog)?;
    let conjuncts = check_filter(alloc, &query.filter, catalog)?;
    Ok(Typed {
        tables,
        conjuncts,
        outputs,
    })
}

/// What a query asks, with its names resolved: a delimited identifier names a variable of the catalog.
pub fn check<'q>(
    alloc: Global,
    query: &Query<'q>,
    catalog: &Catalog,
) -> Result<Typed<'q>, TypeFault>
    // What is answered is what the query asks, and what is refused so isn't built.
    ensures typed { IfOk result (λ typed. IsTyped catalog.now query.now typed) }
    ensures unbuilt { result ≡ Err TypeFault.Unbuilt → IsUnbuilt catalog.now query.now }

    // A query that asks something gets it, and one that isn't built is refused, unless memory runs out.
    ensures finds { (typed : Typed) → IsTyped catalog.now query.now typed → Answers result (Ok typed) }
    ensures refuses { IsUnbuilt catalog.now query.now → Answers result (Err TypeFault.Unbuilt) }

    // The rows of the range variables have each column that is asked for.
    ensures exist { IfOk result AllExist }

    // The same as a function, for callers that rewrite by it.
    ensures gives { Gives (spec.typed_in catalog.now query.now) result }
{
    check_parts(alloc, query, catalog)
}
