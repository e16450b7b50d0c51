//! Fronts of primaries: all of one, or what stands up to and with its parenthesis.

ghost use Rattle.om_grammar.specs.Parsers.{Reads};
ghost use Rattle.om_grammar.specs.Reading as spec;

use crate::aggregates::Aggregates;
use crate::cursor::Cursor;
use crate::expr_tree::{ExprTree, Function};
use crate::lead::{Dotted, Lead};
use crate::start::{Form, Start};
use crate::stop::Stop;
use crate::tree::{ColumnName, Identifier, Label};
use om_token::{Terminal, unquoted};
use std::alloc::Global;

/// The parenthesis behind a function's word.
#[tactic(auto, unfolding(crate::specs::Reading::opened))]
fn opened<'a>(form: Form<'a>, tokens: &mut Cursor<'_, 'a>) -> Result<Start<'a>, Stop>
    ensures { Reads (spec.opened form.entry tokens.old) result tokens.new }
{
    tokens.expect(Terminal::LeftParen)?;
    Ok(Start::Open(form))
}

/// What stands behind a range variable and its point.
#[tactic(auto, unfolding(crate::specs::Reading::after_dot))]
fn after_dot<'a>(
    alloc: Global,
    variable: Label<'a>,
    dotted: Dotted<'a>,
    tokens: &mut Cursor<'_, 'a>,
) -> Result<Start<'a>, Stop>
    ensures { Reads (spec.after_dot variable.entry dotted.entry tokens.old) result tokens.new }
{
    match dotted {
        Dotted::Regular { at, name } => Ok(Start::Whole(ExprTree::Column(ColumnName {
            qualifier: Some(variable),
            at,
            name: Identifier::Regular(name),
        }))),
        Dotted::Delimited { at, inside } => {
            let name = unquoted(alloc, b'"', inside.bytes())?;
            Ok(Start::Whole(ExprTree::Column(ColumnName {
                qualifier: Some(variable),
                at,
                name: Identifier::Delimited(name),
            })))
        }
        Dotted::Memory { at, width } => opened(
            Form::Memory {
                qualifier: Some(variable),
                at,
                width,
            },
            tokens,
        ),
    }
}

/// What goes on from a regular identifier.
#[tactic(auto, unfolding(crate::specs::Reading::named))]
fn named<'a>(
    alloc: Global,
    first: Label<'a>,
    tokens: &mut Cursor<'_, 'a>,
) -> Result<Start<'a>, Stop>
    ensures { Reads (spec.named first.entry tokens.old) result tokens.new }
{
    let Some(_) = tokens.eat(Terminal::Dot) else {
        return Ok(Start::Whole(ExprTree::Column(ColumnName {
            qualifier: None,
            at: first.at,
            name: Identifier::Regular(first.name),
        })));
    };
    let dotted = tokens.dotted()?;
    after_dot(alloc, first, dotted, tokens)
}

/// What goes on from COUNT.
#[tactic(auto, unfolding(crate::specs::Reading::counted))]
fn counted<'a>(at: u32, tokens: &mut Cursor<'_, 'a>) -> Result<Start<'a>, Stop>
    ensures { Reads (spec.counted at tokens.old) result tokens.new }
{
    tokens.expect(Terminal::LeftParen)?;
    let Some(_) = tokens.eat(Terminal::Star) else {
        return Ok(Start::Open(Form::Aggregate {
            at,
            function: Function::Count,
        }));
    };
    Ok(Start::Rows { at })
}

/// What goes on from the first token of a primary.
#[tactic(auto, unfolding(crate::specs::Reading::after_lead))]
fn after_lead<'a>(
    alloc: Global,
    lead: Lead<'a>,
    tokens: &mut Cursor<'_, 'a>,
) -> Result<Start<'a>, Stop>
    ensures { Reads (spec.after_lead lead.entry tokens.old) result tokens.new }
{
    match lead {
        Lead::Numeral(numeral) => Ok(Start::Whole(ExprTree::Numeral(numeral))),
        Lead::Text { at, inside } => {
            let text = unquoted(alloc, b'\'', inside.bytes())?;
            Ok(Start::Whole(ExprTree::Text { at, text }))
        }
        Lead::Null { at } => Ok(Start::Whole(ExprTree::Null { at })),
        Lead::Regular { at, name } => named(alloc, Label { at, name }, tokens),
        Lead::Delimited { at, inside } => {
            let name = unquoted(alloc, b'"', inside.bytes())?;
            Ok(Start::Whole(ExprTree::Column(ColumnName {
                qualifier: None,
                at,
                name: Identifier::Delimited(name),
            })))
        }
        Lead::Paren => Ok(Start::Open(Form::Paren)),
        Lead::Signed { at } => opened(Form::Signed { at }, tokens),
        Lead::Bits { at } => opened(Form::Bits { at }, tokens),
        Lead::Memory { at, width } => opened(
            Form::Memory {
                qualifier: None,
                at,
                width,
            },
            tokens,
        ),
        Lead::Count { at } => counted(at, tokens),
        Lead::Extreme { at, function } => opened(Form::Aggregate { at, function }, tokens),
    }
}

/// The front of a primary.
#[tactic(auto, unfolding(crate::specs::Reading::front))]
pub fn front<'a>(
    alloc: Global,
    aggregates: Aggregates,
    tokens: &mut Cursor<'_, 'a>,
) -> Result<Start<'a>, Stop>
    ensures { Reads (spec.front aggregates tokens.old) result tokens.new }
{
    let lead = tokens.lead(aggregates)?;
    after_lead(alloc, lead, tokens)
}
