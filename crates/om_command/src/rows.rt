//! The rows of an answer: a replay that looks at each state.

ghost use Rattle.std.specs.Prelude.{◌≡◌, ◌≤◌, ◌++◌, IfOk, OnOk};
ghost use Rattle.om_command.specs.Answer.{cell_of, cells_of};
ghost use Rattle.om_command.specs.Command.{most_steps};
ghost use Rattle.om_command.specs.Rows as spec;
ghost use Rattle.om_command.specs.Rows.{GivesRows, noted, row_at};
ghost use Rattle.om_eval.specs.Meaning.{owned};
ghost use Rattle.om_names.specs.Known.{told_by};
ghost use Rattle.om_run.specs.Run.{end_of};
ghost use Rattle.om_view.specs.Row.{row_of};

use crate::ending::Ending;
use crate::refusal::Refusal;
use om_base::{Items, NoMemory, Text};
use om_eval::{Cond, Owned, Truth, Value, truth_of, value_of};
use om_names::Debug;
use om_run::{Halt, Replay};
use om_step::StepMeter;
use om_type::Output;
use om_view::View;
use std::alloc::Global;

/// A copy of a value, with a text of its own.
fn kept(alloc: Global, value: &Value<'_>) -> Result<Owned, NoMemory>
    ensures { IfOk result (λ copy. copy ≡ owned value.now) }
{
    match value {
        Value::Int(number) => Ok(Owned::Int(*number)),
        Value::Text(name) => Ok(Owned::Text(Text::copy_of(alloc, name.bytes())?)),
        Value::Null => Ok(Owned::Null),
    }
}

/// The cell of a row for an output.
fn cell(alloc: Global, view: &View<'_>, output: &Output) -> Result<Owned, NoMemory>
    ensures { IfOk result (λ cell. cell ≡ cell_of (row_of (told_by view.now.debug.now) view.now.machine.now.state view.now.step) output.now) }
{
    kept(alloc, &value_of(&output.expr, view))
}

/// The cells of a row, one for each output.
fn cells(alloc: Global, view: &View<'_>, outputs: &[Output]) -> Result<Items<Owned>, NoMemory>
    ensures { IfOk result (λ cells. cells ≡ cells_of outputs.now (row_of (told_by view.now.debug.now) view.now.machine.now.state view.now.step)) }
{
    let mut cells = Items::new(alloc);
    for output in outputs {
        cells.push(cell(alloc, view, output)?)?;
    }
    Ok(cells)
}

/// Appends the cells of the row at which the replay stands, if the condition is true there.
fn note(
    alloc: Global,
    rows: &mut Items<Items<Owned>>,
    replay: &Replay<'_>,
    debug: &Debug<'_>,
    condition: &Cond,
    outputs: &[Output],
) -> Result<(), NoMemory>
    ensures ok { OnOk result (rows.new ≡ rows.old ++ noted condition.now outputs.now (row_at (told_by debug.now) replay.now.entries replay.now.first replay.now.step)) }
{
    let view = View {
        machine: replay.machine(),
        debug,
        step: replay.position(),
    };
    if truth_of(condition, &view) == Truth::Yes {
        rows.push(cells(alloc, &view, outputs)?)?;
    }
    Ok(())
}

/// How a command ends whose replay halts; none at the run's end.
fn end_by_halt<'a>(halt: Halt) -> Option<Ending<'a>>
    ensures { result ≡ spec.end_by_halt halt }
{
    match halt {
        Halt::Ended => None,
        Halt::Departs(departure) => Some(Ending::Refused(Refusal::Departs(departure))),
    }
}

/// The rows of a run at which a condition is true, from a replay that stands at its first state.
///
/// Errors: the refusal of a run that departs from its log; `NoMemory`.
pub fn rows_of<'a>(
    alloc: Global,
    replay: &mut Replay<'_>,
    debug: &Debug<'_>,
    condition: &Cond,
    outputs: &[Output],
) -> Result<Items<Items<Owned>>, Ending<'a>>
    requires first { replay.old.step ≡ 0 }
    requires few { (end_of replay.old.entries).step ≤ most_steps }
    ensures { GivesRows (told_by debug.now) replay.old.entries replay.old.first condition.now outputs.now result }
{
    let mut meter = StepMeter::new();
    let mut rows = Items::new(alloc);
    loop {
        note(alloc, &mut rows, replay, debug, condition, outputs)?;
        if replay.pass(&mut meter) {
            continue;
        }
        match replay.advance(&mut meter) {
            Ok(_) => {}
            Err(halt) => {
                match end_by_halt(halt) {
                    None => return Ok(rows),
                    Some(ending) => return Err(ending),
                }
            }
        }
    }
}
