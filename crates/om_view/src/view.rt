//! The row of the relation `states` at a state of the machine.

ghost use Rattle.std.specs.Prelude.{◌≡◌};
ghost use Rattle.om_eval.specs.Meaning.{owned};
ghost use Rattle.om_names.specs.Known.{told_by};
ghost use Rattle.om_view.specs.Row as spec;
ghost use Rattle.om_view.specs.Row.{row_of};
ghost use Rattle.om_view.specs.Variable.{held_value, number_in};

use crate::variable::{held_number, number};
use om_base::Name;
use om_eval::{ColumnId, RowView, Value};
use om_line::LineRow;
use om_loc::Place;
use om_names::{Debug, Held};
use om_step::Machine;

/// The row of a state, of which nothing is computed before it is asked for.
#[derive(Debug, Drop)]
pub struct View<'a> {
    /// The machine in that state.
    pub machine: &'a Machine,
    /// The debugging information of its executable.
    pub debug: &'a Debug<'a>,
    /// How many steps led to it.
    pub step: u64,
}

/// A number, NULL where there is none.
fn value(number: Option<u32>) -> Value<'static>
    ensures { owned result ≡ spec.value_of number }
{
    match number {
        Some(number) => Value::Int(i128::from(number)),
        None => Value::Null,
    }
}

/// A name, NULL where there is none.
fn text(name: Option<Name<'_>>) -> Value<'_>
    ensures { owned result ≡ spec.text_of name.entry }
{
    match name {
        Some(name) => Value::Text(name),
        None => Value::Null,
    }
}

/// The line of a row of a line table, if it has one.
fn line_of(row: Option<LineRow>) -> Option<u32>
    ensures { result ≡ spec.line_of row }
{
    match row {
        Some(row) if row.line != 0 => Some(row.line),
        _ => None,
    }
}

/// The rule for the canonical frame address at the pc, where a variable's number depends on it.
#[tactic(auto, unfolding(crate::specs::Variable::number_in, crate::specs::Variable::address_in))]
fn rule_for(machine: &Machine, debug: &Debug<'_>, held: &Held) -> Option<(u8, i64)>
    ensures { number_in machine.now.state result held.now ≡ number_in machine.now.state ((told_by debug.now).cfa machine.now.state.pc) held.now }
{
    match (&held.place, &held.base) {
        (Place::Frame(_), Place::Cfa) => debug.cfa(machine.pc()),
        _ => None,
    }
}

/// What the variable has that the name at a place of the catalog means.
#[inline(always)] // with memory of its own, which other columns don't clear
#[tactic(auto, unfolding(crate::specs::Variable::held_number))]
fn variable(machine: &Machine, debug: &Debug<'_>, place: u32) -> Value<'static>
    ensures { owned result ≡ held_value machine.now.state ((told_by debug.now).cfa machine.now.state.pc) ((told_by debug.now).variables.held place machine.now.state.pc) }
{
    let Some(held) = debug.variable(place, machine.pc()) else {
        return Value::Null;
    };
    let rule = rule_for(machine, debug, &held);
    number(held_number(machine, &rule, Some(held)))
}

impl RowView for View<'_> {
    ghost answers = { λ view. row_of (told_by view.debug.now) view.machine.now.state view.step };

    #[inline(always)] // so that its value goes through no memory
    fn cell(&self, column: ColumnId) -> Value<'_> {
        match column {
            ColumnId::Step => Value::Int(i128::from(self.step)),
            ColumnId::Pc => value(Some(self.machine.pc())),
            ColumnId::Insn => value(self.machine.memory().number(self.machine.pc(), 4)),
            ColumnId::Reg(number) => value(Some(self.machine.reg(number))),
            ColumnId::Func => text(self.debug.func_at(self.machine.pc())),
            ColumnId::File => text(self.debug.file_at(self.machine.pc())),
            ColumnId::Line => value(line_of(self.debug.line_at(self.machine.pc()))),
            ColumnId::Var(place) => variable(self.machine, self.debug, place),
        }
    }

    fn mem(&self, addr: u32, width: u8) -> Value<'_> {
        value(self.machine.memory().number(addr, width))
    }
}
