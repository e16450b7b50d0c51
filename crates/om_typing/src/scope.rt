//! What the names of a query are resolved in.

ghost use Rattle.std.specs.Prelude.{◌≡◌, ℕ, false, List, ◌++◌};
ghost use Rattle.std.specs.List.{list_any};
ghost use Rattle.std.specs.Option.{option_and_then, option_map, option_map_or};
ghost use Rattle.std.specs.Str.{bytes_eq};
ghost use Rattle.om_typing.specs.Names as spec;
ghost use Rattle.om_typing.specs.Names.{column_meant, narrow, table_from, table_meant, variable_named};

use crate::columns::{column_of, is_same_name};
use om_grammar::{ColumnName, Identifier, Label, TableName};
use om_value::{Catalog, ColumnId, VarInfo, VariableName};
use std::marker::Model;

/// A column of a range variable.
#[derive(Clone, Copy, Debug, PartialEq, Eq)]
pub(crate) struct Grouped {
    /// The place of the range variable in FROM, from 0.
    pub table: u32,
    pub column: ColumnId,
}

/// Which column it is, but for the number of a register or a variable.
fn sort_of(column: ColumnId) -> u8
    ensures { result ≡ spec.sort_of column }
{
    match column {
        ColumnId::Step => 0,
        ColumnId::Pc => 1,
        ColumnId::Insn => 2,
        ColumnId::Func => 3,
        ColumnId::File => 4,
        ColumnId::Line => 5,
        ColumnId::Reg(_) => 6,
        ColumnId::Var(_) => 7,
    }
}

/// That number.
fn number_of(column: ColumnId) -> u32
    ensures { result ≡ spec.number_of column }
{
    match column {
        ColumnId::Reg(number) => u32::from(number),
        ColumnId::Var(place) => place,
        ColumnId::Step
        | ColumnId::Pc
        | ColumnId::Insn
        | ColumnId::Func
        | ColumnId::File
        | ColumnId::Line => 0,
    }
}

impl Grouped {
    /// Whether both are one column of one range variable.
    fn is_same(&self, other: &Grouped) -> bool
        ensures { result ≡ spec.is_same self.now other.now }
    {
        self.table == other.table
            && sort_of(self.column) == sort_of(other.column)
            && number_of(self.column) == number_of(other.column)
    }
}

/// Whether a column is among those that are grouped.
fn is_among(groups: &[Grouped], place: &Grouped) -> bool
    ensures { result ≡ list_any (λ one. spec.is_same one place.now) groups.now }
{
    let mut rest = groups;
    while let [one, others @ ..] = rest {
        if one.is_same(place) {
            return true;
        }
        rest = others;
    }
    false
}

/// What the names of a query are resolved in.
#[derive(Drop)]
pub(crate) struct Scope<'s> {
    /// The variables of the program.
    pub catalog: &'s Catalog<'s>,
    /// The tables of FROM.
    pub tables: &'s [TableName<'s>],
    /// The columns of GROUP BY.
    pub groups: &'s [Grouped],
}

// Clauses see what it refers to.
impl<'s> Model for Scope<'s> {
    ghost use Rattle.om_typing.specs.Names.{Scope as Names};

    ghost Value = { Names };

    ghost view = { λ it. record { catalog = it.catalog.now; tables = it.tables.now; groups = it.groups.now } };
}

/// The name of a table's range variable.
pub(crate) fn variable_name<'t>(table: &'t TableName<'_>) -> &'t [u8]
    ensures { result.now ≡ spec.variable_name table.now }
{
    match &table.variable {
        Some(label) => label.name.bytes(),
        None => b"states",
    }
}

/// The place of the first table whose range variable has a name, in any case.
fn find_table(tables: &[TableName<'_>], name: &[u8]) -> Option<u32>
    ensures { result ≡ option_and_then narrow (table_from 0 tables.now name.now) }
{
    let mut rest = tables;
    while let [table, others @ ..] = rest {
        if is_same_name(variable_name(table), name) {
            return u32::try_from(tables.len() - rest.len()).ok();
        }
        rest = others;
    }
    None
}

/// What stands behind these bytes, if bytes begin with them.
fn behind<'a>(whole: &'a [u8], bytes: &[u8]) -> Option<&'a [u8]>
    ensures { (more : List ℕ) → bytes_eq whole.now (bytes.now ++ more) ≡ option_map_or (λ rest. bytes_eq rest.now more) result false }
{
    whole.strip_prefix(bytes)
}

/// Whether a variable has a name. The pieces of the variable's name aren't put together.
fn is_named(variable: &VariableName<'_>, name: &[u8]) -> bool
    ensures { result ≡ bytes_eq name.now variable.now }
{
    let (function, point, own) = variable.pieces();
    let Some(rest) = behind(name, function) else {
        return false;
    };
    let Some(rest) = behind(rest, point) else {
        return false;
    };
    rest == own
}

/// The place of the first variable of a name.
#[tactic(auto, unfolding(crate::specs::Names::variable_named))]
fn find_variable(catalog: &Catalog<'_>, name: &[u8]) -> Option<u32>
    ensures { result ≡ variable_named catalog.now name.now }
{
    let mut rest = catalog.as_slice();
    while let [info, others @ ..] = rest {
        if is_named(&info.name, name) {
            return u32::try_from(catalog.len() - rest.len()).ok();
        }
        rest = others;
    }
    None
}

/// The column that an identifier means: a regular one a column of the machine or of the source, a
/// delimited one a variable.
pub(crate) fn column_named(catalog: &Catalog<'_>, name: &Identifier<'_>) -> Option<ColumnId>
    ensures { result ≡ column_meant catalog.now name.now }
{
    match name {
        Identifier::Regular(name) => column_of(name.bytes()),
        Identifier::Delimited(said) => find_variable(catalog, said.bytes()).map(ColumnId::Var),
    }
}

/// The place of the range variable that is meant: the first of that name, and without a name the only one.
pub(crate) fn table_named(tables: &[TableName<'_>], qualifier: &Option<Label<'_>>) -> Option<u32>
    ensures { result ≡ table_meant tables.now qualifier.now }
{
    match qualifier {
        Some(label) => find_table(tables, label.name.bytes()),
        None => { if tables.len() == 1 { Some(0) } else { None } }
    }
}

/// What is known of the variable that a column is; none for another column.
pub(crate) fn info_of<'s>(
    catalog: &'s Catalog<'_>,
    column: Option<ColumnId>,
) -> Option<&'s VarInfo<'s>>
    ensures { option_map (λ info. info.now) result ≡ spec.info_of catalog.now column }
{
    match column {
        Some(ColumnId::Var(place)) => catalog.as_slice().get(place as usize),
        _ => None,
    }
}

/// The column of a range variable that is meant, where both are known.
pub(crate) fn place_meant(table: Option<u32>, column: Option<ColumnId>) -> Option<Grouped>
    ensures { result ≡ spec.place_meant table column }
{
    Some(Grouped {
        table: table?,
        column: column?,
    })
}

/// Whether a column is among those that are grouped, where it is known.
pub(crate) fn is_grouped(groups: &[Grouped], place: Option<Grouped>) -> bool
    ensures { result ≡ spec.is_grouped groups.now place }
{
    match place {
        Some(place) => is_among(groups, &place),
        None => false,
    }
}
