//! The columns of the relation `states`.

ghost use Rattle.std.specs.Prelude.{◌↔◌, IsTrue};

/// A column of the relation `states`.
#[derive(Clone, Copy, Debug, PartialEq, Eq)]
pub enum ColumnId {
    /// The row's number.
    Step,
    /// The program counter.
    Pc,
    /// The instruction word at the program counter.
    Insn,
    /// The name of the function at the program counter.
    Func,
    /// The name of the source file at the program counter.
    File,
    /// The source line at the program counter.
    Line,
    /// The register of that number, which is below 32.
    Reg(u8),
    /// The variable at that place of the catalog.
    Var(u32),
}

impl ColumnId {
    ghost use Rattle.om_value.specs.Row.{IsColumn};

    /// Whether it is a column: of registers, there are 32.
    pub(crate) fn is_column(self) -> bool
        ensures { IsTrue result ↔ IsColumn self }
    {
        match self {
            ColumnId::Reg(number) => number < 32,
            _ => true,
        }
    }
}

/// A column of one of a query's range variables.
#[derive(Clone, Copy, Debug, PartialEq, Eq)]
pub struct Column {
    /// The place of the range variable in FROM, from 0.
    pub table: u32,
    /// Which of its columns.
    pub id: ColumnId,
}
