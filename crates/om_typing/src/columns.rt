//! The names of the relation `states` and of its columns.

ghost use Rattle.std.specs.Prelude.{◌≡◌, map};
ghost use Rattle.std.specs.Str.{str_eq_ignore_ascii_case};
ghost use Rattle.om_typing.specs.Columns.{is_relation};
ghost use Rattle.om_typing.specs.Names.{column_in, column_named};

use om_value::ColumnId;

/// The names of the columns. Those of the registers are x0 to x31 and, after them, the names of the
/// RISC-V psABI, "Integer Register Convention".
const COLUMNS: [(&[u8], ColumnId); 71] = [
    (b"step", ColumnId::Step),
    (b"pc", ColumnId::Pc),
    (b"insn", ColumnId::Insn),
    (b"func", ColumnId::Func),
    (b"file", ColumnId::File),
    (b"line", ColumnId::Line),
    (b"x0", ColumnId::Reg(0)),
    (b"x1", ColumnId::Reg(1)),
    (b"x2", ColumnId::Reg(2)),
    (b"x3", ColumnId::Reg(3)),
    (b"x4", ColumnId::Reg(4)),
    (b"x5", ColumnId::Reg(5)),
    (b"x6", ColumnId::Reg(6)),
    (b"x7", ColumnId::Reg(7)),
    (b"x8", ColumnId::Reg(8)),
    (b"x9", ColumnId::Reg(9)),
    (b"x10", ColumnId::Reg(10)),
    (b"x11", ColumnId::Reg(11)),
    (b"x12", ColumnId::Reg(12)),
    (b"x13", ColumnId::Reg(13)),
    (b"x14", ColumnId::Reg(14)),
    (b"x15", ColumnId::Reg(15)),
    (b"x16", ColumnId::Reg(16)),
    (b"x17", ColumnId::Reg(17)),
    (b"x18", ColumnId::Reg(18)),
    (b"x19", ColumnId::Reg(19)),
    (b"x20", ColumnId::Reg(20)),
    (b"x21", ColumnId::Reg(21)),
    (b"x22", ColumnId::Reg(22)),
    (b"x23", ColumnId::Reg(23)),
    (b"x24", ColumnId::Reg(24)),
    (b"x25", ColumnId::Reg(25)),
    (b"x26", ColumnId::Reg(26)),
    (b"x27", ColumnId::Reg(27)),
    (b"x28", ColumnId::Reg(28)),
    (b"x29", ColumnId::Reg(29)),
    (b"x30", ColumnId::Reg(30)),
    (b"x31", ColumnId::Reg(31)),
    (b"zero", ColumnId::Reg(0)),
    (b"ra", ColumnId::Reg(1)),
    (b"sp", ColumnId::Reg(2)),
    (b"gp", ColumnId::Reg(3)),
    (b"tp", ColumnId::Reg(4)),
    (b"t0", ColumnId::Reg(5)),
    (b"t1", ColumnId::Reg(6)),
    (b"t2", ColumnId::Reg(7)),
    (b"s0", ColumnId::Reg(8)),
    (b"fp", ColumnId::Reg(8)),
    (b"s1", ColumnId::Reg(9)),
    (b"a0", ColumnId::Reg(10)),
    (b"a1", ColumnId::Reg(11)),
    (b"a2", ColumnId::Reg(12)),
    (b"a3", ColumnId::Reg(13)),
    (b"a4", ColumnId::Reg(14)),
    (b"a5", ColumnId::Reg(15)),
    (b"a6", ColumnId::Reg(16)),
    (b"a7", ColumnId::Reg(17)),
    (b"s2", ColumnId::Reg(18)),
    (b"s3", ColumnId::Reg(19)),
    (b"s4", ColumnId::Reg(20)),
    (b"s5", ColumnId::Reg(21)),
    (b"s6", ColumnId::Reg(22)),
    (b"s7", ColumnId::Reg(23)),
    (b"s8", ColumnId::Reg(24)),
    (b"s9", ColumnId::Reg(25)),
    (b"s10", ColumnId::Reg(26)),
    (b"s11", ColumnId::Reg(27)),
    (b"t3", ColumnId::Reg(28)),
    (b"t4", ColumnId::Reg(29)),
    (b"t5", ColumnId::Reg(30)),
    (b"t6", ColumnId::Reg(31)),
];

/// Whether both are one name.
pub(crate) fn is_same_name(a: &[u8], b: &[u8]) -> bool
    ensures { result ≡ str_eq_ignore_ascii_case a.now b.now }
{
    a.eq_ignore_ascii_case(b)
}

/// The column of the first row of the table with that name.
fn find_column(mut table: &[(&[u8], ColumnId)], name: &[u8]) -> Option<ColumnId>
    ensures { result ≡ column_in (map (λ row. (row.0.now, row.1)) table.entry.now) name.now }
{
    while let [row, rest @ ..] = table {
        if is_same_name(row.0, name) {
            return Some(row.1);
        }
        table = rest;
    }
    None
}

/// The column that a name means, in any case.
#[tactic(auto, unfolding(crate::specs::Names::column_named, crate::specs::Columns::column_names))]
pub fn column_of(name: &[u8]) -> Option<ColumnId>
    ensures { result ≡ column_named name.now }
{
    find_column(&COLUMNS, name)
}

/// Whether a name is that of the relation, in any case.
#[tactic(auto, unfolding(crate::specs::Columns::is_relation))]
pub fn is_states(name: &[u8]) -> bool
    ensures { result ≡ is_relation name.now }
{
    is_same_name(b"states", name)
}
