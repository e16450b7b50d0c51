//! Queries and what they ask: the tables, the condition's conjuncts, and the outputs with their names.

use om_base::{Interval, Items, Name, NoMemory, Text, put_decimal};
use om_eval::{Catalog, Column, ColumnId, Compare, Cond, Expr, VarInfo, VariableName};
use om_parse::{
    ColumnName, CompareOp, CondTree, ExprTree, Identifier, Item, Numeral, Query, TableName, parse,
};
use om_type::{TypeFault, Typed, check};
use sqlite_items::Items as Members;
use std::alloc::Global;
use std::test::Fail;

fn show_column(shown: &mut Text, column: Column) -> Result<(), NoMemory> {
    put_decimal(shown, i128::from(column.table))?;
    match column.id {
        ColumnId::Step => shown.add(b".step"),
        ColumnId::Pc => shown.add(b".pc"),
        ColumnId::Insn => shown.add(b".insn"),
        ColumnId::Func => shown.add(b".func"),
        ColumnId::File => shown.add(b".file"),
        ColumnId::Line => shown.add(b".line"),
        ColumnId::Reg(number) => {
            shown.add(b".x")?;
            put_decimal(shown, i128::from(number))
        }
        ColumnId::Var(place) => {
            shown.add(b".v")?;
            put_decimal(shown, i128::from(place))
        }
    }
}

fn show_expr(shown: &mut Text, expr: &Expr) -> Result<(), NoMemory> {
    match expr {
        Expr::Column(column) => show_column(shown, *column),
        Expr::Numeral(number) => put_decimal(shown, i128::from(*number)),
    }
}

fn sign(compare: Compare) -> &'static [u8] {
    match compare {
        Compare::Equal => b"=",
        Compare::NotEqual => b"<>",
        Compare::Less => b"<",
        Compare::LessEqual => b"<=",
        Compare::Greater => b">",
        Compare::GreaterEqual => b">=",
    }
}

fn show_conjunct(shown: &mut Text, cond: &Cond) -> Result<(), NoMemory> {
    let Cond::Compare(compare, left, right) = cond else {
        return shown.add(b" and?");
    };
    shown.add(b" ")?;
    show_expr(shown, left)?;
    shown.add(sign(*compare))?;
    show_expr(shown, right)
}

fn show_typed(shown: &mut Text, typed: &Typed<'_>) -> Result<(), NoMemory> {
    for table in typed.tables.as_slice() {
        shown.add(table.bytes())?;
    }
    shown.add(b":")?;
    for output in typed.outputs.as_slice() {
        shown.add(b" ")?;
        shown.add(output.name.bytes())?;
        shown.add(b"=")?;
        show_expr(shown, &output.expr)?;
    }
    shown.add(b" where")?;
    for conjunct in typed.conjuncts.as_slice() {
        show_conjunct(shown, conjunct)?;
    }
    Ok(())
}

/// What a query comes to.
fn shown(alloc: Global, query: &Query<'_>, catalog: &Catalog) -> Result<Text, NoMemory> {
    let mut shown = Text::copy_of(alloc, b"")?;
    match check(alloc, query, catalog) {
        Ok(typed) => show_typed(&mut shown, &typed)?,
        Err(TypeFault::NoMemory) => shown.add(b"no memory")?,
        Err(TypeFault::Unbuilt) => shown.add(b"unbuilt")?,
    }
    Ok(shown)
}

/// What the query that a text spells comes to.
fn shown_of(alloc: Global, text: &[u8], catalog: &Catalog) -> Result<Text, NoMemory> {
    match parse(alloc, text) {
        Ok(query) => shown(alloc, &query, catalog),
        Err(_) => Text::copy_of(alloc, b"no query"),
    }
}

// The registers' numbers are those of the RISC-V psABI, "Integer Register Convention".
#[test]
fn queries_ask_this(rt: HostRuntime) -> Result<(), Fail> {
    let rows = [
        (
            "SELECT step, Pc, INSN, func FROM states",
            "states: step=0.step Pc=0.pc INSN=0.insn func=0.func where",
        ),
        (
            "SELECT x0, ZERO, ra, sp, gp, tp, x31 FROM STATES",
            "STATES: x0=0.x0 ZERO=0.x0 ra=0.x1 sp=0.x2 gp=0.x3 tp=0.x4 x31=0.x31 where",
        ),
        (
            "SELECT t0, t2, s0, fp, s1, a0, A7, s2, s11, t3, t6 FROM states",
            "states: t0=0.x5 t2=0.x7 s0=0.x8 fp=0.x8 s1=0.x9 a0=0.x10 A7=0.x17 s2=0.x18 s11=0.x27 t3=0.x28 t6=0.x31 where",
        ),
        (
            "SELECT step FROM states WHERE pc = 0x10008 AND a0 <> 2 AND fp < 3 AND X9 <= 4 AND sp > 5 AND insn >= 6",
            "states: step=0.step where 0.pc=65544 0.x10<>2 0.x8<3 0.x9<=4 0.x2>5 0.insn>=6",
        ),
        ("SELECT step FROM state", "unbuilt"),
        ("SELECT step, x32 FROM states", "unbuilt"),
        (
            "SELECT File, LINE FROM states WHERE line >= 6",
            "states: File=0.file LINE=0.line where 0.line>=6",
        ),
        ("SELECT step FROM states WHERE file = 6", "unbuilt"),
        ("SELECT step FROM states WHERE a0 = 1 AND a8 = 2", "unbuilt"),
        ("SELECT step FROM states WHERE func = 1", "unbuilt"),
    ];
    let catalog: Catalog = Items::new(rt.alloc());
    for (text, want) in rows {
        let shown = shown_of(rt.alloc(), text.as_bytes(), &catalog)?;
        assert_eq!(rt; shown.bytes(), want.as_bytes(), "of {text}");
    }
    Ok(())
}

fn variable(name: &'static [u8], scalar: Option<Interval>, ambiguous: bool) -> VarInfo<'static> {
    VarInfo {
        name: VariableName::of(None, Name::of(name)),
        scalar,
        ambiguous,
        fixed: true,
    }
}

/// A variable of a function, which holds a byte.
fn local(function: &'static [u8], own: &'static [u8]) -> VarInfo<'static> {
    VarInfo {
        name: VariableName::of(Some(Name::of(function)), Name::of(own)),
        scalar: Some(Interval { lo: 0, hi: 255 }),
        ambiguous: false,
        fixed: false,
    }
}

fn some_variables(alloc: Global) -> Result<Catalog<'static>, NoMemory> {
    let byte = Some(Interval { lo: 0, hi: 255 });
    let variables = Vec::from_array(
        alloc,
        [
            variable(b"counter", byte, false),
            variable(b"twice", byte, true),
            variable(b"point", None, false),
            variable(b"a\"b", byte, false),
            variable(b"counter", byte, true),
            variable(b"step", byte, false),
            local(b"down", b"n"),
            local(b"a\"", b"\"b"),
            // Two with the same bytes, whose points stand apart.
            local(b"a.b", b"c"),
            local(b"a", b"b.c"),
        ],
    )?;
    Ok(Items::from_vec(variables))
}

// A delimited identifier names a variable by its bytes, and a regular one a column.
#[test]
fn queries_ask_this_of_variables(rt: HostRuntime) -> Result<(), Fail> {
    let rows = [
        (
            "SELECT step, \"counter\" FROM states WHERE \"counter\" = 7",
            "states: step=0.step counter=0.v0 where 0.v0=7",
        ),
        (
            "SELECT \"a\"\"b\", \"step\" FROM states",
            "states: a\"b=0.v3 step=0.v5 where",
        ),
        (
            "SELECT \"down.n\" FROM states WHERE \"down.n\" < 2",
            "states: down.n=0.v6 where 0.v6<2",
        ),
        (
            "SELECT \"a\"\".\"\"b\", \"a.b.c\" FROM states",
            "states: a\".\"b=0.v7 a.b.c=0.v8 where",
        ),
        // Only a part of a function's variable's name, and one with another byte for the point.
        ("SELECT \"n\" FROM states", "unbuilt"),
        ("SELECT \"down.\" FROM states", "unbuilt"),
        ("SELECT \"down.nn\" FROM states", "unbuilt"),
        ("SELECT \"down:n\" FROM states", "unbuilt"),
        // Ambiguous, of no scalar type, not there, in another case, and a column.
        ("SELECT \"twice\" FROM states", "unbuilt"),
        ("SELECT \"point\" FROM states", "unbuilt"),
        ("SELECT \"other\" FROM states", "unbuilt"),
        ("SELECT \"Counter\" FROM states", "unbuilt"),
        ("SELECT \"pc\" FROM states", "unbuilt"),
        ("SELECT step FROM states WHERE \"twice\" = 1", "unbuilt"),
        // A regular identifier names no variable.
        ("SELECT counter FROM states", "unbuilt"),
        // A delimited table, and a delimited identifier of no bytes.
        ("SELECT step FROM \"states\"", "no query"),
        ("SELECT \"\" FROM states", "no query"),
    ];
    let catalog = some_variables(rt.alloc())?;
    for (text, want) in rows {
        let shown = shown_of(rt.alloc(), text.as_bytes(), &catalog)?;
        assert_eq!(rt; shown.bytes(), want.as_bytes(), "of {text}");
    }
    Ok(())
}

fn column(name: &'static [u8]) -> ExprTree<'static> {
    ExprTree::Column(ColumnName {
        at: 0,
        name: Identifier::Regular(Name::of(name)),
    })
}

fn numeral(value: u64) -> ExprTree<'static> {
    ExprTree::Numeral(Numeral { at: 0, value })
}

fn table(name: &'static [u8]) -> TableName<'static> {
    TableName {
        at: 0,
        name: Name::of(name),
    }
}

fn equal(left: ExprTree<'static>, right: ExprTree<'static>) -> CondTree<'static> {
    CondTree::Compare {
        at: 0,
        op: CompareOp::Equal,
        left,
        right,
    }
}

fn all(alloc: Global, tests: [CondTree<'static>; 2]) -> Result<CondTree<'static>, NoMemory> {
    let tests = Vec::from_array(alloc, tests)?;
    Ok(CondTree::All(Members::from_vec(tests)))
}

// Trees that no text has yet: an AND in an AND, numerals and columns on both sides, a numeral as an item.
#[test]
fn other_trees_ask_this(rt: HostRuntime) -> Result<(), Fail> {
    let alloc = rt.alloc();
    let inner = all(
        alloc,
        [
            equal(numeral(2), column(b"a0")),
            equal(numeral(3), numeral(4)),
        ],
    )?;
    let filter = all(alloc, [inner, equal(column(b"s0"), column(b"FP"))])?;
    let items = Vec::from_array(
        alloc,
        [
            Item {
                expr: column(b"pc"),
            },
            Item { expr: numeral(7) },
        ],
    )?;
    let tables = Vec::from_array(alloc, [table(b"states")])?;
    let query = Query {
        items: Items::from_vec(items),
        tables: Items::from_vec(tables),
        filter: Some(filter),
    };
    let catalog: Catalog = Items::new(alloc);
    let shown_query = shown(alloc, &query, &catalog)?;
    let want = "states: pc=0.pc col2=7 where 2=0.x10 3=4 0.x8=0.x8";
    assert_eq!(rt; shown_query.bytes(), want.as_bytes());
    let tables = Vec::from_array(alloc, [table(b"states"), table(b"states")])?;
    let twice = Query {
        tables: Items::from_vec(tables),
        ..query
    };
    let shown_twice = shown(alloc, &twice, &catalog)?;
    assert_eq!(rt; shown_twice.bytes(), b"unbuilt".as_slice());
    Ok(())
}
