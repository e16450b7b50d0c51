//! Each public call of `om_eval` once, over views made for it.

ghost use Rattle.std.specs.Prelude.{◌==◌, if◌then◌else◌};
ghost use Rattle.om_eval.specs.declared.value.Owned.TheVariants.{Null};

use om_base::{Interval, Name, NoMemory, Text};
use om_eval::{
    Catalog, Cells, Column, ColumnId, Compare, Cond, Expr, LookMeter, Owned, RowView, Truth, Value,
    VarInfo, VariableName, look, recheck, truth_of, value_at, value_of,
};
use sqlite_items::Items;
use std::alloc::Global;
use std::test::Fail;

/// A row with one value in all its cells.
#[derive(Drop)]
struct Everywhere(Owned);

impl RowView for Everywhere {
    ghost answers = { λ view. record { cell = λ _. view.0; mem = λ _ _. Null } };

    fn cell(&self, _column: ColumnId) -> Value<'_> {
        self.0.value()
    }

    fn mem(&self, _addr: u32, _width: u8) -> Value<'_> {
        Value::Null
    }
}

/// Two rows, each with one value in all its cells.
#[derive(Drop)]
struct Pair {
    first: Owned,
    second: Owned,
}

impl Cells for Pair {
    ghost tuple = { λ pair table. record { cell = λ _. if table == 0 then pair.first else pair.second; mem = λ _ _. Null } };

    fn cell(&self, table: u32, _column: ColumnId) -> Value<'_> {
        if table == 0 {
            self.first.value()
        } else {
            self.second.value()
        }
    }
}

fn cell(table: u32) -> Expr {
    Expr::Column(Column {
        table,
        id: ColumnId::Reg(31),
    })
}

fn text(alloc: Global, bytes: &[u8]) -> Result<Owned, NoMemory> {
    Ok(Owned::Text(Text::copy_of(alloc, bytes)?))
}

// SQL-92, section 8.2, general rules 1 to 5.
#[test]
fn a_cell_compares_with_a_numeral(rt: HostRuntime) -> Result<(), Fail> {
    // Below the numeral, equal to it, and above it.
    let rows = [
        (Compare::Equal, Truth::No, Truth::Yes, Truth::No),
        (Compare::NotEqual, Truth::Yes, Truth::No, Truth::Yes),
        (Compare::Less, Truth::Yes, Truth::No, Truth::No),
        (Compare::LessEqual, Truth::Yes, Truth::Yes, Truth::No),
        (Compare::Greater, Truth::No, Truth::No, Truth::Yes),
        (Compare::GreaterEqual, Truth::No, Truth::Yes, Truth::Yes),
    ];
    for (compare, below, equal, above) in rows {
        let cond = Cond::Compare(compare, cell(0), Expr::Numeral(4));
        assert_eq!(rt;
            truth_of(&cond, &Everywhere(Owned::Int(-9))),
            below,
            "{compare:?}"
        );
        assert_eq!(rt;
            truth_of(&cond, &Everywhere(Owned::Int(4))),
            equal,
            "{compare:?}"
        );
        assert_eq!(rt;
            truth_of(&cond, &Everywhere(Owned::Int(5))),
            above,
            "{compare:?}"
        );
        assert_eq!(rt; truth_of(&cond, &Everywhere(Owned::Null)), Truth::Unknown);
    }
    Ok(())
}

#[test]
fn texts_compare_by_bytes(rt: HostRuntime) -> Result<(), Fail> {
    // The first is below the second; last, the two are the same.
    let rows = [
        (b"down".as_slice(), b"main".as_slice(), Truth::Yes),
        (b"down.n", b"e", Truth::Yes),
        (b"down", b"down.n", Truth::Yes),
        (b"a", b"\xff", Truth::Yes),
        (b"down", b"down", Truth::No),
    ];
    for (first, second, want) in rows {
        let pair = Pair {
            first: text(rt.alloc(), first)?,
            second: text(rt.alloc(), second)?,
        };
        let less = Cond::Compare(Compare::Less, cell(0), cell(1));
        assert_eq!(rt; truth_of(&less, &pair), want, "{first:?} {second:?}");
    }
    Ok(())
}

/// A condition of that truth over a row of NULLs.
fn of_truth(truth: Truth) -> Cond {
    let right = match truth {
        Truth::Yes => Expr::Numeral(1),
        Truth::No => Expr::Numeral(2),
        Truth::Unknown => cell(0),
    };
    Cond::Compare(Compare::Equal, Expr::Numeral(1), right)
}

// SQL-92, section 8.12, the table for AND.
#[test]
fn a_no_settles_an_and(rt: HostRuntime) -> Result<(), Fail> {
    let (yes, no, unknown) = (Truth::Yes, Truth::No, Truth::Unknown);
    let rows = [
        (yes, yes, yes),
        (yes, no, no),
        (yes, unknown, unknown),
        (no, yes, no),
        (no, no, no),
        (no, unknown, no),
        (unknown, yes, unknown),
        (unknown, no, no),
        (unknown, unknown, unknown),
    ];
    let view = Everywhere(Owned::Null);
    for (first, second, want) in rows {
        let mut members = Items::new(rt.alloc());
        members.push(of_truth(first))?;
        members.push(of_truth(second))?;
        let cond = Cond::And(members).copy(rt.alloc())?;
        assert_eq!(rt; truth_of(&cond, &view), want, "{first:?} {second:?}");
    }
    assert_eq!(rt; truth_of(&Cond::And(Items::new(rt.alloc())), &view), yes);
    Ok(())
}

#[test]
fn looks_and_rechecks_are_counted_apart(rt: HostRuntime) -> Result<(), Fail> {
    let view = Everywhere(Owned::Int(7));
    let cond = Cond::Compare(Compare::Greater, cell(0), Expr::Numeral(6));
    let mut meter = LookMeter::new();
    assert_eq!(rt; look(&cond, &view, &mut meter), Truth::Yes);
    assert_eq!(rt; recheck(&cond, &view, &mut meter), Truth::Yes);
    assert_eq!(rt; meter.looks(), 1);
    assert_eq!(rt; meter.rechecks(), 1);
    Ok(())
}

#[test]
fn values_are_cells_and_numbers(rt: HostRuntime) -> Result<(), Fail> {
    let view = Everywhere(text(rt.alloc(), b"down")?);
    let column = cell(0).copy(rt.alloc())?;
    assert!(rt;
        matches!(value_of(&column, &view), Value::Text(name) if name.bytes() == b"down".as_slice())
    );
    assert!(rt;
        matches!(
            value_at(&Expr::Numeral(u64::MAX), &view),
            Value::Int(0xffff_ffff_ffff_ffff)
        )
    );

    let mut catalog: Catalog = om_base::Items::new(rt.alloc());
    catalog.push(VarInfo {
        name: VariableName::of(None, Name::of(b"counter")),
        scalar: Some(Interval { lo: 0, hi: 255 }),
        ambiguous: false,
        fixed: true,
    })?;
    assert_eq!(rt; catalog.len(), 1);
    Ok(())
}

#[test]
fn a_name_has_its_pieces(rt: HostRuntime) -> Result<(), Fail> {
    let outside = VariableName::of(None, Name::of(b"n")).again();
    let (function, point, own) = outside.pieces();
    assert_eq!(rt; function, b"".as_slice());
    assert_eq!(rt; point, b"".as_slice());
    assert_eq!(rt; own, b"n".as_slice());

    let inside = VariableName::of(Some(Name::of(b"down")), Name::of(b"n")).again();
    let (function, point, own) = inside.pieces();
    assert_eq!(rt; function, b"down".as_slice());
    assert_eq!(rt; point, b".".as_slice());
    assert_eq!(rt; own, b"n".as_slice());
    Ok(())
}
