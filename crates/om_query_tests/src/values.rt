//! Each public call of `om_value` once, over rows and answers made for it.

ghost use Rattle.std.specs.Prelude.{pos};
ghost use Rattle.om_value.specs.declared.value.Owned.TheVariants.{Int};

use om_base::{Interval, Name, NoMemory, Text, put_decimal};
use om_value::{
    Addend, Catalog, Cells, Column, ColumnId, Compare, Cond, Expr, Factor, Kind, LookMeter, Owned,
    Polarity, RowView, Sign, Truth, Value, VarInfo, VariableName, Width, Wrong, bits_kind,
    compare_kinds, look, memory_kind, numeral_kind, product_kind, quotient_kind, recheck,
    sign_kind, signed_kind, sum_kind, truth_of, value_at, value_of, width_kind,
};
use sqlite_items::{Boxed, Items};
use std::alloc::Global;
use std::test::Fail;

/// A row with one value in all its cells, and with each number in memory that of its address.
#[derive(Drop)]
struct Everywhere(Owned);

impl RowView for Everywhere {
    ghost answers = { λ view. record { cell = λ _. view.0; mem = λ address _. Int (pos address) } };

    fn cell(&self, _column: ColumnId) -> Value<'_> {
        self.0.value()
    }

    fn mem(&self, addr: u32, _width: Width) -> Value<'_> {
        Value::Int(i128::from(addr))
    }
}

/// One answer to all that is read.
#[derive(Drop)]
struct Always(Owned);

impl Cells for Always {
    ghost known = { λ answers _. answers.0 };

    fn cell(&self, _table: u32, _column: ColumnId) -> Value<'_> {
        self.0.value()
    }

    fn memory<'a>(&'a self, _form: &'a Expr) -> Value<'a> {
        self.0.value()
    }
}

fn cell() -> Expr {
    Expr::Column(Column {
        table: 0,
        id: ColumnId::Reg(31),
    })
}

fn sum(alloc: Global, first: Expr, sign: Sign, term: Expr) -> Result<Expr, NoMemory> {
    let mut rest = Items::new(alloc);
    rest.push(Addend { sign, term })?;
    Ok(Expr::Sum(Boxed::new(alloc, first)?, rest))
}

fn product(alloc: Global, first: Expr, factor: Factor) -> Result<Expr, NoMemory> {
    let mut rest = Items::new(alloc);
    rest.push(factor)?;
    Ok(Expr::Product(Boxed::new(alloc, first)?, rest))
}

fn memory(alloc: Global, address: Expr) -> Result<Expr, NoMemory> {
    Ok(Expr::Memory {
        table: 0,
        width: Width::Word,
        address: Boxed::new(alloc, address)?,
    })
}

fn show_value(shown: &mut Text, value: &Value<'_>) -> Result<(), NoMemory> {
    shown.add(b" ")?;
    match value {
        Value::Int(number) => put_decimal(shown, *number),
        Value::Text(name) => shown.add(name.bytes()),
        Value::Null => shown.add(b"NULL"),
    }
}

fn show_truth(shown: &mut Text, truth: Truth) -> Result<(), NoMemory> {
    shown.add(match truth {
        Truth::Yes => b"Y",
        Truth::No => b"N",
        Truth::Unknown => b"U",
    })
}

fn show_kind(shown: &mut Text, kind: &Result<Kind, Wrong>) -> Result<(), NoMemory> {
    shown.add(b" ")?;
    match kind {
        Ok(Kind::Int(found)) => {
            put_decimal(shown, found.lo)?;
            shown.add(b"..")?;
            put_decimal(shown, found.hi)
        }
        Ok(Kind::Text) => shown.add(b"text"),
        Ok(Kind::Null) => shown.add(b"NULL"),
        Err(Wrong::Clash) => shown.add(b"clash"),
        Err(Wrong::Range) => shown.add(b"range"),
        Err(Wrong::Divisor) => shown.add(b"divisor"),
    }
}

/// The value of an expression at a row of cells that are -7.
fn worth(alloc: Global, expr: Expr) -> Result<Text, NoMemory> {
    let mut shown = Text::copy_of(alloc, b"")?;
    show_value(&mut shown, &value_of(&expr, &Everywhere(Owned::Int(-7))))?;
    Ok(shown)
}

fn sum_with_five(alloc: Global, first: Expr, sign: Sign) -> Result<Text, NoMemory> {
    let expr = sum(alloc, first, sign, Expr::Numeral(5))?;
    worth(alloc, expr)
}

fn seven_by(alloc: Global, factor: Factor) -> Result<Text, NoMemory> {
    let expr = product(alloc, cell(), factor)?;
    worth(alloc, expr)
}

// As sqlite3 says of -7 + 5, -7 - 5 and NULL + 5.
#[test]
fn numbers_are_added(rt: HostRuntime) -> Result<(), Fail> {
    let alloc = rt.alloc();
    assert_eq!(rt;
        sum_with_five(alloc, cell(), Sign::Plus)?.bytes(),
        b" -2".as_slice()
    );
    assert_eq!(rt;
        sum_with_five(alloc, cell(), Sign::Minus)?.bytes(),
        b" -12".as_slice()
    );
    assert_eq!(rt;
        sum_with_five(alloc, Expr::Null, Sign::Plus)?.bytes(),
        b" NULL".as_slice()
    );
    Ok(())
}

// As sqlite3 says of -7 * 5, -7 / 2 and -7 / 0.
#[test]
fn numbers_are_multiplied(rt: HostRuntime) -> Result<(), Fail> {
    let alloc = rt.alloc();
    let five = Factor::Times(Expr::Numeral(5));
    assert_eq!(rt; seven_by(alloc, five)?.bytes(), b" -35".as_slice());
    assert_eq!(rt;
        seven_by(alloc, Factor::Over(2))?.bytes(),
        b" -3".as_slice()
    );
    assert_eq!(rt;
        seven_by(alloc, Factor::Over(0))?.bytes(),
        b" NULL".as_slice()
    );
    Ok(())
}

// 0x12345678 has 0x56 in its bits 15 to 8; 0xffffffff is -1 as a signed word.
#[test]
fn words_are_read(rt: HostRuntime) -> Result<(), Fail> {
    let alloc = rt.alloc();
    let turned = Expr::Sign(Sign::Minus, Boxed::new(alloc, cell())?);
    assert_eq!(rt; worth(alloc, turned)?.bytes(), b" 7".as_slice());
    let word = Expr::Signed(Boxed::new(alloc, Expr::Numeral(0xffff_ffff))?);
    assert_eq!(rt; worth(alloc, word)?.bytes(), b" -1".as_slice());
    let bits = Expr::Bits {
        expr: Boxed::new(alloc, Expr::Numeral(0x1234_5678))?,
        high: 15,
        low: 8,
    };
    assert_eq!(rt; worth(alloc, bits)?.bytes(), b" 86".as_slice());
    Ok(())
}

/// What stands in memory at an address: at a row of cells that are -7, and where the answer is 9.
fn remembered(alloc: Global, address: Expr) -> Result<Text, NoMemory> {
    let form = memory(alloc, address)?;
    let mut shown = Text::copy_of(alloc, b"")?;
    show_value(&mut shown, &value_at(&form, &Everywhere(Owned::Int(-7))))?;
    show_value(&mut shown, &value_at(&form, &Always(Owned::Int(9))))?;
    Ok(shown)
}

#[test]
fn memory_has_addresses_of_32_bits(rt: HostRuntime) -> Result<(), Fail> {
    let alloc = rt.alloc();
    let last = Expr::Numeral(0xffff_ffff);
    assert_eq!(rt;
        remembered(alloc, last)?.bytes(),
        b" 4294967295 9".as_slice()
    );
    let past = Expr::Numeral(0x1_0000_0000);
    assert_eq!(rt; remembered(alloc, past)?.bytes(), b" NULL 9".as_slice());
    assert_eq!(rt; remembered(alloc, cell())?.bytes(), b" NULL 9".as_slice());
    Ok(())
}

// SQL-92, section 8.2, general rules 1 to 5: below 4, equal to it, above it, and NULL.
#[test]
fn a_cell_compares_with_a_number(rt: HostRuntime) -> Result<(), Fail> {
    let rows = [
        (Compare::Equal, b"NYNU"),
        (Compare::NotEqual, b"YNYU"),
        (Compare::Less, b"YNNU"),
        (Compare::LessEqual, b"YYNU"),
        (Compare::Greater, b"NNYU"),
        (Compare::GreaterEqual, b"NYYU"),
    ];
    for (compare, want) in rows {
        let cond = Cond::Compare(compare, cell(), Expr::Numeral(4));
        let mut shown = Text::copy_of(rt.alloc(), b"")?;
        show_truth(&mut shown, truth_of(&cond, &Everywhere(Owned::Int(-9))))?;
        show_truth(&mut shown, truth_of(&cond, &Everywhere(Owned::Int(4))))?;
        show_truth(&mut shown, truth_of(&cond, &Everywhere(Owned::Int(5))))?;
        show_truth(&mut shown, truth_of(&cond, &Everywhere(Owned::Null)))?;
        assert_eq!(rt; shown.bytes(), want.as_slice(), "{compare:?}");
    }
    Ok(())
}

#[test]
fn texts_compare_by_bytes(rt: HostRuntime) -> Result<(), Fail> {
    // The first is below the second; last, the two are the same.
    let rows = [
        (b"down".as_slice(), b"main".as_slice(), Truth::Yes),
        (b"down.n", b"e", Truth::Yes),
        (b"down", b"down.n", Truth::Yes),
        (b"down", b"down", Truth::No),
    ];
    for (first, second, want) in rows {
        let second = Expr::Text(Text::copy_of(rt.alloc(), second)?);
        let less = Cond::Compare(Compare::Less, cell(), second);
        let view = Everywhere(Owned::Text(Text::copy_of(rt.alloc(), first)?));
        assert_eq!(rt; truth_of(&less, &view), want, "{first:?}");
    }
    Ok(())
}

/// A condition of that truth.
fn of_truth(truth: Truth) -> Cond {
    let right = match truth {
        Truth::Yes => Expr::Numeral(1),
        Truth::No => Expr::Numeral(2),
        Truth::Unknown => Expr::Null,
    };
    Cond::Compare(Compare::Equal, Expr::Numeral(1), right)
}

fn two(alloc: Global, first: Truth, second: Truth) -> Result<Items<Cond>, NoMemory> {
    let mut members = Items::new(alloc);
    members.push(of_truth(first))?;
    members.push(of_truth(second))?;
    Ok(members)
}

// SQL-92, section 8.12, the tables for AND, OR and NOT.
#[test]
fn truths_are_joined(rt: HostRuntime) -> Result<(), Fail> {
    let alloc = rt.alloc();
    let view = Everywhere(Owned::Null);
    let mut all = Text::copy_of(alloc, b"")?;
    let mut any = Text::copy_of(alloc, b"")?;
    let mut not = Text::copy_of(alloc, b"")?;
    for first in [Truth::Yes, Truth::No, Truth::Unknown] {
        for second in [Truth::Yes, Truth::No, Truth::Unknown] {
            let cond = Cond::All(two(alloc, first, second)?).copy(alloc)?;
            show_truth(&mut all, truth_of(&cond, &view))?;
            let cond = Cond::Any(two(alloc, first, second)?).copy(alloc)?;
            show_truth(&mut any, truth_of(&cond, &view))?;
        }
        let cond = Cond::Not(Boxed::new(alloc, of_truth(first))?).copy(alloc)?;
        show_truth(&mut not, truth_of(&cond, &view))?;
    }
    assert_eq!(rt; all.bytes(), b"YNUNNNUNU".as_slice());
    assert_eq!(rt; any.bytes(), b"YYYYNUYUU".as_slice());
    assert_eq!(rt; not.bytes(), b"NYU".as_slice());
    Ok(())
}

fn show_at(shown: &mut Text, cond: &Cond, cell: Owned) -> Result<(), NoMemory> {
    show_truth(shown, truth_of(cond, &Everywhere(cell)))
}

/// The truth of a condition where the cells are 1, 2, 3, 4, 5 and NULL.
fn truths(alloc: Global, cond: &Cond) -> Result<Text, NoMemory> {
    let mut shown = Text::copy_of(alloc, b"")?;
    for number in [1, 2, 3, 4, 5] {
        show_at(&mut shown, cond, Owned::Int(number))?;
    }
    show_at(&mut shown, cond, Owned::Null)?;
    Ok(shown)
}

fn to_four(alloc: Global, polarity: Polarity, low: Expr) -> Result<Text, NoMemory> {
    let cond = Cond::Between(polarity, cell(), low, Expr::Numeral(4));
    truths(alloc, &cond)
}

// SQL-92, section 8.3; as sqlite3 says of 2 and 4, and of NULL and 4.
#[test]
fn between_has_both_ends(rt: HostRuntime) -> Result<(), Fail> {
    let alloc = rt.alloc();
    let two = Expr::Numeral(2);
    assert_eq!(rt;
        to_four(alloc, Polarity::Plain, two)?.bytes(),
        b"NYYYNU".as_slice()
    );
    assert_eq!(rt;
        to_four(alloc, Polarity::Negated, Expr::Null)?.bytes(),
        b"UUUUYU".as_slice()
    );
    Ok(())
}

fn two_or(alloc: Global, polarity: Polarity, other: Expr) -> Result<Text, NoMemory> {
    let mut list = Items::new(alloc);
    list.push(Expr::Numeral(2))?;
    list.push(other)?;
    let cond = Cond::In(polarity, cell(), list);
    truths(alloc, &cond)
}

// SQL-92, sections 8.4 and 8.6; as sqlite3 says of 2 and 4, and of 2 and NULL.
#[test]
fn in_and_is_null_are_tested(rt: HostRuntime) -> Result<(), Fail> {
    let alloc = rt.alloc();
    let four = Expr::Numeral(4);
    assert_eq!(rt;
        two_or(alloc, Polarity::Plain, four)?.bytes(),
        b"NYNYNU".as_slice()
    );
    assert_eq!(rt;
        two_or(alloc, Polarity::Negated, Expr::Null)?.bytes(),
        b"UNUUUU".as_slice()
    );
    let cond = Cond::IsNull(Polarity::Plain, cell());
    assert_eq!(rt; truths(alloc, &cond)?.bytes(), b"NNNNNY".as_slice());
    let cond = Cond::IsNull(Polarity::Negated, cell());
    assert_eq!(rt; truths(alloc, &cond)?.bytes(), b"YYYYYN".as_slice());
    Ok(())
}

fn numbers(lo: i128, hi: i128) -> Kind {
    Kind::Int(Interval { lo, hi })
}

// The ends by hand: of a product, the corners are 10, -8, -15 and 12.
#[test]
fn operators_have_kinds(rt: HostRuntime) -> Result<(), Fail> {
    let mut shown = Text::copy_of(rt.alloc(), b"")?;
    let byte = numbers(0, 255);
    show_kind(&mut shown, &sum_kind(&byte, Sign::Plus, &numbers(1, 2)))?;
    show_kind(&mut shown, &sum_kind(&byte, Sign::Minus, &numbers(1, 2)))?;
    show_kind(&mut shown, &product_kind(&numbers(-2, 3), &numbers(-5, 4)))?;
    show_kind(&mut shown, &quotient_kind(&numbers(-7, 7), 2))?;
    show_kind(&mut shown, &sign_kind(Sign::Minus, &byte))?;
    show_kind(&mut shown, &signed_kind(&byte))?;
    show_kind(&mut shown, &bits_kind(7, 4, &byte))?;
    show_kind(&mut shown, &memory_kind(Width::Half, &byte))?;
    show_kind(&mut shown, &Ok(width_kind(Width::Byte)))?;
    let greatest = numeral_kind(u64::MAX);
    show_kind(
        &mut shown,
        &sum_kind(&greatest, Sign::Plus, &numeral_kind(1)),
    )?;
    show_kind(&mut shown, &quotient_kind(&byte, 0))?;
    show_kind(&mut shown, &sign_kind(Sign::Plus, &Kind::Text))?;
    assert_eq!(rt;
        shown.bytes(),
        b" 1..257 -2..254 -15..12 -3..3 -255..0 -2147483648..2147483647 0..15 0..65535 0..255 range divisor clash".as_slice()
    );
    assert!(rt; compare_kinds(&byte, &Kind::Null).is_ok());
    assert!(rt; compare_kinds(&byte, &Kind::Text).is_err());
    Ok(())
}

#[test]
fn looks_and_rechecks_are_counted_apart(rt: HostRuntime) -> Result<(), Fail> {
    let view = Everywhere(Owned::Int(7));
    let cond = Cond::Compare(Compare::Greater, cell().copy(rt.alloc())?, Expr::Numeral(6));
    let mut meter = LookMeter::new();
    assert_eq!(rt; look(&cond, &view, &mut meter), Truth::Yes);
    assert_eq!(rt; recheck(&cond, &view, &mut meter), Truth::Yes);
    assert_eq!(rt; meter.looks(), 1);
    assert_eq!(rt; meter.rechecks(), 1);
    Ok(())
}

#[test]
fn a_variable_has_its_name(rt: HostRuntime) -> Result<(), Fail> {
    let mut catalog: Catalog = om_base::Items::new(rt.alloc());
    catalog.push(VarInfo {
        name: VariableName::of(None, Name::of(b"counter")),
        scalar: Some(Interval { lo: 0, hi: 255 }),
        ambiguous: false,
        fixed: true,
    })?;
    assert_eq!(rt; catalog.len(), 1);

    let inside = VariableName::of(Some(Name::of(b"down")), Name::of(b"n")).again();
    let (function, point, own) = inside.pieces();
    assert_eq!(rt; function, b"down".as_slice());
    assert_eq!(rt; point, b".".as_slice());
    assert_eq!(rt; own, b"n".as_slice());
    Ok(())
}
