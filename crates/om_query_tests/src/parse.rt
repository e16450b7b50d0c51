//! Texts and what they are: the tree with its offsets, or the fault.

use om_base::{NoMemory, Text, put_decimal};
use om_parse::{ColumnName, CompareOp, CondTree, ExprTree, Identifier, ParseFault, Query, parse};
use std::alloc::Global;
use std::test::Fail;

fn show_name(shown: &mut Text, at: u32, name: &[u8]) -> Result<(), NoMemory> {
    shown.add(b" ")?;
    put_decimal(shown, i128::from(at))?;
    shown.add(b":")?;
    shown.add(name)
}

fn show_column(shown: &mut Text, column: &ColumnName<'_>) -> Result<(), NoMemory> {
    match &column.name {
        Identifier::Regular(name) => show_name(shown, column.at, name.bytes()),
        Identifier::Delimited(name) => {
            show_name(shown, column.at, b"\"")?;
            shown.add(name.bytes())?;
            shown.add(b"\"")
        }
    }
}

fn show_expr(shown: &mut Text, expr: &ExprTree<'_>) -> Result<(), NoMemory> {
    match expr {
        ExprTree::Column(column) => show_column(shown, column),
        ExprTree::Numeral(numeral) => {
            show_name(shown, numeral.at, b"#")?;
            put_decimal(shown, i128::from(numeral.value))
        }
    }
}

fn sign(op: CompareOp) -> &'static [u8] {
    match op {
        CompareOp::Equal => b"=",
        CompareOp::NotEqual => b"<>",
        CompareOp::Less => b"<",
        CompareOp::LessOrEqual => b"<=",
        CompareOp::Greater => b">",
        CompareOp::GreaterOrEqual => b">=",
    }
}

/// A comparison, and of a list its comparisons.
fn show_cond(shown: &mut Text, cond: &CondTree<'_>) -> Result<(), NoMemory> {
    match cond {
        CondTree::Compare {
            at,
            op,
            left,
            right,
        } => {
            show_expr(shown, left)?;
            show_name(shown, *at, sign(*op))?;
            show_expr(shown, right)
        }
        CondTree::All(tests) => {
            shown.add(b" all")?;
            for test in tests.as_slice() {
                show_cond(shown, test)?;
            }
            Ok(())
        }
    }
}

fn show_query(shown: &mut Text, query: &Query<'_>) -> Result<(), NoMemory> {
    for item in query.items.as_slice() {
        show_expr(shown, &item.expr)?;
    }
    shown.add(b" from")?;
    for table in query.tables.as_slice() {
        show_name(shown, table.at, table.name.bytes())?;
    }
    if let Some(cond) = &query.filter {
        shown.add(b" where")?;
        show_cond(shown, cond)?;
    }
    Ok(())
}

fn show_fault(shown: &mut Text, fault: ParseFault) -> Result<(), NoMemory> {
    match fault {
        ParseFault::NoMemory => shown.add(b" no memory"),
        ParseFault::Syntax { at } => show_name(shown, at, b"syntax"),
        ParseFault::TooWide { length } => {
            shown.add(b" too wide ")?;
            put_decimal(shown, i128::from(length))
        }
    }
}

/// The tree of a text, or its fault.
fn shown(alloc: Global, text: &[u8]) -> Result<Text, NoMemory> {
    let mut shown = Text::copy_of(alloc, b"")?;
    match parse(alloc, text) {
        Ok(query) => show_query(&mut shown, &query)?,
        Err(fault) => show_fault(&mut shown, fault)?,
    }
    Ok(shown)
}

// Offsets are counted by hand, from 0.
#[test]
fn texts_have_these_trees_and_faults(rt: HostRuntime) -> Result<(), Fail> {
    let rows = [
        // Trees.
        (
            "SELECT--all\n\ta--\r\n,Step FROM states WHERE b<007 AnD c>=0XfF AND d<>18446744073709551615",
            " 13:a 19:Step from 29:states where all 42:b 43:< 44:#7 52:c 53:>= 55:#255 64:d 65:<> 67:#18446744073709551615",
        ),
        (
            "select a FROM s WHERE b = 65544",
            " 7:a from 14:s where 22:b 24:= 26:#65544",
        ),
        (
            "SELECT \"counter\", \"a\"\"b\" FROM s WHERE \"c d\" = 7",
            " 7:\"counter\" 18:\"a\"\"b\" from 30:s where 38:\"c d\" 44:= 46:#7",
        ),
        // Bytes that begin no token, told before any token that doesn't fit.
        ("FROM 'unfinished", " 5:syntax"),
        ("SELECT \"\" FROM s", " 7:syntax"),
        ("SELECT a FROM s WHERE a = 1a", " 26:syntax"),
        (
            "SELECT a FROM s WHERE a = 18446744073709551616",
            " 26:syntax",
        ),
        // The first token that doesn't fit, or the end.
        ("  -- nothing", " 12:syntax"),
        ("SELECT a, FROM s", " 10:syntax"),
        ("SELECT count FROM s", " 7:syntax"),
        ("SELECT a FROM s WHERE a =< 1", " 25:syntax"),
        ("SELECT a FROM s WHERE a = 1 OR b = 2", " 28:syntax"),
        ("SELECT a FROM s 'it''s'", " 16:syntax"),
        ("SELECT a FROM \"states\"", " 14:syntax"),
    ];
    for (text, want) in rows {
        let shown = shown(rt.alloc(), text.as_bytes())?;
        assert_eq!(rt; shown.bytes(), want.as_bytes(), "of {text}");
    }
    Ok(())
}

#[test]
fn a_text_has_16384_bytes_at_most(rt: HostRuntime) -> Result<(), Fail> {
    let spaces = vec![in rt.alloc(); b' '; 16385]?;
    let wide = parse(rt.alloc(), spaces.as_slice());
    assert_eq!(rt; wide.err(), Some(ParseFault::TooWide { length: 16385 }));
    let widest = parse(rt.alloc(), &spaces[1..]);
    assert_eq!(rt; widest.err(), Some(ParseFault::Syntax { at: 16384 }));
    Ok(())
}
