//! Texts and what they are: the tree with its offsets, or the fault.

use om_base::{NoMemory, Text, put_decimal};
use om_grammar::{
    ColumnName, CompareOp, CondTree, Direction, ExprTree, Function, Identifier, Item, Key, Label,
    ParseFault, Polarity, Predicate, Query, Scale, Sign, SortKey, TableName, Width, parse,
};
use std::alloc::Global;
use std::test::Fail;

fn show_name(shown: &mut Text, at: u32, name: &[u8]) -> Result<(), NoMemory> {
    shown.add(b" ")?;
    put_decimal(shown, i128::from(at))?;
    shown.add(b":")?;
    shown.add(name)
}

/// A node begins with where it stands and what it is.
fn open(shown: &mut Text, at: u32, word: &[u8]) -> Result<(), NoMemory> {
    shown.add(b" (")?;
    put_decimal(shown, i128::from(at))?;
    shown.add(b":")?;
    shown.add(word)
}

fn show_identifier(shown: &mut Text, at: u32, name: &Identifier<'_>) -> Result<(), NoMemory> {
    match name {
        Identifier::Regular(name) => show_name(shown, at, name.bytes()),
        Identifier::Delimited(name) => {
            show_name(shown, at, b"\"")?;
            shown.add(name.bytes())?;
            shown.add(b"\"")
        }
    }
}

fn show_qualifier(shown: &mut Text, qualifier: &Option<Label<'_>>) -> Result<(), NoMemory> {
    if let Some(label) = qualifier {
        show_name(shown, label.at, label.name.bytes())?;
        shown.add(b".")?;
    }
    Ok(())
}

fn show_column(shown: &mut Text, column: &ColumnName<'_>) -> Result<(), NoMemory> {
    show_qualifier(shown, &column.qualifier)?;
    show_identifier(shown, column.at, &column.name)
}

fn show_number(shown: &mut Text, at: u32, number: u64) -> Result<(), NoMemory> {
    show_name(shown, at, b"#")?;
    put_decimal(shown, i128::from(number))
}

fn sign(sign: Sign) -> &'static [u8] {
    match sign {
        Sign::Plus => b"+",
        Sign::Minus => b"-",
    }
}

fn scale(scale: Scale) -> &'static [u8] {
    match scale {
        Scale::Times => b"*",
        Scale::Divide => b"/",
    }
}

fn width(width: Width) -> &'static [u8] {
    match width {
        Width::Byte => b"MEM8",
        Width::Half => b"MEM16",
        Width::Word => b"MEM32",
    }
}

fn function(function: Function) -> &'static [u8] {
    match function {
        Function::Count => b"COUNT",
        Function::Min => b"MIN",
        Function::Max => b"MAX",
    }
}

fn show_text(shown: &mut Text, at: u32, text: &[u8]) -> Result<(), NoMemory> {
    show_name(shown, at, b"'")?;
    shown.add(text)?;
    shown.add(b"'")
}

fn show_expr(shown: &mut Text, expr: &ExprTree<'_>) -> Result<(), NoMemory> {
    match expr {
        ExprTree::Numeral(numeral) => return show_number(shown, numeral.at, numeral.value),
        ExprTree::Text { at, text } => return show_text(shown, *at, text.bytes()),
        ExprTree::Null { at } => return show_name(shown, *at, b"NULL"),
        ExprTree::Column(column) => return show_column(shown, column),
        ExprTree::CountRows { at } => open(shown, *at, b"COUNT *")?,
        ExprTree::Sum(first, addends) => {
            shown.add(b" (sum")?;
            show_expr(shown, first.get())?;
            for addend in addends.as_slice() {
                show_name(shown, addend.at, sign(addend.sign))?;
                show_expr(shown, &addend.term)?;
            }
        }
        ExprTree::Product(first, factors) => {
            shown.add(b" (product")?;
            show_expr(shown, first.get())?;
            for factor in factors.as_slice() {
                show_name(shown, factor.at, scale(factor.scale))?;
                show_expr(shown, &factor.factor)?;
            }
        }
        ExprTree::Sign { at, sign: op, expr } => {
            open(shown, *at, sign(*op))?;
            show_expr(shown, expr.get())?;
        }
        ExprTree::Signed { at, expr } => {
            open(shown, *at, b"SIGNED")?;
            show_expr(shown, expr.get())?;
        }
        ExprTree::Bits {
            at,
            expr,
            high,
            low,
        } => {
            open(shown, *at, b"BITS")?;
            show_expr(shown, expr.get())?;
            shown.add(b" ")?;
            put_decimal(shown, i128::from(high.value))?;
            shown.add(b" ")?;
            put_decimal(shown, i128::from(low.value))?;
        }
        ExprTree::Memory {
            qualifier,
            at,
            width: bytes,
            address,
        } => {
            show_qualifier(shown, qualifier)?;
            open(shown, *at, width(*bytes))?;
            show_expr(shown, address.get())?;
        }
        ExprTree::Aggregate {
            at,
            function: which,
            expr,
        } => {
            open(shown, *at, function(*which))?;
            show_expr(shown, expr.get())?;
        }
    }
    shown.add(b")")
}

fn operator(op: CompareOp) -> &'static [u8] {
    match op {
        CompareOp::Equal => b"=",
        CompareOp::NotEqual => b"<>",
        CompareOp::Less => b"<",
        CompareOp::LessOrEqual => b"<=",
        CompareOp::Greater => b">",
        CompareOp::GreaterOrEqual => b">=",
    }
}

fn negated(polarity: Polarity) -> &'static [u8] {
    match polarity {
        Polarity::Plain => b"",
        Polarity::Negated => b"NOT ",
    }
}

fn show_predicate(shown: &mut Text, predicate: &Predicate<'_>) -> Result<(), NoMemory> {
    match predicate {
        Predicate::Compare {
            at,
            op,
            left,
            right,
        } => {
            open(shown, *at, operator(*op))?;
            show_expr(shown, left)?;
            show_expr(shown, right)?;
        }
        Predicate::Between {
            at,
            polarity,
            what,
            low,
            high,
        } => {
            open(shown, *at, negated(*polarity))?;
            shown.add(b"BETWEEN")?;
            show_expr(shown, what)?;
            show_expr(shown, low)?;
            show_expr(shown, high)?;
        }
        Predicate::In {
            at,
            polarity,
            what,
            list,
        } => {
            open(shown, *at, negated(*polarity))?;
            shown.add(b"IN")?;
            show_expr(shown, what)?;
            for member in list.as_slice() {
                show_expr(shown, member)?;
            }
        }
        Predicate::IsNull { at, polarity, what } => {
            open(shown, *at, b"IS ")?;
            shown.add(negated(*polarity))?;
            shown.add(b"NULL")?;
            show_expr(shown, what)?;
        }
    }
    shown.add(b")")
}

fn show_cond(shown: &mut Text, cond: &CondTree<'_>) -> Result<(), NoMemory> {
    match cond {
        CondTree::Predicate(predicate) => return show_predicate(shown, predicate),
        CondTree::Not { at, cond } => {
            open(shown, *at, b"NOT")?;
            show_cond(shown, cond.get())?;
        }
        CondTree::All(members) => {
            shown.add(b" (all")?;
            for member in members.as_slice() {
                show_cond(shown, member)?;
            }
        }
        CondTree::Any(members) => {
            shown.add(b" (any")?;
            for member in members.as_slice() {
                show_cond(shown, member)?;
            }
        }
    }
    shown.add(b")")
}

fn show_item(shown: &mut Text, item: &Item<'_>) -> Result<(), NoMemory> {
    show_expr(shown, &item.expr)?;
    if let Some(alias) = &item.alias {
        shown.add(b" AS")?;
        show_identifier(shown, alias.at, &alias.name)?;
    }
    Ok(())
}

fn show_table(shown: &mut Text, table: &TableName<'_>) -> Result<(), NoMemory> {
    show_name(shown, table.at, table.name.bytes())?;
    if let Some(variable) = &table.variable {
        shown.add(b" AS")?;
        show_name(shown, variable.at, variable.name.bytes())?;
    }
    Ok(())
}

fn show_key(shown: &mut Text, key: &SortKey<'_>) -> Result<(), NoMemory> {
    match &key.key {
        Key::Position(number) => show_number(shown, key.at, *number)?,
        Key::Named(name) => show_identifier(shown, key.at, name)?,
    }
    match key.direction {
        Direction::Ascending => Ok(()),
        Direction::Descending => shown.add(b" desc"),
    }
}

fn show_sorting(shown: &mut Text, query: &Query<'_>) -> Result<(), NoMemory> {
    if !query.groups.as_slice().is_empty() {
        shown.add(b" group")?;
    }
    for column in query.groups.as_slice() {
        show_column(shown, column)?;
    }
    if !query.keys.as_slice().is_empty() {
        shown.add(b" order")?;
    }
    for key in query.keys.as_slice() {
        show_key(shown, key)?;
    }
    Ok(())
}

fn show_query(shown: &mut Text, query: &Query<'_>) -> Result<(), NoMemory> {
    for item in query.items.as_slice() {
        show_item(shown, item)?;
    }
    shown.add(b" from")?;
    for table in query.tables.as_slice() {
        show_table(shown, table)?;
    }
    if let Some(cond) = &query.filter {
        shown.add(b" where")?;
        show_cond(shown, cond)?;
    }
    show_sorting(shown, query)
}

fn show_fault(shown: &mut Text, fault: ParseFault) -> Result<(), NoMemory> {
    match fault {
        ParseFault::NoMemory => shown.add(b" no memory"),
        ParseFault::Syntax { at } => show_name(shown, at, b"syntax"),
        ParseFault::TooDeep { at } => show_name(shown, at, b"too deep"),
        ParseFault::TooWide { length } => {
            shown.add(b" too wide ")?;
            put_decimal(shown, i128::from(length))
        }
    }
}

/// The tree of a text, or its fault.
fn shown(alloc: Global, text: &[u8]) -> Result<Text, NoMemory> {
    let mut shown = Text::copy_of(alloc, b"")?;
    match parse(alloc, text) {
        Ok(query) => show_query(&mut shown, &query)?,
        Err(fault) => show_fault(&mut shown, fault)?,
    }
    Ok(shown)
}

#[test]
fn expressions_have_these_trees(rt: HostRuntime) -> Result<(), Fail> {
    let rows = [
        (
            "SELECT--all\n\ta--\r\n,Step FROM states WHERE b<007 AnD c>=0XfF AND d<>18446744073709551615",
            " 13:a 19:Step from 29:states where (all (43:< 42:b 44:#7) (53:>= 52:c 55:#255) (65:<> 64:d 67:#18446744073709551615))",
        ),
        (
            "SELECT \"counter\", s.\"a\"\"b\" AS \"A x\", s.pc p FROM states s, states AS t;",
            " 7:\"counter\" 18:s. 20:\"a\"b\" AS 30:\"A x\" 37:s. 39:pc AS 42:p from 49:states AS 56:s 59:states AS 69:t",
        ),
        (
            "SELECT NULL, 'it''s', '' FROM s",
            " 7:NULL 13:'it's' 22:'' from 30:s",
        ),
        (
            "SELECT a + b - c * d / 2 * (e + 1), (a) FROM s",
            " (sum 7:a 9:+ 11:b 13:- (product 15:c 17:* 19:d 21:/ 23:#2 25:* (sum 28:e 30:+ 32:#1))) 37:a from 45:s",
        ),
        (
            "SELECT (a + b) + c, - + -a * 2, -(a - -1) FROM s",
            " (sum (sum 8:a 10:+ 12:b) 15:+ 17:c) (product (20:- (22:+ (24:- 25:a))) 27:* 29:#2) (32:- (sum 34:a 36:- (38:- 39:#1))) from 47:s",
        ),
        (
            "SELECT SIGNED(a2), BITS(insn, 0x1F, 7), MEM8(a), t.MEM16(a + 1), MEM32((0x20000)) FROM t",
            " (7:SIGNED 14:a2) (19:BITS 24:insn 31 7) (40:MEM8 45:a) 49:t. (51:MEM16 (sum 57:a 59:+ 61:#1)) (65:MEM32 72:#131072) from 87:t",
        ),
        (
            "SELECT COUNT(*), COUNT(a) + 1, MIN(a * 2) m, (MAX((b))) FROM s",
            " (7:COUNT *) (sum (17:COUNT 23:a) 26:+ 28:#1) (31:MIN (product 35:a 37:* 39:#2)) AS 42:m (46:MAX 51:b) from 61:s",
        ),
    ];
    for (text, want) in rows {
        let shown = shown(rt.alloc(), text.as_bytes())?;
        assert_eq!(rt; shown.bytes(), want.as_bytes(), "of {text}");
    }
    Ok(())
}

#[test]
fn conditions_have_these_trees(rt: HostRuntime) -> Result<(), Fail> {
    let rows = [
        (
            "SELECT a FROM s WHERE a = 1 OR b = 2 AND c = 3 OR d = 4",
            " 7:a from 14:s where (any (24:= 22:a 26:#1) (all (33:= 31:b 35:#2) (43:= 41:c 45:#3)) (52:= 50:d 54:#4))",
        ),
        (
            "SELECT a FROM s WHERE (a = 1 OR b = 2) AND NOT NOT c = 3",
            " 7:a from 14:s where (all (any (25:= 23:a 27:#1) (34:= 32:b 36:#2)) (43:NOT (47:NOT (53:= 51:c 55:#3))))",
        ),
        (
            "SELECT a FROM s WHERE NOT (a = 1 AND (b) = 2)",
            " 7:a from 14:s where (22:NOT (all (29:= 27:a 31:#1) (41:= 38:b 43:#2)))",
        ),
        (
            "SELECT a FROM s WHERE ((a) + 1) * 2 < ((3)) AND ((a < 1))",
            " 7:a from 14:s where (all (36:< (product (sum 24:a 27:+ 29:#1) 32:* 34:#2) 40:#3) (52:< 50:a 54:#1))",
        ),
        (
            "SELECT a FROM s WHERE a BETWEEN 1 AND 2 AND b NOT BETWEEN c AND d + 1 OR e = 1",
            " 7:a from 14:s where (any (all (24:BETWEEN 22:a 32:#1 38:#2) (50:NOT BETWEEN 44:b 58:c (sum 64:d 66:+ 68:#1))) (75:= 73:e 77:#1))",
        ),
        (
            "SELECT a FROM s WHERE a IN (1) AND b NOT IN (1, NULL, 'x', (c)) AND (a) IN (-1)",
            " 7:a from 14:s where (all (24:IN 22:a 28:#1) (41:NOT IN 35:b 45:#1 48:NULL 54:'x' 60:c) (72:IN 69:a (76:- 77:#1)))",
        ),
        (
            "SELECT a FROM s WHERE a IS NULL OR b + 1 IS NOT NULL OR NOT c IS NULL",
            " 7:a from 14:s where (any (24:IS NULL 22:a) (41:IS NOT NULL (sum 35:b 37:+ 39:#1)) (56:NOT (62:IS NULL 60:c)))",
        ),
        (
            "SELECT a FROM s WHERE a <= b AND a >= b AND a <> b AND a > b AND MEM32(a) = -1",
            " 7:a from 14:s where (all (24:<= 22:a 27:b) (35:>= 33:a 38:b) (46:<> 44:a 49:b) (57:> 55:a 59:b) (74:= (65:MEM32 71:a) (76:- 77:#1)))",
        ),
    ];
    for (text, want) in rows {
        let shown = shown(rt.alloc(), text.as_bytes())?;
        assert_eq!(rt; shown.bytes(), want.as_bytes(), "of {text}");
    }
    Ok(())
}

#[test]
fn groups_and_orders_have_these_trees(rt: HostRuntime) -> Result<(), Fail> {
    let rows = [
        (
            "SELECT a, COUNT(*) FROM s GROUP BY a, s.b, \"c\" ORDER BY 2 DESC, a ASC, \"x\"",
            " 7:a (10:COUNT *) from 24:s group 35:a 38:s. 40:b 43:\"c\" order 56:#2 desc 64:a 71:\"x\"",
        ),
        (
            "SELECT a FROM s ORDER BY 18446744073709551615 desc;",
            " 7:a from 14:s order 25:#18446744073709551615 desc",
        ),
        (
            "SELECT a FROM s as t WHERE t.\"down.n\" = func GROUP BY t.\"down.n\"",
            " 7:a from 14:s AS 19:t where (38:= 27:t. 29:\"down.n\" 40:func) group 54:t. 56:\"down.n\"",
        ),
    ];
    for (text, want) in rows {
        let shown = shown(rt.alloc(), text.as_bytes())?;
        assert_eq!(rt; shown.bytes(), want.as_bytes(), "of {text}");
    }
    Ok(())
}

#[test]
fn lists_and_bytes_are_refused_there(rt: HostRuntime) -> Result<(), Fail> {
    let rows = [
        ("FROM 'unfinished", " 5:syntax"),
        ("SELECT \"\" FROM s", " 7:syntax"),
        ("SELECT a FROM s WHERE a = 1a", " 26:syntax"),
        (
            "SELECT a FROM s WHERE a = 18446744073709551616",
            " 26:syntax",
        ),
        ("SELECT a FROM s WHERE a ! 1", " 24:syntax"),
        ("  -- nothing", " 12:syntax"),
        ("SELECT", " 6:syntax"),
        ("SELECT a, FROM s", " 10:syntax"),
        ("SELECT count FROM s", " 13:syntax"),
        ("SELECT a FROM s WHERE a =< 1", " 25:syntax"),
        ("SELECT a FROM s 'it''s'", " 16:syntax"),
        ("SELECT a FROM \"states\"", " 14:syntax"),
        ("SELECT DISTINCT a FROM s", " 7:syntax"),
    ];
    for (text, want) in rows {
        let shown = shown(rt.alloc(), text.as_bytes())?;
        assert_eq!(rt; shown.bytes(), want.as_bytes(), "of {text}");
    }
    Ok(())
}

#[test]
fn conditions_are_refused_there(rt: HostRuntime) -> Result<(), Fail> {
    let rows = [
        ("SELECT a FROM s WHERE", " 21:syntax"),
        ("SELECT a FROM s WHERE a", " 23:syntax"),
        ("SELECT a FROM s WHERE (a)", " 25:syntax"),
        ("SELECT a FROM s WHERE (a AND b = 1)", " 25:syntax"),
        ("SELECT a FROM s WHERE (a = 1) + 2 = 3", " 30:syntax"),
        ("SELECT a FROM s WHERE a = 1 AND b", " 33:syntax"),
        ("SELECT a FROM s WHERE a NOT = 1", " 28:syntax"),
        ("SELECT a FROM s WHERE a BETWEEN 1 OR 2", " 34:syntax"),
        ("SELECT a FROM s WHERE a IN ()", " 28:syntax"),
        ("SELECT a FROM s WHERE a IN (1,", " 30:syntax"),
        ("SELECT a FROM s WHERE a IS 1", " 27:syntax"),
        ("SELECT a FROM s WHERE a = 1 = 2", " 28:syntax"),
        ("SELECT a FROM s WHERE COUNT(*) = 1", " 22:syntax"),
    ];
    for (text, want) in rows {
        let shown = shown(rt.alloc(), text.as_bytes())?;
        assert_eq!(rt; shown.bytes(), want.as_bytes(), "of {text}");
    }
    Ok(())
}

#[test]
fn expressions_and_names_are_refused_there(rt: HostRuntime) -> Result<(), Fail> {
    let rows = [
        ("SELECT MIN(COUNT(*)) FROM s", " 11:syntax"),
        ("SELECT COUNT(*, 1) FROM s", " 14:syntax"),
        ("SELECT BITS(a, b, 1) FROM s", " 15:syntax"),
        ("SELECT BITS(a, 1) FROM s", " 16:syntax"),
        ("SELECT a.b.c FROM s", " 10:syntax"),
        ("SELECT \"a\".b FROM s", " 10:syntax"),
        ("SELECT 1.MEM8(a) FROM s", " 8:syntax"),
        ("SELECT a + FROM s", " 11:syntax"),
        ("SELECT ((a) FROM s", " 12:syntax"),
        ("SELECT a b c FROM s", " 11:syntax"),
        ("SELECT a AS 1 FROM s", " 12:syntax"),
        ("SELECT a FROM s t u", " 18:syntax"),
        ("SELECT a FROM s AS \"t\"", " 19:syntax"),
    ];
    for (text, want) in rows {
        let shown = shown(rt.alloc(), text.as_bytes())?;
        assert_eq!(rt; shown.bytes(), want.as_bytes(), "of {text}");
    }
    Ok(())
}

#[test]
fn groups_and_orders_are_refused_there(rt: HostRuntime) -> Result<(), Fail> {
    let rows = [
        ("SELECT a FROM s GROUP a", " 22:syntax"),
        ("SELECT a FROM s GROUP BY 1", " 25:syntax"),
        ("SELECT a FROM s GROUP BY a + 1", " 27:syntax"),
        ("SELECT a FROM s ORDER BY a + 1", " 27:syntax"),
        ("SELECT a FROM s ORDER BY a.b", " 26:syntax"),
        ("SELECT a FROM s ORDER BY a DESC ASC", " 32:syntax"),
        ("SELECT a FROM s ORDER BY a GROUP BY a", " 27:syntax"),
        ("SELECT a FROM s;;", " 16:syntax"),
        ("SELECT a FROM s; x", " 17:syntax"),
        ("SELECT a FROM s HAVING a = 1", " 16:syntax"),
        ("SELECT a; FROM s", " 8:syntax"),
    ];
    for (text, want) in rows {
        let shown = shown(rt.alloc(), text.as_bytes())?;
        assert_eq!(rt; shown.bytes(), want.as_bytes(), "of {text}");
    }
    Ok(())
}

/// `front`, then a part so many times, then `back`.
fn repeated(
    alloc: Global,
    front: &[u8],
    part: &[u8],
    times: usize,
    back: &[u8],
) -> Result<Text, NoMemory> {
    let mut text = Text::copy_of(alloc, front)?;
    for _ in 0..times {
        text.add(part)?;
    }
    text.add(back)?;
    Ok(text)
}

#[test]
fn tokens_nest_64_deep_at_most(rt: HostRuntime) -> Result<(), Fail> {
    let rows: [(&[u8], &[u8], usize, &[u8], Option<ParseFault>); 8] = [
        // Parentheses.
        (
            b"SELECT ",
            b"(",
            64,
            b"",
            Some(ParseFault::Syntax { at: 71 }),
        ),
        (
            b"SELECT ",
            b"(",
            65,
            b"",
            Some(ParseFault::TooDeep { at: 71 }),
        ),
        // Signs, of which the operator of a sum is one. Two `-` side by side are a comment.
        (
            b"SELECT ",
            b"-",
            65,
            b"a FROM s",
            Some(ParseFault::Syntax { at: 80 }),
        ),
        (b"SELECT ", b"+ ", 64, b"a FROM s", None),
        (
            b"SELECT ",
            b"+ ",
            65,
            b"a FROM s",
            Some(ParseFault::TooDeep { at: 135 }),
        ),
        (
            b"SELECT a ",
            b"+ ",
            65,
            b"a FROM s",
            Some(ParseFault::TooDeep { at: 137 }),
        ),
        // NOT.
        (b"SELECT a FROM s WHERE ", b"NOT ", 64, b"a = 1", None),
        (
            b"SELECT a FROM s WHERE ",
            b"NOT ",
            65,
            b"a = 1",
            Some(ParseFault::TooDeep { at: 278 }),
        ),
    ];
    for (front, part, times, back, want) in rows {
        let text = repeated(rt.alloc(), front, part, times, back)?;
        assert_eq!(rt; parse(rt.alloc(), text.bytes()).err(), want, "{times}");
    }
    Ok(())
}

#[test]
fn a_query_has_16384_bytes_at_most(rt: HostRuntime) -> Result<(), Fail> {
    let spaces = vec![in rt.alloc(); b' '; 16385]?;
    let wide = parse(rt.alloc(), spaces.as_slice());
    assert_eq!(rt; wide.err(), Some(ParseFault::TooWide { length: 16385 }));
    let widest = parse(rt.alloc(), &spaces[1..]);
    assert_eq!(rt; widest.err(), Some(ParseFault::Syntax { at: 16384 }));
    Ok(())
}
