//! Queries and the mistakes that are told of them. The verdicts are those of an independent reading of the rules.

use om_base::{Interval, Items, Name, NoMemory, Text, put_decimal};
use om_grammar::parse;
use om_typing::{Mistake, Rule, TypeFault, Typed, check};
use om_value::{Catalog, VarInfo, VariableName};
use std::alloc::Global;
use std::test::Fail;

fn word(rule: Rule) -> &'static [u8] {
    match rule {
        Rule::NoTable => b"no table",
        Rule::NoColumn => b"no column",
        Rule::Ambiguous => b"ambiguous",
        Rule::NoScalar => b"no scalar",
        Rule::Clash => b"clash",
        Rule::Range => b"range",
        Rule::NotGrouped => b"not grouped",
        Rule::CountOverJoin => b"count over join",
        Rule::TooManyTables => b"too many tables",
        Rule::Divisor => b"divisor",
        Rule::Position => b"position",
    }
}

fn show_mistake(shown: &mut Text, mistake: Mistake) -> Result<(), NoMemory> {
    shown.add(word(mistake.rule))?;
    shown.add(b" at ")?;
    put_decimal(shown, i128::from(mistake.at))
}

fn show_names(shown: &mut Text, typed: &Typed<'_>) -> Result<(), NoMemory> {
    shown.add(b"ok")?;
    for output in typed.outputs.as_slice() {
        shown.add(b" ")?;
        shown.add(output.name.bytes())?;
    }
    Ok(())
}

/// The mistake that is told of the query that a text spells, or the names of the result's columns.
fn verdict(alloc: Global, text: &[u8], catalog: &Catalog<'_>) -> Result<Text, NoMemory> {
    let mut shown = Text::copy_of(alloc, b"")?;
    let Ok(query) = parse(alloc, text) else {
        shown.add(b"no query")?;
        return Ok(shown);
    };
    match check(alloc, &query, catalog) {
        Ok(typed) => show_names(&mut shown, &typed)?,
        Err(TypeFault::Mistaken(mistake)) => show_mistake(&mut shown, mistake)?,
        Err(TypeFault::Unbuilt) => shown.add(b"unbuilt")?,
        Err(TypeFault::NoMemory) => return Err(NoMemory),
    }
    Ok(shown)
}

/// A variable, which holds a signed word where it is scalar.
fn variable(
    function: Option<Name<'static>>,
    own: &'static [u8],
    is_scalar: bool,
    ambiguous: bool,
) -> VarInfo<'static> {
    let signed = Interval {
        lo: -2147483648,
        hi: 2147483647,
    };
    VarInfo {
        name: VariableName::of(function, Name::of(own)),
        scalar: if is_scalar { Some(signed) } else { None },
        ambiguous,
        fixed: true,
    }
}

fn some_variables(alloc: Global) -> Result<Catalog<'static>, NoMemory> {
    let variables = Vec::from_array(
        alloc,
        [
            variable(None, b"counter", true, false),
            variable(Some(Name::of(b"down")), b"n", true, false),
            variable(None, b"many", true, true),
            variable(None, b"both", false, true),
        ],
    )?;
    Ok(Items::from_vec(variables))
}

// Names of tables, range variables, columns and variables. Of two mistakes at one place it is the one whose
// rule is listed first.
#[test]
fn names_are_judged(rt: HostRuntime) -> Result<(), Fail> {
    let rows = [
        ("SELECT a0 FROM rows", "no table at 15"),
        ("SELECT s.a0, t.a0 FROM states s", "no column at 13"),
        ("SELECT s.\"down.N\" FROM states s", "no column at 7"),
        ("SELECT a0 FROM states, states b", "ambiguous at 7"),
        ("SELECT b.a0 FROM states B, states b", "ambiguous at 34"),
        ("SELECT S.\"many\" FROM states s", "ambiguous at 9"),
        ("SELECT S.\"both\" FROM states s", "no scalar at 7"),
        ("SELECT \"both\" FROM states", "ambiguous at 7"),
        (
            "SELECT a.pc FROM states a, states b, states c, states d",
            "unbuilt",
        ),
        (
            "SELECT a.pc FROM states a, states b, states c, states d, states e",
            "too many tables at 57",
        ),
        (
            "SELECT a.pc FROM states a, states b, states c, states d, rows e",
            "no table at 57",
        ),
        (
            "SELECT step, a0 + 1, \"down.n\" FROM states WHERE \"down.n\" < 0 AND func = 'main'",
            "ok step col2 down.n",
        ),
    ];
    let catalog = some_variables(rt.alloc())?;
    for (text, want) in rows {
        let shown = verdict(rt.alloc(), text.as_bytes(), &catalog)?;
        assert_eq!(rt; shown.bytes(), want.as_bytes(), "of {text}");
    }
    Ok(())
}

// Operators, each where no operand has a mistake.
#[test]
fn operators_are_judged(rt: HostRuntime) -> Result<(), Fail> {
    let rows = [
        ("SELECT \"down.n\" + func FROM states", "clash at 16"),
        (
            "SELECT a0 FROM states WHERE a0 NOT IN (1, NULL, 'x')",
            "clash at 35",
        ),
        (
            "SELECT a0 FROM states WHERE a0 IN ('x', \"many\")",
            "ambiguous at 40",
        ),
        (
            "SELECT a0 FROM states WHERE func BETWEEN 'a' AND a0",
            "clash at 33",
        ),
        ("SELECT a.MEM8(b.a0) FROM states a, states b", "clash at 9"),
        ("SELECT a0 * a1 * 2 FROM states", "range at 15"),
        (
            "SELECT \"many\" / 0 + func, nope FROM states",
            "ambiguous at 7",
        ),
        (
            "SELECT SIGNED(\"counter\"), -func FROM states",
            "range at 7",
        ),
        ("SELECT BITS(a0, 300, 0) FROM states", "range at 7"),
        ("SELECT a0 / 2 / a1 + func FROM states", "divisor at 14"),
        ("SELECT a0 / func FROM states", "clash at 10"),
        (
            "SELECT -NULL, MEM32(BITS(a0 + 4, 31, 0)) m FROM states",
            "ok col1 m",
        ),
    ];
    let catalog = some_variables(rt.alloc())?;
    for (text, want) in rows {
        let shown = verdict(rt.alloc(), text.as_bytes(), &catalog)?;
        assert_eq!(rt; shown.bytes(), want.as_bytes(), "of {text}");
    }
    Ok(())
}

// Groups, aggregates and the keys of an order.
#[test]
fn groups_and_keys_are_judged(rt: HostRuntime) -> Result<(), Fail> {
    let rows = [
        (
            "SELECT pc + a0 * MEM8(pc) FROM states GROUP BY pc",
            "not grouped at 12",
        ),
        ("SELECT COUNT(*), pc FROM states", "not grouped at 17"),
        ("SELECT MEM8(1) FROM states GROUP BY pc", "not grouped at 7"),
        (
            "SELECT MIN(a0) + fp, MAX(MEM8(a0)) FROM states GROUP BY s0",
            "unbuilt",
        ),
        (
            "SELECT COUNT(*) FROM states a, states b",
            "count over join at 7",
        ),
        (
            "SELECT MAX(a.a0), COUNT(a.a0 + 'x') FROM states a, states b",
            "count over join at 18",
        ),
        (
            "SELECT a0 + 'x' FROM states GROUP BY nope",
            "not grouped at 7",
        ),
        ("SELECT a0 FROM states ORDER BY 1, 0", "position at 34"),
        ("SELECT a0, a1 A0 FROM states ORDER BY a0", "position at 38"),
        ("SELECT a0 \"A\" FROM states ORDER BY a", "position at 35"),
        ("SELECT a0 \"A\" FROM states ORDER BY \"A\"", "unbuilt"),
        ("SELECT pc + 1 FROM states ORDER BY Col1 DESC", "unbuilt"),
    ];
    let catalog = some_variables(rt.alloc())?;
    for (text, want) in rows {
        let shown = verdict(rt.alloc(), text.as_bytes(), &catalog)?;
        assert_eq!(rt; shown.bytes(), want.as_bytes(), "of {text}");
    }
    Ok(())
}
