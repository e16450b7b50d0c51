//! The text of a tree: words in one layout, and parentheses only where the tree needs them.

use om_base::{NoMemory, Text};
use om_grammar::{parse, text_of};
use std::alloc::Global;
use std::test::Fail;

/// The text of the tree that a text has.
fn spelled(alloc: Global, text: &[u8]) -> Result<Text, NoMemory> {
    match parse(alloc, text) {
        Ok(query) => text_of(alloc, &query),
        Err(_) => Text::copy_of(alloc, b"no tree"),
    }
}

#[test]
fn trees_have_these_texts(rt: HostRuntime) -> Result<(), Fail> {
    // What an independent printer of trees prints.
    let rows = [
        ("select distinct_, 1 from s;", "SELECT distinct_, 1 FROM s"),
        (
            "SELECT a x, \"b\"\"\" AS \"y z\", s.c FROM state s, call AS c",
            "SELECT a AS x, \"b\"\"\" AS \"y z\", s.c FROM state AS s, call AS c",
        ),
        (
            "SELECT (a+b)*c, a+(b*c), (a*b)*c, a*(b*c), (a-b)-c, a-(b-c) FROM s",
            "SELECT (a + b) * c, a + b * c, (a * b) * c, a * (b * c), (a - b) - c, a - (b - c) FROM s",
        ),
        (
            "SELECT -(a*b), -(-a), - - a, +((a)), -a*b, a - -1 FROM s",
            "SELECT - (a * b), - - a, - - a, + a, - a * b, a - - 1 FROM s",
        ),
        (
            "SELECT 0x1F, 'it''s', NULL, signed(a), bits(a, 7, 0), s.mem8(pc), mem32((a+4)) FROM s",
            "SELECT 31, 'it''s', NULL, SIGNED(a), BITS(a, 7, 0), s.MEM8(pc), MEM32(a + 4) FROM s",
        ),
        (
            "SELECT count(*), MIN((a)), max(-a) n FROM s GROUP BY a, s.b ORDER BY 2 ASC, n DESC, \"n\"",
            "SELECT COUNT(*), MIN(a), MAX(- a) AS n FROM s GROUP BY a, s.b ORDER BY 2, n DESC, \"n\"",
        ),
        (
            "SELECT 1 FROM s WHERE (a = 1 OR b = 2) AND (c = 3 AND (d = 4))",
            "SELECT 1 FROM s WHERE (a = 1 OR b = 2) AND (c = 3 AND d = 4)",
        ),
        (
            "SELECT 1 FROM s WHERE NOT (a = 1 AND b = 2) OR ((c = 3))",
            "SELECT 1 FROM s WHERE NOT (a = 1 AND b = 2) OR c = 3",
        ),
        (
            "SELECT 1 FROM s WHERE ((a <> 1) OR (NOT NOT b <= 2)) OR NOT(c)IS NULL",
            "SELECT 1 FROM s WHERE (a <> 1 OR NOT NOT b <= 2) OR NOT c IS NULL",
        ),
        (
            "SELECT 1 FROM s WHERE a NOT BETWEEN (1) AND (2)+3 AND b IN((1),2) AND c not in (1) and d between 1 and 2",
            "SELECT 1 FROM s WHERE a NOT BETWEEN 1 AND 2 + 3 AND b IN (1, 2) AND c NOT IN (1) AND d BETWEEN 1 AND 2",
        ),
        (
            "SELECT 1 FROM s WHERE (a) IS NOT NULL AND a*2 >= (b) AND a > 1 AND a < 2 AND a <= 3",
            "SELECT 1 FROM s WHERE a IS NOT NULL AND a * 2 >= b AND a > 1 AND a < 2 AND a <= 3",
        ),
    ];
    for (text, want) in rows {
        let spelled = spelled(rt.alloc(), text.as_bytes())?;
        assert_eq!(rt; spelled.bytes(), want.as_bytes(), "{text}");
    }
    Ok(())
}
