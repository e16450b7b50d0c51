//! Uses of the top call: words, calls that fail, and what is left.

use crate::world::{Case, LOG, Leaves, comes_true};
use std::test::Fail;

/// A query that P answers with three rows.
static QUERY: &[&str] = &["query", "P", "LOG", SQL];

/// Its text.
const SQL: &str = "SELECT step, a0 FROM states WHERE pc = 65544";

/// Its answer.
static ROWS: &[u8] = b"step  a0\n   2   2\n   4   1\n   6   0\nrows 3\n";

/// A query that G answers with the states behind its call.
static COUNTED: &[&str] = &[
    "query",
    "G",
    "READS",
    "SELECT step, \"counter\" FROM states WHERE \"counter\" = 7",
];

/// Its answer.
static COUNTS: &[u8] = b"step  counter\n   5        7\n   6        7\n   7        7\nrows 3\n";

/// What is told of G.
static INFO: &[u8] = b"entry 65536\nsegments 2\nunits 1\nskipped 0\nfunctions 0\nvariables 1\n\
    variable counter -2147483648 2147483647\n";

/// What is told of S.
static SMALL: &[u8] = b"entry 65536\nsegments 1\nunits 1\nskipped 0\nfunctions 2\nvariables 1\n\
    variable down.n -2147483648 2147483647\n";

/// The recording of P.
static RECORD: &[&str] = &["record", "P", "EMPTY", "NEW"];

/// What is printed of it.
static ENDED: &[u8] = b"steps 9 end exit 0\n";

/// What is left where nothing is put.
fn leaves(status: u8, printed: &'static [u8], told: &'static [u8]) -> Leaves {
    Leaves {
        status,
        printed,
        told,
        new: Some(b"before"),
    }
}

/// A use where nothing fails.
fn plain(words: &'static [&'static str], leaves: Leaves) -> Case {
    Case {
        words,
        failing: &[],
        out: (100, &[]),
        err: &[],
        leaves,
    }
}

/// A query that is refused so.
fn refused(words: &'static [&'static str], status: u8, told: &'static [u8]) -> Case {
    plain(words, leaves(status, b"", told))
}

#[test]
fn answers_and_refuses(rt: HostRuntime) -> Result<(), Fail> {
    let cases = [
        plain(QUERY, leaves(0, ROWS, b"")),
        plain(COUNTED, leaves(0, COUNTS, b"")),
        // A variable is named in its own letters.
        refused(
            &[
                "query",
                "G",
                "READS",
                "SELECT step FROM states WHERE \"Counter\" = 7",
            ],
            11,
            b"omni: unbuilt: query\n",
        ),
        refused(
            &["query", "P", "OTHER", SQL],
            6,
            b"omni: departs: step 9: end value: log 7, run 0\n",
        ),
        refused(
            &["query", "P", "LONG", SQL],
            7,
            b"omni: limit: 5000000 steps, allowed 4000000\n",
        ),
        refused(&["query", "P", "WORD", SQL], 5, b"omni: log: short at 0\n"),
        refused(
            &["query", "WORD", "LOG", SQL],
            3,
            b"omni: executable: short\n",
        ),
        refused(&["query", "P", "none", SQL], 8, b"omni: read: none\n"),
        refused(
            &["query", "no\\ne", "none", SQL],
            8,
            b"omni: read: no\\5cne\n",
        ),
        refused(
            &["query", "P", "LOG", "SELECT"],
            11,
            b"omni: unbuilt: query\n",
        ),
        refused(&["query", "P", "LOG"], 11, b"omni: unbuilt: words\n"),
        refused(
            &["record", "WORD", "EMPTY", "NEW"],
            3,
            b"omni: executable: short\n",
        ),
        refused(&["record", "P", "none", "NEW"], 8, b"omni: read: none\n"),
    ];
    for case in &cases {
        assert!(rt; comes_true(rt.alloc(), case)?, "{:?}", case.words);
    }
    Ok(())
}

#[test]
fn answers_with_local_variables(rt: HostRuntime) -> Result<(), Fail> {
    let cases = [
        // The parameter of each activation, where it was stored.
        plain(
            &[
                "query",
                "S",
                "CALLS",
                "SELECT step, \"down.n\" FROM states WHERE pc = 65576",
            ],
            leaves(
                0,
                b"step  down.n\n   7       3\n  18       2\n  29       1\n  40       0\nrows 4\n",
                b"",
            ),
        ),
        // The inner one of two of a name.
        plain(
            &[
                "query",
                "B",
                "LOG",
                "SELECT step, \"f.i\" FROM states WHERE step >= 1 AND step <= 3",
            ],
            leaves(
                0,
                b"step  f.i\n   1    3\n   2    0\n   3    2\nrows 3\n",
                b"",
            ),
        ),
        plain(&["info", "S"], leaves(0, SMALL, b"")),
    ];
    for case in &cases {
        assert!(rt; comes_true(rt.alloc(), case)?, "{:?}", case.words);
    }
    Ok(())
}

#[test]
fn tells_what_an_executable_has(rt: HostRuntime) -> Result<(), Fail> {
    let told = plain(&["info", "G"], leaves(0, INFO, b""));
    let cases = [
        told,
        refused(&["info"], 11, b"omni: unbuilt: words\n"),
        refused(&["info", "G", "READS"], 11, b"omni: unbuilt: words\n"),
        refused(&["info", "none"], 8, b"omni: read: none\n"),
        refused(&["info", "WORD"], 3, b"omni: executable: short\n"),
        Case {
            failing: &[1],
            leaves: leaves(8, b"", b"omni: read: G\n"),
            ..told
        },
        // The file is asked for once, and the text is one write where the output takes it whole.
        Case {
            failing: &[2],
            out: (200, &[2]),
            ..told
        },
        Case {
            out: (200, &[1]),
            leaves: leaves(9, b"", b"omni: write\n"),
            ..told
        },
        Case {
            out: (8, &[2]),
            leaves: leaves(9, b"entry 65", b"omni: write\n"),
            ..told
        },
    ];
    for case in &cases {
        assert!(rt;
            comes_true(rt.alloc(), case)?,
            "{:?} {:?} {:?}",
            case.words,
            case.failing,
            case.out
        );
    }
    Ok(())
}

#[test]
fn puts_a_log(rt: HostRuntime) -> Result<(), Fail> {
    let put = Leaves {
        status: 0,
        printed: ENDED,
        told: b"",
        new: Some(LOG),
    };
    assert!(rt; comes_true(rt.alloc(), &plain(RECORD, put))?);

    // The log is put before anything is printed.
    let unwritten = Case {
        out: (100, &[1]),
        leaves: Leaves {
            status: 9,
            printed: b"",
            told: b"omni: write\n",
            new: Some(LOG),
        },
        ..plain(RECORD, put)
    };
    assert!(rt; comes_true(rt.alloc(), &unwritten)?);
    Ok(())
}

#[test]
fn stops_at_the_first_call_that_fails(rt: HostRuntime) -> Result<(), Fail> {
    let answered = plain(QUERY, leaves(0, ROWS, b""));
    let cases = [
        // No file is asked for again, nor is one put again.
        Case {
            failing: &[1],
            leaves: leaves(8, b"", b"omni: read: P\n"),
            ..answered
        },
        Case {
            failing: &[2],
            leaves: leaves(8, b"", b"omni: read: LOG\n"),
            ..answered
        },
        Case {
            failing: &[3],
            ..answered
        },
        Case {
            failing: &[3],
            leaves: leaves(9, b"", b"omni: write: NEW\n"),
            ..plain(RECORD, answered.leaves)
        },
        // The text is written in one piece where the output takes it, and as far as it takes it.
        Case {
            out: (100, &[2]),
            ..answered
        },
        Case {
            out: (8, &[2]),
            leaves: leaves(9, b"step  a0", b"omni: write\n"),
            ..answered
        },
        // Where the line can't be told, the status is.
        Case {
            err: &[1],
            leaves: leaves(8, b"", b""),
            ..plain(&["query", "P", "none", SQL], answered.leaves)
        },
    ];
    for case in &cases {
        assert!(rt;
            comes_true(rt.alloc(), case)?,
            "{:?} {:?}",
            case.words,
            case.failing
        );
    }
    Ok(())
}
