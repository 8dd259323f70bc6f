//! What texts are contracts, where the others stop, and how deep they may go.

use crate::reading::{Answer, contract_answer, read_clauses};
use cv_core::Contract;
use cv_text::TextFault;
use std::alloc::{AllocError, Global};
use std::process::Abort;
use std::test::Fail;

/// How many names, atoms, items and alternatives a contract has.
const SIZES: &[(&str, [usize; 4])] = &[
    ("", [0, 0, 0, 0]),
    ("requires n >= 0;", [0, 1, 0, 0]),
    ("uses uses, a; requires uses<requires;", [2, 1, 0, 0]),
    ("modifies body, *w, body(pre(p)), ensures;", [0, 0, 4, 0]),
    (
        "ensures ensures == null | base(result) == base(s);",
        [0, 0, 0, 2],
    ),
    (
        "requires pre == null, pre != null, pre(pre) == pre;",
        [0, 3, 0, 0],
    ),
    (
        "requires nullt == 0, nullt(*w), clear(x), fresh(x), apart(x, y);",
        [0, 5, 0, 0],
    ),
    (
        "requires x == y, *i <= result, x == -1, - 5 * pre(n) - alloc(pre(d)) < 007;",
        [0, 4, 0, 0],
    ),
    (
        "ensures strlen(d) == pre(strlen(d)) + 2147483647 * offset(s);",
        [0, 0, 0, 1],
    ),
];

/// Relations, `null`, and what a clause has after its atoms: the place and the line of the fault.
const COMPARISONS: &[(&str, [u32; 2])] = &[
    ("requires n >= ;", [14, 1]),
    ("requires x != 5;", [14, 1]),
    ("requires x + y != 5;", [15, 1]),
    ("requires alloc(x) == null;", [21, 1]),
    ("requires 1 == null;", [14, 1]),
    ("requires - x == null;", [16, 1]),
    ("requires x == null + 1;", [19, 1]),
    ("requires x == null, null == x;", [20, 1]),
    ("requires n >= 0 | n <= 1;", [16, 1]),
    ("requires n >= 0; uses g;", [17, 1]),
];

/// Lists, numbers, and words that stand without a bracket.
const WORDS: &[(&str, [u32; 2])] = &[
    ("requires n >= 0; requires n >= 0;", [17, 1]),
    ("uses;", [4, 1]),
    ("uses a b;", [7, 1]),
    ("requires n < 2147483648;", [13, 1]),
    ("requires pre(1) == 0;", [13, 1]),
    ("requires pre(alloc(x)) == null;", [26, 1]),
    ("requires pre x == 0;", [13, 1]),
    ("requires fresh p == null;", [15, 1]),
    ("ensures base(p) == offset(q);", [19, 1]),
    ("ensures base(p) == base q;", [24, 1]),
];

/// Items, ends, lines and signs.
const PLACES: &[(&str, [u32; 2])] = &[
    ("modifies body p;", [14, 1]),
    ("modifies 5;", [9, 1]),
    ("ensures n >= 0 | ;", [17, 1]),
    ("requires n >= 0", [15, 1]),
    ("requires\nn >= 0;\n\nx", [18, 4]),
    ("requires n >= 0; /* c */", [17, 1]),
    ("requires 2 n >= 0;", [11, 1]),
    ("requires n * 2 >= 0;", [11, 1]),
    ("requires +n >= 0;", [9, 1]),
];

/// After `requires` and a front so many times `pre(`, a middle, so many times `)`, and an end.
const LEVELS: &[(&str, usize, &str, usize, &str, Answer)] = &[
    ("", 99, "x", 99, " == 0;", Answer::Read),
    ("alloc(", 98, "x", 99, " == 0;", Answer::Read),
    ("nullt(", 99, "x", 100, ";", Answer::Read),
    ("", 100, "x (((", 0, "", Answer::Nesting),
    ("alloc(pre(", 100, "x (((", 0, "", Answer::Nesting),
    ("nullt(", 100, "x (((", 0, "", Answer::Nesting),
    (
        "",
        100,
        ") x",
        0,
        "",
        Answer::Fault(TextFault { at: 409, line: 1 }),
    ),
    (
        "",
        100,
        "",
        0,
        "",
        Answer::Fault(TextFault { at: 409, line: 1 }),
    ),
    (
        "1 1 ",
        100,
        "x",
        0,
        "",
        Answer::Fault(TextFault { at: 11, line: 1 }),
    ),
];

#[test]
fn texts_of_the_grammar_are_read(rt: HostRuntime) -> Result<(), Fail> {
    for (text, wanted) in SIZES {
        let read = read_clauses(rt.alloc(), text.as_bytes());
        let Contract {
            listed,
            needs,
            changes,
            gives,
        } = read.ok().ok_or("no contract")?;
        let sizes = [listed.len(), needs.len(), changes.len(), gives.len()];
        assert_eq!(rt; sizes, *wanted, "{text}");
    }
    Ok(())
}

/// Compares the first fault of each row's text with that which is wanted.
fn compare(rt: &impl Abort, alloc: Global, rows: &[(&str, [u32; 2])]) {
    for (text, place) in rows {
        let [at, line] = *place;
        let fault = TextFault { at, line };
        assert_eq!(rt;
            contract_answer(alloc, text.as_bytes()),
            Answer::Fault(fault),
            "{text}"
        );
    }
}

#[test]
fn faults_of_comparisons_have_places(rt: HostRuntime) {
    compare(&rt, rt.alloc(), COMPARISONS);
}

#[test]
fn faults_of_words_have_places(rt: HostRuntime) {
    compare(&rt, rt.alloc(), WORDS);
}

#[test]
fn faults_of_items_and_ends_have_places(rt: HostRuntime) {
    compare(&rt, rt.alloc(), PLACES);
}

/// The text of a row of levels.
fn levels(
    alloc: Global,
    opened: (&str, usize),
    closed: (&str, usize),
    end: &str,
) -> Result<Vec<u8>, AllocError> {
    let mut text = Vec::from_slice(alloc, b"requires ")?;
    text.extend_from_slice(opened.0.as_bytes())?;
    for _ in 0..opened.1 {
        text.extend_from_slice(b"pre(")?;
    }
    text.extend_from_slice(closed.0.as_bytes())?;
    for _ in 0..closed.1 {
        text.push(b')')?;
    }
    text.extend_from_slice(end.as_bytes())?;
    Ok(text)
}

/// 100 levels are read. The 101st is refused when a token of it comes, unless a fault stands
/// before it.
#[test]
fn levels_are_counted_to_100(rt: HostRuntime) -> Result<(), Fail> {
    let alloc = rt.alloc();
    for (front, count, middle, closed, end, wanted) in LEVELS {
        let text = levels(alloc, (front, *count), (middle, *closed), end)?;
        assert_eq!(rt; contract_answer(alloc, &text), *wanted, "{front} {middle}");
    }
    Ok(())
}
