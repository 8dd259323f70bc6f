//! Points-to families: the least one of a program, and the first statement under which one is open.

use crate::programs::{family, program};
use cv_core::{List, Program, PtsTable};
use cv_points::{Place, closed, least};
use std::alloc::Global;
use std::test::Fail;

const NO_POINTER: &str = "1: proc int main() { 2: return 0; }";

const ONE_FORMAL: &str = "1: proc int main(ptr p) { 2: return 0; }";

const TWO_FORMALS: &str = "1: proc int main(ptr d, ptr s) { 2: return 0; }";

const STORING: &str = "1: proc int main(ptr d, ptr s)
    requires alloc(d) >= 1, alloc(s) >= 1; modifies body(d);
    { 1: store d, 0; 1: return 0; }";

/// The cell c has the site 1, the three calls of malloc those from 2 on.
const SEVERAL: &str = "1: proc int main()
    { ptr p; ptr q; pcell c; pptr w; ptr r; ptr s;
    1: p = call malloc(1); 1: q = call malloc(1); 1: call malloc(1); 1: r = call copy(p);
    1: w = &c; 1: put w, r; 1: put w, q; 1: s = get w; 1: return 0; }
    1: proc ptr copy(ptr a)
    { ptr t; 1: t = call copy(a); 1: a = t; 1: return t; 1: return a; }";

/// The literal has the site 1, main's buffer 2.
const COPIED_LITERAL: &str = "literal $s1 { 104, 101, 108, 108, 111 };
    1: proc void copy(ptr d, ptr s) { 1: d = d + 1; 1: s = s + 1; 1: return; }
    1: proc int main()
    { buf a 8; ptr $1; ptr $2; 1: $1 = &a; 1: $2 = &$s1; 1: call copy($1, $2); 1: return 0; }";

/// main's p, q, w, r and s; then a, t and the result of copy; last the cell.
const LEAST_OF_SEVERAL: [&[u32]; 9] = [&[2], &[3], &[1], &[2], &[2, 3], &[2], &[2], &[2], &[2, 3]];

/// A program, and the sets of its least family.
const LEAST: [(&str, &[&[u32]]); 6] = [
    (NO_POINTER, &[]),
    (ONE_FORMAL, &[&[0]]),
    // the site 0 is what lies outside
    (TWO_FORMALS, &[&[0], &[0]]),
    (STORING, &[&[0], &[0]]),
    // first copy's d and s, then main's pointers
    (COPIED_LITERAL, &[&[2], &[1], &[2], &[1]]),
    (SEVERAL, &LEAST_OF_SEVERAL),
];

/// Whether two families have equal sets.
fn are_sets(table: &PtsTable, sets: &[&[u32]]) -> bool {
    if table.sets.len() != sets.len() {
        return false;
    }
    for (found, wanted) in table.sets.as_slice().iter().zip(sets) {
        if found.as_slice() != *wanted {
            return false;
        }
    }
    true
}

fn least_of(alloc: Global, p: &Program) -> Result<PtsTable, Fail> {
    Ok(least(alloc, p)?)
}

fn first_open(p: &Program, table: &PtsTable) -> Result<(), Place> {
    closed(p, table)
}

/// Whether the least family of a program has these sets, and is closed.
fn is_least(alloc: Global, text: &str, sets: &[&[u32]]) -> Result<bool, Fail> {
    let p = program(alloc, text)?;
    let table = least_of(alloc, &p)?;
    Ok(are_sets(&table, sets) && first_open(&p, &table).is_ok())
}

#[test]
fn least_families(rt: HostRuntime) -> Result<(), Fail> {
    for (text, sets) in &LEAST {
        assert!(rt; is_least(rt.alloc(), text, sets)?, "{text}");
    }
    Ok(())
}

/// Nine equal sets, of which 99 is no site.
const ALL_SITES: [&[u32]; 9] = [&[1, 2, 3, 99]; 9];

/// The least family of SEVERAL but for the site 3 of s.
const NOT_READ: [&[u32]; 9] = [&[2], &[3], &[1], &[2], &[2], &[2], &[2], &[2], &[2, 3]];

/// The least family of SEVERAL but for the site 2 of the result of copy.
const NOT_RETURNED: [&[u32]; 9] = [&[2], &[3], &[1], &[2], &[2, 3], &[2], &[2], &[], &[2, 3]];

/// A program, sets, and the first statement under which they are open.
const CLOSED: [(&str, &[&[u32]], Result<(), Place>); 5] = [
    (NO_POINTER, &[], Ok(())),
    (
        ONE_FORMAL,
        &[],
        Err(Place {
            proc: 0,
            statement: 0,
        }),
    ),
    (SEVERAL, &ALL_SITES, Ok(())),
    (
        SEVERAL,
        &NOT_READ,
        Err(Place {
            proc: 0,
            statement: 7,
        }),
    ),
    (
        SEVERAL,
        &NOT_RETURNED,
        Err(Place {
            proc: 1,
            statement: 2,
        }),
    ),
];

#[test]
fn first_open_statements(rt: HostRuntime) -> Result<(), Fail> {
    for (text, sets, expected) in &CLOSED {
        let p = program(rt.alloc(), text)?;
        let table = family(rt.alloc(), sets)?;
        assert_eq!(rt; first_open(&p, &table), *expected, "{text}");
    }
    Ok(())
}
