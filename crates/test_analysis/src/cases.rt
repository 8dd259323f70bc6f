//! Alias cases of the first procedure of a program.

use crate::programs::{family, program};
use cv_core::{Program, PtsTable};
use cv_points::least;
use cv_ppts::{Case, CaseError, cases};
use std::alloc::Global;
use std::test::Fail;

/// The cases of the first procedure; None where they are too many.
fn cases_of(alloc: Global, p: &Program, table: &PtsTable) -> Result<Option<Vec<Case>>, Fail> {
    match cases(alloc, p, 0, table) {
        Ok(found) => Ok(Some(found)),
        Err(CaseError::Limit) => Ok(None),
        Err(CaseError::Memory) => Err(Fail::from("out of memory")),
    }
}

fn least_of(alloc: Global, p: &Program) -> Result<PtsTable, Fail> {
    Ok(least(alloc, p)?)
}

/// The family of these sets; the least one where none are given.
fn family_or_least(alloc: Global, p: &Program, sets: Option<&[&[u32]]>) -> Result<PtsTable, Fail> {
    match sets {
        None => least_of(alloc, p),
        Some(sets) => Ok(family(alloc, sets)?),
    }
}

fn found_cases(
    alloc: Global,
    text: &str,
    sets: Option<&[&[u32]]>,
) -> Result<Option<Vec<Case>>, Fail> {
    let p = program(alloc, text)?;
    let table = family_or_least(alloc, &p, sets)?;
    cases_of(alloc, &p, &table)
}

const FREE: &str = "1: proc int main(ptr d, ptr s) modifies body(d);
    { 1: store d, 0; 1: return 0; }";

const WITH_OBJECTS: &str = "1: proc int main(ptr d, ptr s)
    requires alloc(d) >= 1, alloc(s) >= 1; modifies body(d);
    { 1: store d, 0; 1: return 0; }";

const APART: &str = "1: proc int main(ptr d, ptr s)
    requires alloc(d) >= 1, alloc(s) >= 1, apart(d, s); modifies body(d);
    { 1: store d, 0; 1: return 0; }";

/// The cell g has the site 1 and holds null.
const REACHING: &str = "global ptr g; literal L { };
    1: proc ptr f(pptr w) uses g; { 1: return null; }
    1: proc int main() { 1: return 0; }";

/// A program, a family or the least one, and the codes of each case.
const CASES: [(&str, Option<&[&[u32]]>, &[&[u32]]); 5] = [
    (FREE, None, &[&[0, 0], &[0, 1], &[1, 0], &[1, 1], &[1, 2]]),
    (WITH_OBJECTS, None, &[&[1, 1], &[1, 2]]),
    (APART, None, &[&[1, 2]]),
    // w, g, and then what the cells hold, where w may point to g
    (
        REACHING,
        Some(&[&[1]]),
        &[&[0, 1, 0], &[1, 1, 0], &[1, 2, 0, 0]],
    ),
    // with another site w is a cell of its own
    (REACHING, Some(&[&[2]]), &[&[0, 1, 0], &[1, 2, 0, 0]]),
];

/// Whether cases have these codes.
fn are_cases(found: &[Case], wanted: &[&[u32]]) -> bool {
    if found.len() != wanted.len() {
        return false;
    }
    for (case, codes) in found.iter().zip(wanted) {
        if case.codes.as_slice() != *codes {
            return false;
        }
    }
    true
}

#[test]
fn cases_ascend(rt: HostRuntime) -> Result<(), Fail> {
    for (text, sets, wanted) in &CASES {
        let found = found_cases(rt.alloc(), text, *sets)?.ok_or("too many")?;
        assert!(rt; are_cases(&found, wanted), "{text} {found:?}");
    }
    Ok(())
}

const SIX_FORMALS: &str = "1: proc ptr f(ptr a, ptr b, ptr c, ptr d, ptr e, ptr g)
    { 1: return null; }
    1: proc int main() { 1: return 0; }";

const FIVE_FORMALS: &str = "1: proc ptr f(ptr a, ptr b, ptr c, ptr d, ptr e)
    requires a != null; { 1: return null; }
    1: proc int main() { 1: return 0; }";

/// A program, a family, and how many cases there are; None where they are more than 64.
const COUNTS: [(&str, &[&[u32]], Option<usize>); 2] = [
    // each of six formals is null or has a block of its own
    (SIX_FORMALS, &[&[0], &[1], &[2], &[3], &[4], &[5]], Some(64)),
    // the last has a site in common with each of the others: 65 ways, counted one by one
    (
        FIVE_FORMALS,
        &[&[1, 11], &[1, 12], &[2, 13], &[2, 14], &[1, 2]],
        None,
    ),
];

#[test]
fn at_most_64_cases(rt: HostRuntime) -> Result<(), Fail> {
    for (text, sets, wanted) in &COUNTS {
        let found = found_cases(rt.alloc(), text, Some(*sets))?;
        assert_eq!(rt; found.map(|cases| cases.len()), *wanted, "{text}");
    }
    Ok(())
}
