//! The codes that pointers can have inside the first procedure of a program, in a case.

use crate::programs::program;
use cv_core::{List, Program};
use cv_ppts::{Case, Targets, has_room, targets, targets_closed};
use std::alloc::{AllocError, Global};
use std::test::Fail;

fn case(alloc: Global, codes: &[u32]) -> Result<Case, AllocError> {
    let codes = List::from_slice(alloc, codes)?;
    Ok(Case { codes })
}

fn targets_of(alloc: Global, p: &Program, case: &Case) -> Result<Targets, Fail> {
    if !has_room(p, 0, case) {
        return Err(Fail::from("too many targets"));
    }
    Ok(targets(alloc, p, 0, case)?)
}

fn are_closed(p: &Program, case: &Case, found: &Targets) -> Result<bool, Fail> {
    if !has_room(p, 0, case) {
        return Err(Fail::from("too many targets"));
    }
    Ok(targets_closed(p, 0, case, found))
}

/// w points to a cell whose content is p; q gets what stood there and null.
const READ_AND_CLEARED: &str = "literal L { };
    1: proc ptr f(pptr w, ptr p) { ptr q; 1: q = get w; 1: put w, null; 1: return null; }
    1: proc int main() { 1: return 0; }";

/// The object of a call that has been made before is lost.
const ALLOCATING: &str = "literal L { };
    1: proc ptr f(ptr p, ptr q) { 1: p = call malloc(1); 1: q = p; 1: return null; }
    1: proc int main() { 1: return 0; }";

/// q has the literal, which no call may modify, so that nothing is given.
const LITERAL_MODIFIED: &str = "literal L { };
    1: proc ptr f(ptr p) modifies body(p); ensures base(result) == base(p);
    { ptr q; 1: q = &L; 1: p = call f(q); 1: return null; }
    1: proc int main() { 1: return 0; }";

const RECURSIVE: &str = "literal L { };
    1: proc ptr f(ptr p) ensures result == null;
    { ptr q; 1: q = p; 1: p = call f(q); 1: return null; }
    1: proc int main() { 1: return 0; }";

const RESULT_DROPPED: &str = "literal L { };
    1: proc ptr f(ptr p) ensures result == null;
    { ptr q; 1: q = p; 1: call f(q); 1: return null; }
    1: proc int main() { 1: return 0; }";

/// No pointer changes at the calls, so that none of the 4294967296 choices asks for a code.
const NONE_CHANGED: &str = "literal L { }; literal M { }; literal N { };
    1: proc int f(ptr p)
    { ptr q; int n; buf b 1; buf c 1; buf d 1; buf e 1; buf h 1; buf i 1; buf j 1; buf k 1; buf l 1; buf m 1; buf o 1;
      buf r 1; 1: q = p; 1: q = null; 1: q = &b; 1: q = &c; 1: q = &d; 1: q = &e; 1: q = &h; 1: q = &i; 1: q = &j;
      1: q = &k; 1: q = &l; 1: q = &m; 1: q = &o; 1: q = &r; 1: n = call g(q, q, q, q, q, q, q, q); 1: return n; }
    1: proc int g(ptr a, ptr b, ptr c, ptr d, ptr e, ptr h, ptr i, ptr j) { 1: return 0; }
    1: proc int main() { 1: return 0; }";

/// A program, the codes of a case, and the least closed codes of the pointers and the cells.
const LEAST: [(&str, &[u32], &[&[i32]]); 6] = [
    (
        READ_AND_CLEARED,
        &[1, 2, 2],
        &[&[1], &[2], &[-1, 0, 2], &[0, 2]],
    ),
    (ALLOCATING, &[1, 1], &[&[0, 1, 2], &[-1, 0, 1, 2]]),
    (LITERAL_MODIFIED, &[1, 2], &[&[1], &[-1, 2]]),
    (RECURSIVE, &[1], &[&[0, 1], &[-1, 0, 1]]),
    (RESULT_DROPPED, &[1], &[&[1], &[-1, 1]]),
    (
        NONE_CHANGED,
        &[1],
        &[&[1], &[-1, 0, 1, 2, 3, 4, 5, 6, 7, 8, 9, 10, 11, 12, 13]],
    ),
];

/// Whether targets have these sets.
fn are_sets(found: &Targets, wanted: &[&[i32]]) -> bool {
    if found.sets.len() != wanted.len() {
        return false;
    }
    for (set, codes) in found.sets.as_slice().iter().zip(wanted) {
        if set.as_slice() != *codes {
            return false;
        }
    }
    true
}

/// Whether the least closed codes of a case are these, and are taken for closed.
fn is_least(alloc: Global, text: &str, codes: &[u32], wanted: &[&[i32]]) -> Result<bool, Fail> {
    let p = program(alloc, text)?;
    let entry = case(alloc, codes)?;
    let found = targets_of(alloc, &p, &entry)?;
    let closed = are_closed(&p, &entry, &found)?;
    Ok(closed && are_sets(&found, wanted))
}

#[test]
fn least_codes(rt: HostRuntime) -> Result<(), Fail> {
    for (text, codes, wanted) in &LEAST {
        assert!(rt; is_least(rt.alloc(), text, codes, wanted)?, "{text}");
    }
    Ok(())
}

fn sets_of(alloc: Global, sets: &[&[i32]]) -> Result<Targets, AllocError> {
    let mut lists = List::new(alloc);
    for set in sets {
        lists.push(List::from_slice(alloc, set)?)?;
    }
    Ok(Targets { sets: lists })
}

/// A program, the codes of a case, sets, and whether they are closed.
const CLOSED: [(&str, &[u32], &[&[i32]], bool); 4] = [
    (RESULT_DROPPED, &[1], &[], false),
    (RESULT_DROPPED, &[1], &[&[1], &[-1, 1]], true),
    // null, which f gives, is missing at p
    (RECURSIVE, &[1], &[&[1], &[-1, 0, 1]], false),
    // more than the least
    (RECURSIVE, &[1], &[&[0, 1, 7], &[-1, 0, 1, 7]], true),
];

fn is_closed(alloc: Global, text: &str, codes: &[u32], sets: &[&[i32]]) -> Result<bool, Fail> {
    let p = program(alloc, text)?;
    let entry = case(alloc, codes)?;
    are_closed(&p, &entry, &sets_of(alloc, sets)?)
}

#[test]
fn closed_codes(rt: HostRuntime) -> Result<(), Fail> {
    for (text, codes, sets, expected) in &CLOSED {
        let found = is_closed(rt.alloc(), text, codes, sets)?;
        assert_eq!(rt; found, *expected, "{text} {sets:?}");
    }
    Ok(())
}
