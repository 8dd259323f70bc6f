//! What the terms and the clauses of contracts are worth in a small memory.
ghost use Rattle.std.specs.Prelude.{All, IsTrue};
ghost use Rattle.cv_meaning.specs.Few.{AreFew, HasFewParts};

use crate::small::{SECOND, small};
use cv_core::{Atom, Bytes, Contract, List, Term};
use cv_meaning::{Mem, NamedValue, Part, Ptr, Value, View, holds, term_value};
use cv_text::read_contract;
use std::alloc::{AllocError, Global};
use std::test::Fail;

fn formal(alloc: Global, name: &str, value: Value) -> Result<NamedValue, AllocError> {
    Ok(NamedValue {
        name: Bytes::from_slice(alloc, name.as_bytes())?,
        value,
    })
}

/// d, which points to the second byte of the buffer, and n, which is -4.
fn formals(alloc: Global) -> Result<List<NamedValue>, AllocError> {
    let mut values = List::new(alloc);
    values.push(formal(alloc, "d", Value::Ptr(SECOND))?)?;
    values.push(formal(alloc, "n", Value::Int(-4))?)?;
    Ok(values)
}

fn contract(alloc: Global, text: &str) -> Result<Contract, Fail> {
    if text.len() > 65536 {
        return Err(Fail::from("a long text"));
    }
    match read_contract(alloc, text.as_bytes()) {
        Ok(c) => Ok(c),
        Err(_) => Err(Fail::from("no contract")),
    }
}

/// The first term of the first atom of requires.
fn first_term(c: &Contract) -> Option<&Term> {
    match c.needs.get(0)? {
        Atom::Compare { left, .. } => left.get(0)?.term.as_ref(),
        _ => None,
    }
}

/// The value of the first term of a contract.
fn value_of(alloc: Global, text: &str) -> Result<Option<i64>, Fail> {
    let c = contract(alloc, text)?;
    let term = first_term(&c).ok_or("no term")?;
    let m = small(alloc)?;
    let formals = formals(alloc)?;
    let globals = List::new(alloc);
    let view = View {
        at_entry: &m,
        now: &m,
        formals: &formals,
        globals: &globals,
        answer: None,
        first: 2,
    };
    Ok(term_value(term, &view))
}

/// A term, which is the first of a contract, and its value.
const TERMS: [(&str, Option<i64>); 5] = [
    ("requires n == 0;", Some(-4)),
    ("requires alloc(d) == 0;", Some(2)),
    ("requires strlen(d) == 0;", Some(0)),
    ("requires alloc(n) == 0;", None),
    ("requires result == 0;", None),
];

#[test]
fn terms_have_values(rt: HostRuntime) -> Result<(), Fail> {
    for (text, expected) in &TERMS {
        assert_eq!(rt; value_of(rt.alloc(), text)?, *expected, "{text}");
    }
    Ok(())
}

// ---- contracts with few parts

fn has_few_parts(a: &Atom) -> bool
    ensures { IsTrue result → HasFewParts a.now }
{
    match a {
        Atom::Compare { left, right, .. } => left.len() <= 6 && right.len() <= 6,
        _ => true,
    }
}

fn all_few(atoms: &[Atom]) -> bool
    ensures { IsTrue result → All HasFewParts atoms.now }
{
    match atoms {
        [] => true,
        [first, rest @ ..] => has_few_parts(first) && all_few(rest),
    }
}

fn all_alternatives_few(gives: &[List<Atom>]) -> bool
    ensures { IsTrue result → All (All HasFewParts) gives.now }
{
    match gives {
        [] => true,
        [first, rest @ ..] => all_few(first.as_slice()) && all_alternatives_few(rest),
    }
}

fn are_few(c: &Contract) -> bool
    ensures { IsTrue result → AreFew c.now }
{
    all_few(c.needs.as_slice()) && all_alternatives_few(c.gives.as_slice())
}

/// Whether a clause of a contract of few parts holds.
fn holds_in(c: &Contract, part: Part, view: &View) -> Option<bool> {
    if are_few(c) {
        Some(holds(c, part, view))
    } else {
        None
    }
}

/// Whether a clause of a contract holds.
fn is_true(alloc: Global, text: &str, part: Part) -> Result<bool, Fail> {
    let c = contract(alloc, text)?;
    let m = small(alloc)?;
    let formals = formals(alloc)?;
    let globals = List::new(alloc);
    let view = View {
        at_entry: &m,
        now: &m,
        formals: &formals,
        globals: &globals,
        answer: None,
        first: 2,
    };
    Ok(holds_in(&c, part, &view).ok_or("a long atom")?)
}

/// A contract, a clause of it, and whether that holds.
const CLAUSES: [(&str, Part, bool); 2] = [
    ("requires nullt(d); ensures fresh(d);", Part::Requires, true),
    ("requires nullt(d); ensures fresh(d);", Part::Ensures, false),
];

#[test]
fn clauses_hold(rt: HostRuntime) -> Result<(), Fail> {
    for (text, part, expected) in &CLAUSES {
        assert_eq!(rt; is_true(rt.alloc(), text, *part)?, *expected, "{part:?}");
    }
    Ok(())
}
