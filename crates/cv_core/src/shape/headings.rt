//! The headings of procedures: main's, an extern's, and whether a body is empty.
ghost use Rattle.std.specs.Prelude.{◌≡◌, ◌&&◌, ◌==◌, bytes_eq, codes, length, not};
ghost use Rattle.std.specs.List.{list_any};
ghost use Rattle.std.specs.Option.{option_copied};
ghost use Rattle.cv_core.specs.Headings as spec;

use crate::names::is_main;
use crate::program::{Atom, Formal, LinPart, Proc, Rel, ResultKind, Term, VarKind};
use cv_list::{Bytes, List};

fn is_int(kind: VarKind) -> bool
    ensures { result ≡ spec.is_int kind }
{
    matches!(kind, VarKind::Int)
}

fn gives_int(answer: ResultKind) -> bool
    ensures { result ≡ spec.gives_int answer }
{
    matches!(answer, ResultKind::Int)
}

/// Whether there is a body without a statement.
pub(crate) fn is_empty_body(f: &Proc) -> bool
    ensures { result ≡ spec.is_empty_body f.now.body }
{
    match &f.body {
        None => false,
        Some(body) => body.stmts.len() == 0,
    }
}

fn is_main_kind(kind: VarKind) -> bool
    ensures { result ≡ spec.is_main_kind kind }
{
    matches!(kind, VarKind::Int | VarKind::Ptr)
}

/// Whether main can't have some formal.
fn has_odd_formal(formals: &List<Formal>) -> bool
    ensures { result ≡ list_any (λ x. not (spec.is_main_kind x.kind)) formals.now }
{
    formals.as_slice().iter().any(|x| !is_main_kind(x.kind))
}

/// Whether the procedure is main and has another form than main's.
pub(crate) fn breaks_main(f: &Proc) -> bool
    ensures { result ≡ spec.breaks_main f.now }
{
    let named = is_main(f.name.as_slice());
    let bodyless = f.body.is_none();
    let int = gives_int(f.answer);
    let odd = has_odd_formal(&f.formals);
    named && (bodyless || !int || odd)
}

fn term_alone(negative: bool, number: Option<u32>, term: &Option<Term>) -> Option<&Term>
    ensures { option_copied result ≡ spec.term_alone negative number term.now }
{
    match number {
        Some(_) => None,
        None => match term {
            None => None,
            Some(t) => { if negative { None } else { Some(t) } }
        },
    }
}

/// The term that a sum is.
fn lone_term(parts: &[LinPart]) -> Option<&Term>
    ensures { option_copied result ≡ spec.lone_term parts.now }
{
    match parts {
        [p] => term_alone(p.negative, p.number, &p.term),
        _ => None,
    }
}

fn number_alone(negative: bool, number: Option<u32>, term: &Option<Term>) -> Option<i64>
    ensures { result ≡ spec.number_alone negative number term.now }
{
    match term {
        Some(_) => None,
        None => match number {
            None => None,
            Some(k) => {
                if negative {
                    Some(0 - i64::from(k))
                } else {
                    Some(i64::from(k))
                }
            }
        },
    }
}

/// The number that a sum is.
fn lone_number(parts: &[LinPart]) -> Option<i64>
    ensures { result ≡ spec.lone_number parts.now }
{
    match parts {
        [p] => number_alone(p.negative, p.number, &p.term),
        _ => None,
    }
}

/// Whether the term is the formal of the name, or `result` where there is none.
fn is_subject(name: Option<&Bytes>, term: Option<&Term>) -> bool
    ensures { result ≡ spec.is_subject (option_copied name.entry) (option_copied term.entry) }
{
    match term {
        Some(Term::Name(x)) => match name {
            None => false,
            Some(n) => x.as_slice() == n.as_slice(),
        },
        Some(Term::Answer) => name.is_none(),
        _ => false,
    }
}

/// The bound of an atom that says that the subject is at least a number.
fn least_of(name: Option<&Bytes>, a: &Atom) -> Option<i64>
    ensures { result ≡ spec.least_of (option_copied name.entry) a.now }
{
    match a {
        Atom::Compare {
            left,
            rel: Rel::Ge,
            right,
        } => {
            if is_subject(name, lone_term(left.as_slice())) {
                lone_number(right.as_slice())
            } else {
                None
            }
        }
        _ => None,
    }
}

/// The bound of an atom that says that the subject is at most a number.
fn greatest_of(name: Option<&Bytes>, a: &Atom) -> Option<i64>
    ensures { result ≡ spec.greatest_of (option_copied name.entry) a.now }
{
    match a {
        Atom::Compare {
            left,
            rel: Rel::Le,
            right,
        } => {
            if is_subject(name, lone_term(left.as_slice())) {
                lone_number(right.as_slice())
            } else {
                None
            }
        }
        _ => None,
    }
}

fn ascend(least: Option<i64>, greatest: Option<i64>) -> bool
    ensures { result ≡ spec.ascend least greatest }
{
    match (least, greatest) {
        (Some(a), Some(b)) => a <= b,
        _ => false,
    }
}

/// Whether the atoms are the two of a range.
fn is_range(name: Option<&Bytes>, atoms: &[Atom]) -> bool
    ensures { result ≡ spec.is_range (option_copied name.entry) atoms.now }
{
    match atoms {
        [a, b] => {
            let low = least_of(name, a);
            let high = greatest_of(name, b);
            ascend(low, high)
        }
        _ => false,
    }
}

fn takes_range(formals: &[Formal], needs: &List<Atom>) -> bool
    ensures { result ≡ spec.takes_range formals.now needs.now }
{
    match formals {
        [x] => {
            let int = is_int(x.kind);
            let within = is_range(Some(&x.name), needs.as_slice());
            int && within
        }
        _ => false,
    }
}

fn gives_range(alternatives: &[List<Atom>]) -> bool
    ensures { result ≡ spec.gives_range alternatives.now }
{
    match alternatives {
        [atoms] => is_range(None, atoms.as_slice()),
        _ => false,
    }
}

/// Whether the procedure has the form of an extern one.
fn has_extern_form(f: &Proc) -> bool
    ensures { result ≡ spec.has_extern_form f.now }
{
    let c = &f.contract;
    let takes = takes_range(f.formals.as_slice(), &c.needs);
    let int = gives_int(f.answer);
    let plain = c.listed.len() == 0 && c.changes.len() == 0;
    let gives = gives_range(c.gives.as_slice());
    takes && int && plain && gives
}

/// Whether the procedure is extern and has another form than an extern one.
pub(crate) fn breaks_extern(f: &Proc) -> bool
    ensures { result ≡ spec.breaks_extern f.now }
{
    let bodyless = f.body.is_none();
    let formed = has_extern_form(f);
    bodyless && !formed
}
