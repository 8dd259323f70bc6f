//! What the statements of a program ask of a family and the family lacks.
ghost use Rattle.std.specs.Prelude.{◌≡◌, ◌<◌, ◌≤◌, ◌^◌, IsTrue, MatchOption, Some, bytes_eq, codes, length, slice_get, ℕ};
ghost use Rattle.std.specs.Option.{option_copied};
ghost use Rattle.cv_core.specs.Names.{stmts_of as stmts_in};
ghost use Rattle.cv_points.specs.Closed as spec;
ghost use Rattle.cv_points.specs.Holders.{first_holder as first_holder_of};
ghost use Rattle.cv_points.specs.Missing.{Lacks};
ghost use Rattle.cv_points.specs.Walks.{AreBases, AreStarts, callee_in};

use crate::holders::Bases;
use crate::missing::{Missing, missing_by};
use crate::rules::{argument_count, callee_of, form_rule, formal_rule, global_rule};
use cv_core::{Form, List, Proc, Program, Stmt};

/// What the rule of that number of a statement asks for.
fn missing_by_number(
    p: &Program,
    sets: &[List<u32>],
    known: &[usize],
    proc: usize,
    bases: Bases,
    f: &Proc,
    statement: usize,
    form: &Form,
    callee: Option<usize>,
    number: usize,
) -> Option<Missing>
    requires callee { callee ≡ callee_in p.now form.now }
    requires counted { length sets.now < 2 ^ 64 }
    requires known { AreStarts p.now known.now }
    requires bases { AreBases p.now proc bases }
    requires here { slice_get p.now.procs proc ≡ Some f.now }
    requires among { proc ≤ length p.now.procs }
    requires there { statement ≤ length (stmts_in f.now.body) }
    ensures { MatchOption result (spec.MaybeHolds p.now sets.now (spec.form_rule p.now proc f.now statement form.now number)) (λ m. Lacks sets.now (λ R. spec.MaybeHolds p.now R (spec.form_rule p.now proc f.now statement form.now number)) m.to m.site) }
{
    missing_by(
        p,
        sets,
        form_rule(p, known, bases, f, statement, form, callee, number),
    )
}

/// What a statement asks for by its own rules.
fn missing_in_form(
    p: &Program,
    sets: &[List<u32>],
    known: &[usize],
    proc: usize,
    bases: Bases,
    f: &Proc,
    statement: usize,
    form: &Form,
) -> Option<Missing>
    requires counted { length sets.now < 2 ^ 64 }
    requires known { AreStarts p.now known.now }
    requires bases { AreBases p.now proc bases }
    requires here { slice_get p.now.procs proc ≡ Some f.now }
    requires among { proc ≤ length p.now.procs }
    requires there { statement ≤ length (stmts_in f.now.body) }
    ensures { MatchOption result ((n : ℕ) → spec.MaybeHolds p.now sets.now (spec.form_rule p.now proc f.now statement form.now n)) (λ m. Lacks sets.now (λ R. (n : ℕ) → spec.MaybeHolds p.now R (spec.form_rule p.now proc f.now statement form.now n)) m.to m.site) }
{
    let callee = callee_of(p, form);
    match missing_by_number(p, sets, known, proc, bases, f, statement, form, callee, 0) {
        None => {}
        Some(missing) => return Some(missing),
    }
    for number in 0..argument_count(form) {
        match missing_by_number(
            p,
            sets,
            known,
            proc,
            bases,
            f,
            statement,
            form,
            callee,
            number + 1,
        ) {
            None => {}
            Some(missing) => return Some(missing),
        }
    }
    None
}

/// What the start asks for in the sets of main's formals.
fn missing_in_formals(
    p: &Program,
    sets: &[List<u32>],
    proc: usize,
    bases: Bases,
    f: &Proc,
) -> Option<Missing>
    requires counted { length sets.now < 2 ^ 64 }
    requires bases { AreBases p.now proc bases }
    ensures { MatchOption result ((n : ℕ) → spec.MaybeHolds p.now sets.now (spec.formal_rule (first_holder_of p.now proc) f.now (slice_get f.now.formals n))) (λ m. Lacks sets.now (λ R. (n : ℕ) → spec.MaybeHolds p.now R (spec.formal_rule (first_holder_of p.now proc) f.now (slice_get f.now.formals n))) m.to m.site) }
{
    for number in 0..f.formals.len() {
        match missing_by(p, sets, formal_rule(f, bases.first, f.formals.get(number))) {
            None => {}
            Some(missing) => return Some(missing),
        }
    }
    None
}

pub(crate) fn global_count(p: &Program) -> usize
    ensures { result ≡ length p.now.globals }
{
    p.globals.len()
}

/// What the start asks for in the sets of pointer globals.
fn missing_in_globals(p: &Program, sets: &[List<u32>]) -> Option<Missing>
    requires { length sets.now < 2 ^ 64 }
    ensures { MatchOption result ((n : ℕ) → spec.MaybeHolds p.now sets.now (spec.global_rule p.now n)) (λ m. Lacks sets.now (λ R. (n : ℕ) → spec.MaybeHolds p.now R (spec.global_rule p.now n)) m.to m.site) }
{
    for number in 0..global_count(p) {
        match missing_by(p, sets, global_rule(p, number)) {
            None => {}
            Some(missing) => return Some(missing),
        }
    }
    None
}

/// What the start asks for.
fn missing_at_start(
    p: &Program,
    sets: &[List<u32>],
    proc: usize,
    bases: Bases,
    f: &Proc,
) -> Option<Missing>
    requires counted { length sets.now < 2 ^ 64 }
    requires bases { AreBases p.now proc bases }
    ensures { MatchOption result (spec.Starts p.now sets.now proc f.now) (λ m. Lacks sets.now (λ R. spec.Starts p.now R proc f.now) m.to m.site) }
{
    match missing_in_formals(p, sets, proc, bases, f) {
        None => missing_in_globals(p, sets),
        Some(missing) => Some(missing),
    }
}

/// Whether a statement is the first one of main.
pub(crate) fn is_start(f: &Proc, statement: usize) -> bool
    ensures { result ≡ spec.is_start f.now statement }
{
    statement == 0 && f.name.as_slice() == b"main".as_slice()
}

/// What a statement asks for.
fn missing_at(
    p: &Program,
    sets: &[List<u32>],
    known: &[usize],
    proc: usize,
    bases: Bases,
    f: &Proc,
    statement: usize,
    form: &Form,
) -> Option<Missing>
    requires counted { length sets.now < 2 ^ 64 }
    requires known { AreStarts p.now known.now }
    requires bases { AreBases p.now proc bases }
    requires here { slice_get p.now.procs proc ≡ Some f.now }
    requires among { proc ≤ length p.now.procs }
    requires there { statement ≤ length (stmts_in f.now.body) }
    ensures { MatchOption result (spec.StatementHolds p.now sets.now proc f.now statement form.now) (λ m. Lacks sets.now (λ R. spec.StatementHolds p.now R proc f.now statement form.now) m.to m.site) }
{
    match missing_in_form(p, sets, known, proc, bases, f, statement, form) {
        None => {
            if is_start(f, statement) {
                missing_at_start(p, sets, proc, bases, f)
            } else {
                None
            }
        }
        Some(missing) => Some(missing),
    }
}

/// The statement of this number.
pub(crate) fn statement_at(f: &Proc, statement: usize) -> Option<&Stmt>
    ensures { option_copied result ≡ slice_get (stmts_in f.now.body) statement }
{
    match &f.body {
        None => None,
        Some(body) => body.stmts.get(statement),
    }
}

/// What the statement of this number asks for.
pub(crate) fn missing_in_statement(
    p: &Program,
    sets: &[List<u32>],
    known: &[usize],
    proc: usize,
    bases: Bases,
    f: &Proc,
    statement: usize,
) -> Option<Missing>
    requires counted { length sets.now < 2 ^ 64 }
    requires known { AreStarts p.now known.now }
    requires bases { AreBases p.now proc bases }
    requires here { slice_get p.now.procs proc ≡ Some f.now }
    requires among { proc ≤ length p.now.procs }
    requires there { statement ≤ length (stmts_in f.now.body) }
    ensures { MatchOption result (spec.HoldsIn p.now sets.now proc f.now statement) (λ m. Lacks sets.now (λ R. spec.HoldsIn p.now R proc f.now statement) m.to m.site) }
{
    match statement_at(f, statement) {
        None => None,
        Some(s) => missing_at(p, sets, known, proc, bases, f, statement, &s.form),
    }
}
