//! Names that two declarations have.
ghost use Rattle.std.specs.Prelude.{◌≡◌, ◌≤◌, ◌||◌, bytes_eq, length, take};
ghost use Rattle.std.specs.List.{list_any};
ghost use Rattle.std.specs.Option.{is_some};
ghost use Rattle.cv_core.specs.Doubles as spec;
ghost use Rattle.cv_core.specs.Meant.{formal_meant as formal_meant_of, literal_meant as literal_meant_of, outer_meant as outer_meant_of};

use crate::names::{built_in, locals_of};
use crate::program::{Formal, GlobalDecl, Literal, Local, Proc, Program};
use crate::shape::names::formal_meant;
use crate::shape::tables::{Names, literal_meant, outer_meant};
use cv_list::Bytes;

/// Whether some of the globals has the name.
fn some_global_has(globals: &[GlobalDecl], name: &Bytes) -> bool
    ensures { result ≡ list_any (λ x. bytes_eq x.name name.now) globals.now }
{
    globals.iter().any(|x| x.name.as_slice() == name.as_slice())
}

/// Whether two of the globals have one name.
fn repeats_in_globals(globals: &[GlobalDecl]) -> bool
    ensures { result ≡ spec.repeats (λ x. x.name) globals.now }
{
    let mut rest = globals;
    while let [first, tail @ ..] = rest {
        if some_global_has(tail, &first.name) {
            return true;
        }
        rest = tail;
    }
    false
}

/// Whether some of the literals has the name.
fn some_literal_has(literals: &[Literal], name: &Bytes) -> bool
    ensures { result ≡ list_any (λ x. bytes_eq x.name name.now) literals.now }
{
    literals
        .iter()
        .any(|x| x.name.as_slice() == name.as_slice())
}

/// Whether two of the literals have one name.
fn repeats_in_literals(literals: &[Literal]) -> bool
    ensures { result ≡ spec.repeats (λ x. x.name) literals.now }
{
    let mut rest = literals;
    while let [first, tail @ ..] = rest {
        if some_literal_has(tail, &first.name) {
            return true;
        }
        rest = tail;
    }
    false
}

/// Whether some of the formals has the name.
fn some_formal_has(formals: &[Formal], name: &Bytes) -> bool
    ensures { result ≡ list_any (λ x. bytes_eq x.name name.now) formals.now }
{
    formals.iter().any(|x| x.name.as_slice() == name.as_slice())
}

/// Whether two of the formals have one name.
fn repeats_in_formals(formals: &[Formal]) -> bool
    ensures { result ≡ spec.repeats (λ x. x.name) formals.now }
{
    let mut rest = formals;
    while let [first, tail @ ..] = rest {
        if some_formal_has(tail, &first.name) {
            return true;
        }
        rest = tail;
    }
    false
}

/// Whether some of the locals has the name.
fn some_local_has(locals: &[Local], name: &Bytes) -> bool
    ensures { result ≡ list_any (λ x. bytes_eq x.name name.now) locals.now }
{
    locals.iter().any(|x| x.name.as_slice() == name.as_slice())
}

/// Whether two of the locals have one name.
fn repeats_in_locals(locals: &[Local]) -> bool
    ensures { result ≡ spec.repeats (λ x. x.name) locals.now }
{
    let mut rest = locals;
    while let [first, tail @ ..] = rest {
        if some_local_has(tail, &first.name) {
            return true;
        }
        rest = tail;
    }
    false
}

/// Whether two globals have one name.
pub(crate) fn global_twice(p: &Program) -> bool
    ensures { result ≡ spec.global_twice p.now }
{
    repeats_in_globals(p.globals.as_slice())
}

/// Whether some global has the name of a literal.
fn global_is_literal(n: &Names) -> bool
    ensures { result ≡ list_any (λ g. is_some (literal_meant_of n.entry.now.program.now g.name)) n.entry.now.program.now.globals }
{
    let p = n.program;
    p.globals
        .as_slice()
        .iter()
        .any(|g| literal_meant(n, g.name.as_slice()).is_some())
}

/// Whether a literal has the name of another one, or of a global.
pub(crate) fn literal_twice(n: &Names) -> bool
    ensures { result ≡ spec.literal_twice n.entry.now.program.now }
{
    let p = n.program;
    let literals = repeats_in_literals(p.literals.as_slice());
    let globals = global_is_literal(n);
    literals || globals
}

/// Whether some of the procedures has the name.
fn some_proc_has(procs: &[Proc], name: &Bytes) -> bool
    ensures { result ≡ list_any (λ g. bytes_eq g.name name.now) procs.now }
{
    procs.iter().any(|g| g.name.as_slice() == name.as_slice())
}

/// Whether the procedure of this number has the name of a built-in procedure or of an earlier one.
pub(crate) fn proc_twice(p: &Program, number: usize, f: &Proc) -> bool
    requires { number ≤ length p.now.procs }
    ensures { result ≡ spec.proc_twice p.now number f.now }
{
    let built = built_in(f.name.as_slice()).is_some();
    let earlier = some_proc_has(&p.procs.as_slice()[..number], &f.name);
    built || earlier
}

/// Whether some formal has the name of a global or literal.
fn formal_is_outer(n: &Names, formals: &[Formal]) -> bool
    ensures { result ≡ list_any (λ x. is_some (outer_meant_of n.entry.now.program.now x.name)) formals.now }
{
    formals
        .iter()
        .any(|x| outer_meant(n, x.name.as_slice()).is_some())
}

/// Whether a formal has the name of another one, or of a global or literal.
pub(crate) fn formal_twice(n: &Names, f: &Proc) -> bool
    ensures { result ≡ spec.formal_twice n.entry.now.program.now f.now }
{
    let formals = f.formals.as_slice();
    let own = repeats_in_formals(formals);
    let outer = formal_is_outer(n, formals);
    own || outer
}

/// Whether a local has the name of a formal, a global or a literal.
fn has_other_name(n: &Names, formals: &[Formal], name: &[u8]) -> bool
    ensures { result ≡ (is_some (formal_meant_of formals.now name.now) || is_some (outer_meant_of n.entry.now.program.now name.now)) }
{
    let formal = formal_meant(formals, name).is_some();
    let outer = outer_meant(n, name).is_some();
    formal || outer
}

fn local_is_other(n: &Names, formals: &[Formal], locals: &[Local]) -> bool
    ensures { result ≡ list_any (λ l. is_some (formal_meant_of formals.now l.name) || is_some (outer_meant_of n.entry.now.program.now l.name)) locals.now }
{
    locals
        .iter()
        .any(|l| has_other_name(n, formals, l.name.as_slice()))
}

/// Whether a local has the name of another one, of a formal, or of a global or literal.
pub(crate) fn local_twice(n: &Names, f: &Proc) -> bool
    ensures { result ≡ spec.local_twice n.entry.now.program.now f.now }
{
    let locals = locals_of(f);
    let own = repeats_in_locals(locals);
    let other = local_is_other(n, f.formals.as_slice(), locals);
    own || other
}
