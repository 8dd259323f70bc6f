//! The first fault of a program, place by place.
ghost use Rattle.std.specs.Prelude.{◌≡◌, ◌≤◌, IfOk, length, slice_get};
ghost use Rattle.std.specs.Option.{option_or};
ghost use Rattle.cv_core.specs.Shape as spec;

use crate::faults::{ShapeFault, ShapeRule};
use crate::names::stmts_of;
use crate::program::{Proc, Program, Stmt};
use crate::shape::rules::{
    RuleTest, contract_tests, end_tests, first_standing, global_tests, heading_tests,
    literal_tests, local_tests, statement_tests,
};
use crate::shape::tables::{Names, Scope, names_of, scope_of};
use std::alloc::{AllocError, Global};

/// The number of a procedure as a fault can have it.
fn fault_number(proc: usize) -> u32
    ensures { result ≡ spec.fault_number proc }
{
    if proc < 4294967295 {
        proc as u32
    } else {
        4294967295
    }
}

/// The first fault of a place in the procedure of this number.
#[tactic(auto, using(crate::proofs::Firsts::first_map))]
fn first_at(proc: usize, line: u32, tests: &[RuleTest]) -> Option<ShapeFault>
    ensures { result ≡ slice_get (spec.faults_at proc line tests.now) 0 }
{
    match first_standing(tests) {
        None => None,
        Some(rule) => Some(ShapeFault {
            rule,
            proc: fault_number(proc),
            line,
        }),
    }
}

/// The first fault of a place in no procedure.
#[tactic(auto, using(crate::proofs::Firsts::first_map))]
fn first_nowhere(tests: &[RuleTest]) -> Option<ShapeFault>
    ensures { result ≡ slice_get (spec.faults_nowhere tests.now) 0 }
{
    match first_standing(tests) {
        None => None,
        Some(rule) => Some(ShapeFault {
            rule,
            proc: 4294967295,
            line: 1,
        }),
    }
}

/// The first of two places' faults.
fn first_of(first: Option<ShapeFault>, second: Option<ShapeFault>) -> Option<ShapeFault>
    ensures { result ≡ option_or first second }
{
    match first {
        None => second,
        Some(fault) => Some(fault),
    }
}

fn is_last(rest: &[Stmt]) -> bool
    ensures { result ≡ spec.is_last rest.now }
{
    match rest {
        [] => true,
        [_, ..] => false,
    }
}

/// The first fault of a statement, the last one of its body or not.
fn first_in_statement(s: &Scope, proc: usize, last: bool, stmt: &Stmt) -> Option<ShapeFault>
    ensures { result ≡ slice_get (spec.faults_at proc stmt.now.line (spec.statement_tests s.entry.now.program.now s.entry.now.proc.now last stmt.now.form)) 0 }
{
    first_at(proc, stmt.line, &statement_tests(s, last, &stmt.form))
}

/// The first fault of statements up to the last of their body.
fn first_in_body(s: &Scope, proc: usize, stmts: &[Stmt]) -> Option<ShapeFault>
    ensures { result ≡ slice_get (spec.body_faults s.entry.now.program.now proc s.entry.now.proc.now stmts.now) 0 }
{
    let mut rest = stmts;
    while let [stmt, tail @ ..] = rest {
        match first_in_statement(s, proc, is_last(tail), stmt) {
            None => {}
            Some(fault) => return Some(fault),
        }
        rest = tail;
    }
    None
}

/// The first fault of the heading, the contract and the locals of the procedure of this number.
fn first_in_heading(s: &Scope, proc: usize) -> Option<ShapeFault>
    requires { proc ≤ length s.now.program.now.procs }
    ensures { result ≡ option_or (slice_get (spec.faults_at proc s.entry.now.proc.now.line (spec.heading_tests s.entry.now.program.now proc s.entry.now.proc.now)) 0) (option_or (slice_get (spec.faults_at proc s.entry.now.proc.now.line (spec.contract_tests s.entry.now.program.now s.entry.now.proc.now)) 0) (slice_get (spec.faults_at proc s.entry.now.proc.now.line (spec.local_tests s.entry.now.program.now s.entry.now.proc.now)) 0)) }
{
    let line = s.proc.line;
    let heading = first_at(proc, line, &heading_tests(s.names, proc, s.proc));
    let contract = first_at(proc, line, &contract_tests(s));
    let locals = first_at(proc, line, &local_tests(s.names, s.proc));
    first_of(heading, first_of(contract, locals))
}

/// The first fault of the procedure of this number.
fn first_in_proc(s: &Scope, proc: usize) -> Option<ShapeFault>
    requires { proc ≤ length s.now.program.now.procs }
    ensures { result ≡ slice_get (spec.proc_faults s.entry.now.program.now proc s.entry.now.proc.now) 0 }
{
    match first_in_heading(s, proc) {
        None => first_in_body(s, proc, stmts_of(s.proc)),
        Some(fault) => Some(fault),
    }
}

/// The first fault of the procedures.
fn first_in_procs(alloc: Global, names: &Names) -> Result<Option<ShapeFault>, AllocError>
    ensures { IfOk result (λ r. r ≡ slice_get (spec.procs_faults names.entry.now.program.now 0 names.entry.now.program.now.procs) 0) }
{
    let p = names.program;
    let mut rest = p.procs.as_slice();
    let mut number: usize = 0;
    while let [proc, tail @ ..] = rest {
        let scope = scope_of(alloc, &*names, proc)?;
        match first_in_proc(&scope, number) {
            None => {}
            Some(fault) => return Ok(Some(fault)),
        }
        number += 1;
        rest = tail;
    }
    Ok(None)
}

/// The first fault of the program with these names.
fn first_in_named(alloc: Global, names: &Names) -> Result<Option<ShapeFault>, AllocError>
    ensures { IfOk result (λ r. r ≡ spec.first_fault names.entry.now.program.now) }
{
    let globals = first_nowhere(&global_tests(names.program));
    let literals = first_nowhere(&literal_tests(names));
    match first_of(globals, literals) {
        Some(fault) => Ok(Some(fault)),
        None => match first_in_procs(alloc, names)? {
            Some(fault) => Ok(Some(fault)),
            None => Ok(first_nowhere(&end_tests(names.program))),
        },
    }
}

/// The first fault of a program, in the order of its places and, at each place, of the rules.
pub(crate) fn first_fault(alloc: Global, p: &Program) -> Result<Option<ShapeFault>, AllocError>
    ensures { IfOk result (λ r. r ≡ spec.first_fault p.now) }
{
    let names = names_of(alloc, p)?;
    let fault = first_in_named(alloc, &names)?;
    Ok(fault)
}
