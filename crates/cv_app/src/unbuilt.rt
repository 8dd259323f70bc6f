//! Which programs are treated: the straight-line ones.
ghost use Rattle.std.specs.Prelude.{◌≡◌, ◌↔◌, None, Some, map, false};
ghost use Rattle.cv_core.specs.Headings.{gives_int as int_given, is_main as main_name};
ghost use Rattle.cv_core.specs.Shape.{is_last as last_of};
ghost use Rattle.cv_core.specs.declared.program.Form.TheVariants.{Return};
ghost use Rattle.cv_text.specs.Narrow.{IsNarrow};
ghost use Rattle.cv_app.specs.Built as spec;

use cv_core::{
    AnyOperand, Contract, Form, Local, LocalBody, Operand, Proc, ProcBody, Program, ResultKind,
    Stmt, VarKind, is_main,
};

/// The greatest number of statements of a straight-line program.
const STATEMENTS: usize = 100;

/// Whether the statement is `p = &b`, `p = p + K` or `store p, K`.
fn is_move(b: &[u8], p: &[u8], form: &Form) -> bool
    ensures { result ≡ spec.is_move b.now p.now form.now }
{
    match form {
        Form::Address { p: x, object } => x.as_slice() == p && object.as_slice() == b,
        Form::Shift {
            p: x,
            q: y,
            e: Operand::Number(_),
        } => x.as_slice() == p && y.as_slice() == p,
        Form::Store {
            p: x,
            e: Operand::Number(_),
        } => x.as_slice() == p,
        _ => false,
    }
}

/// Whether `return` of the value is `return K`.
fn is_constant(value: &AnyOperand) -> bool
    ensures { result ≡ spec.is_return (Return (Some value.now)) }
{
    match value {
        AnyOperand::Operand(Operand::Number(_)) => true,
        _ => false,
    }
}

/// Whether the statement is `return K`.
fn is_return(form: &Form) -> bool
    ensures { result ≡ spec.is_return form.now }
{
    match form {
        Form::Return(Some(value)) => is_constant(value),
        _ => false,
    }
}

fn is_last(rest: &[Stmt]) -> bool
    ensures { result ≡ last_of rest.now }
{
    match rest {
        [] => true,
        [_, ..] => false,
    }
}

/// Whether the last statement of a body, or another one, is built.
fn is_built(b: &[u8], p: &[u8], last: bool, form: &Form) -> bool
    ensures { result ≡ spec.is_built_form b.now p.now last form.now }
{
    if last {
        is_return(form)
    } else {
        is_move(b, p, form)
    }
}

/// The line of the first statement that isn't built, from the one with this number on.
fn unbuilt_statement(b: &[u8], p: &[u8], number: usize, stmts: &[Stmt]) -> Option<u32>
    ensures { result ≡ spec.first_unbuilt (spec.stmt_parts b.now p.now number stmts.now) }
{
    match stmts {
        [] => None,
        [stmt, rest @ ..] => {
            if number < STATEMENTS && is_built(b, p, is_last(rest), &stmt.form) {
                unbuilt_statement(b, p, number + 1, rest)
            } else {
                Some(stmt.line)
            }
        }
    }
}

/// The line of the first statement that isn't built, or the line of the procedure where the two names are the same.
fn unbuilt_with(line: u32, b: &[u8], p: &[u8], stmts: &[Stmt]) -> Option<u32>
    ensures { result ≡ spec.first_unbuilt (spec.inner_parts line stmts.now (Some (b.now, p.now))) }
{
    if b == p {
        Some(line)
    } else {
        unbuilt_statement(b, p, 0, stmts)
    }
}

/// The line of what isn't built first, the locals or a statement.
fn unbuilt_inner(line: u32, locals: &[Local], stmts: &[Stmt]) -> Option<u32>
    ensures { result ≡ spec.first_unbuilt (spec.inner_parts line stmts.now (spec.two_names locals.now)) }
{
    match locals {
        [first, second] => match (first.body, second.body) {
            (LocalBody::Buffer(_), LocalBody::Var(VarKind::Ptr)) => {
                unbuilt_with(line, first.name.as_slice(), second.name.as_slice(), stmts)
            }
            (LocalBody::Var(VarKind::Ptr), LocalBody::Buffer(_)) => {
                unbuilt_with(line, second.name.as_slice(), first.name.as_slice(), stmts)
            }
            _ => Some(line),
        },
        _ => Some(line),
    }
}

/// The line of what isn't built first in a body.
fn unbuilt_body(line: u32, body: &Option<ProcBody>) -> Option<u32>
    ensures { result ≡ spec.first_unbuilt (spec.body_parts line body.now) }
{
    match body {
        None => Some(line),
        Some(body) => {
            if body.stmts.len() == 0 {
                Some(line)
            } else {
                unbuilt_inner(line, body.locals.as_slice(), body.stmts.as_slice())
            }
        }
    }
}

fn gives_int(answer: ResultKind) -> bool
    ensures { result ≡ int_given answer }
{
    matches!(answer, ResultKind::Int)
}

/// Whether the heading is `int main()`.
fn is_built_heading(f: &Proc) -> bool
    ensures { result ≡ spec.is_built_heading f.now }
{
    let int = gives_int(f.answer);
    let named = is_main(f.name.as_slice());
    let bare = f.formals.len() == 0;
    int && named && bare
}

/// Whether the contract has no clause.
fn is_empty_contract(contract: &Contract) -> bool
    ensures { result ≡ spec.is_empty_contract contract.now }
{
    let listed = contract.listed.len() == 0;
    let needs = contract.needs.len() == 0;
    let changes = contract.changes.len() == 0;
    let gives = contract.gives.len() == 0;
    listed && needs && changes && gives
}

/// The line of what isn't built first in the first procedure.
fn unbuilt_first(f: &Proc) -> Option<u32>
    ensures { result ≡ spec.first_unbuilt (spec.proc_parts f.now) }
{
    let heading = is_built_heading(f);
    let contract = is_empty_contract(&f.contract);
    if heading && contract {
        unbuilt_body(f.line, &f.body)
    } else {
        Some(f.line)
    }
}

/// The line of the next procedure, which isn't built.
fn unbuilt_next(procs: &[Proc]) -> Option<u32>
    ensures { result ≡ spec.first_unbuilt (map (λ f. (f.line, false)) procs.now) }
{
    match procs {
        [] => None,
        [f, ..] => Some(f.line),
    }
}

/// The line of what isn't built first in the procedures.
#[tactic(auto, using(crate::proofs::BuiltLemmas::first_found))]
fn unbuilt_procedure(procs: &[Proc]) -> Option<u32>
    ensures { result ≡ spec.first_unbuilt (spec.procs_parts procs.now) }
{
    match procs {
        [] => Some(1),
        [main, others @ ..] => match unbuilt_first(main) {
            Some(line) => Some(line),
            None => unbuilt_next(others),
        },
    }
}

/// The line of the first part that isn't of the form of a straight-line program, from 1: of a global, a literal (both
/// count for line 1), a heading, a contract or a local (the line of their procedure), or a statement, in the order of
/// the text. None exactly for a straight-line program.
pub fn built(program: &Program) -> Option<u32>
    ensures first { result ≡ spec.unbuilt_line program.now }
    ensures narrow { (result ≡ None) ↔ IsNarrow program.now }
{
    let globals = program.globals.len() == 0;
    let literals = program.literals.len() == 0;
    if globals && literals {
        unbuilt_procedure(program.procs.as_slice())
    } else {
        Some(1)
    }
}
