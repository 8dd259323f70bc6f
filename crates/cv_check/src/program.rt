//! The parts of a straight-line program.
ghost use Rattle.std.specs.Prelude.{◌≡◌, ◌<◌};
ghost use Rattle.cv_check.specs.Accepted as spec;
ghost use Rattle.cv_check.specs.Integer.{has_address as has_address_of, is_address as is_address_of};

use cv_core::{Form, Local, LocalBody, Program, Stmt};

/// The statements of the first procedure.
pub(crate) fn statements(p: &Program) -> &[Stmt]
    ensures { result.now ≡ spec.statements p.now }
{
    match p.procs.as_slice() {
        [] => &[],
        [main, ..] => match &main.body {
            None => &[],
            Some(body) => body.stmts.as_slice(),
        },
    }
}

/// The size of the first buffer, 0 where there is none.
fn size_among(locals: &[Local]) -> u32
    ensures { result ≡ spec.size_among locals.now }
{
    match locals {
        [] => 0,
        [first, rest @ ..] => match first.body {
            LocalBody::Buffer(size) => size,
            LocalBody::Var(_) => size_among(rest),
            LocalBody::PointerCell => size_among(rest),
            LocalBody::IntCell => size_among(rest),
        },
    }
}

/// The size of the first buffer among the locals of the first procedure, 0 where there is none.
pub(crate) fn buffer_size(p: &Program) -> u32
    ensures value { result ≡ spec.buffer_size p.now }
    ensures small { result < 2147483648 }
{
    match p.procs.as_slice() {
        [] => 0,
        [main, ..] => match &main.body {
            None => 0,
            Some(body) => size_among(body.locals.as_slice()),
        },
    }
}

/// Whether a statement points the pointer to the buffer.
pub(crate) fn has_address(stmts: &[Stmt]) -> bool
    ensures { result ≡ has_address_of stmts.now }
{
    stmts.iter().any(|s| is_address(&s.form))
}

fn is_address(form: &Form) -> bool
    ensures { result ≡ is_address_of form.now }
{
    matches!(form, Form::Address { .. })
}
