//! The kinds that statements ask of what they name, and the number of arguments of a call.
ghost use Rattle.std.specs.Prelude.{◌≡◌, ◌&&◌, [], length, map};
ghost use Rattle.std.specs.Option.{option_copied};
ghost use Rattle.cv_core.specs.Kinds as spec;
ghost use Rattle.cv_core.specs.Meant.{built_in_kinds as kinds_of_built_in, kinds_of as kinds_of_formals, meant_in as meant_in_of};

use crate::chars::{greatest_char, least_char};
use crate::names::{BuiltIn, built_in, built_in_answer};
use crate::program::{AnyOperand, Form, Formal, Operand, Proc, Rel, ResultKind, VarKind};
use crate::shape::names::Meant;
use crate::shape::tables::{Scope, called, meant_in};
use cv_list::{Bytes, List};

fn means_int(m: Option<Meant>) -> bool
    ensures { result ≡ spec.means_int m }
{
    matches!(m, Some(Meant::Variable(VarKind::Int)))
}

fn means_char(m: Option<Meant>) -> bool
    ensures { result ≡ spec.means_char m }
{
    matches!(m, Some(Meant::Variable(VarKind::Char)))
}

fn means_number(m: Option<Meant>) -> bool
    ensures { result ≡ spec.means_number m }
{
    matches!(m, Some(Meant::Variable(VarKind::Int | VarKind::Char)))
}

fn means_ptr(m: Option<Meant>) -> bool
    ensures { result ≡ spec.means_ptr m }
{
    matches!(m, Some(Meant::Variable(VarKind::Ptr)))
}

pub(crate) fn means_pptr(m: Option<Meant>) -> bool
    ensures { result ≡ spec.means_pptr m }
{
    matches!(m, Some(Meant::Variable(VarKind::Pptr)))
}

pub(crate) fn means_iptr(m: Option<Meant>) -> bool
    ensures { result ≡ spec.means_iptr m }
{
    matches!(m, Some(Meant::Variable(VarKind::Iptr)))
}

fn means_pointer(m: Option<Meant>) -> bool
    ensures { result ≡ spec.means_pointer m }
{
    matches!(
        m,
        Some(Meant::Variable(VarKind::Ptr | VarKind::Pptr | VarKind::Iptr))
    )
}

/// Whether both are pointer variables of one kind.
fn same_pointers(p: Option<Meant>, q: Option<Meant>) -> bool
    ensures { result ≡ spec.same_pointers p q }
{
    match p {
        Some(Meant::Variable(VarKind::Ptr)) => means_ptr(q),
        Some(Meant::Variable(VarKind::Pptr)) => means_pptr(q),
        Some(Meant::Variable(VarKind::Iptr)) => means_iptr(q),
        _ => false,
    }
}

/// Whether the variable's kind points to the object.
fn points_to(p: Option<Meant>, object: Option<Meant>) -> bool
    ensures { result ≡ spec.points_to p object }
{
    match p {
        Some(Meant::Variable(VarKind::Ptr)) => matches!(object, Some(Meant::Buffer)),
        Some(Meant::Variable(VarKind::Pptr)) => matches!(object, Some(Meant::PointerCell)),
        Some(Meant::Variable(VarKind::Iptr)) => matches!(object, Some(Meant::IntCell)),
        _ => false,
    }
}

/// Whether a cell to which `w` points holds the variable's kind.
fn held_by(x: Option<Meant>, w: Option<Meant>) -> bool
    ensures { result ≡ spec.held_by x w }
{
    match w {
        Some(Meant::Variable(VarKind::Pptr)) => means_ptr(x),
        Some(Meant::Variable(VarKind::Iptr)) => means_number(x),
        _ => false,
    }
}

fn is_number(s: &Scope, x: &Bytes) -> bool
    ensures { result ≡ spec.means_number (meant_in_of s.entry.now.program.now s.entry.now.proc.now x.now) }
{
    means_number(meant_in(s, x))
}

fn is_ptr(s: &Scope, x: &Bytes) -> bool
    ensures { result ≡ spec.means_ptr (meant_in_of s.entry.now.program.now s.entry.now.proc.now x.now) }
{
    means_ptr(meant_in(s, x))
}

/// An int or char variable, or a number.
fn is_number_operand(s: &Scope, e: &Operand) -> bool
    ensures { result ≡ spec.is_number_operand s.entry.now.program.now s.entry.now.proc.now e.now }
{
    match e {
        Operand::Var(x) => is_number(s, x),
        Operand::Number(_) => true,
    }
}

fn is_ptr_operand(s: &Scope, e: &Operand) -> bool
    ensures { result ≡ spec.is_ptr_operand s.entry.now.program.now s.entry.now.proc.now e.now }
{
    match e {
        Operand::Var(x) => is_ptr(s, x),
        Operand::Number(_) => false,
    }
}

/// A char variable, or a number that it can hold.
fn is_char_operand(s: &Scope, e: &Operand) -> bool
    ensures { result ≡ spec.is_char_operand s.entry.now.program.now s.entry.now.proc.now e.now }
{
    match e {
        Operand::Var(x) => means_char(meant_in(s, x)),
        Operand::Number(z) => least_char(s.program) <= *z && *z <= greatest_char(s.program),
    }
}

fn is_pptr_operand(s: &Scope, e: &Operand) -> bool
    ensures { result ≡ spec.is_pptr_operand s.entry.now.program.now s.entry.now.proc.now e.now }
{
    match e {
        Operand::Var(x) => means_pptr(meant_in(s, x)),
        Operand::Number(_) => false,
    }
}

fn is_iptr_operand(s: &Scope, e: &Operand) -> bool
    ensures { result ≡ spec.is_iptr_operand s.entry.now.program.now s.entry.now.proc.now e.now }
{
    match e {
        Operand::Var(x) => means_iptr(meant_in(s, x)),
        Operand::Number(_) => false,
    }
}

/// Whether a formal of the kind takes the argument.
fn takes(s: &Scope, kind: VarKind, a: &AnyOperand) -> bool
    ensures { result ≡ spec.takes s.entry.now.program.now s.entry.now.proc.now kind a.now }
{
    match a {
        AnyOperand::Operand(e) => match kind {
            VarKind::Int => is_number_operand(s, e),
            VarKind::Char => is_char_operand(s, e),
            VarKind::Ptr => is_ptr_operand(s, e),
            VarKind::Pptr => is_pptr_operand(s, e),
            VarKind::Iptr => is_iptr_operand(s, e),
        },
        AnyOperand::Null => match kind {
            VarKind::Int => false,
            VarKind::Char => false,
            VarKind::Ptr => true,
            VarKind::Pptr => true,
            VarKind::Iptr => true,
        },
    }
}

fn is_equality(r: Rel) -> bool
    ensures { result ≡ spec.is_equality r }
{
    matches!(r, Rel::Eq | Rel::Ne)
}

/// Whether `p = q`, or `p = null`, has its kinds.
fn copies(s: &Scope, p: &Bytes, q: &Option<Bytes>) -> bool
    ensures { result ≡ spec.copies s.entry.now.program.now s.entry.now.proc.now p.now q.now }
{
    let to = meant_in(s, p);
    match q {
        None => means_pointer(to),
        Some(q) => same_pointers(to, meant_in(s, q)),
    }
}

/// Whether `put w, e` has its kinds.
fn puts(s: &Scope, w: &Bytes, e: &AnyOperand) -> bool
    ensures { result ≡ spec.puts s.entry.now.program.now s.entry.now.proc.now w.now e.now }
{
    let to = meant_in(s, w);
    match e {
        AnyOperand::Null => means_pptr(to),
        AnyOperand::Operand(Operand::Number(_)) => means_iptr(to),
        AnyOperand::Operand(Operand::Var(x)) => held_by(meant_in(s, x), to),
    }
}

/// Whether a comparison has its kinds.
fn compares(s: &Scope, left: &Operand, r: Rel, right: &AnyOperand) -> bool
    ensures { result ≡ spec.compares s.entry.now.program.now s.entry.now.proc.now left.now r right.now }
{
    let equality = is_equality(r);
    let pointer = is_ptr_operand(s, left);
    match right {
        AnyOperand::Null => pointer && equality,
        AnyOperand::Operand(right) => {
            let number = is_number_operand(s, left);
            let numbers = number && is_number_operand(s, right);
            let pointers = pointer && is_ptr_operand(s, right) && equality;
            numbers || pointers
        }
    }
}

/// Whether the destination of a call takes the result.
fn receives(s: &Scope, answer: ResultKind, into: &Option<Bytes>) -> bool
    ensures { result ≡ spec.receives s.entry.now.program.now s.entry.now.proc.now answer into.now }
{
    match into {
        None => true,
        Some(x) => match answer {
            ResultKind::Void => false,
            ResultKind::Int => means_int(meant_in(s, x)),
            ResultKind::Char => means_number(meant_in(s, x)),
            ResultKind::Ptr => means_ptr(meant_in(s, x)),
        },
    }
}

/// Whether an argument that has no formal is a variable, a number or null.
fn is_argument(s: &Scope, e: &AnyOperand) -> bool
    ensures { result ≡ spec.is_argument s.entry.now.program.now s.entry.now.proc.now e.now }
{
    match e {
        AnyOperand::Null => true,
        AnyOperand::Operand(Operand::Number(_)) => true,
        AnyOperand::Operand(Operand::Var(x)) => {
            let meant = meant_in(s, x);
            means_number(meant) || means_pointer(meant)
        }
    }
}

/// Whether arguments that have no formals are variables, numbers or null.
fn are_arguments(s: &Scope, args: &[AnyOperand]) -> bool
    ensures { result ≡ spec.takes_each s.entry.now.program.now s.entry.now.proc.now [] args.now }
{
    match args {
        [] => true,
        [arg, args @ ..] => {
            let here = is_argument(s, arg);
            let later = are_arguments(s, args);
            here && later
        }
    }
}

/// Whether each argument that has a formal is of its kind.
fn formals_take(s: &Scope, formals: &[Formal], args: &[AnyOperand]) -> bool
    ensures { result ≡ spec.takes_each s.entry.now.program.now s.entry.now.proc.now (map (λ x. x.kind) formals.now) args.now }
{
    match args {
        [] => true,
        [arg, rest @ ..] => match formals {
            [] => are_arguments(s, args),
            [formal, formals @ ..] => {
                let here = takes(s, formal.kind, arg);
                let later = formals_take(s, formals, rest);
                here && later
            }
        },
    }
}

/// Whether the first argument, if there is one, is a number.
fn int_takes(s: &Scope, args: &[AnyOperand]) -> bool
    ensures { result ≡ spec.takes_each s.entry.now.program.now s.entry.now.proc.now (kinds_of_built_in BuiltIn.Malloc) args.now }
{
    match args {
        [] => true,
        [arg, args @ ..] => {
            let here = takes(s, VarKind::Int, arg);
            let later = are_arguments(s, args);
            here && later
        }
    }
}

/// Whether the arguments of a built-in procedure are of its kinds.
fn built_in_takes(s: &Scope, callee: BuiltIn, args: &[AnyOperand]) -> bool
    ensures { result ≡ spec.takes_each s.entry.now.program.now s.entry.now.proc.now (kinds_of_built_in callee) args.now }
{
    match callee {
        BuiltIn::Malloc => int_takes(s, args),
        BuiltIn::Getchar => are_arguments(s, args),
        BuiltIn::Putchar => int_takes(s, args),
    }
}

/// Whether a call has its kinds.
fn calls(
    s: &Scope,
    into: &Option<Bytes>,
    args: &[AnyOperand],
    built: Option<BuiltIn>,
    callee: Option<&Proc>,
) -> bool
    ensures { result ≡ spec.calls s.entry.now.program.now s.entry.now.proc.now into.now args.now built (option_copied callee.entry) }
{
    match built {
        Some(b) => {
            let received = receives(s, built_in_answer(b), into);
            let taken = built_in_takes(s, b, args);
            received && taken
        }
        None => match callee {
            None => false,
            Some(h) => {
                let received = receives(s, h.answer, into);
                let taken = formals_take(s, h.formals.as_slice(), args);
                received && taken
            }
        },
    }
}

/// Whether the procedure may return the value.
fn returns_kind(s: &Scope, answer: ResultKind, value: &Option<AnyOperand>) -> bool
    ensures { result ≡ spec.returns_kind s.entry.now.program.now s.entry.now.proc.now answer value.now }
{
    match value {
        None => matches!(answer, ResultKind::Void),
        Some(e) => match answer {
            ResultKind::Void => false,
            ResultKind::Int => takes(s, VarKind::Int, e),
            ResultKind::Char => takes(s, VarKind::Char, e),
            ResultKind::Ptr => takes(s, VarKind::Ptr, e),
        },
    }
}

fn number_from(s: &Scope, x: &Bytes, e: &Operand) -> bool
    ensures { result ≡ (spec.means_number (meant_in_of s.entry.now.program.now s.entry.now.proc.now x.now) && spec.is_number_operand s.entry.now.program.now s.entry.now.proc.now e.now) }
{
    let to = is_number(s, x);
    let from = is_number_operand(s, e);
    to && from
}

fn number_from_two(s: &Scope, x: &Bytes, e: &Operand, f: &Operand) -> bool
    ensures { result ≡ (spec.means_number (meant_in_of s.entry.now.program.now s.entry.now.proc.now x.now) && spec.is_number_operand s.entry.now.program.now s.entry.now.proc.now e.now && spec.is_number_operand s.entry.now.program.now s.entry.now.proc.now f.now) }
{
    let first = number_from(s, x, e);
    let second = is_number_operand(s, f);
    first && second
}

fn shifts(s: &Scope, p: &Bytes, q: &Bytes, e: &Operand) -> bool
    ensures { result ≡ (spec.means_ptr (meant_in_of s.entry.now.program.now s.entry.now.proc.now p.now) && spec.means_ptr (meant_in_of s.entry.now.program.now s.entry.now.proc.now q.now) && spec.is_number_operand s.entry.now.program.now s.entry.now.proc.now e.now) }
{
    let to = is_ptr(s, p);
    let from = is_ptr(s, q);
    let by = is_number_operand(s, e);
    to && from && by
}

fn loads(s: &Scope, x: &Bytes, p: &Bytes) -> bool
    ensures { result ≡ (spec.means_number (meant_in_of s.entry.now.program.now s.entry.now.proc.now x.now) && spec.means_ptr (meant_in_of s.entry.now.program.now s.entry.now.proc.now p.now)) }
{
    let to = is_number(s, x);
    let from = is_ptr(s, p);
    to && from
}

fn stores(s: &Scope, p: &Bytes, e: &Operand) -> bool
    ensures { result ≡ (spec.means_ptr (meant_in_of s.entry.now.program.now s.entry.now.proc.now p.now) && spec.is_number_operand s.entry.now.program.now s.entry.now.proc.now e.now) }
{
    let to = is_ptr(s, p);
    let from = is_number_operand(s, e);
    to && from
}

fn differs(s: &Scope, x: &Bytes, p: &Bytes, q: &Bytes) -> bool
    ensures { result ≡ (spec.means_number (meant_in_of s.entry.now.program.now s.entry.now.proc.now x.now) && spec.means_ptr (meant_in_of s.entry.now.program.now s.entry.now.proc.now p.now) && spec.means_ptr (meant_in_of s.entry.now.program.now s.entry.now.proc.now q.now)) }
{
    let first = loads(s, x, p);
    let second = is_ptr(s, q);
    first && second
}

/// Whether what a statement names has the kinds that the statement asks for.
pub(crate) fn has_kinds(s: &Scope, form: &Form) -> bool
    ensures { result ≡ spec.has_kinds s.entry.now.program.now s.entry.now.proc.now form.now }
{
    match form {
        Form::Assign { x, e } => number_from(s, x, e),
        Form::Sum { x, e, f } => number_from_two(s, x, e, f),
        Form::Minus { x, e, f } => number_from_two(s, x, e, f),
        Form::Product { x, e, .. } => number_from(s, x, e),
        Form::Quotient { x, e, .. } => number_from(s, x, e),
        Form::Remainder { x, e, .. } => number_from(s, x, e),
        Form::CopyPtr { p, q } => copies(s, p, q),
        Form::Address { p, object } => points_to(meant_in(s, p), meant_in(s, object)),
        Form::Shift { p, q, e } => shifts(s, p, q, e),
        Form::Load { x, p } => loads(s, x, p),
        Form::Store { p, e } => stores(s, p, e),
        Form::Get { x, w } => held_by(meant_in(s, x), meant_in(s, w)),
        Form::Put { w, value } => puts(s, w, value),
        Form::Diff { x, p, q } => differs(s, x, p, q),
        Form::Goto(_) => true,
        Form::If {
            left,
            rel,
            right,
            ..
        } => compares(s, left, *rel, right),
        Form::IfByte { p, .. } => is_ptr(s, p),
        Form::Call { into, f, args } => {
            calls(
                s,
                into,
                args.as_slice(),
                built_in(f.as_slice()),
                called(s, f),
            )
        }
        Form::Return(value) => returns_kind(s, s.proc.answer, value),
    }
}

/// Whether there is an argument for each formal.
fn counts(args: &[AnyOperand], built: Option<BuiltIn>, callee: Option<&Proc>) -> bool
    ensures { result ≡ spec.counts args.now built (option_copied callee.entry) }
{
    match built {
        Some(BuiltIn::Malloc) => args.len() == 1,
        Some(BuiltIn::Getchar) => args.is_empty(),
        Some(BuiltIn::Putchar) => args.len() == 1,
        None => match callee {
            None => true,
            Some(h) => args.len() == h.formals.len(),
        },
    }
}

/// Whether a call has an argument for each formal.
pub(crate) fn has_count(s: &Scope, form: &Form) -> bool
    ensures { result ≡ spec.has_count s.entry.now.program.now form.now }
{
    match form {
        Form::Call { f, args, .. } => counts(args.as_slice(), built_in(f.as_slice()), called(s, f)),
        _ => true,
    }
}
