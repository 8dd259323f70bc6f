//! Look-ups that every layer needs: the parts of a procedure, what a name is declared as, and numbers of objects.
ghost use Rattle.std.specs.Prelude.{◌≡◌, ◌<◌, ◌≤◌, IfSome, bytes_eq, codes, length};
ghost use Rattle.std.specs.Option.{option_copied};
ghost use Rattle.cv_core.specs.Headings.{is_main as main_name};
ghost use Rattle.cv_core.specs.Meant.{built_in as built_in_of, built_in_answer as answer_of, called as called_of};
ghost use Rattle.cv_core.specs.Names as spec;

use crate::program::{
    Form, Formal, GlobalBody, GlobalDecl, Literal, Local, LocalBody, Proc, Program, ResultKind,
    Stmt, VarKind,
};

/// The procedures that every program has.
#[derive(Clone, Copy, Debug, PartialEq, Eq)]
pub enum BuiltIn {
    Malloc,
    Getchar,
    Putchar,
}

// ---- parts of a procedure

/// The locals of a procedure; none without a body.
pub fn locals_of(f: &Proc) -> &[Local]
    ensures { result.now ≡ spec.locals_of f.now.body }
{
    match &f.body {
        None => &[],
        Some(body) => body.locals.as_slice(),
    }
}

/// The statements of a procedure; none without a body.
pub fn stmts_of(f: &Proc) -> &[Stmt]
    ensures { result.now ≡ spec.stmts_of f.now.body }
{
    match &f.body {
        None => &[],
        Some(body) => body.stmts.as_slice(),
    }
}

// ---- kinds

/// Whether a variable of the kind holds a pointer.
pub fn is_pointer_kind(kind: VarKind) -> bool
    ensures { result ≡ spec.is_pointer_kind kind }
{
    matches!(kind, VarKind::Ptr | VarKind::Pptr | VarKind::Iptr)
}

/// Whether a local is a buffer or a cell, which a procedure makes as it is entered.
pub fn is_object(body: LocalBody) -> bool
    ensures { result ≡ spec.is_object body }
{
    !matches!(body, LocalBody::Var(_))
}

/// Whether a local is a variable that holds a pointer.
pub fn is_pointer_local(body: LocalBody) -> bool
    ensures { result ≡ spec.is_pointer_local body }
{
    match body {
        LocalBody::Var(kind) => is_pointer_kind(kind),
        LocalBody::Buffer(_) => false,
        LocalBody::PointerCell => false,
        LocalBody::IntCell => false,
    }
}

/// Whether a local is a cell that holds a pointer.
pub fn is_pointer_cell(body: LocalBody) -> bool
    ensures { result ≡ spec.is_pointer_cell body }
{
    matches!(body, LocalBody::PointerCell)
}

/// Whether a global is a cell that holds a pointer.
pub fn is_pointer_global(body: GlobalBody) -> bool
    ensures { result ≡ spec.is_pointer_global body }
{
    matches!(body, GlobalBody::Pointer)
}

fn kind_of_local(body: LocalBody) -> VarKind
    ensures { result ≡ spec.kind_of_local body }
{
    match body {
        LocalBody::Var(kind) => kind,
        _ => VarKind::Int,
    }
}

fn kind_in_locals(locals: &[Local], x: &[u8]) -> VarKind
    ensures { result ≡ spec.kind_in_locals x.now locals.now }
{
    match locals {
        [] => VarKind::Int,
        [first, rest @ ..] => {
            if first.name.as_slice() == x {
                kind_of_local(first.body)
            } else {
                kind_in_locals(rest, x)
            }
        }
    }
}

fn kind_among(formals: &[Formal], locals: &[Local], x: &[u8]) -> VarKind
    ensures { result ≡ spec.kind_among x.now formals.now locals.now }
{
    match formals {
        [] => kind_in_locals(locals, x),
        [first, rest @ ..] => {
            if first.name.as_slice() == x {
                first.kind
            } else {
                kind_among(rest, locals, x)
            }
        }
    }
}

/// The kind of a variable of the procedure by its first declaration; a name that declares none counts as an int.
pub fn kind_of(f: &Proc, x: &[u8]) -> VarKind
    ensures { result ≡ spec.kind_of f.now x.now }
{
    kind_among(f.formals.as_slice(), locals_of(f), x)
}

fn declared_kind(body: LocalBody) -> Option<VarKind>
    ensures { result ≡ spec.declared_kind body }
{
    match body {
        LocalBody::Var(kind) => Some(kind),
        _ => None,
    }
}

fn variable_in_locals(locals: &[Local], x: &[u8]) -> Option<VarKind>
    ensures { result ≡ spec.declared_in_locals x.now locals.now }
{
    match locals {
        [] => None,
        [first, rest @ ..] => {
            if first.name.as_slice() == x {
                declared_kind(first.body)
            } else {
                variable_in_locals(rest, x)
            }
        }
    }
}

fn variable_among(formals: &[Formal], locals: &[Local], x: &[u8]) -> Option<VarKind>
    ensures { result ≡ spec.declared_among x.now formals.now locals.now }
{
    match formals {
        [] => variable_in_locals(locals, x),
        [first, rest @ ..] => {
            if first.name.as_slice() == x {
                Some(first.kind)
            } else {
                variable_among(rest, locals, x)
            }
        }
    }
}

/// The kind of a variable of the procedure by its first declaration; None where that is an object, or there is none.
pub fn variable_kind(f: &Proc, x: &[u8]) -> Option<VarKind>
    ensures { result ≡ spec.variable_kind f.now x.now }
{
    variable_among(f.formals.as_slice(), locals_of(f), x)
}

// ---- procedures by name

/// Whether a name is that of the procedure with which a run begins.
pub fn is_main(name: &[u8]) -> bool
    ensures { result ≡ main_name name.now }
{
    name == b"main".as_slice()
}

/// The built-in procedure of a name.
pub fn built_in(name: &[u8]) -> Option<BuiltIn>
    ensures { result ≡ built_in_of name.now }
{
    if name == b"malloc".as_slice() {
        Some(BuiltIn::Malloc)
    } else if name == b"getchar".as_slice() {
        Some(BuiltIn::Getchar)
    } else if name == b"putchar".as_slice() {
        Some(BuiltIn::Putchar)
    } else {
        None
    }
}

/// What a built-in procedure answers.
pub fn built_in_answer(callee: BuiltIn) -> ResultKind
    ensures { result ≡ answer_of callee }
{
    match callee {
        BuiltIn::Malloc => ResultKind::Ptr,
        BuiltIn::Getchar => ResultKind::Int,
        BuiltIn::Putchar => ResultKind::Int,
    }
}

/// The first procedure of the program that has the name, by a walk; a built-in one is none of them.
pub fn called<'a>(p: &'a Program, name: &[u8]) -> Option<&'a Proc>
    ensures { option_copied result ≡ called_of p.now name.now }
{
    let procs = p.procs.as_slice();
    procs.iter().find(|h| h.name.as_slice() == name)
}

/// Whether a name is that of the built-in procedure that allocates.
pub fn is_malloc_name(name: &[u8]) -> bool
    ensures { result ≡ bytes_eq name.now (codes "malloc") }
{
    name == b"malloc".as_slice()
}

/// Whether a statement calls `malloc`.
pub fn is_malloc(form: &Form) -> bool
    ensures { result ≡ spec.is_malloc form.now }
{
    match form {
        Form::Call { f, .. } => is_malloc_name(f.as_slice()),
        _ => false,
    }
}

/// Whether a statement calls `getchar`.
pub fn is_getchar(form: &Form) -> bool
    ensures { result ≡ spec.is_getchar form.now }
{
    match form {
        Form::Call { f, .. } => f.as_slice() == b"getchar".as_slice(),
        _ => false,
    }
}

// ---- objects by name and by number

/// The number, from 0, of the first of the procedure's objects that has the name.
pub fn object_place(f: &Proc, x: &[u8]) -> Option<usize>
    ensures { result ≡ spec.place_of (λ l. l.name) x.now (spec.objects_of f.now) }
{
    locals_of(f)
        .iter()
        .filter(|l| is_object(l.body))
        .position(|l| l.name.as_slice() == x)
}

/// The number, from 0, of the first global that has the name.
pub fn global_place(globals: &[GlobalDecl], x: &[u8]) -> Option<usize>
    ensures place { result ≡ spec.place_of (λ g. g.name) x.now globals.now }
    ensures within { IfSome result (λ i. i < length globals.now) }
{
    globals.iter().position(|g| g.name.as_slice() == x)
}

/// The number, from 0, of the first literal that has the name.
pub fn literal_place(literals: &[Literal], x: &[u8]) -> Option<usize>
    ensures place { result ≡ spec.place_of (λ l. l.name) x.now literals.now }
    ensures within { IfSome result (λ i. i < length literals.now) }
{
    literals.iter().position(|l| l.name.as_slice() == x)
}

/// How many buffers and cells a procedure makes as it is entered.
pub fn object_count(f: &Proc) -> usize
    ensures count { result ≡ length (spec.objects_of f.now) }
    ensures within { result ≤ length (spec.locals_of f.now.body) }
{
    locals_of(f).iter().filter(|l| is_object(l.body)).count()
}

/// How many of the statements are calls of `malloc`.
#[tactic(auto, using(crate::proofs::Counts::count_yes, crate::proofs::Counts::count_no))]
pub fn malloc_count(stmts: &[Stmt]) -> usize
    ensures count { result ≡ spec.mallocs_in stmts.now }
    ensures within { result ≤ length stmts.now }
{
    match stmts {
        [] => 0,
        [first, rest @ ..] => {
            let later = malloc_count(rest);
            if is_malloc(&first.form) {
                later + 1
            } else {
                later
            }
        }
    }
}
