//! Printing programs.
ghost use Rattle.std.specs.Prelude.{◌≡◌, ◌++◌, ◌∷◌, [], codes, decimal, flat_map, OnOk, IfOk};
ghost use Rattle.cv_text.specs.PrintedContract.{joined};
ghost use Rattle.cv_text.specs.Printed as spec;

use crate::print_contract::{push_contract, push_natural};
use crate::print_statement::push_statements;
use cv_core::{
    Formal, GlobalBody, GlobalDecl, Literal, Local, LocalBody, Proc, ProcBody, Program, ResultKind,
    VarKind,
};
use std::alloc::{AllocError, Global};

/// Appends a kind and a blank.
fn push_kind(out: &mut Vec<u8>, k: VarKind) -> Result<(), AllocError>
    ensures { OnOk result (out.new.items ≡ out.old.items ++ spec.kind_text k) }
{
    let text: &[u8] = match k {
        VarKind::Int => b"int ",
        VarKind::Char => b"char ",
        VarKind::Ptr => b"ptr ",
        VarKind::Pptr => b"pptr ",
        VarKind::Iptr => b"iptr ",
    };
    out.extend_from_slice(text)?;
    Ok(())
}

/// Appends a word with a blank, a name and the semicolon.
fn push_named(out: &mut Vec<u8>, word: &[u8], x: &[u8]) -> Result<(), AllocError>
    ensures { OnOk result (out.new.items ≡ out.old.items ++ (word.now ++ x.now ++ codes ";")) }
{
    out.extend_from_slice(word)?;
    out.extend_from_slice(x)?;
    out.push(b';')?;
    Ok(())
}

/// Appends a word with a blank, a name, a size and the semicolon.
fn push_sized(out: &mut Vec<u8>, word: &[u8], x: &[u8], size: u32) -> Result<(), AllocError>
    ensures { OnOk result (out.new.items ≡ out.old.items ++ (word.now ++ x.now ++ codes " " ++ decimal size ++ codes ";")) }
{
    out.extend_from_slice(word)?;
    out.extend_from_slice(x)?;
    out.push(b' ')?;
    push_natural(out, size)?;
    out.push(b';')?;
    Ok(())
}

fn push_variable(out: &mut Vec<u8>, k: VarKind, x: &[u8]) -> Result<(), AllocError>
    ensures { OnOk result (out.new.items ≡ out.old.items ++ (spec.kind_text k ++ x.now ++ codes ";")) }
{
    push_kind(out, k)?;
    out.extend_from_slice(x)?;
    out.push(b';')?;
    Ok(())
}

fn push_local_phrase(out: &mut Vec<u8>, x: &[u8], body: LocalBody) -> Result<(), AllocError>
    ensures { OnOk result (out.new.items ≡ out.old.items ++ spec.local_phrase x.now body) }
{
    match body {
        LocalBody::Var(k) => push_variable(out, k, x),
        LocalBody::Buffer(n) => push_sized(out, b"buf ", x, n),
        LocalBody::PointerCell => push_named(out, b"pcell ", x),
        LocalBody::IntCell => push_named(out, b"icell ", x),
    }
}

/// Appends the line of a local.
fn push_local(out: &mut Vec<u8>, l: &Local) -> Result<(), AllocError>
    ensures { OnOk result (out.new.items ≡ out.old.items ++ spec.local_text l.now) }
{
    push_local_phrase(out, l.name.as_slice(), l.body)?;
    out.push(b'\n')?;
    Ok(())
}

fn push_locals(out: &mut Vec<u8>, locals: &[Local]) -> Result<(), AllocError>
    ensures { OnOk result (out.new.items ≡ out.old.items ++ flat_map spec.local_text locals.now) }
{
    for l in locals {
        push_local(out, l)?;
    }
    Ok(())
}

fn push_global_phrase(out: &mut Vec<u8>, x: &[u8], body: GlobalBody) -> Result<(), AllocError>
    ensures { OnOk result (out.new.items ≡ out.old.items ++ spec.global_phrase x.now body) }
{
    match body {
        GlobalBody::Buffer(n) => push_sized(out, b"global buf ", x, n),
        GlobalBody::Pointer => push_named(out, b"global ptr ", x),
        GlobalBody::Int => push_named(out, b"global int ", x),
    }
}

/// Appends the line of a global.
fn push_global(out: &mut Vec<u8>, g: &GlobalDecl) -> Result<(), AllocError>
    ensures { OnOk result (out.new.items ≡ out.old.items ++ spec.global_text g.now) }
{
    push_global_phrase(out, g.name.as_slice(), g.body)?;
    out.push(b'\n')?;
    Ok(())
}

fn push_globals(out: &mut Vec<u8>, globals: &[GlobalDecl]) -> Result<(), AllocError>
    ensures { OnOk result (out.new.items ≡ out.old.items ++ flat_map spec.global_text globals.now) }
{
    for g in globals {
        push_global(out, g)?;
    }
    Ok(())
}

fn push_later_bytes(out: &mut Vec<u8>, bytes: &[u8]) -> Result<(), AllocError>
    ensures { OnOk result (out.new.items ≡ out.old.items ++ flat_map (λ b. codes ", " ++ decimal b) bytes.now) }
{
    for b in bytes {
        out.extend_from_slice(b", ")?;
        push_natural(out, u32::from(*b))?;
    }
    Ok(())
}

/// Appends the bytes of a literal, with a blank behind the last one.
fn push_bytes(out: &mut Vec<u8>, bytes: &[u8]) -> Result<(), AllocError>
    ensures { OnOk result (out.new.items ≡ out.old.items ++ spec.bytes_text bytes.now) }
{
    match bytes {
        [] => Ok(()),
        [first, rest @ ..] => {
            push_natural(out, u32::from(*first))?;
            push_later_bytes(out, rest)?;
            out.push(b' ')?;
            Ok(())
        }
    }
}

/// Appends the line of a literal.
fn push_literal(out: &mut Vec<u8>, l: &Literal) -> Result<(), AllocError>
    ensures { OnOk result (out.new.items ≡ out.old.items ++ spec.literal_text l.now) }
{
    out.extend_from_slice(b"literal ")?;
    out.extend_from_slice(l.name.as_slice())?;
    out.extend_from_slice(b" { ")?;
    push_bytes(out, l.bytes.as_slice())?;
    out.extend_from_slice(b"};\n")?;
    Ok(())
}

fn push_literals(out: &mut Vec<u8>, literals: &[Literal]) -> Result<(), AllocError>
    ensures { OnOk result (out.new.items ≡ out.old.items ++ flat_map spec.literal_text literals.now) }
{
    for l in literals {
        push_literal(out, l)?;
    }
    Ok(())
}

/// Appends what a procedure answers, and a blank.
fn push_answer(out: &mut Vec<u8>, k: ResultKind) -> Result<(), AllocError>
    ensures { OnOk result (out.new.items ≡ out.old.items ++ spec.answer_text k) }
{
    let text: &[u8] = match k {
        ResultKind::Void => b"void ",
        ResultKind::Int => b"int ",
        ResultKind::Char => b"char ",
        ResultKind::Ptr => b"ptr ",
    };
    out.extend_from_slice(text)?;
    Ok(())
}

fn push_formal(out: &mut Vec<u8>, f: &Formal) -> Result<(), AllocError>
    ensures { OnOk result (out.new.items ≡ out.old.items ++ spec.formal_text f.now) }
{
    push_kind(out, f.kind)?;
    out.extend_from_slice(f.name.as_slice())?;
    Ok(())
}

fn push_later_formals(out: &mut Vec<u8>, formals: &[Formal]) -> Result<(), AllocError>
    ensures { OnOk result (out.new.items ≡ out.old.items ++ flat_map (λ f. codes ", " ++ spec.formal_text f) formals.now) }
{
    for f in formals {
        out.extend_from_slice(b", ")?;
        push_formal(out, f)?;
    }
    Ok(())
}

fn push_formals(out: &mut Vec<u8>, formals: &[Formal]) -> Result<(), AllocError>
    ensures { OnOk result (out.new.items ≡ out.old.items ++ joined (codes ", ") spec.formal_text formals.now) }
{
    match formals {
        [] => Ok(()),
        [first, rest @ ..] => {
            push_formal(out, first)?;
            push_later_formals(out, rest)
        }
    }
}

/// Appends a heading up to the name.
fn push_name(
    out: &mut Vec<u8>,
    line: u32,
    answer: ResultKind,
    name: &[u8],
) -> Result<(), AllocError>
    ensures { OnOk result (out.new.items ≡ out.old.items ++ (decimal line ++ codes ": proc " ++ spec.answer_text answer ++ name.now)) }
{
    push_natural(out, line)?;
    out.extend_from_slice(b": proc ")?;
    push_answer(out, answer)?;
    out.extend_from_slice(name)?;
    Ok(())
}

/// Appends the line of a heading.
fn push_heading(out: &mut Vec<u8>, f: &Proc) -> Result<(), AllocError>
    ensures { OnOk result (out.new.items ≡ out.old.items ++ spec.heading_text f.now) }
{
    push_name(out, f.line, f.answer, f.name.as_slice())?;
    out.push(b'(')?;
    push_formals(out, f.formals.as_slice())?;
    out.extend_from_slice(b")\n")?;
    Ok(())
}

fn push_braced(out: &mut Vec<u8>, b: &ProcBody) -> Result<(), AllocError>
    ensures { OnOk result (out.new.items ≡ out.old.items ++ spec.braced_text b.now) }
{
    out.extend_from_slice(b"{\n")?;
    push_locals(out, b.locals.as_slice())?;
    push_statements(out, b.stmts.as_slice())?;
    out.extend_from_slice(b"}\n")?;
    Ok(())
}

fn push_body(out: &mut Vec<u8>, body: &Option<ProcBody>) -> Result<(), AllocError>
    ensures { OnOk result (out.new.items ≡ out.old.items ++ spec.body_text body.now) }
{
    match body {
        None => {
            out.extend_from_slice(b"extern;\n")?;
            Ok(())
        }
        Some(b) => push_braced(out, b),
    }
}

/// Appends the lines of a procedure.
#[tactic(auto, unfolding(crate::specs::Printed::proc_text))]
fn push_proc(out: &mut Vec<u8>, f: &Proc) -> Result<(), AllocError>
    ensures { OnOk result (out.new.items ≡ out.old.items ++ spec.proc_text f.now) }
{
    push_heading(out, f)?;
    push_contract(out, &f.contract)?;
    push_body(out, &f.body)
}

fn push_procs(out: &mut Vec<u8>, procs: &[Proc]) -> Result<(), AllocError>
    ensures { OnOk result (out.new.items ≡ out.old.items ++ flat_map spec.proc_text procs.now) }
{
    for f in procs {
        push_proc(out, f)?;
    }
    Ok(())
}

/// The one printed text of a program: each global, literal, heading, clause, brace, local and statement on
/// a line of its own. An error is want of memory.
#[tactic(auto, unfolding(crate::specs::Printed::program_text))]
pub fn print_core(alloc: Global, p: &Program) -> Result<Vec<u8>, AllocError>
    ensures text { IfOk result (λ bytes. bytes.items ≡ spec.program_text p.now) }
{
    let mut out = Vec::new(alloc);
    push_globals(&mut out, p.globals.as_slice())?;
    push_literals(&mut out, p.literals.as_slice())?;
    push_procs(&mut out, p.procs.as_slice())?;
    Ok(out)
}
