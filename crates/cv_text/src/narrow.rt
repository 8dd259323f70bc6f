//! Reading straight-line programs.

ghost use Rattle.std.specs.Prelude.{◌≡◌, ◌↔◌, ◌≤◌, [], length, IsTrue, IfOk, IfSome};
ghost use Rattle.cv_core.specs.Grammar.{IsWritten};
ghost use Rattle.cv_core.specs.declared.program.Program.{Program};
ghost use Rattle.cv_text.specs.Whole.{Spells};
ghost use Rattle.cv_text.specs.Narrow.{IsNarrow};
ghost use Rattle.cv_text.specs.WholeParts.{IsWhole};
ghost use Rattle.cv_text.specs.NarrowReader as spec;
ghost use Rattle.cv_text.specs.Given.{Gives, from};

use crate::cursor::{
    ReadError, a_name, count, number, semicolon, size, the_mark, the_name, the_word,
};
use crate::lexer::next_token;
use crate::token::{Key, Sign, Token};
use cv_core::{
    AnyOperand, Bytes, Contract, Form, List, Local, LocalBody, Operand, Proc, ProcBody, Program,
    ResultKind, Stmt, VarKind,
};
use std::alloc::{AllocError, Global};

/// The two locals of a straight-line program.
#[derive(Debug, Drop)]
struct Locals {
    buffer: Bytes,
    size: u32,
    pointer: Bytes,
    buffer_first: bool,
}

#[tactic(auto, unfolding(crate::specs::NarrowReader::store))]
fn store(alloc: Global, text: &[u8], at: usize, p: &[u8]) -> Result<(Form, usize), ReadError>
    ensures { Gives text.now (λ x. (x.0, x.1)) result (spec.store p.now (from text.now at)) }
{
    let at = the_name(text, at, p)?;
    let at = the_mark(text, at, Sign::Comma)?;
    let (k, at) = number(text, at)?;
    let at = semicolon(text, at)?;
    let p = List::from_slice(alloc, p)?;
    Ok((
        Form::Store {
            p,
            e: Operand::Number(k),
        },
        at,
    ))
}

#[tactic(auto, unfolding(crate::specs::NarrowReader::address))]
fn address(
    alloc: Global,
    text: &[u8],
    at: usize,
    b: &[u8],
    p: &[u8],
) -> Result<(Form, usize), ReadError>
    ensures { Gives text.now (λ x. (x.0, x.1)) result (spec.address b.now p.now (from text.now at)) }
{
    let at = the_name(text, at, b)?;
    let at = semicolon(text, at)?;
    let p = List::from_slice(alloc, p)?;
    let object = List::from_slice(alloc, b)?;
    Ok((Form::Address { p, object }, at))
}

#[tactic(auto, unfolding(crate::specs::NarrowReader::shift))]
fn shift(alloc: Global, text: &[u8], at: usize, p: &[u8]) -> Result<(Form, usize), ReadError>
    ensures { Gives text.now (λ x. (x.0, x.1)) result (spec.shift p.now (from text.now at)) }
{
    let at = the_name(text, at, p)?;
    let at = the_mark(text, at, Sign::Plus)?;
    let (k, at) = number(text, at)?;
    let at = semicolon(text, at)?;
    let q = List::from_slice(alloc, p)?;
    let p = List::from_slice(alloc, p)?;
    Ok((
        Form::Shift {
            p,
            q,
            e: Operand::Number(k),
        },
        at,
    ))
}

#[tactic(auto, unfolding(crate::specs::NarrowReader::assignment))]
fn assignment(
    alloc: Global,
    text: &[u8],
    at: usize,
    b: &[u8],
    p: &[u8],
) -> Result<(Form, usize), ReadError>
    ensures { Gives text.now (λ x. (x.0, x.1)) result (spec.assignment b.now p.now (from text.now at)) }
{
    let at = the_name(text, at, p)?;
    let at = the_mark(text, at, Sign::Assign)?;
    let next = next_token(text, at);
    match next.token {
        Some(Token::Mark(Sign::And)) => address(alloc, text, next.end, b, p),
        _ => shift(alloc, text, at, p),
    }
}

#[tactic(auto, unfolding(crate::specs::NarrowReader::pointer_move))]
fn pointer_move(
    alloc: Global,
    text: &[u8],
    at: usize,
    b: &[u8],
    p: &[u8],
) -> Result<(Form, usize), ReadError>
    ensures { Gives text.now (λ x. (x.0, x.1)) result (spec.pointer_move b.now p.now (from text.now at)) }
{
    let next = next_token(text, at);
    match next.token {
        Some(Token::Word(Key::Store)) => store(alloc, text, next.end, p),
        _ => assignment(alloc, text, at, b, p),
    }
}

#[tactic(auto, unfolding(crate::specs::NarrowReader::number_return))]
fn number_return(text: &[u8], at: usize) -> Result<(Form, usize), ReadError>
    ensures { Gives text.now (λ x. (x.0, x.1)) result (spec.number_return (from text.now at)) }
{
    let (k, at) = number(text, at)?;
    let at = semicolon(text, at)?;
    let value = AnyOperand::Operand(Operand::Number(k));
    Ok((Form::Return(Some(value)), at))
}

/// A statement of a straight-line program.
#[derive(Debug, Drop)]
enum Step {
    Move(Stmt),
    Last(Stmt),
}

#[tactic(auto, unfolding(crate::specs::NarrowReader::statement, crate::specs::NarrowReader::last_or_move))]
fn statement(
    alloc: Global,
    text: &[u8],
    at: usize,
    b: &[u8],
    p: &[u8],
) -> Result<(Step, usize), ReadError>
    ensures { Gives text.now (λ x. (spec.step_of x.0, x.1)) result (spec.statement b.now p.now (from text.now at)) }
{
    let (line, at) = count(text, at)?;
    let at = the_mark(text, at, Sign::Colon)?;
    let next = next_token(text, at);
    match next.token {
        Some(Token::Word(Key::Return)) => {
            let (form, at) = number_return(text, next.end)?;
            Ok((Step::Last(Stmt { line, form }), at))
        }
        _ => {
            let (form, at) = pointer_move(alloc, text, at, b, p)?;
            Ok((Step::Move(Stmt { line, form }), at))
        }
    }
}

#[tactic(auto, unfolding(crate::specs::NarrowReader::buffer))]
fn buffer(alloc: Global, text: &[u8], at: usize) -> Result<((Bytes, u32), usize), ReadError>
    ensures { Gives text.now (λ x. (x.0, x.1)) result (spec.buffer (from text.now at)) }
{
    let (name, at) = a_name(alloc, text, at)?;
    let (bytes, at) = size(text, at)?;
    let at = semicolon(text, at)?;
    Ok(((name, bytes), at))
}

#[tactic(auto, unfolding(crate::specs::NarrowReader::pointer))]
fn pointer(alloc: Global, text: &[u8], at: usize) -> Result<(Bytes, usize), ReadError>
    ensures { Gives text.now (λ x. (x.0, x.1)) result (spec.pointer (from text.now at)) }
{
    let (name, at) = a_name(alloc, text, at)?;
    let at = semicolon(text, at)?;
    Ok((name, at))
}

#[tactic(auto, unfolding(crate::specs::NarrowReader::buffer_first))]
fn buffer_first(alloc: Global, text: &[u8], at: usize) -> Result<(Locals, usize), ReadError>
    ensures { Gives text.now (λ x. (x.0, x.1)) result (spec.buffer_first (from text.now at)) }
{
    let ((buffer, size), at) = buffer(alloc, text, at)?;
    let at = the_word(text, at, Key::Ptr)?;
    let (pointer, at) = pointer(alloc, text, at)?;
    Ok((
        Locals {
            buffer,
            size,
            pointer,
            buffer_first: true,
        },
        at,
    ))
}

#[tactic(auto, unfolding(crate::specs::NarrowReader::pointer_first))]
fn pointer_first(alloc: Global, text: &[u8], at: usize) -> Result<(Locals, usize), ReadError>
    ensures { Gives text.now (λ x. (x.0, x.1)) result (spec.pointer_first (from text.now at)) }
{
    let at = the_word(text, at, Key::Ptr)?;
    let (pointer, at) = pointer(alloc, text, at)?;
    let at = the_word(text, at, Key::Buf)?;
    let ((buffer, size), at) = buffer(alloc, text, at)?;
    Ok((
        Locals {
            buffer,
            size,
            pointer,
            buffer_first: false,
        },
        at,
    ))
}

#[tactic(auto, unfolding(crate::specs::NarrowReader::locals))]
fn two_locals(alloc: Global, text: &[u8], at: usize) -> Result<(Locals, usize), ReadError>
    ensures { Gives text.now (λ x. (x.0, x.1)) result (spec.locals (from text.now at)) }
{
    let next = next_token(text, at);
    match next.token {
        Some(Token::Word(Key::Buf)) => buffer_first(alloc, text, next.end),
        _ => pointer_first(alloc, text, at),
    }
}

#[tactic(auto, unfolding(crate::specs::NarrowReader::statements))]
fn statements(
    alloc: Global,
    text: &[u8],
    at: usize,
    b: &[u8],
    p: &[u8],
) -> Result<(List<Stmt>, usize), ReadError>
    ensures { Gives text.now (λ x. (x.0, x.1)) result (spec.statements b.now p.now (from text.now at)) }
{
    let mut stmts = List::new(alloc);
    let mut here = at;
    loop {
        let (step, after) = statement(alloc, text, here, b, p)?;
        match step {
            Step::Last(stmt) => {
                stmts.push(stmt)?;
                return Ok((stmts, after));
            }
            Step::Move(stmt) => {
                stmts.push(stmt)?;
                here = after;
            }
        }
    }
}

#[tactic(auto, unfolding(crate::specs::NarrowReader::body))]
fn body(alloc: Global, text: &[u8], at: usize) -> Result<((Locals, List<Stmt>), usize), ReadError>
    ensures { Gives text.now (λ x. (x.0, x.1)) result (spec.body (from text.now at)) }
{
    let (locals, at) = two_locals(alloc, text, at)?;
    let b = locals.buffer.as_slice();
    let p = locals.pointer.as_slice();
    let (stmts, at) = statements(alloc, text, at, b, p)?;
    let at = the_mark(text, at, Sign::CloseBrace)?;
    Ok(((locals, stmts), at))
}

/// A program of one `int main()` with two locals and straight-line statements, whatever their number and the names are.
#[derive(Debug, Drop)]
struct Parts {
    line: u32,
    locals: Locals,
    stmts: List<Stmt>,
}

#[tactic(auto, unfolding(crate::specs::NarrowReader::narrow, crate::specs::NarrowReader::heading_and_body))]
fn all_parts(alloc: Global, text: &[u8]) -> Result<(Parts, usize), ReadError>
    ensures { Gives text.now (λ x. ((x.0.line, (x.0.locals, x.0.stmts)), x.1)) result (spec.narrow (from text.now 0)) }
{
    let (line, at) = count(text, 0)?;
    let at = the_mark(text, at, Sign::Colon)?;
    let at = the_word(text, at, Key::Proc)?;
    let at = the_word(text, at, Key::Int)?;
    let at = the_name(text, at, b"main")?;
    let at = the_mark(text, at, Sign::Open)?;
    let at = the_mark(text, at, Sign::Close)?;
    let at = the_mark(text, at, Sign::OpenBrace)?;
    let ((locals, stmts), at) = body(alloc, text, at)?;
    Ok((
        Parts {
            line,
            locals,
            stmts,
        },
        at,
    ))
}

fn same_names(a: &[u8], b: &[u8]) -> bool
    ensures { IsTrue result ↔ (a.now ≡ b.now) }
{
    a == b
}

fn is_at_end(text: &[u8], at: usize) -> bool
    ensures { IsTrue result ↔ (from text.now at ≡ []) }
{
    next_token(text, at).token.is_none()
}

fn the_locals(alloc: Global, locals: Locals) -> Result<List<Local>, AllocError>
    ensures { IfOk result (λ ls. ls ≡ spec.locals_of locals) }
{
    let Locals {
        buffer,
        size,
        pointer,
        buffer_first,
    } = locals;
    let buffer = Local {
        name: buffer,
        body: LocalBody::Buffer(size),
    };
    let pointer = Local {
        name: pointer,
        body: LocalBody::Var(VarKind::Ptr),
    };
    let mut both = List::new(alloc);
    if buffer_first {
        both.push(buffer)?;
        both.push(pointer)?;
    } else {
        both.push(pointer)?;
        both.push(buffer)?;
    }
    Ok(both)
}

fn main_of(alloc: Global, parts: Parts) -> Result<Proc, AllocError>
    ensures { IfOk result (λ f. f ≡ spec.main_of (parts.line, (parts.locals, parts.stmts))) }
{
    let Parts {
        line,
        locals,
        stmts,
    } = parts;
    let locals = the_locals(alloc, locals)?;
    Ok(Proc {
        line,
        answer: ResultKind::Int,
        name: List::from_slice(alloc, b"main")?,
        formals: List::new(alloc),
        contract: Contract {
            listed: List::new(alloc),
            needs: List::new(alloc),
            changes: List::new(alloc),
            gives: List::new(alloc),
        },
        body: Some(ProcBody { locals, stmts }),
    })
}

fn program_of(alloc: Global, parts: Parts) -> Result<Program, AllocError>
    requires { IsWritten (spec.program_of (parts.line, (parts.locals, parts.stmts))) }
    ensures { IfOk result (λ p. p ≡ spec.program_of (parts.line, (parts.locals, parts.stmts))) }
{
    let main = main_of(alloc, parts)?;
    let mut procs = List::new(alloc);
    procs.push(main)?;
    Ok(Program {
        globals: List::new(alloc),
        literals: List::new(alloc),
        procs,
    })
}

/// The greatest number of statements of a straight-line program.
const STATEMENTS: usize = 100;

/// Whether the parts end with the text, the two names differ, and the statements are not too many.
fn is_whole(text: &[u8], at: usize, parts: &Parts) -> bool
    ensures { IsTrue result ↔ IsWhole text.now at parts.now.locals parts.now.stmts }
{
    let buffer = parts.locals.buffer.as_slice();
    let pointer = parts.locals.pointer.as_slice();
    is_at_end(text, at) && !same_names(buffer, pointer) && parts.stmts.len() <= STATEMENTS
}

/// The straight-line program that the text spells; None exactly where it spells none. An error is want of memory.
pub fn read_narrow(alloc: Global, text: &[u8]) -> Result<Option<Program>, AllocError>
    // What is given is spelled by the text, and is a straight-line program.
    ensures spelled { IfOk result (λ o. IfSome o (λ p. Spells text.now p × IsNarrow p)) }
    // Where the text spells a straight-line program, that one is given.
    ensures only { (p : Program) → Spells text.now p → IsNarrow p → IfOk result (λ o. o ≡ Some p) }
{
    let (parts, at) = match all_parts(alloc, text) {
        Ok(found) => found,
        Err(ReadError::Memory) => return Err(AllocError),
        Err(ReadError::Fault(_)) => return Ok(None),
    };
    if !is_whole(text, at, &parts) {
        return Ok(None);
    }
    let program = program_of(alloc, parts)?;
    Ok(Some(program))
}
