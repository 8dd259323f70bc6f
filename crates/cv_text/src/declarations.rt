//! Reading globals, literals, formals, locals and bodies.

ghost use Rattle.std.specs.Prelude.{◌≡◌, ◌++◌};
ghost use Rattle.cv_reading.specs.Lists.{item_or_end};
ghost use Rattle.cv_text.specs.Grammar.{is_pointer, variables_of};
ghost use Rattle.cv_text.specs.Known.{points};
ghost use Rattle.cv_text.specs.DeclarationReader as spec;
ghost use Rattle.cv_text.specs.Given.{Gives, from};

use crate::cursor::{ReadError, a_name, digits_within, semicolon, size, the_mark, the_word};
use crate::lexer::next_token;
use crate::names::Scope;
use crate::operands::ended_name;
use crate::statements::statement;
use crate::token::{Key, Sign, Token};
use cv_core::{
    Bytes, Formal, GlobalBody, GlobalDecl, List, Literal, Local, LocalBody, ProcBody, ResultKind,
    Stmt, VarKind,
};
use std::alloc::Global;

/// What the first word of a local says.
#[derive(Clone, Copy, Debug, PartialEq, Eq)]
pub enum LocalStart {
    Variable(VarKind),
    Buffer,
    PointerCell,
    IntCell,
}

fn kind_by(key: Key) -> Option<VarKind>
    ensures { result ≡ spec.kind_by key }
{
    match key {
        Key::Int => Some(VarKind::Int),
        Key::Char => Some(VarKind::Char),
        Key::Ptr => Some(VarKind::Ptr),
        Key::Pptr => Some(VarKind::Pptr),
        Key::Iptr => Some(VarKind::Iptr),
        _ => None,
    }
}

/// The kind of a variable that has to stand next, and the place behind it.
#[tactic(auto, unfolding(crate::specs::DeclarationReader::kind))]
fn kind(text: &[u8], at: usize) -> Result<(VarKind, usize), ReadError>
    ensures { Gives text.now (λ x. (x.0, x.1)) result (spec.kind (from text.now at)) }
{
    let next = next_token(text, at);
    if let Some(Token::Word(key)) = next.token {
        if let Some(kind) = kind_by(key) {
            return Ok((kind, next.end));
        }
    }
    Err(ReadError::Fault(at))
}

fn answer_by(key: Key) -> Option<ResultKind>
    ensures { result ≡ spec.answer_by key }
{
    match key {
        Key::Void => Some(ResultKind::Void),
        Key::Int => Some(ResultKind::Int),
        Key::Char => Some(ResultKind::Char),
        Key::Ptr => Some(ResultKind::Ptr),
        _ => None,
    }
}

/// The kind of a result that has to stand next, and the place behind it.
#[tactic(auto, unfolding(crate::specs::DeclarationReader::answer))]
pub fn answer(text: &[u8], at: usize) -> Result<(ResultKind, usize), ReadError>
    ensures { Gives text.now (λ x. (x.0, x.1)) result (spec.answer (from text.now at)) }
{
    let next = next_token(text, at);
    if let Some(Token::Word(key)) = next.token {
        if let Some(answer) = answer_by(key) {
            return Ok((answer, next.end));
        }
    }
    Err(ReadError::Fault(at))
}

/// A name, a size in bytes and a semicolon.
#[tactic(auto, unfolding(crate::specs::DeclarationReader::sized_name))]
fn sized_name(alloc: Global, text: &[u8], at: usize) -> Result<((Bytes, u32), usize), ReadError>
    ensures { Gives text.now (λ x. (x.0, x.1)) result (spec.sized_name (from text.now at)) }
{
    let (name, at) = a_name(alloc, text, at)?;
    let (bytes, at) = size(text, at)?;
    let at = semicolon(text, at)?;
    Ok(((name, bytes), at))
}

/// What stands behind the word of a global.
#[tactic(auto, unfolding(crate::specs::DeclarationReader::global_rest))]
fn global_rest(alloc: Global, text: &[u8], at: usize) -> Result<(GlobalDecl, usize), ReadError>
    ensures { Gives text.now (λ x. (x.0, x.1)) result (spec.global_rest (from text.now at)) }
{
    let next = next_token(text, at);
    match next.token {
        Some(Token::Word(Key::Buf)) => {
            let ((name, size), at) = sized_name(alloc, text, next.end)?;
            let body = GlobalBody::Buffer(size);
            Ok((GlobalDecl { name, body }, at))
        }
        Some(Token::Word(Key::Ptr)) => {
            let (name, at) = ended_name(alloc, text, next.end)?;
            let body = GlobalBody::Pointer;
            Ok((GlobalDecl { name, body }, at))
        }
        _ => {
            let at = the_word(text, at, Key::Int)?;
            let (name, at) = ended_name(alloc, text, at)?;
            let body = GlobalBody::Int;
            Ok((GlobalDecl { name, body }, at))
        }
    }
}

#[tactic(auto, unfolding(crate::specs::DeclarationReader::global))]
fn global(alloc: Global, text: &[u8], at: usize) -> Result<(GlobalDecl, usize), ReadError>
    ensures { Gives text.now (λ x. (x.0, x.1)) result (spec.global (from text.now at)) }
{
    let at = the_word(text, at, Key::Global)?;
    global_rest(alloc, text, at)
}

#[tactic(auto, unfolding(crate::specs::DeclarationReader::next_global))]
fn next_global(
    alloc: Global,
    text: &[u8],
    at: usize,
) -> Result<(Option<GlobalDecl>, usize), ReadError>
    ensures { Gives text.now (λ x. (item_or_end x.0, x.1)) result (spec.next_global (from text.now at)) }
{
    match next_token(text, at).token {
        Some(Token::Word(Key::Global)) => {
            let (global, at) = global(alloc, text, at)?;
            Ok((Some(global), at))
        }
        _ => Ok((None, at)),
    }
}

/// The globals that stand next, and the place behind them.
#[tactic(auto, unfolding(crate::specs::DeclarationReader::globals))]
pub fn globals(
    alloc: Global,
    text: &[u8],
    at: usize,
) -> Result<(List<GlobalDecl>, usize), ReadError>
    ensures { Gives text.now (λ x. (x.0, x.1)) result (spec.globals (from text.now at)) }
{
    let mut globals = List::new(alloc);
    let mut here = at;
    loop {
        let (item, after) = next_global(alloc, text, here)?;
        let Some(global) = item else {
            return Ok((globals, after));
        };
        globals.push(global)?;
        here = after;
    }
}

/// A byte in decimal digits.
#[tactic(auto, unfolding(crate::specs::DeclarationReader::byte))]
fn byte(text: &[u8], at: usize) -> Result<(u8, usize), ReadError>
    ensures { Gives text.now (λ x. (x.0, x.1)) result (spec.byte (from text.now at)) }
{
    let (value, at) = digits_within(text, at, 0, 256)?;
    Ok((value as u8, at))
}

#[tactic(auto, unfolding(crate::specs::DeclarationReader::next_byte))]
fn next_byte(text: &[u8], at: usize) -> Result<(Option<u8>, usize), ReadError>
    ensures { Gives text.now (λ x. (item_or_end x.0, x.1)) result (spec.next_byte (from text.now at)) }
{
    let next = next_token(text, at);
    match next.token {
        Some(Token::Mark(Sign::CloseBrace)) => Ok((None, next.end)),
        _ => {
            let at = the_mark(text, at, Sign::Comma)?;
            let (byte, at) = byte(text, at)?;
            Ok((Some(byte), at))
        }
    }
}

/// The bytes behind these, and the place behind the brace that closes them.
fn bytes_onto(text: &[u8], at: usize, before: Bytes) -> Result<(Bytes, usize), ReadError>
    ensures { Gives text.now (λ x. (x.0, x.1)) result (spec.bytes_onto before (from text.now at)) }
{
    let mut bytes = before;
    let mut here = at;
    loop {
        let (item, after) = next_byte(text, here)?;
        let Some(byte) = item else {
            return Ok((bytes, after));
        };
        bytes.push(byte)?;
        here = after;
    }
}

/// Bytes up to the brace that closes them, and the place behind it.
#[tactic(auto, unfolding(crate::specs::DeclarationReader::bytes, crate::specs::DeclarationReader::bytes_onto))]
fn bytes(alloc: Global, text: &[u8], at: usize) -> Result<(Bytes, usize), ReadError>
    ensures { Gives text.now (λ x. (x.0, x.1)) result (spec.bytes (from text.now at)) }
{
    let next = next_token(text, at);
    match next.token {
        Some(Token::Mark(Sign::CloseBrace)) => Ok((List::new(alloc), next.end)),
        _ => {
            let (first, at) = byte(text, at)?;
            let mut before = List::new(alloc);
            before.push(first)?;
            bytes_onto(text, at, before)
        }
    }
}

#[tactic(auto, unfolding(crate::specs::DeclarationReader::literal))]
fn literal(alloc: Global, text: &[u8], at: usize) -> Result<(Literal, usize), ReadError>
    ensures { Gives text.now (λ x. (x.0, x.1)) result (spec.literal (from text.now at)) }
{
    let at = the_word(text, at, Key::Literal)?;
    let (name, at) = a_name(alloc, text, at)?;
    let at = the_mark(text, at, Sign::OpenBrace)?;
    let (bytes, at) = bytes(alloc, text, at)?;
    let at = semicolon(text, at)?;
    Ok((Literal { name, bytes }, at))
}

#[tactic(auto, unfolding(crate::specs::DeclarationReader::next_literal))]
fn next_literal(
    alloc: Global,
    text: &[u8],
    at: usize,
) -> Result<(Option<Literal>, usize), ReadError>
    ensures { Gives text.now (λ x. (item_or_end x.0, x.1)) result (spec.next_literal (from text.now at)) }
{
    match next_token(text, at).token {
        Some(Token::Word(Key::Literal)) => {
            let (literal, at) = literal(alloc, text, at)?;
            Ok((Some(literal), at))
        }
        _ => Ok((None, at)),
    }
}

/// The literals that stand next, and the place behind them.
#[tactic(auto, unfolding(crate::specs::DeclarationReader::literals))]
pub fn literals(alloc: Global, text: &[u8], at: usize) -> Result<(List<Literal>, usize), ReadError>
    ensures { Gives text.now (λ x. (x.0, x.1)) result (spec.literals (from text.now at)) }
{
    let mut literals = List::new(alloc);
    let mut here = at;
    loop {
        let (item, after) = next_literal(alloc, text, here)?;
        let Some(literal) = item else {
            return Ok((literals, after));
        };
        literals.push(literal)?;
        here = after;
    }
}

#[tactic(auto, unfolding(crate::specs::DeclarationReader::formal))]
fn formal(alloc: Global, text: &[u8], at: usize) -> Result<(Formal, usize), ReadError>
    ensures { Gives text.now (λ x. (x.0, x.1)) result (spec.formal (from text.now at)) }
{
    let (kind, at) = kind(text, at)?;
    let (name, at) = a_name(alloc, text, at)?;
    Ok((Formal { kind, name }, at))
}

#[tactic(auto, unfolding(crate::specs::DeclarationReader::next_formal))]
fn next_formal(alloc: Global, text: &[u8], at: usize) -> Result<(Option<Formal>, usize), ReadError>
    ensures { Gives text.now (λ x. (item_or_end x.0, x.1)) result (spec.next_formal (from text.now at)) }
{
    let next = next_token(text, at);
    match next.token {
        Some(Token::Mark(Sign::Close)) => Ok((None, next.end)),
        _ => {
            let at = the_mark(text, at, Sign::Comma)?;
            let (formal, at) = formal(alloc, text, at)?;
            Ok((Some(formal), at))
        }
    }
}

/// The formals behind these, and the place behind the bracket that closes them.
fn formals_onto(
    alloc: Global,
    text: &[u8],
    at: usize,
    before: List<Formal>,
) -> Result<(List<Formal>, usize), ReadError>
    ensures { Gives text.now (λ x. (x.0, x.1)) result (spec.formals_onto before (from text.now at)) }
{
    let mut formals = before;
    let mut here = at;
    loop {
        let (item, after) = next_formal(alloc, text, here)?;
        let Some(formal) = item else {
            return Ok((formals, after));
        };
        formals.push(formal)?;
        here = after;
    }
}

/// Formals up to the bracket that closes them, and the place behind it.
#[tactic(auto, unfolding(crate::specs::DeclarationReader::formals, crate::specs::DeclarationReader::formals_onto))]
pub fn formals(alloc: Global, text: &[u8], at: usize) -> Result<(List<Formal>, usize), ReadError>
    ensures { Gives text.now (λ x. (x.0, x.1)) result (spec.formals (from text.now at)) }
{
    let next = next_token(text, at);
    match next.token {
        Some(Token::Mark(Sign::Close)) => Ok((List::new(alloc), next.end)),
        _ => {
            let (first, at) = formal(alloc, text, at)?;
            let mut before = List::new(alloc);
            before.push(first)?;
            formals_onto(alloc, text, at, before)
        }
    }
}

fn start_by(key: Key) -> Option<LocalStart>
    ensures { result ≡ spec.start_by key }
{
    match key {
        Key::Int => Some(LocalStart::Variable(VarKind::Int)),
        Key::Char => Some(LocalStart::Variable(VarKind::Char)),
        Key::Ptr => Some(LocalStart::Variable(VarKind::Ptr)),
        Key::Pptr => Some(LocalStart::Variable(VarKind::Pptr)),
        Key::Iptr => Some(LocalStart::Variable(VarKind::Iptr)),
        Key::Buf => Some(LocalStart::Buffer),
        Key::Pcell => Some(LocalStart::PointerCell),
        Key::Icell => Some(LocalStart::IntCell),
        _ => None,
    }
}

/// What stands behind the first word of a local.
fn local_rest(
    alloc: Global,
    text: &[u8],
    at: usize,
    start: LocalStart,
) -> Result<(Local, usize), ReadError>
    ensures { Gives text.now (λ x. (x.0, x.1)) result (spec.local_rest start (from text.now at)) }
{
    match start {
        LocalStart::Variable(kind) => {
            let (name, at) = ended_name(alloc, text, at)?;
            let body = LocalBody::Var(kind);
            Ok((Local { name, body }, at))
        }
        LocalStart::Buffer => {
            let ((name, size), at) = sized_name(alloc, text, at)?;
            let body = LocalBody::Buffer(size);
            Ok((Local { name, body }, at))
        }
        LocalStart::PointerCell => {
            let (name, at) = ended_name(alloc, text, at)?;
            let body = LocalBody::PointerCell;
            Ok((Local { name, body }, at))
        }
        LocalStart::IntCell => {
            let (name, at) = ended_name(alloc, text, at)?;
            let body = LocalBody::IntCell;
            Ok((Local { name, body }, at))
        }
    }
}

#[tactic(auto, unfolding(crate::specs::DeclarationReader::next_local, crate::specs::DeclarationReader::local))]
fn next_local(alloc: Global, text: &[u8], at: usize) -> Result<(Option<Local>, usize), ReadError>
    ensures { Gives text.now (λ x. (item_or_end x.0, x.1)) result (spec.next_local (from text.now at)) }
{
    let next = next_token(text, at);
    if let Some(Token::Word(key)) = next.token {
        if let Some(start) = start_by(key) {
            let (local, at) = local_rest(alloc, text, next.end, start)?;
            return Ok((Some(local), at));
        }
    }
    Ok((None, at))
}

/// The locals that stand next, and the place behind them.
#[tactic(auto, unfolding(crate::specs::DeclarationReader::locals))]
fn locals(alloc: Global, text: &[u8], at: usize) -> Result<(List<Local>, usize), ReadError>
    ensures { Gives text.now (λ x. (x.0, x.1)) result (spec.locals (from text.now at)) }
{
    let mut locals = List::new(alloc);
    let mut here = at;
    loop {
        let (item, after) = next_local(alloc, text, here)?;
        let Some(local) = item else {
            return Ok((locals, after));
        };
        locals.push(local)?;
        here = after;
    }
}

#[tactic(auto, unfolding(crate::specs::DeclarationReader::next_statement))]
fn next_statement(
    alloc: Global,
    text: &[u8],
    at: usize,
    scope: &Scope,
) -> Result<(Option<Stmt>, usize), ReadError>
    ensures { Gives text.now (λ x. (item_or_end x.0, x.1)) result (spec.next_statement (points scope.now) (from text.now at)) }
{
    match next_token(text, at).token {
        Some(Token::Digits(_)) => {
            let (statement, at) = statement(alloc, text, at, scope)?;
            Ok((Some(statement), at))
        }
        _ => Ok((None, at)),
    }
}

/// The statements that stand next, where these variables are declared, and the place behind them.
#[tactic(auto, unfolding(crate::specs::DeclarationReader::statements))]
fn statements(
    alloc: Global,
    text: &[u8],
    at: usize,
    scope: &Scope,
) -> Result<(List<Stmt>, usize), ReadError>
    ensures { Gives text.now (λ x. (x.0, x.1)) result (spec.statements (points scope.now) (from text.now at)) }
{
    let mut statements = List::new(alloc);
    let mut here = at;
    loop {
        let (item, after) = next_statement(alloc, text, here, scope)?;
        let Some(statement) = item else {
            return Ok((statements, after));
        };
        statements.push(statement)?;
        here = after;
    }
}

/// The statements that stand next, where these formals and locals are declared, and the place behind them.
fn statements_within(
    alloc: Global,
    text: &[u8],
    at: usize,
    formals: &[Formal],
    locals: &[Local],
) -> Result<(List<Stmt>, usize), ReadError>
    ensures { Gives text.now (λ x. (x.0, x.1)) result (spec.statements (is_pointer (formals.now ++ variables_of locals.now)) (from text.now at)) }
{
    let scope = Scope::of(alloc, formals, locals)?;
    let (stmts, at) = statements(alloc, text, at, &scope)?;
    Ok((stmts, at))
}

/// What stands behind the brace that opens a body, up to the one that closes it.
#[tactic(auto, unfolding(crate::specs::DeclarationReader::block))]
fn block(
    alloc: Global,
    text: &[u8],
    at: usize,
    formals: &[Formal],
) -> Result<(ProcBody, usize), ReadError>
    ensures { Gives text.now (λ x. ((x.0.locals, x.0.stmts), x.1)) result (spec.block formals.now (from text.now at)) }
{
    let (locals, at) = locals(alloc, text, at)?;
    let (stmts, at) = statements_within(alloc, text, at, formals, locals.as_slice())?;
    let at = the_mark(text, at, Sign::CloseBrace)?;
    Ok((ProcBody { locals, stmts }, at))
}

/// The body that has to stand next, None for `extern`, and the place behind it.
#[tactic(auto, unfolding(crate::specs::DeclarationReader::body))]
pub fn body(
    alloc: Global,
    text: &[u8],
    at: usize,
    formals: &[Formal],
) -> Result<(Option<ProcBody>, usize), ReadError>
    ensures { Gives text.now (λ x. (x.0, x.1)) result (spec.body formals.now (from text.now at)) }
{
    let next = next_token(text, at);
    match next.token {
        Some(Token::Word(Key::Extern)) => {
            let at = semicolon(text, next.end)?;
            Ok((None, at))
        }
        _ => {
            let at = the_mark(text, at, Sign::OpenBrace)?;
            let (body, at) = block(alloc, text, at, formals)?;
            Ok((Some(body), at))
        }
    }
}
