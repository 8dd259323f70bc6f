//! Reading statements of all forms.

ghost use Rattle.std.specs.Prelude.{◌≡◌};
ghost use Rattle.cv_text.specs.Known.{points};
ghost use Rattle.cv_text.specs.StatementReader as spec;
ghost use Rattle.cv_text.specs.Given.{Gives, from};

use crate::cursor::{ReadError, a_name, count, number, semicolon, the_mark};
use crate::lexer::next_token;
use crate::names::Scope;
use crate::operands::{
    any_value, arguments, compared, ended_divisor, ended_name, ended_value, equality, jump,
    relation, value, zero_digit,
};
use crate::token::{Key, Sign, Token};
use cv_core::{AnyOperand, Bytes, Form, List, Operand, Stmt};
use std::alloc::Global;

// Below, a statement's first word is read already.

#[tactic(auto, unfolding(crate::specs::StatementReader::store))]
fn store(alloc: Global, text: &[u8], at: usize) -> Result<(Form, usize), ReadError>
    ensures { Gives text.now (λ x. (x.0, x.1)) result (spec.store (from text.now at)) }
{
    let (p, at) = a_name(alloc, text, at)?;
    let at = the_mark(text, at, Sign::Comma)?;
    let (e, at) = ended_value(alloc, text, at)?;
    Ok((Form::Store { p, e }, at))
}

#[tactic(auto, unfolding(crate::specs::StatementReader::put))]
fn put(alloc: Global, text: &[u8], at: usize) -> Result<(Form, usize), ReadError>
    ensures { Gives text.now (λ x. (x.0, x.1)) result (spec.put (from text.now at)) }
{
    let (w, at) = a_name(alloc, text, at)?;
    let at = the_mark(text, at, Sign::Comma)?;
    let (value, at) = any_value(alloc, text, at)?;
    let at = semicolon(text, at)?;
    Ok((Form::Put { w, value }, at))
}

#[tactic(auto, unfolding(crate::specs::StatementReader::goto))]
fn goto(text: &[u8], at: usize) -> Result<(Form, usize), ReadError>
    ensures { Gives text.now (λ x. (x.0, x.1)) result (spec.goto (from text.now at)) }
{
    let (to, at) = count(text, at)?;
    let at = semicolon(text, at)?;
    Ok((Form::Goto(to), at))
}

#[tactic(auto, unfolding(crate::specs::StatementReader::byte_test))]
fn byte_test(alloc: Global, text: &[u8], at: usize) -> Result<(Form, usize), ReadError>
    ensures { Gives text.now (λ x. (x.0, x.1)) result (spec.byte_test (from text.now at)) }
{
    let (p, at) = a_name(alloc, text, at)?;
    let (equal, at) = equality(text, at)?;
    let at = zero_digit(text, at)?;
    let (to, at) = jump(text, at)?;
    Ok((Form::IfByte { p, equal, to }, at))
}

#[tactic(auto, unfolding(crate::specs::StatementReader::comparison))]
fn comparison(alloc: Global, text: &[u8], at: usize) -> Result<(Form, usize), ReadError>
    ensures { Gives text.now (λ x. (x.0, x.1)) result (spec.comparison (from text.now at)) }
{
    let (left, at) = value(alloc, text, at)?;
    let (rel, at) = relation(text, at)?;
    let (right, at) = compared(alloc, text, at, &left, rel)?;
    let (to, at) = jump(text, at)?;
    Ok((
        Form::If {
            left,
            rel,
            right,
            to,
        },
        at,
    ))
}

#[tactic(auto, unfolding(crate::specs::StatementReader::branch))]
fn branch(alloc: Global, text: &[u8], at: usize) -> Result<(Form, usize), ReadError>
    ensures { Gives text.now (λ x. (x.0, x.1)) result (spec.branch (from text.now at)) }
{
    let next = next_token(text, at);
    match next.token {
        Some(Token::Word(Key::Load)) => byte_test(alloc, text, next.end),
        _ => comparison(alloc, text, at),
    }
}

#[tactic(auto, unfolding(crate::specs::StatementReader::return_rest))]
fn return_rest(alloc: Global, text: &[u8], at: usize) -> Result<(Form, usize), ReadError>
    ensures { Gives text.now (λ x. (x.0, x.1)) result (spec.return_rest (from text.now at)) }
{
    let next = next_token(text, at);
    match next.token {
        Some(Token::Mark(Sign::Semicolon)) => Ok((Form::Return(None), next.end)),
        _ => {
            let (value, at) = any_value(alloc, text, at)?;
            let at = semicolon(text, at)?;
            Ok((Form::Return(Some(value)), at))
        }
    }
}

#[tactic(auto, unfolding(crate::specs::StatementReader::call))]
fn call(
    alloc: Global,
    text: &[u8],
    at: usize,
    into: Option<Bytes>,
) -> Result<(Form, usize), ReadError>
    ensures { Gives text.now (λ x. (x.0, x.1)) result (spec.call into (from text.now at)) }
{
    let (f, at) = a_name(alloc, text, at)?;
    let at = the_mark(text, at, Sign::Open)?;
    let (args, at) = arguments(alloc, text, at)?;
    let at = semicolon(text, at)?;
    Ok((Form::Call { into, f, args }, at))
}

/// `x = e`.
fn assigned(scope: &Scope, x: Bytes, e: Operand) -> Form
    ensures { result ≡ spec.assigned (points scope.now) x e }
{
    let pointer = scope.is_pointer(x.as_slice());
    match e {
        Operand::Var(y) if pointer => Form::CopyPtr { p: x, q: Some(y) },
        e => Form::Assign { x, e },
    }
}

/// `x = e + f`.
fn added(scope: &Scope, x: Bytes, e: Operand, f: Operand) -> Form
    ensures { result ≡ spec.added (points scope.now) x e f }
{
    let pointer = scope.is_pointer(x.as_slice());
    match e {
        Operand::Var(q) if pointer => Form::Shift { p: x, q, e: f },
        e => Form::Sum { x, e, f },
    }
}

/// What stands behind `x = e`.
#[tactic(auto, unfolding(crate::specs::StatementReader::after_value))]
fn after_value(
    alloc: Global,
    text: &[u8],
    at: usize,
    scope: &Scope,
    x: Bytes,
    e: Operand,
) -> Result<(Form, usize), ReadError>
    ensures { Gives text.now (λ r. (r.0, r.1)) result (spec.after_value (points scope.now) x e (from text.now at)) }
{
    let next = next_token(text, at);
    match next.token {
        Some(Token::Mark(Sign::Plus)) => {
            let (f, at) = ended_value(alloc, text, next.end)?;
            Ok((added(scope, x, e, f), at))
        }
        Some(Token::Mark(Sign::Minus)) => {
            let (f, at) = ended_value(alloc, text, next.end)?;
            Ok((Form::Minus { x, e, f }, at))
        }
        Some(Token::Mark(Sign::Slash)) => {
            let (k, at) = ended_divisor(text, next.end)?;
            Ok((Form::Quotient { x, e, k }, at))
        }
        Some(Token::Mark(Sign::Percent)) => {
            let (k, at) = ended_divisor(text, next.end)?;
            Ok((Form::Remainder { x, e, k }, at))
        }
        _ => {
            let at = semicolon(text, at)?;
            Ok((assigned(scope, x, e), at))
        }
    }
}

/// What stands behind `x = k`.
#[tactic(auto, unfolding(crate::specs::StatementReader::after_number))]
fn after_number(
    alloc: Global,
    text: &[u8],
    at: usize,
    scope: &Scope,
    x: Bytes,
    k: i32,
) -> Result<(Form, usize), ReadError>
    ensures { Gives text.now (λ r. (r.0, r.1)) result (spec.after_number (points scope.now) x k (from text.now at)) }
{
    let next = next_token(text, at);
    match next.token {
        Some(Token::Mark(Sign::Star)) => {
            let (e, at) = ended_value(alloc, text, next.end)?;
            Ok((Form::Product { x, k, e }, at))
        }
        _ => after_value(alloc, text, at, scope, x, Operand::Number(k)),
    }
}

/// A right side that begins with an operand.
#[tactic(auto, unfolding(crate::specs::StatementReader::computed))]
fn computed(
    alloc: Global,
    text: &[u8],
    at: usize,
    scope: &Scope,
    x: Bytes,
) -> Result<(Form, usize), ReadError>
    ensures { Gives text.now (λ r. (r.0, r.1)) result (spec.computed (points scope.now) x (from text.now at)) }
{
    let next = next_token(text, at);
    match next.token {
        Some(Token::Name(name)) => {
            let y = List::from_slice(alloc, name)?;
            after_value(alloc, text, next.end, scope, x, Operand::Var(y))
        }
        _ => {
            let (k, at) = number(text, at)?;
            after_number(alloc, text, at, scope, x, k)
        }
    }
}

#[tactic(auto, unfolding(crate::specs::StatementReader::load))]
fn load(alloc: Global, text: &[u8], at: usize, x: Bytes) -> Result<(Form, usize), ReadError>
    ensures { Gives text.now (λ r. (r.0, r.1)) result (spec.load x (from text.now at)) }
{
    let (p, at) = ended_name(alloc, text, at)?;
    Ok((Form::Load { x, p }, at))
}

#[tactic(auto, unfolding(crate::specs::StatementReader::get))]
fn get(alloc: Global, text: &[u8], at: usize, x: Bytes) -> Result<(Form, usize), ReadError>
    ensures { Gives text.now (λ r. (r.0, r.1)) result (spec.get x (from text.now at)) }
{
    let (w, at) = ended_name(alloc, text, at)?;
    Ok((Form::Get { x, w }, at))
}

#[tactic(auto, unfolding(crate::specs::StatementReader::diff))]
fn diff(alloc: Global, text: &[u8], at: usize, x: Bytes) -> Result<(Form, usize), ReadError>
    ensures { Gives text.now (λ r. (r.0, r.1)) result (spec.diff x (from text.now at)) }
{
    let (p, at) = a_name(alloc, text, at)?;
    let at = the_mark(text, at, Sign::Comma)?;
    let (q, at) = ended_name(alloc, text, at)?;
    Ok((Form::Diff { x, p, q }, at))
}

#[tactic(auto, unfolding(crate::specs::StatementReader::null))]
fn null(text: &[u8], at: usize, x: Bytes) -> Result<(Form, usize), ReadError>
    ensures { Gives text.now (λ r. (r.0, r.1)) result (spec.null x (from text.now at)) }
{
    let at = semicolon(text, at)?;
    Ok((Form::CopyPtr { p: x, q: None }, at))
}

#[tactic(auto, unfolding(crate::specs::StatementReader::address))]
fn address(alloc: Global, text: &[u8], at: usize, x: Bytes) -> Result<(Form, usize), ReadError>
    ensures { Gives text.now (λ r. (r.0, r.1)) result (spec.address x (from text.now at)) }
{
    let (object, at) = ended_name(alloc, text, at)?;
    Ok((Form::Address { p: x, object }, at))
}

/// What stands behind `x =`.
#[tactic(auto, unfolding(crate::specs::StatementReader::right_side))]
fn right_side(
    alloc: Global,
    text: &[u8],
    at: usize,
    scope: &Scope,
    x: Bytes,
) -> Result<(Form, usize), ReadError>
    ensures { Gives text.now (λ r. (r.0, r.1)) result (spec.right_side (points scope.now) x (from text.now at)) }
{
    let next = next_token(text, at);
    match next.token {
        Some(Token::Word(Key::Load)) => load(alloc, text, next.end, x),
        Some(Token::Word(Key::Get)) => get(alloc, text, next.end, x),
        Some(Token::Word(Key::Diff)) => diff(alloc, text, next.end, x),
        Some(Token::Word(Key::Call)) => call(alloc, text, next.end, Some(x)),
        Some(Token::Word(Key::Null)) => null(text, next.end, x),
        Some(Token::Mark(Sign::And)) => address(alloc, text, next.end, x),
        _ => computed(alloc, text, at, scope, x),
    }
}

#[tactic(auto, unfolding(crate::specs::StatementReader::assignment))]
fn assignment(
    alloc: Global,
    text: &[u8],
    at: usize,
    scope: &Scope,
) -> Result<(Form, usize), ReadError>
    ensures { Gives text.now (λ r. (r.0, r.1)) result (spec.assignment (points scope.now) (from text.now at)) }
{
    let (x, at) = a_name(alloc, text, at)?;
    let at = the_mark(text, at, Sign::Assign)?;
    right_side(alloc, text, at, scope, x)
}

#[tactic(auto, unfolding(crate::specs::StatementReader::phrase))]
fn phrase(alloc: Global, text: &[u8], at: usize, scope: &Scope) -> Result<(Form, usize), ReadError>
    ensures { Gives text.now (λ r. (r.0, r.1)) result (spec.phrase (points scope.now) (from text.now at)) }
{
    let next = next_token(text, at);
    match next.token {
        Some(Token::Word(Key::Store)) => store(alloc, text, next.end),
        Some(Token::Word(Key::Put)) => put(alloc, text, next.end),
        Some(Token::Word(Key::Goto)) => goto(text, next.end),
        Some(Token::Word(Key::If)) => branch(alloc, text, next.end),
        Some(Token::Word(Key::Call)) => call(alloc, text, next.end, None),
        Some(Token::Word(Key::Return)) => return_rest(alloc, text, next.end),
        _ => assignment(alloc, text, at, scope),
    }
}

/// The statement that has to stand next, where these variables are declared, and the place behind it.
#[tactic(auto, unfolding(crate::specs::StatementReader::statement, crate::specs::StatementReader::after_line))]
pub fn statement(
    alloc: Global,
    text: &[u8],
    at: usize,
    scope: &Scope,
) -> Result<(Stmt, usize), ReadError>
    ensures { Gives text.now (λ r. (r.0, r.1)) result (spec.statement (points scope.now) (from text.now at)) }
{
    let (line, at) = count(text, at)?;
    let at = the_mark(text, at, Sign::Colon)?;
    let (form, at) = phrase(alloc, text, at, scope)?;
    Ok((Stmt { line, form }, at))
}
