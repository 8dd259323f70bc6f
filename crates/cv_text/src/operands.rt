//! Reading operands, comparisons and arguments.

ghost use Rattle.std.specs.Prelude.{◌≡◌};
ghost use Rattle.cv_reading.specs.Lists.{item_or_end};
ghost use Rattle.cv_text.specs.StatementReader as spec;
ghost use Rattle.cv_text.specs.Given.{Gives, from};

use crate::cursor::{
    ReadError, a_name, count, digits_within, number, semicolon, the_mark, the_word,
};
use crate::lexer::next_token;
use crate::token::{Key, Sign, Token};
use cv_core::{AnyOperand, Bytes, List, Operand, Rel};
use std::alloc::Global;

/// The name or number that has to stand next, and the place behind it.
#[tactic(auto, unfolding(crate::specs::StatementReader::value))]
pub fn value(alloc: Global, text: &[u8], at: usize) -> Result<(Operand, usize), ReadError>
    ensures { Gives text.now (λ x. (x.0, x.1)) result (spec.value (from text.now at)) }
{
    let next = next_token(text, at);
    match next.token {
        Some(Token::Name(name)) => {
            let name = List::from_slice(alloc, name)?;
            Ok((Operand::Var(name), next.end))
        }
        _ => {
            let (number, at) = number(text, at)?;
            Ok((Operand::Number(number), at))
        }
    }
}

/// The name, the number or `null` that has to stand next, and the place behind it.
#[tactic(auto, unfolding(crate::specs::StatementReader::any_value))]
pub fn any_value(alloc: Global, text: &[u8], at: usize) -> Result<(AnyOperand, usize), ReadError>
    ensures { Gives text.now (λ x. (x.0, x.1)) result (spec.any_value (from text.now at)) }
{
    let next = next_token(text, at);
    match next.token {
        Some(Token::Word(Key::Null)) => Ok((AnyOperand::Null, next.end)),
        _ => {
            let (value, at) = value(alloc, text, at)?;
            Ok((AnyOperand::Operand(value), at))
        }
    }
}

/// A name or number and a semicolon.
#[tactic(auto, unfolding(crate::specs::StatementReader::ended_value))]
pub fn ended_value(alloc: Global, text: &[u8], at: usize) -> Result<(Operand, usize), ReadError>
    ensures { Gives text.now (λ x. (x.0, x.1)) result (spec.ended_value (from text.now at)) }
{
    let (value, at) = value(alloc, text, at)?;
    let at = semicolon(text, at)?;
    Ok((value, at))
}

/// A name and a semicolon.
#[tactic(auto, unfolding(crate::specs::StatementReader::ended_name))]
pub fn ended_name(alloc: Global, text: &[u8], at: usize) -> Result<(Bytes, usize), ReadError>
    ensures { Gives text.now (λ x. (x.0, x.1)) result (spec.ended_name (from text.now at)) }
{
    let (name, at) = a_name(alloc, text, at)?;
    let at = semicolon(text, at)?;
    Ok((name, at))
}

const LIMIT: u32 = 2147483648;

/// A number by which is divided, at least 1, and a semicolon.
#[tactic(auto, unfolding(crate::specs::StatementReader::ended_divisor))]
pub fn ended_divisor(text: &[u8], at: usize) -> Result<(i32, usize), ReadError>
    ensures { Gives text.now (λ x. (x.0, x.1)) result (spec.ended_divisor (from text.now at)) }
{
    let (divisor, at) = digits_within(text, at, 1, LIMIT)?;
    let at = semicolon(text, at)?;
    Ok((divisor as i32, at))
}

fn relation_by(sign: Sign) -> Option<Rel>
    ensures { result ≡ spec.relation_by sign }
{
    match sign {
        Sign::Equal => Some(Rel::Eq),
        Sign::NotEqual => Some(Rel::Ne),
        Sign::Less => Some(Rel::Lt),
        Sign::AtMost => Some(Rel::Le),
        Sign::Greater => Some(Rel::Gt),
        Sign::AtLeast => Some(Rel::Ge),
        _ => None,
    }
}

/// The relation that has to stand next, and the place behind it.
#[tactic(auto, unfolding(crate::specs::StatementReader::relation))]
pub fn relation(text: &[u8], at: usize) -> Result<(Rel, usize), ReadError>
    ensures { Gives text.now (λ x. (x.0, x.1)) result (spec.relation (from text.now at)) }
{
    let next = next_token(text, at);
    if let Some(Token::Mark(sign)) = next.token {
        if let Some(rel) = relation_by(sign) {
            return Ok((rel, next.end));
        }
    }
    Err(ReadError::Fault(at))
}

fn equality_by(sign: Sign) -> Option<bool>
    ensures { result ≡ spec.equality_by sign }
{
    match sign {
        Sign::Equal => Some(true),
        Sign::NotEqual => Some(false),
        _ => None,
    }
}

/// Whether `==` stands next, where it or `!=` has to, and the place behind it.
#[tactic(auto, unfolding(crate::specs::StatementReader::equality))]
pub fn equality(text: &[u8], at: usize) -> Result<(bool, usize), ReadError>
    ensures { Gives text.now (λ x. (x.0, x.1)) result (spec.equality (from text.now at)) }
{
    let next = next_token(text, at);
    if let Some(Token::Mark(sign)) = next.token {
        if let Some(equal) = equality_by(sign) {
            return Ok((equal, next.end));
        }
    }
    Err(ReadError::Fault(at))
}

/// The place behind the single digit 0 that has to stand next.
#[tactic(auto, unfolding(crate::specs::StatementReader::zero_digit))]
pub fn zero_digit(text: &[u8], at: usize) -> Result<usize, ReadError>
    ensures { Gives text.now (λ end. (tt, end)) result (spec.zero_digit (from text.now at)) }
{
    let next = next_token(text, at);
    match next.token {
        Some(Token::Digits(digits)) if digits == b"0".as_slice() => Ok(next.end),
        _ => Err(ReadError::Fault(at)),
    }
}

/// The number of the statement to which the jump that has to stand next goes, and the place behind its semicolon.
#[tactic(auto, unfolding(crate::specs::StatementReader::jump))]
pub fn jump(text: &[u8], at: usize) -> Result<(u32, usize), ReadError>
    ensures { Gives text.now (λ x. (x.0, x.1)) result (spec.jump (from text.now at)) }
{
    let at = the_word(text, at, Key::Goto)?;
    let (to, at) = count(text, at)?;
    let at = semicolon(text, at)?;
    Ok((to, at))
}

fn may_be_null(left: &Operand, rel: Rel) -> bool
    ensures { result ≡ spec.may_be_null left.now rel }
{
    match left {
        Operand::Var(_) => matches!(rel, Rel::Eq | Rel::Ne),
        Operand::Number(_) => false,
    }
}

/// What stands on the right of a comparison: `null` only behind a name and `==` or `!=`.
#[tactic(auto, unfolding(crate::specs::StatementReader::compared))]
pub fn compared(
    alloc: Global,
    text: &[u8],
    at: usize,
    left: &Operand,
    rel: Rel,
) -> Result<(AnyOperand, usize), ReadError>
    ensures { Gives text.now (λ x. (x.0, x.1)) result (spec.compared left.now rel (from text.now at)) }
{
    if may_be_null(left, rel) {
        return any_value(alloc, text, at);
    }
    let (value, at) = value(alloc, text, at)?;
    Ok((AnyOperand::Operand(value), at))
}

/// One more argument behind its comma, or None and the place behind the bracket that closes them.
#[tactic(auto, unfolding(crate::specs::StatementReader::next_argument))]
fn next_argument(
    alloc: Global,
    text: &[u8],
    at: usize,
) -> Result<(Option<AnyOperand>, usize), ReadError>
    ensures { Gives text.now (λ x. (item_or_end x.0, x.1)) result (spec.next_argument (from text.now at)) }
{
    let next = next_token(text, at);
    match next.token {
        Some(Token::Mark(Sign::Close)) => Ok((None, next.end)),
        _ => {
            let at = the_mark(text, at, Sign::Comma)?;
            let (argument, at) = any_value(alloc, text, at)?;
            Ok((Some(argument), at))
        }
    }
}

/// The arguments behind these, and the place behind the bracket that closes them.
fn arguments_onto(
    alloc: Global,
    text: &[u8],
    at: usize,
    before: List<AnyOperand>,
) -> Result<(List<AnyOperand>, usize), ReadError>
    ensures { Gives text.now (λ x. (x.0, x.1)) result (spec.arguments_onto before (from text.now at)) }
{
    let mut arguments = before;
    let mut here = at;
    loop {
        let (item, after) = next_argument(alloc, text, here)?;
        let Some(argument) = item else {
            return Ok((arguments, after));
        };
        arguments.push(argument)?;
        here = after;
    }
}

/// Arguments up to the bracket that closes them, and the place behind it.
#[tactic(auto, unfolding(crate::specs::StatementReader::arguments, crate::specs::StatementReader::arguments_onto))]
pub fn arguments(
    alloc: Global,
    text: &[u8],
    at: usize,
) -> Result<(List<AnyOperand>, usize), ReadError>
    ensures { Gives text.now (λ x. (x.0, x.1)) result (spec.arguments (from text.now at)) }
{
    let next = next_token(text, at);
    match next.token {
        Some(Token::Mark(Sign::Close)) => Ok((List::new(alloc), next.end)),
        _ => {
            let (first, at) = any_value(alloc, text, at)?;
            let mut before = List::new(alloc);
            before.push(first)?;
            arguments_onto(alloc, text, at, before)
        }
    }
}
