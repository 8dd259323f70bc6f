//! Reading the sums of contracts.

ghost use Rattle.std.specs.Prelude.{◌≡◌, MatchOption, None, Some};
ghost use Rattle.cv_reading.specs.Reading.{passed};
ghost use Rattle.cv_reading.specs.Deep.{next_by, more_onto};
ghost use Rattle.cv_text.specs.Reader.{is_mark};
ghost use Rattle.cv_text.specs.ContractReader as spec;
ghost use Rattle.cv_text.specs.Given.{from};
ghost use Rattle.cv_text.specs.Nested.{GivesNested};

use crate::cursor::{LIMIT, value_within};
use crate::lexer::next_token;
use crate::nesting::{LEVELS, NestedError};
use crate::terms::term;
use crate::token::{Sign, Token, sign_bytes};
use cv_core::{LinPart, List, Term};
use std::alloc::Global;

/// The place behind this sign, where it stands next.
pub(crate) fn mark_next(text: &[u8], at: usize, sign: Sign) -> Option<usize>
    ensures { MatchOption result (next_by (λ t. passed (is_mark sign t)) (from text.now at) ≡ None) (λ end. next_by (λ t. passed (is_mark sign t)) (from text.now at) ≡ Some (tt, from text.now end)) }
{
    let next = next_token(text, at);
    match next.token {
        Some(Token::Mark(found)) if sign_bytes(found) == sign_bytes(sign) => Some(next.end),
        _ => None,
    }
}

/// Whether the sign that stands next is a minus or a plus, and the place behind it.
fn sign_next(text: &[u8], at: usize) -> Option<(bool, usize)>
    ensures { MatchOption result (next_by spec.sign_of (from text.now at) ≡ None) (λ c. next_by spec.sign_of (from text.now at) ≡ Some (c.0, from text.now c.1)) }
{
    let next = next_token(text, at);
    match next.token {
        Some(Token::Mark(Sign::Plus)) => Some((false, next.end)),
        Some(Token::Mark(Sign::Minus)) => Some((true, next.end)),
        _ => None,
    }
}

/// The number of a part that stands next, and the place behind it.
fn count_next(text: &[u8], at: usize) -> Option<(u32, usize)>
    ensures { MatchOption result (next_by spec.count_of (from text.now at) ≡ None) (λ c. next_by spec.count_of (from text.now at) ≡ Some (c.0, from text.now c.1)) }
{
    let next = next_token(text, at);
    if let Some(Token::Digits(digits)) = next.token {
        if let Some(value) = value_within(digits, 0, LIMIT) {
            return Some((value, next.end));
        }
    }
    None
}

type Factors = (Option<u32>, Option<Term>);

#[tactic(auto, unfolding(crate::specs::ContractReader::after_number))]
fn after_number(
    alloc: Global,
    text: &[u8],
    at: usize,
    number: u32,
) -> Result<(Factors, usize), NestedError>
    ensures { GivesNested text.now (λ x. (x.0, x.1)) result (spec.after_number number (from text.now at)) }
{
    let next = next_token(text, at);
    match next.token {
        Some(Token::Mark(Sign::Star)) => {
            let (factor, at) = term(alloc, text, next.end, LEVELS)?;
            Ok(((Some(number), Some(factor)), at))
        }
        _ => Ok(((Some(number), None), at)),
    }
}

#[tactic(auto, unfolding(crate::specs::ContractReader::factors), using(crate::proofs::Nexts::nexts))]
fn factors(alloc: Global, text: &[u8], at: usize) -> Result<(Factors, usize), NestedError>
    ensures { GivesNested text.now (λ x. (x.0, x.1)) result (spec.factors (from text.now at)) }
{
    match count_next(text, at) {
        Some((number, at)) => after_number(alloc, text, at, number),
        None => {
            let (factor, at) = term(alloc, text, at, LEVELS)?;
            Ok(((None, Some(factor)), at))
        }
    }
}

#[tactic(auto, unfolding(crate::specs::ContractReader::part))]
fn part(
    alloc: Global,
    text: &[u8],
    at: usize,
    negative: bool,
) -> Result<(LinPart, usize), NestedError>
    ensures { GivesNested text.now (λ x. (x.0, x.1)) result (spec.part negative (from text.now at)) }
{
    let ((number, term), at) = factors(alloc, text, at)?;
    Ok((
        LinPart {
            negative,
            number,
            term,
        },
        at,
    ))
}

#[tactic(auto, unfolding(crate::specs::ContractReader::first_part))]
fn first_part(alloc: Global, text: &[u8], at: usize) -> Result<(LinPart, usize), NestedError>
    ensures { GivesNested text.now (λ x. (x.0, x.1)) result (spec.first_part (from text.now at)) }
{
    let next = next_token(text, at);
    match next.token {
        Some(Token::Mark(Sign::Minus)) => part(alloc, text, next.end, true),
        _ => part(alloc, text, at, false),
    }
}

/// The parts before, and those that stand next, each with its sign.
fn parts_onto(
    alloc: Global,
    text: &[u8],
    at: usize,
    before: List<LinPart>,
) -> Result<(List<LinPart>, usize), NestedError>
    ensures { GivesNested text.now (λ x. (x.0, x.1)) result (more_onto before spec.later_parts (from text.now at)) }
{
    let mut parts = before;
    let mut here = at;
    loop {
        match sign_next(text, here) {
            None => return Ok((parts, here)),
            Some((negative, behind)) => {
                let (found, after) = part(alloc, text, behind, negative)?;
                parts.push(found)?;
                here = after;
            }
        }
    }
}

/// The sum that has to stand next, and the place behind it.
#[tactic(auto, unfolding(crate::specs::ContractReader::sum))]
pub(crate) fn sum(
    alloc: Global,
    text: &[u8],
    at: usize,
) -> Result<(List<LinPart>, usize), NestedError>
    ensures { GivesNested text.now (λ x. (x.0, x.1)) result (spec.sum (from text.now at)) }
{
    let (first, at) = first_part(alloc, text, at)?;
    let mut parts = List::new(alloc);
    parts.push(first)?;
    parts_onto(alloc, text, at, parts)
}
