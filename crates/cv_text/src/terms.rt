//! Reading the pointers and the terms of contracts.

ghost use Rattle.std.specs.Prelude.{◌≡◌, IfOk};
ghost use Rattle.cv_core.specs.Terms.{pre_pointer as pre_pointer_of, pre_term as pre_term_of};
ghost use Rattle.cv_reading.specs.Deep.{◌⊲◌};
ghost use Rattle.cv_text.specs.ContractReader as spec;
ghost use Rattle.cv_text.specs.Given.{Gives, from};
ghost use Rattle.cv_text.specs.Nested.{GivesNested};

use crate::cursor::{ReadError, a_name, the_mark};
use crate::lexer::next_token;
use crate::nesting::{Head, NestedError, called_head, called_word, too_deep};
use crate::token::{Key, Sign, Token};
use cv_core::{Boxed, List, PtrTerm, Term};
use std::alloc::{AllocError, Global};

#[tactic(auto, unfolding(crate::specs::ContractReader::simple_pointer))]
fn simple_pointer(alloc: Global, text: &[u8], at: usize) -> Result<(PtrTerm, usize), ReadError>
    ensures { Gives text.now (λ x. (x.0, x.1)) result (spec.simple_pointer (from text.now at)) }
{
    let next = next_token(text, at);
    match next.token {
        Some(Token::Mark(Sign::Star)) => {
            let (name, at) = a_name(alloc, text, next.end)?;
            Ok((PtrTerm::Star(name), at))
        }
        Some(Token::Name(name)) => Ok((PtrTerm::Name(List::from_slice(alloc, name)?), next.end)),
        Some(Token::Word(Key::Result)) => Ok((PtrTerm::Answer, next.end)),
        _ => Err(ReadError::Fault(at)),
    }
}

#[tactic(auto, using(cv_core::proofs::Opened::opened))]
pub(crate) fn pre_pointer(alloc: Global, inner: PtrTerm) -> Result<PtrTerm, AllocError>
    ensures { IfOk result (λ p. p ≡ pre_pointer_of inner) }
{
    let inner = Boxed::new(alloc, inner)?;
    Ok(PtrTerm::Pre(inner))
}

/// The pointer that has to stand next, of at most so many levels, and the place behind it.
#[tactic(auto, using(crate::proofs::Depth::depths))]
pub(crate) fn pointer(
    alloc: Global,
    text: &[u8],
    at: usize,
    levels: usize,
) -> Result<(PtrTerm, usize), NestedError>
    ensures { GivesNested text.now (λ x. (x.0, x.1)) result (spec.pointer levels (from text.now at)) }
{
    if levels == 0 {
        return Err(too_deep(text, at));
    }
    match called_word(text, at, b"pre") {
        Some(at) => {
            let (inner, at) = pointer(alloc, text, at, levels - 1)?;
            let at = the_mark(text, at, Sign::Close)?;
            let whole = pre_pointer(alloc, inner)?;
            Ok((whole, at))
        }
        None => {
            let (whole, at) = simple_pointer(alloc, text, at)?;
            Ok((whole, at))
        }
    }
}

/// The pointer that has to stand next, with a closing bracket behind it, and the place behind the two.
pub(crate) fn closed_pointer(
    alloc: Global,
    text: &[u8],
    at: usize,
    levels: usize,
) -> Result<(PtrTerm, usize), NestedError>
    ensures { GivesNested text.now (λ x. (x.0, x.1)) result ((spec.pointer levels ⊲ spec.close) (from text.now at)) }
{
    let (whole, at) = pointer(alloc, text, at, levels)?;
    let at = the_mark(text, at, Sign::Close)?;
    Ok((whole, at))
}

#[tactic(auto, unfolding(crate::specs::ContractReader::simple_term))]
fn simple_term(alloc: Global, text: &[u8], at: usize) -> Result<(Term, usize), ReadError>
    ensures { Gives text.now (λ x. (x.0, x.1)) result (spec.simple_term (from text.now at)) }
{
    let next = next_token(text, at);
    match next.token {
        Some(Token::Mark(Sign::Star)) => {
            let (name, at) = a_name(alloc, text, next.end)?;
            Ok((Term::Star(name), at))
        }
        Some(Token::Name(name)) => Ok((Term::Name(List::from_slice(alloc, name)?), next.end)),
        Some(Token::Word(Key::Result)) => Ok((Term::Answer, next.end)),
        _ => Err(ReadError::Fault(at)),
    }
}

#[tactic(auto, using(cv_core::proofs::Opened::opened))]
fn pre_term(alloc: Global, inner: Term) -> Result<Term, AllocError>
    ensures { IfOk result (λ t. t ≡ pre_term_of inner) }
{
    let inner = Boxed::new(alloc, inner)?;
    Ok(Term::Pre(inner))
}

/// The term that has to stand next, of at most so many levels, and the place behind it.
#[tactic(auto, using(crate::proofs::Depth::depths))]
pub(crate) fn term(
    alloc: Global,
    text: &[u8],
    at: usize,
    levels: usize,
) -> Result<(Term, usize), NestedError>
    ensures { GivesNested text.now (λ x. (x.0, x.1)) result (spec.term levels (from text.now at)) }
{
    if levels == 0 {
        return Err(too_deep(text, at));
    }
    match called_head(text, at) {
        Some((Head::Pre, at)) => {
            let (inner, at) = term(alloc, text, at, levels - 1)?;
            let at = the_mark(text, at, Sign::Close)?;
            let whole = pre_term(alloc, inner)?;
            Ok((whole, at))
        }
        Some((Head::Alloc, at)) => {
            let (place, at) = closed_pointer(alloc, text, at, levels - 1)?;
            Ok((Term::Alloc(place), at))
        }
        Some((Head::Offset, at)) => {
            let (place, at) = closed_pointer(alloc, text, at, levels - 1)?;
            Ok((Term::Offset(place), at))
        }
        Some((Head::Strlen, at)) => {
            let (place, at) = closed_pointer(alloc, text, at, levels - 1)?;
            Ok((Term::Strlen(place), at))
        }
        None => {
            let (whole, at) = simple_term(alloc, text, at)?;
            Ok((whole, at))
        }
    }
}
