//! Reading the atoms and the items of contracts.

ghost use Rattle.std.specs.Prelude.{◌≡◌, IfOk};
ghost use Rattle.std.specs.Option.{option_map};
ghost use Rattle.cv_core.specs.Terms.{pre_pointer as pre_pointer_of};
ghost use Rattle.cv_text.specs.ContractReader as spec;
ghost use Rattle.cv_text.specs.Given.{Gives, from};
ghost use Rattle.cv_text.specs.Nested.{GivesNested};

use crate::cursor::{ReadError, a_name, the_mark, the_name, the_word};
use crate::lexer::next_token;
use crate::nesting::{LEVELS, NestedError, Predicate, called_predicate, called_word};
use crate::sums::sum;
use crate::terms::{closed_pointer, pointer, pre_pointer};
use crate::token::{Key, Sign, Token};
use cv_core::{Atom, Item, LinPart, List, PtrTerm, Rel, Term};
use std::alloc::{AllocError, Global};

/// The pointer that a term is.
#[tactic(auto, using(crate::proofs::Alone::alone))]
fn pointer_of(alloc: Global, term: &Term) -> Result<Option<PtrTerm>, AllocError>
    ensures { IfOk result (λ o. o ≡ spec.pointer_of term.now) }
{
    match term {
        Term::Name(x) => Ok(Some(PtrTerm::Name(List::from_slice(alloc, x.as_slice())?))),
        Term::Star(x) => Ok(Some(PtrTerm::Star(List::from_slice(alloc, x.as_slice())?))),
        Term::Answer => Ok(Some(PtrTerm::Answer)),
        Term::Pre(inner) => pre_of(alloc, pointer_of(alloc, inner.get())?),
        _ => Ok(None),
    }
}

fn pre_of(alloc: Global, inner: Option<PtrTerm>) -> Result<Option<PtrTerm>, AllocError>
    ensures { IfOk result (λ o. o ≡ option_map pre_pointer_of inner) }
{
    match inner {
        Some(p) => {
            let whole = pre_pointer(alloc, p)?;
            Ok(Some(whole))
        }
        None => Ok(None),
    }
}

fn pointer_of_part(alloc: Global, part: &LinPart) -> Result<Option<PtrTerm>, AllocError>
    ensures { IfOk result (λ o. o ≡ spec.pointer_of_part part.now) }
{
    if part.negative || part.number.is_some() {
        return Ok(None);
    }
    match &part.term {
        Some(term) => pointer_of(alloc, term),
        None => Ok(None),
    }
}

/// The pointer that a sum is.
fn pointer_alone(alloc: Global, parts: &[LinPart]) -> Result<Option<PtrTerm>, AllocError>
    ensures { IfOk result (λ o. o ≡ spec.pointer_alone parts.now) }
{
    match parts {
        [part] => pointer_of_part(alloc, part),
        _ => Ok(None),
    }
}

/// The relation that has to stand behind a sum, and the place behind it. Only behind a pointer it may be !=.
#[tactic(auto, unfolding(crate::specs::ContractReader::relation))]
fn relation(text: &[u8], at: usize, pointer: bool) -> Result<(Rel, usize), ReadError>
    ensures { Gives text.now (λ x. (x.0, x.1)) result (spec.relation pointer (from text.now at)) }
{
    let next = next_token(text, at);
    match next.token {
        Some(Token::Mark(Sign::Equal)) => Ok((Rel::Eq, next.end)),
        Some(Token::Mark(Sign::NotEqual)) if pointer => Ok((Rel::Ne, next.end)),
        Some(Token::Mark(Sign::Less)) => Ok((Rel::Lt, next.end)),
        Some(Token::Mark(Sign::AtMost)) => Ok((Rel::Le, next.end)),
        Some(Token::Mark(Sign::Greater)) => Ok((Rel::Gt, next.end)),
        Some(Token::Mark(Sign::AtLeast)) => Ok((Rel::Ge, next.end)),
        _ => Err(ReadError::Fault(at)),
    }
}

#[tactic(auto, unfolding(crate::specs::ContractReader::compared))]
fn compared(
    alloc: Global,
    text: &[u8],
    at: usize,
    left: List<LinPart>,
    rel: Rel,
) -> Result<(Atom, usize), NestedError>
    ensures { GivesNested text.now (λ x. (x.0, x.1)) result (spec.compared left rel (from text.now at)) }
{
    let (right, at) = sum(alloc, text, at)?;
    Ok((Atom::Compare { left, rel, right }, at))
}

#[tactic(auto, unfolding(crate::specs::ContractReader::null_or_compared))]
fn null_or_compared(
    alloc: Global,
    text: &[u8],
    at: usize,
    left: List<LinPart>,
    ptr: PtrTerm,
) -> Result<(Atom, usize), NestedError>
    ensures { GivesNested text.now (λ x. (x.0, x.1)) result (spec.null_or_compared left ptr (from text.now at)) }
{
    let next = next_token(text, at);
    match next.token {
        Some(Token::Word(Key::Null)) => Ok((Atom::Null { ptr, equal: true }, next.end)),
        _ => compared(alloc, text, at, left, Rel::Eq),
    }
}

#[tactic(auto, unfolding(crate::specs::ContractReader::not_null))]
fn not_null(text: &[u8], at: usize, ptr: PtrTerm) -> Result<(Atom, usize), ReadError>
    ensures { Gives text.now (λ x. (x.0, x.1)) result (spec.not_null ptr (from text.now at)) }
{
    let at = the_word(text, at, Key::Null)?;
    Ok((Atom::Null { ptr, equal: false }, at))
}

/// What stands behind a sum and a relation.
fn right_side(
    alloc: Global,
    text: &[u8],
    at: usize,
    left: List<LinPart>,
    pointer: Option<PtrTerm>,
    rel: Rel,
) -> Result<(Atom, usize), NestedError>
    ensures { GivesNested text.now (λ x. (x.0, x.1)) result (spec.right_side left pointer rel (from text.now at)) }
{
    match pointer {
        Some(ptr) => match rel {
            Rel::Eq => null_or_compared(alloc, text, at, left, ptr),
            Rel::Ne => {
                let (atom, at) = not_null(text, at, ptr)?;
                Ok((atom, at))
            }
            Rel::Lt => compared(alloc, text, at, left, Rel::Lt),
            Rel::Le => compared(alloc, text, at, left, Rel::Le),
            Rel::Gt => compared(alloc, text, at, left, Rel::Gt),
            Rel::Ge => compared(alloc, text, at, left, Rel::Ge),
        },
        None => compared(alloc, text, at, left, rel),
    }
}

#[tactic(auto, unfolding(crate::specs::ContractReader::comparison_of))]
fn comparison_of(
    alloc: Global,
    text: &[u8],
    at: usize,
    left: List<LinPart>,
) -> Result<(Atom, usize), NestedError>
    ensures { GivesNested text.now (λ x. (x.0, x.1)) result (spec.comparison_of left (from text.now at)) }
{
    let pointer = pointer_alone(alloc, left.as_slice())?;
    let (rel, at) = relation(text, at, pointer.is_some())?;
    right_side(alloc, text, at, left, pointer, rel)
}

/// The comparison of two sums, or of a pointer and null, that has to stand next, and the place behind it.
#[tactic(auto, unfolding(crate::specs::ContractReader::comparison))]
fn comparison(alloc: Global, text: &[u8], at: usize) -> Result<(Atom, usize), NestedError>
    ensures { GivesNested text.now (λ x. (x.0, x.1)) result (spec.comparison (from text.now at)) }
{
    let (left, at) = sum(alloc, text, at)?;
    comparison_of(alloc, text, at, left)
}

type Pair = (PtrTerm, PtrTerm);

#[tactic(auto, unfolding(crate::specs::ContractReader::two_pointers))]
fn two_pointers(alloc: Global, text: &[u8], at: usize) -> Result<(Pair, usize), NestedError>
    ensures { GivesNested text.now (λ x. (x.0, x.1)) result (spec.two_pointers (from text.now at)) }
{
    let (p, at) = pointer(alloc, text, at, LEVELS)?;
    let at = the_mark(text, at, Sign::Comma)?;
    let (q, at) = closed_pointer(alloc, text, at, LEVELS)?;
    Ok(((p, q), at))
}

#[tactic(auto, unfolding(crate::specs::ContractReader::two_bases))]
fn two_bases(alloc: Global, text: &[u8], at: usize) -> Result<(Pair, usize), NestedError>
    ensures { GivesNested text.now (λ x. (x.0, x.1)) result (spec.two_bases (from text.now at)) }
{
    let (p, at) = closed_pointer(alloc, text, at, LEVELS)?;
    let at = the_mark(text, at, Sign::Equal)?;
    let at = the_name(text, at, b"base")?;
    let at = the_mark(text, at, Sign::Open)?;
    let (q, at) = closed_pointer(alloc, text, at, LEVELS)?;
    Ok(((p, q), at))
}

/// What stands behind the word of an atom and a bracket.
fn predicated(
    alloc: Global,
    text: &[u8],
    at: usize,
    predicate: Predicate,
) -> Result<(Atom, usize), NestedError>
    ensures { GivesNested text.now (λ x. (x.0, x.1)) result (spec.predicated predicate (from text.now at)) }
{
    match predicate {
        Predicate::Nullt => {
            let (p, at) = closed_pointer(alloc, text, at, LEVELS)?;
            Ok((Atom::Nullt(p), at))
        }
        Predicate::Clear => {
            let (p, at) = closed_pointer(alloc, text, at, LEVELS)?;
            Ok((Atom::Clear(p), at))
        }
        Predicate::Fresh => {
            let (p, at) = closed_pointer(alloc, text, at, LEVELS)?;
            Ok((Atom::Fresh(p), at))
        }
        Predicate::Apart => {
            let ((p, q), at) = two_pointers(alloc, text, at)?;
            Ok((Atom::Apart(p, q), at))
        }
        Predicate::Base => {
            let ((p, q), at) = two_bases(alloc, text, at)?;
            Ok((Atom::SameBase(p, q), at))
        }
    }
}

/// The atom that has to stand next, and the place behind it.
#[tactic(auto, unfolding(crate::specs::ContractReader::atom))]
pub(crate) fn atom(alloc: Global, text: &[u8], at: usize) -> Result<(Atom, usize), NestedError>
    ensures { GivesNested text.now (λ x. (x.0, x.1)) result (spec.atom (from text.now at)) }
{
    match called_predicate(text, at) {
        Some((predicate, at)) => predicated(alloc, text, at, predicate),
        None => comparison(alloc, text, at),
    }
}

#[tactic(auto, unfolding(crate::specs::ContractReader::simple_item))]
fn simple_item(alloc: Global, text: &[u8], at: usize) -> Result<(Item, usize), ReadError>
    ensures { Gives text.now (λ x. (x.0, x.1)) result (spec.simple_item (from text.now at)) }
{
    let next = next_token(text, at);
    match next.token {
        Some(Token::Mark(Sign::Star)) => {
            let (name, at) = a_name(alloc, text, next.end)?;
            Ok((Item::Star(name), at))
        }
        _ => {
            let (name, at) = a_name(alloc, text, at)?;
            Ok((Item::Name(name), at))
        }
    }
}

/// The item that has to stand next, and the place behind it.
#[tactic(auto, unfolding(crate::specs::ContractReader::item))]
pub(crate) fn item(alloc: Global, text: &[u8], at: usize) -> Result<(Item, usize), NestedError>
    ensures { GivesNested text.now (λ x. (x.0, x.1)) result (spec.item (from text.now at)) }
{
    match called_word(text, at, b"body") {
        Some(at) => {
            let (p, at) = closed_pointer(alloc, text, at, LEVELS)?;
            Ok((Item::Body(p), at))
        }
        None => {
            let (whole, at) = simple_item(alloc, text, at)?;
            Ok((whole, at))
        }
    }
}
