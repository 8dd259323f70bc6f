//! What readers of nested parts of a text share: their errors, and words in front of a bracket.

ghost use Rattle.std.specs.Prelude.{◌≡◌, MatchOption, None, Some};
ghost use Rattle.std.specs.Str.{bytes_eq};
ghost use Rattle.cv_core.specs.declared.program.PtrTerm.{PtrTerm};
ghost use Rattle.cv_core.specs.declared.program.Term.{Term};
ghost use Rattle.cv_reading.specs.Reading.{passed};
ghost use Rattle.cv_text.specs.ContractReader as spec;
ghost use Rattle.cv_text.specs.Given.{from};
ghost use Rattle.cv_text.specs.Nested.{nested, FailsNested};
ghost use Rattle.cv_text.specs.declared.nesting.NestedError.TheVariants.{Memory};

use crate::cursor::ReadError;
use crate::lexer::next_token;
use crate::token::{Key, Sign, Token};
use std::alloc::{AllocError, AllocFailed};

/// Why a reader of nested parts stopped.
#[derive(Debug, Drop)]
pub enum NestedError {
    Memory,
    /// The token at or behind this place can't stand there.
    Fault(usize),
    /// The token in front of this place opens a level too many.
    Nesting(usize),
}

impl From<AllocError> for NestedError {
    ghost from_gives = { λ _ e. e ≡ Memory };

    fn from(_e: AllocError) -> NestedError {
        NestedError::Memory
    }
}

impl<T: Drop> From<AllocFailed<T>> for NestedError {
    ghost from_gives = { λ _ e. e ≡ Memory };

    fn from(_e: AllocFailed<T>) -> NestedError {
        NestedError::Memory
    }
}

impl From<ReadError> for NestedError {
    ghost from_gives = { λ e n. n ≡ nested e };

    fn from(e: ReadError) -> NestedError {
        match e {
            ReadError::Memory => NestedError::Memory,
            ReadError::Fault(at) => NestedError::Fault(at),
        }
    }
}

/// How many levels of pointers and terms may be open at once.
pub(crate) const LEVELS: usize = 100;

/// The words that make a term, with a bracket behind them.
#[derive(Clone, Copy, Debug, PartialEq, Eq)]
pub(crate) enum Head {
    Pre,
    Alloc,
    Offset,
    Strlen,
}

/// The words that make an atom, with a bracket behind them.
#[derive(Clone, Copy, Debug, PartialEq, Eq)]
pub(crate) enum Predicate {
    Nullt,
    Clear,
    Fresh,
    Apart,
    Base,
}

/// The error at a place where no level may open any more.
#[tactic(auto, unfolding(crate::specs::ContractReader::too_deep))]
pub(crate) fn too_deep(text: &[u8], at: usize) -> NestedError
    ensures pointer { FailsNested text.now result (spec.too_deep {A = PtrTerm} (from text.now at)) }
    ensures term { FailsNested text.now result (spec.too_deep {A = Term} (from text.now at)) }
{
    let next = next_token(text, at);
    match next.token {
        Some(Token::Name(_)) => NestedError::Nesting(next.end),
        Some(Token::Word(Key::Result)) => NestedError::Nesting(next.end),
        Some(Token::Mark(Sign::Star)) => NestedError::Nesting(next.end),
        _ => NestedError::Fault(at),
    }
}

/// The word in front of a bracket, where the two stand next, and the place behind them.
fn called(text: &[u8], at: usize) -> Option<(&[u8], usize)>
    ensures { MatchOption result (spec.call_of (λ x. Some x) (from text.now at) ≡ None) (λ c. spec.call_of (λ x. Some x) (from text.now at) ≡ Some (c.0.now, from text.now c.1)) }
{
    let first = next_token(text, at);
    let Some(Token::Name(word)) = first.token else {
        return None;
    };
    let second = next_token(text, first.end);
    match second.token {
        Some(Token::Mark(Sign::Open)) => Some((word, second.end)),
        _ => None,
    }
}

/// The place behind this word and a bracket, where the two stand next.
#[tactic(auto, using(crate::proofs::Calls::calls))]
pub(crate) fn called_word(text: &[u8], at: usize, word: &[u8]) -> Option<usize>
    ensures { MatchOption result (spec.call_of (λ x. passed (bytes_eq x word.now)) (from text.now at) ≡ None) (λ end. spec.call_of (λ x. passed (bytes_eq x word.now)) (from text.now at) ≡ Some (tt, from text.now end)) }
{
    match called(text, at) {
        Some((found, end)) if found == word => Some(end),
        _ => None,
    }
}

fn head_of(word: &[u8]) -> Option<Head>
    ensures { result ≡ spec.head_of word.now }
{
    if word == b"pre".as_slice() {
        Some(Head::Pre)
    } else if word == b"alloc".as_slice() {
        Some(Head::Alloc)
    } else if word == b"offset".as_slice() {
        Some(Head::Offset)
    } else if word == b"strlen".as_slice() {
        Some(Head::Strlen)
    } else {
        None
    }
}

/// The head of a term and the place behind it and a bracket, where the two stand next.
#[tactic(auto, using(crate::proofs::Calls::calls))]
pub(crate) fn called_head(text: &[u8], at: usize) -> Option<(Head, usize)>
    ensures { MatchOption result (spec.call_of spec.head_of (from text.now at) ≡ None) (λ c. spec.call_of spec.head_of (from text.now at) ≡ Some (c.0, from text.now c.1)) }
{
    match called(text, at) {
        Some((word, end)) => match head_of(word) {
            Some(head) => Some((head, end)),
            None => None,
        },
        None => None,
    }
}

fn predicate_of(word: &[u8]) -> Option<Predicate>
    ensures { result ≡ spec.predicate_of word.now }
{
    if word == b"nullt".as_slice() {
        Some(Predicate::Nullt)
    } else if word == b"clear".as_slice() {
        Some(Predicate::Clear)
    } else if word == b"fresh".as_slice() {
        Some(Predicate::Fresh)
    } else if word == b"apart".as_slice() {
        Some(Predicate::Apart)
    } else if word == b"base".as_slice() {
        Some(Predicate::Base)
    } else {
        None
    }
}

/// The word of an atom and the place behind it and a bracket, where the two stand next.
#[tactic(auto, using(crate::proofs::Calls::calls))]
pub(crate) fn called_predicate(text: &[u8], at: usize) -> Option<(Predicate, usize)>
    ensures { MatchOption result (spec.call_of spec.predicate_of (from text.now at) ≡ None) (λ c. spec.call_of spec.predicate_of (from text.now at) ≡ Some (c.0, from text.now c.1)) }
{
    match called(text, at) {
        Some((word, end)) => match predicate_of(word) {
            Some(predicate) => Some((predicate, end)),
            None => None,
        },
        None => None,
    }
}
