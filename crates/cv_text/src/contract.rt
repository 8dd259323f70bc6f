//! Reading contracts.

ghost use Rattle.std.specs.Prelude.{◌≡◌, ◌↔◌, ◌<◌, ◌^◌, ◌-◌, [], length, true, IsTrue, IfOk, IfErr, MatchOption, None, Some};
ghost use Rattle.cv_core.specs.Grammar.{IsContract};
ghost use Rattle.cv_core.specs.declared.program.Contract.{Contract};
ghost use Rattle.cv_reading.specs.Reading.{passed};
ghost use Rattle.cv_reading.specs.Deep.{next_by, more_onto, plain};
ghost use Rattle.cv_text.specs.declared.token.Sign.TheVariants as sign;
ghost use Rattle.cv_text.specs.Reader.{is_name_token, a_name as one_name};
ghost use Rattle.cv_text.specs.ContractReader as spec;
ghost use Rattle.cv_text.specs.Given.{from};
ghost use Rattle.cv_text.specs.Nested.{GivesNested};
ghost use Rattle.cv_text.specs.ContractAnswers.{SpellsContract, is_shallow, ContractErrs, AnswersContract};

use crate::atoms::{atom, item};
use crate::cursor::{a_name, the_mark};
use crate::faults::{TextError, fault_at};
use crate::lexer::next_token;
use crate::nesting::NestedError;
use crate::sums::mark_next;
use crate::token::{Sign, Token};
use cv_core::{Atom, Bytes, Contract, Item, List};
use std::alloc::Global;

/// The place behind this name, where it stands next.
fn name_next(text: &[u8], at: usize, name: &[u8]) -> Option<usize>
    ensures { MatchOption result (next_by (λ t. passed (is_name_token name.now t)) (from text.now at) ≡ None) (λ end. next_by (λ t. passed (is_name_token name.now t)) (from text.now at) ≡ Some (tt, from text.now end)) }
{
    let next = next_token(text, at);
    match next.token {
        Some(Token::Name(found)) if found == name => Some(next.end),
        _ => None,
    }
}

fn plain_name(alloc: Global, text: &[u8], at: usize) -> Result<(Bytes, usize), NestedError>
    ensures { GivesNested text.now (λ x. (x.0, x.1)) result (plain one_name (from text.now at)) }
{
    let (name, at) = a_name(alloc, text, at)?;
    Ok((name, at))
}

/// The names before, and those that stand next, each behind its separator.
fn names_onto(
    alloc: Global,
    text: &[u8],
    at: usize,
    before: List<Bytes>,
) -> Result<(List<Bytes>, usize), NestedError>
    ensures { GivesNested text.now (λ x. (x.0, x.1)) result (more_onto before (spec.later_items sign.Comma (plain one_name)) (from text.now at)) }
{
    let mut names = before;
    let mut here = at;
    loop {
        match mark_next(text, here, Sign::Comma) {
            None => return Ok((names, here)),
            Some(behind) => {
                let (found, after) = plain_name(alloc, text, behind)?;
                names.push(found)?;
                here = after;
            }
        }
    }
}

#[tactic(auto, unfolding(crate::specs::ContractReader::separated))]
fn names(alloc: Global, text: &[u8], at: usize) -> Result<(List<Bytes>, usize), NestedError>
    ensures { GivesNested text.now (λ x. (x.0, x.1)) result (spec.names (from text.now at)) }
{
    let (first, at) = plain_name(alloc, text, at)?;
    let mut names = List::new(alloc);
    names.push(first)?;
    names_onto(alloc, text, at, names)
}

/// The atoms before, and those that stand next, each behind its separator.
fn atom_list_onto(
    alloc: Global,
    text: &[u8],
    at: usize,
    before: List<Atom>,
) -> Result<(List<Atom>, usize), NestedError>
    ensures { GivesNested text.now (λ x. (x.0, x.1)) result (more_onto before (spec.later_items sign.Comma spec.atom) (from text.now at)) }
{
    let mut atoms = before;
    let mut here = at;
    loop {
        match mark_next(text, here, Sign::Comma) {
            None => return Ok((atoms, here)),
            Some(behind) => {
                let (found, after) = atom(alloc, text, behind)?;
                atoms.push(found)?;
                here = after;
            }
        }
    }
}

#[tactic(auto, unfolding(crate::specs::ContractReader::separated))]
fn atom_list(alloc: Global, text: &[u8], at: usize) -> Result<(List<Atom>, usize), NestedError>
    ensures { GivesNested text.now (λ x. (x.0, x.1)) result (spec.atom_list (from text.now at)) }
{
    let (first, at) = atom(alloc, text, at)?;
    let mut atoms = List::new(alloc);
    atoms.push(first)?;
    atom_list_onto(alloc, text, at, atoms)
}

/// The items before, and those that stand next, each behind its separator.
fn item_list_onto(
    alloc: Global,
    text: &[u8],
    at: usize,
    before: List<Item>,
) -> Result<(List<Item>, usize), NestedError>
    ensures { GivesNested text.now (λ x. (x.0, x.1)) result (more_onto before (spec.later_items sign.Comma spec.item) (from text.now at)) }
{
    let mut items = before;
    let mut here = at;
    loop {
        match mark_next(text, here, Sign::Comma) {
            None => return Ok((items, here)),
            Some(behind) => {
                let (found, after) = item(alloc, text, behind)?;
                items.push(found)?;
                here = after;
            }
        }
    }
}

#[tactic(auto, unfolding(crate::specs::ContractReader::separated))]
fn item_list(alloc: Global, text: &[u8], at: usize) -> Result<(List<Item>, usize), NestedError>
    ensures { GivesNested text.now (λ x. (x.0, x.1)) result (spec.item_list (from text.now at)) }
{
    let (first, at) = item(alloc, text, at)?;
    let mut items = List::new(alloc);
    items.push(first)?;
    item_list_onto(alloc, text, at, items)
}

/// The alternatives before, and those that stand next, each behind its separator.
fn alternatives_onto(
    alloc: Global,
    text: &[u8],
    at: usize,
    before: List<List<Atom>>,
) -> Result<(List<List<Atom>>, usize), NestedError>
    ensures { GivesNested text.now (λ x. (x.0, x.1)) result (more_onto before (spec.later_items sign.Bar spec.atom_list) (from text.now at)) }
{
    let mut alternatives = before;
    let mut here = at;
    loop {
        match mark_next(text, here, Sign::Bar) {
            None => return Ok((alternatives, here)),
            Some(behind) => {
                let (found, after) = atom_list(alloc, text, behind)?;
                alternatives.push(found)?;
                here = after;
            }
        }
    }
}

#[tactic(auto, unfolding(crate::specs::ContractReader::separated))]
fn alternatives(
    alloc: Global,
    text: &[u8],
    at: usize,
) -> Result<(List<List<Atom>>, usize), NestedError>
    ensures { GivesNested text.now (λ x. (x.0, x.1)) result (spec.alternatives (from text.now at)) }
{
    let (first, at) = atom_list(alloc, text, at)?;
    let mut alternatives = List::new(alloc);
    alternatives.push(first)?;
    alternatives_onto(alloc, text, at, alternatives)
}

/// The names of `uses`; none where the word does not stand next.
#[tactic(auto, unfolding(crate::specs::ContractReader::listed, crate::specs::ContractReader::clause), using(crate::proofs::Nexts::nexts))]
fn listed(alloc: Global, text: &[u8], at: usize) -> Result<(List<Bytes>, usize), NestedError>
    ensures { GivesNested text.now (λ x. (x.0, x.1)) result (spec.listed (from text.now at)) }
{
    match name_next(text, at, b"uses") {
        Some(at) => {
            let (found, at) = names(alloc, text, at)?;
            let at = the_mark(text, at, Sign::Semicolon)?;
            Ok((found, at))
        }
        None => Ok((List::new(alloc), at)),
    }
}

/// The atoms of `requires`; none where the word does not stand next.
#[tactic(auto, unfolding(crate::specs::ContractReader::needs, crate::specs::ContractReader::clause), using(crate::proofs::Nexts::nexts))]
fn needs(alloc: Global, text: &[u8], at: usize) -> Result<(List<Atom>, usize), NestedError>
    ensures { GivesNested text.now (λ x. (x.0, x.1)) result (spec.needs (from text.now at)) }
{
    match name_next(text, at, b"requires") {
        Some(at) => {
            let (found, at) = atom_list(alloc, text, at)?;
            let at = the_mark(text, at, Sign::Semicolon)?;
            Ok((found, at))
        }
        None => Ok((List::new(alloc), at)),
    }
}

/// The items of `modifies`; none where the word does not stand next.
#[tactic(auto, unfolding(crate::specs::ContractReader::changes, crate::specs::ContractReader::clause), using(crate::proofs::Nexts::nexts))]
fn changes(alloc: Global, text: &[u8], at: usize) -> Result<(List<Item>, usize), NestedError>
    ensures { GivesNested text.now (λ x. (x.0, x.1)) result (spec.changes (from text.now at)) }
{
    match name_next(text, at, b"modifies") {
        Some(at) => {
            let (found, at) = item_list(alloc, text, at)?;
            let at = the_mark(text, at, Sign::Semicolon)?;
            Ok((found, at))
        }
        None => Ok((List::new(alloc), at)),
    }
}

/// The alternatives of `ensures`; none where the word does not stand next.
#[tactic(auto, unfolding(crate::specs::ContractReader::gives, crate::specs::ContractReader::clause), using(crate::proofs::Nexts::nexts))]
fn gives(alloc: Global, text: &[u8], at: usize) -> Result<(List<List<Atom>>, usize), NestedError>
    ensures { GivesNested text.now (λ x. (x.0, x.1)) result (spec.gives (from text.now at)) }
{
    match name_next(text, at, b"ensures") {
        Some(at) => {
            let (found, at) = alternatives(alloc, text, at)?;
            let at = the_mark(text, at, Sign::Semicolon)?;
            Ok((found, at))
        }
        None => Ok((List::new(alloc), at)),
    }
}

/// The contract that stands next, maybe an empty one, and the place behind it.
#[tactic(auto, unfolding(crate::specs::ContractReader::contract, crate::specs::ContractReader::needs_and_more, crate::specs::ContractReader::changes_and_gives))]
pub(crate) fn contract(
    alloc: Global,
    text: &[u8],
    at: usize,
) -> Result<(Contract, usize), NestedError>
    ensures { GivesNested text.now (λ x. (x.0, x.1)) result (spec.contract (from text.now at)) }
{
    let (listed, at) = listed(alloc, text, at)?;
    let (needs, at) = needs(alloc, text, at)?;
    let (changes, at) = changes(alloc, text, at)?;
    let (gives, at) = gives(alloc, text, at)?;
    Ok((
        Contract {
            listed,
            needs,
            changes,
            gives,
        },
        at,
    ))
}

fn is_at_end(text: &[u8], at: usize) -> bool
    ensures { IsTrue result ↔ (from text.now at ≡ []) }
{
    next_token(text, at).token.is_none()
}

/// The contract that a text of at most 4294967294 bytes spells. Errors: the first fault of the text with its line, a level too many
/// in front of it, and want of memory.
pub fn read_contract(alloc: Global, text: &[u8]) -> Result<Contract, TextError>
    requires { length text.now < 2 ^ 32 - 1 }
    // What is given is spelled by the text, within the levels that a text may open.
    ensures spelled { IfOk result (λ c. SpellsContract text.now c × (is_shallow c ≡ true)) }
    // What is given has the form that the types of programs ask of a contract.
    ensures formed { IfOk result (λ c. IsContract c) }
    // What the text spells within the levels is given, or memory is wanting.
    ensures only { (c : Contract) → SpellsContract text.now c → is_shallow c ≡ true → AnswersContract c result }
    // Each error has its cause: the first fault, or the level too many.
    ensures cause { IfErr result (λ e. ContractErrs text.now e) }
{
    let (found, at) = match contract(alloc, text, 0) {
        Ok(found) => found,
        Err(NestedError::Memory) => return Err(TextError::Memory),
        Err(NestedError::Nesting(_)) => return Err(TextError::Nesting),
        Err(NestedError::Fault(at)) => return Err(TextError::Fault(fault_at(text, at))),
    };
    if !is_at_end(text, at) {
        return Err(TextError::Fault(fault_at(text, at)));
    }
    Ok(found)
}
