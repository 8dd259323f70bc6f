//! What rules ask of the sets of codes and the sets lack.
ghost use Rattle.std.specs.Prelude.{◌≡◌, ◌+◌, ◌<◌, ◌^◌, Contains, MatchBool, MatchOption};
ghost use Rattle.cv_points.specs.Holders.{variable_number as variable_number_of};
ghost use Rattle.cv_ppts.specs.Keys.{setting};
ghost use Rattle.cv_ppts.specs.Lacking.{HasAll, Lacks};
ghost use Rattle.cv_ppts.specs.Numbers as numbers;
ghost use Rattle.cv_ppts.specs.Plain as spec;
ghost use Rattle.cv_ppts.specs.Setting.{target_of_name as target_of_name_in};
ghost use Rattle.cv_ppts.specs.declared.code.Code.{Code as CodeValue};

use crate::allowed::code_at;
use crate::code::Code;
use crate::numbers::{code_of, entity_code, is_same};
use crate::places::{content_in, target_of_name, variable_number};
use crate::setting::Scope;
use cv_core::{AnyOperand, Bytes, Form, List, Operand};

/// A rule on the sets of codes, which are given by their places.
#[derive(Clone, Copy, PartialEq, Eq, Debug)]
pub(crate) enum Rule {
    /// The set at `to` has `code`.
    Has { to: u128, code: Code },
    /// The set at `from` is within the one at `to`.
    Includes { from: u128, to: u128 },
    /// The codes of targets in the set at `from` are in the one at `to`.
    Moves { from: u128, to: u128 },
    /// The set of each cell in the set at `pointer` is within the one at `to`.
    Reads { pointer: u128, to: u128 },
    /// The set at `from` is within the set of each cell in the set at `pointer`.
    Writes { from: u128, pointer: u128 },
    /// The set of each cell in the set at `pointer` has null.
    WritesNull { pointer: u128 },
}

/// A code that is to be in the set at the place `to`, and is not there.
#[derive(Clone, Copy, PartialEq, Eq, Debug)]
pub(crate) struct Missing {
    pub to: u128,
    pub code: Code,
}

/// The set at a place, empty where there is none.
pub(crate) fn set_at(sets: &[List<i32>], place: u128) -> &[i32]
    ensures { numbers.row_codes result.now ≡ spec.codes_at (numbers.codes_of sets.now) place }
{
    if place < sets.len() as u128 {
        sets[place as usize].as_slice()
    } else {
        &[]
    }
}

fn contains(set: &[i32], code: Code) -> bool
    ensures { MatchBool result (Contains (numbers.row_codes set.now) code) (Contains (numbers.row_codes set.now) code → ⊥) }
{
    for number in set {
        if is_same(code_of(*number), code) {
            return true;
        }
    }
    false
}

/// Whether the set at a place has a code.
pub(crate) fn has_code(sets: &[List<i32>], place: u128, code: Code) -> bool
    ensures { MatchBool result (spec.HasCode (numbers.codes_of sets.now) place code) (spec.HasCode (numbers.codes_of sets.now) place code → ⊥) }
{
    contains(set_at(sets, place), code)
}

/// A code that the set at a place is to have.
pub(crate) fn missing_code(sets: &[List<i32>], to: u128, code: Code) -> Option<Missing>
    ensures { MatchOption result (spec.HasCode (numbers.codes_of sets.now) to code) (λ m. Lacks (numbers.codes_of sets.now) (λ R. spec.HasCode R to code) m.to m.code) }
{
    if has_code(sets, to, code) {
        None
    } else {
        Some(Missing { to, code })
    }
}

/// The first of some codes that a set lacks.
fn missing_of(sets: &[List<i32>], codes: &[i32], to: u128) -> Option<Missing>
    ensures { MatchOption result (HasAll (numbers.codes_of sets.now) (numbers.row_codes codes.now) to) (λ m. Lacks (numbers.codes_of sets.now) (λ R. HasAll R (numbers.row_codes codes.now) to) m.to m.code) }
{
    for number in codes {
        match missing_code(sets, to, code_of(*number)) {
            None => {}
            Some(missing) => return Some(missing),
        }
    }
    None
}

/// A code of the set at `from` that the one at `to` lacks.
fn missing_within(sets: &[List<i32>], from: u128, to: u128) -> Option<Missing>
    ensures { MatchOption result (spec.Includes (numbers.codes_of sets.now) from to) (λ m. Lacks (numbers.codes_of sets.now) (λ R. spec.Includes R from to) m.to m.code) }
{
    missing_of(sets, set_at(sets, from), to)
}

fn missing_moved(sets: &[List<i32>], code: Code, to: u128) -> Option<Missing>
    ensures { MatchOption result (spec.MovesTo (numbers.codes_of sets.now) code to) (λ m. Lacks (numbers.codes_of sets.now) (λ R. spec.MovesTo R code to) m.to m.code) }
{
    match code {
        Code::Target(_) => missing_code(sets, to, code),
        Code::Unknown => None,
        Code::Null => None,
        Code::New => None,
    }
}

fn missing_moves(sets: &[List<i32>], codes: &[i32], to: u128) -> Option<Missing>
    ensures { MatchOption result ((c : CodeValue) → Contains (numbers.row_codes codes.now) c → spec.MovesTo (numbers.codes_of sets.now) c to) (λ m. Lacks (numbers.codes_of sets.now) (λ R. (c : CodeValue) → Contains (numbers.row_codes codes.now) c → spec.MovesTo R c to) m.to m.code) }
{
    for number in codes {
        match missing_moved(sets, code_of(*number), to) {
            None => {}
            Some(missing) => return Some(missing),
        }
    }
    None
}

fn missing_read(s: &Scope, sets: &[List<i32>], code: Code, to: u128) -> Option<Missing>
    ensures { MatchOption result (spec.ReadsFrom (numbers.codes_of sets.now) (spec.content_in (setting s.entry.now) code) to) (λ m. Lacks (numbers.codes_of sets.now) (λ R. spec.ReadsFrom R (spec.content_in (setting s.entry.now) code) to) m.to m.code) }
{
    match content_in(s, code) {
        None => None,
        Some(cell) => missing_within(sets, cell, to),
    }
}

fn missing_reads(s: &Scope, sets: &[List<i32>], codes: &[i32], to: u128) -> Option<Missing>
    ensures { MatchOption result ((c : CodeValue) → Contains (numbers.row_codes codes.now) c → spec.ReadsFrom (numbers.codes_of sets.now) (spec.content_in (setting s.entry.now) c) to) (λ m. Lacks (numbers.codes_of sets.now) (λ R. (c : CodeValue) → Contains (numbers.row_codes codes.now) c → spec.ReadsFrom R (spec.content_in (setting s.entry.now) c) to) m.to m.code) }
{
    for number in codes {
        match missing_read(s, sets, code_of(*number), to) {
            None => {}
            Some(missing) => return Some(missing),
        }
    }
    None
}

fn missing_write(s: &Scope, sets: &[List<i32>], from: u128, code: Code) -> Option<Missing>
    ensures { MatchOption result (spec.WritesTo (numbers.codes_of sets.now) from (spec.content_in (setting s.entry.now) code)) (λ m. Lacks (numbers.codes_of sets.now) (λ R. spec.WritesTo R from (spec.content_in (setting s.entry.now) code)) m.to m.code) }
{
    match content_in(s, code) {
        None => None,
        Some(cell) => missing_within(sets, from, cell),
    }
}

fn missing_writes(s: &Scope, sets: &[List<i32>], from: u128, codes: &[i32]) -> Option<Missing>
    ensures { MatchOption result ((c : CodeValue) → Contains (numbers.row_codes codes.now) c → spec.WritesTo (numbers.codes_of sets.now) from (spec.content_in (setting s.entry.now) c)) (λ m. Lacks (numbers.codes_of sets.now) (λ R. (c : CodeValue) → Contains (numbers.row_codes codes.now) c → spec.WritesTo R from (spec.content_in (setting s.entry.now) c)) m.to m.code) }
{
    for number in codes {
        match missing_write(s, sets, from, code_of(*number)) {
            None => {}
            Some(missing) => return Some(missing),
        }
    }
    None
}

fn missing_null(s: &Scope, sets: &[List<i32>], code: Code) -> Option<Missing>
    ensures { MatchOption result (spec.NullTo (numbers.codes_of sets.now) (spec.content_in (setting s.entry.now) code)) (λ m. Lacks (numbers.codes_of sets.now) (λ R. spec.NullTo R (spec.content_in (setting s.entry.now) code)) m.to m.code) }
{
    match content_in(s, code) {
        None => None,
        Some(cell) => missing_code(sets, cell, Code::Null),
    }
}

fn missing_nulls(s: &Scope, sets: &[List<i32>], codes: &[i32]) -> Option<Missing>
    ensures { MatchOption result ((c : CodeValue) → Contains (numbers.row_codes codes.now) c → spec.NullTo (numbers.codes_of sets.now) (spec.content_in (setting s.entry.now) c)) (λ m. Lacks (numbers.codes_of sets.now) (λ R. (c : CodeValue) → Contains (numbers.row_codes codes.now) c → spec.NullTo R (spec.content_in (setting s.entry.now) c)) m.to m.code) }
{
    for number in codes {
        match missing_null(s, sets, code_of(*number)) {
            None => {}
            Some(missing) => return Some(missing),
        }
    }
    None
}

/// What a rule asks of the sets and the sets lack.
fn missing_by_rule(s: &Scope, sets: &[List<i32>], rule: Rule) -> Option<Missing>
    ensures { MatchOption result (spec.Holds (setting s.entry.now) (numbers.codes_of sets.now) rule) (λ m. Lacks (numbers.codes_of sets.now) (λ R. spec.Holds (setting s.entry.now) R rule) m.to m.code) }
{
    match rule {
        Rule::Has { to, code } => missing_code(sets, to, code),
        Rule::Includes { from, to } => missing_within(sets, from, to),
        Rule::Moves { from, to } => missing_moves(sets, set_at(sets, from), to),
        Rule::Reads { pointer, to } => missing_reads(s, sets, set_at(sets, pointer), to),
        Rule::Writes { from, pointer } => missing_writes(s, sets, from, set_at(sets, pointer)),
        Rule::WritesNull { pointer } => missing_nulls(s, sets, set_at(sets, pointer)),
    }
}

/// What the rule of a statement asks of the sets and the sets lack.
pub(crate) fn missing_by(s: &Scope, sets: &[List<i32>], rule: Option<Rule>) -> Option<Missing>
    ensures { MatchOption result (spec.MaybeHolds (setting s.entry.now) (numbers.codes_of sets.now) rule) (λ m. Lacks (numbers.codes_of sets.now) (λ R. spec.MaybeHolds (setting s.entry.now) R rule) m.to m.code) }
{
    match rule {
        None => None,
        Some(rule) => missing_by_rule(s, sets, rule),
    }
}

// ---- the rules of statements

/// The place of the set of the variable that a destination names.
pub(crate) fn place_of_variable(s: &Scope, name: &Option<Bytes>) -> Option<u128>
    ensures { result ≡ spec.place_of_variable (setting s.entry.now) name.now }
{
    match name {
        None => None,
        Some(name) => variable_number(s.f, name),
    }
}

fn includes(from: Option<u128>, to: Option<u128>) -> Option<Rule>
    ensures { result ≡ spec.both (λ from to. Rule.Includes from to) from to }
{
    match (from, to) {
        (Some(from), Some(to)) => Some(Rule::Includes { from, to }),
        _ => None,
    }
}

fn moves(from: Option<u128>, to: Option<u128>) -> Option<Rule>
    ensures { result ≡ spec.both (λ from to. Rule.Moves from to) from to }
{
    match (from, to) {
        (Some(from), Some(to)) => Some(Rule::Moves { from, to }),
        _ => None,
    }
}

fn reads(pointer: Option<u128>, to: Option<u128>) -> Option<Rule>
    ensures { result ≡ spec.both (λ w to. Rule.Reads w to) pointer to }
{
    match (pointer, to) {
        (Some(pointer), Some(to)) => Some(Rule::Reads { pointer, to }),
        _ => None,
    }
}

fn writes(from: Option<u128>, pointer: Option<u128>) -> Option<Rule>
    ensures { result ≡ spec.both (λ from w. Rule.Writes from w) from pointer }
{
    match (from, pointer) {
        (Some(from), Some(pointer)) => Some(Rule::Writes { from, pointer }),
        _ => None,
    }
}

fn has(to: Option<u128>, code: Code) -> Option<Rule>
    ensures { result ≡ spec.at (λ to. Rule.Has to code) to }
{
    match to {
        None => None,
        Some(to) => Some(Rule::Has { to, code }),
    }
}

fn writes_null(pointer: Option<u128>) -> Option<Rule>
    ensures { result ≡ spec.at (λ w. Rule.WritesNull w) pointer }
{
    match pointer {
        None => None,
        Some(pointer) => Some(Rule::WritesNull { pointer }),
    }
}

fn put_rule(s: &Scope, w: &Bytes, value: &AnyOperand) -> Option<Rule>
    ensures { result ≡ spec.put_rule (setting s.entry.now) w.now value.now }
{
    let pointer = variable_number(s.f, w);
    match value {
        AnyOperand::Null => writes_null(pointer),
        AnyOperand::Operand(operand) => match operand {
            Operand::Var(name) => writes(variable_number(s.f, name), pointer),
            Operand::Number(_) => None,
        },
    }
}

fn has_target(to: Option<u128>, target: u32) -> Option<Rule>
    ensures { result ≡ spec.at (λ to. Rule.Has to (numbers.entity_code target)) to }
{
    match to {
        None => None,
        Some(to) => Some(Rule::Has {
            to,
            code: entity_code(target),
        }),
    }
}

fn address_rule(s: &Scope, p: &Bytes, object: &Bytes) -> Option<Rule>
    ensures { result ≡ spec.at (λ to. Rule.Has to (numbers.entity_code (target_of_name_in (setting s.entry.now) object.now))) (variable_number_of s.entry.now.f.now p.now) }
{
    has_target(variable_number(s.f, p), target_of_name(s, object))
}

fn shift_rule(s: &Scope, p: &Bytes, q: &Bytes) -> Option<Rule>
    ensures { result ≡ spec.both (λ from to. Rule.Moves from to) (variable_number_of s.entry.now.f.now q.now) (variable_number_of s.entry.now.f.now p.now) }
{
    moves(variable_number(s.f, q), variable_number(s.f, p))
}

fn get_rule(s: &Scope, x: &Bytes, w: &Bytes) -> Option<Rule>
    ensures { result ≡ spec.both (λ w to. Rule.Reads w to) (variable_number_of s.entry.now.f.now w.now) (variable_number_of s.entry.now.f.now x.now) }
{
    reads(variable_number(s.f, w), variable_number(s.f, x))
}

fn copy_rule(s: &Scope, p: &Bytes, q: &Option<Bytes>) -> Option<Rule>
    ensures { result ≡ spec.copy_rule (setting s.entry.now) p.now q.now }
{
    match q {
        None => has(variable_number(s.f, p), Code::Null),
        Some(q) => includes(variable_number(s.f, q), variable_number(s.f, p)),
    }
}

/// The rule of a statement that isn't a call.
pub(crate) fn plain_rule(s: &Scope, form: &Form) -> Option<Rule>
    ensures { result ≡ spec.plain_rule (setting s.entry.now) form.now }
{
    match form {
        Form::CopyPtr { p, q } => copy_rule(s, p, q),
        Form::Address { p, object } => address_rule(s, p, object),
        Form::Shift { p, q, .. } => shift_rule(s, p, q),
        Form::Get { x, w } => get_rule(s, x, w),
        Form::Put { w, value } => put_rule(s, w, value),
        Form::Assign { .. } => None,
        Form::Sum { .. } => None,
        Form::Minus { .. } => None,
        Form::Product { .. } => None,
        Form::Quotient { .. } => None,
        Form::Remainder { .. } => None,
        Form::Load { .. } => None,
        Form::Store { .. } => None,
        Form::Diff { .. } => None,
        Form::Goto(_) => None,
        Form::If { .. } => None,
        Form::IfByte { .. } => None,
        Form::Call { .. } => None,
        Form::Return(_) => None,
    }
}

// ---- the codes at entry

/// A code that one of some sets, from a place on, lacks.
pub(crate) fn missing_unknown(sets: &[List<i32>], first: u128, count: usize) -> Option<Missing>
    requires { first + count < 2 ^ 128 }
    ensures { MatchOption result (spec.AreUnknown (numbers.codes_of sets.now) first count) (λ m. Lacks (numbers.codes_of sets.now) (λ R. spec.AreUnknown R first count) m.to m.code) }
{
    for number in 0..count {
        match missing_code(sets, first + number as u128, Code::Unknown) {
            None => {}
            Some(missing) => return Some(missing),
        }
    }
    None
}

fn missing_entity(sets: &[List<i32>], to: u128, code: u32) -> Option<Missing>
    ensures { MatchOption result (spec.HasCode (numbers.codes_of sets.now) to (numbers.entity_code code)) (λ m. Lacks (numbers.codes_of sets.now) (λ R. spec.HasCode R to (numbers.entity_code code)) m.to m.code) }
{
    missing_code(sets, to, entity_code(code))
}

/// What sets, from a place on, lack of the codes of as many entities.
pub(crate) fn missing_coded(
    sets: &[List<i32>],
    first: u128,
    codes: &[u32],
    count: usize,
) -> Option<Missing>
    requires { first + count < 2 ^ 128 }
    ensures { MatchOption result (spec.AreCoded (numbers.codes_of sets.now) first codes.now count) (λ m. Lacks (numbers.codes_of sets.now) (λ R. spec.AreCoded R first codes.now count) m.to m.code) }
{
    for number in 0..count {
        match missing_entity(sets, first + number as u128, code_at(codes, Some(number))) {
            None => {}
            Some(missing) => return Some(missing),
        }
    }
    None
}
