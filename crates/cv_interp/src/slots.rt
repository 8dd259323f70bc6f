//! Variables by slot.
ghost use Rattle.std.specs.Prelude.{◌≡◌, ◌<◌, map, length, pos, IfSome, IsSome};
ghost use Rattle.cv_core.specs.Chars.{low_byte as low_byte_of, char_of as char_in};
ghost use Rattle.cv_core.specs.Names as spec;
ghost use Rattle.cv_meaning.specs.State.{any_value as any_value_in, as_kind as as_kind_of, number as number_in, operand_value as operand_value_in, pointer as pointer_in, set};
ghost use Rattle.cv_interp.specs.Plans.{any_slot as any_slot_of, operand_slot as operand_slot_of, slot_at as slot_at_of};
ghost use Rattle.cv_interp.specs.Slots.{env_of, held_as, is_variable as is_variable_in, slot_in, slot_names, slot_of as slot_of_name, variables_of};

use crate::store::Slot;
use cv_core::{
    AnyOperand, Formal, Local, LocalBody, Operand, Proc, Program, VarKind, char_of, kind_of,
    locals_of,
};
use cv_meaning::{Ptr, Value};

fn slot_among_formals(formals: &[Formal], x: &[u8]) -> Option<usize>
    ensures value { result ≡ slot_in (map (λ f. f.name) formals.now) x.now }
    ensures within { IfSome result (λ i. i < length formals.now) }
{
    match formals {
        [] => None,
        [first, rest @ ..] => {
            if first.name.as_slice() == x {
                Some(0)
            } else {
                Some(slot_among_formals(rest, x)? + 1)
            }
        }
    }
}

fn is_variable(body: LocalBody) -> bool
    ensures { result ≡ is_variable_in body }
{
    matches!(body, LocalBody::Var(_))
}

fn slot_among_locals(locals: &[Local], x: &[u8]) -> Option<usize>
    ensures value { result ≡ slot_in (variables_of locals.now) x.now }
    ensures within { IfSome result (λ i. i < length locals.now) }
{
    match locals {
        [] => None,
        [first, rest @ ..] => {
            if !is_variable(first.body) {
                slot_among_locals(rest, x)
            } else if first.name.as_slice() == x {
                Some(0)
            } else {
                Some(slot_among_locals(rest, x)? + 1)
            }
        }
    }
}

/// The slot of a variable of the procedure; the first of the name counts.
#[tactic(auto, using(crate::proofs::Env::slot_first, crate::proofs::Env::slot_second, crate::proofs::Env::slot_neither, crate::proofs::Env::slot_within))]
fn slot_of(f: &Proc, x: &[u8]) -> Option<usize>
    ensures value { result ≡ slot_of_name f.now x.now }
    ensures within { IfSome result (λ i. i < length (slot_names f.now)) }
{
    let formals = f.formals.as_slice();
    match slot_among_formals(formals, x) {
        Some(i) => Some(i),
        None => match slot_among_locals(locals_of(f), x) {
            None => None,
            Some(i) => Some(formals.len() + i),
        },
    }
}

/// Where a variable of the procedure is held, and its kind.
pub(crate) fn slot_at(f: &Proc, x: &[u8]) -> Slot
    ensures { result ≡ slot_at_of f.now x.now }
{
    Slot {
        place: slot_of(f, x),
        kind: kind_of(f, x),
    }
}

/// What a variable of the procedure holds; wild for one that has no place.
#[tactic(auto, using(crate::proofs::Env::env_some, crate::proofs::Env::env_gone, crate::proofs::Env::env_none))]
pub(crate) fn value_of(_f: &Proc, vars: &[Value], _x: &[u8], at: Slot) -> Value
    requires at { at ≡ slot_at_of _f.now _x.now }
    ensures { result ≡ env_of _f.now vars.now _x.now }
{
    match at.place {
        None => Value::Ptr(Ptr::Wild),
        Some(i) => match vars.get(i) {
            None => Value::Ptr(Ptr::Wild),
            Some(v) => *v,
        },
    }
}

/// Puts a value into a variable of the procedure.
#[tactic(auto, using(crate::proofs::Env::env_set, crate::proofs::Env::slot_within))]
pub(crate) fn set_var(_f: &Proc, vars: &mut Vec<Value>, _x: &[u8], at: Slot, v: Value)
    requires at { at ≡ slot_at_of _f.now _x.now }
    requires known { IsSome (slot_of_name _f.now _x.now) }
    requires whole { length vars.old.items ≡ length (slot_names _f.now) }
    ensures set { env_of _f.now vars.new.items ≡ set (env_of _f.now vars.old.items) _x.now v }
    ensures whole { length vars.new.items ≡ length vars.old.items }
{
    if let Some(i) = at.place {
        vars[i] = v;
    }
}

pub(crate) fn number(v: Value) -> i32
    ensures { result ≡ number_in v }
{
    match v {
        Value::Int(z) => z,
        Value::Ptr(_) => 0,
    }
}

pub(crate) fn pointer(v: Value) -> Ptr
    ensures { result ≡ pointer_in v }
{
    match v {
        Value::Ptr(p) => p,
        Value::Int(_) => Ptr::Wild,
    }
}

pub(crate) fn operand_value(f: &Proc, vars: &[Value], e: &Operand, at: Slot) -> Value
    requires at { at ≡ operand_slot_of f.now e.now }
    ensures { result ≡ operand_value_in (env_of f.now vars.now) e.now }
{
    match e {
        Operand::Var(x) => value_of(f, vars, x.as_slice(), at),
        Operand::Number(z) => Value::Int(*z),
    }
}

pub(crate) fn any_value(f: &Proc, vars: &[Value], e: &AnyOperand, at: Slot) -> Value
    requires at { at ≡ any_slot_of f.now e.now }
    ensures { result ≡ any_value_in (env_of f.now vars.now) e.now }
{
    match e {
        AnyOperand::Operand(e) => operand_value(f, vars, e, at),
        AnyOperand::Null => Value::Ptr(Ptr::Null),
    }
}

/// The number that an operand has.
pub(crate) fn number_of(f: &Proc, vars: &[Value], e: &Operand, at: Slot) -> i32
    requires at { at ≡ operand_slot_of f.now e.now }
    ensures { result ≡ number_in (operand_value_in (env_of f.now vars.now) e.now) }
{
    number(operand_value(f, vars, e, at))
}

/// The pointer that a variable holds.
pub(crate) fn pointer_of(f: &Proc, vars: &[Value], x: &[u8], at: Slot) -> Ptr
    requires at { at ≡ slot_at_of f.now x.now }
    ensures { result ≡ pointer_in (env_of f.now vars.now x.now) }
{
    pointer(value_of(f, vars, x, at))
}

/// A number as a variable of a kind holds it.
pub(crate) fn as_kind(p: &Program, kind: VarKind, z: i32) -> Value
    ensures { result ≡ as_kind_of p.now kind z }
{
    match kind {
        VarKind::Char => Value::Int(char_of(p, z)),
        _ => Value::Int(z),
    }
}

/// Assigns a number to a variable.
pub(crate) fn assign(p: &Program, f: &Proc, vars: &mut Vec<Value>, x: &[u8], at: Slot, z: i32)
    requires at { at ≡ slot_at_of f.now x.now }
    requires known { IsSome (slot_of_name f.now x.now) }
    requires whole { length vars.old.items ≡ length (slot_names f.now) }
    ensures set { env_of f.now vars.new.items ≡ set (env_of f.now vars.old.items) x.now (as_kind_of p.now (spec.kind_of f.now x.now) z) }
    ensures whole { length vars.new.items ≡ length vars.old.items }
{
    let v = as_kind(p, at.kind, z);
    set_var(f, vars, x, at, v);
}

/// Assigns a number or a pointer to a variable.
pub(crate) fn assign_value(
    p: &Program,
    f: &Proc,
    vars: &mut Vec<Value>,
    x: &[u8],
    at: Slot,
    v: Value,
)
    requires at { at ≡ slot_at_of f.now x.now }
    requires known { IsSome (slot_of_name f.now x.now) }
    requires whole { length vars.old.items ≡ length (slot_names f.now) }
    ensures set { env_of f.now vars.new.items ≡ set (env_of f.now vars.old.items) x.now (held_as p.now f.now x.now v) }
    ensures whole { length vars.new.items ≡ length vars.old.items }
{
    match v {
        Value::Int(z) => assign(p, f, vars, x, at, z),
        Value::Ptr(_) => set_var(f, vars, x, at, v),
    }
}
