//! One step of a statement that is no call and no return.
ghost use Rattle.std.specs.Prelude.{◌*ℤ◌, ◌≡◌, ◌+◌, ◌<◌, ◌^◌, ◌≤ℤ◌, Err, IfErr, IfOk, Ok, length, ◌≤◌, if◌then◌else◌, pos};
ghost use Rattle.cv_meaning.specs.Contract.{compare as compare_of};
ghost use Rattle.cv_meaning.specs.State.{assign as assign_in, with_var};
ghost use Rattle.cv_meaning.specs.Step as spec;
ghost use Rattle.cv_interp.specs.Cells.{IsCellIfLive};
ghost use Rattle.cv_interp.specs.Plans.{line_of as line_as, object_at as object_in, operand_slot as operand_slot_of, own_place, slot_at as slot_at_of, slot_if as slot_if_of};
ghost use Rattle.cv_interp.specs.Seen.{frame, state};
ghost use Rattle.cv_interp.specs.Slots.{env_of};
ghost use Rattle.cv_interp.specs.Takes.{HasSlot, IsKept, IsNearPtr, IsReady, IsSmall, IsWhole, Takes};

use crate::cells::{diff, get, put};
use crate::objects::object_at;
use crate::slots::{
    any_value, assign, number, number_of, operand_value, pointer, pointer_of, set_var, value_of,
};
use crate::store::{Activation, Home, Line, Slot, Store};
use crate::world::{fresh, spent};
use cv_core::{AnyOperand, Bytes, ErrKind, Form, Operand, Proc, Program, Rel, low_byte};
use cv_meaning::{Ptr, Value, load, shift, store};

/// Assigns a number.
fn assigned(
    p: &Program,
    a: &Activation,
    k: usize,
    x: &Bytes,
    at: Slot,
    z: i32,
    s: &mut Store,
) -> usize
    requires at { at ≡ slot_at_of a.now.proc.now x.now }
    requires small { k + 1 < 2 ^ 64 }
    requires known { HasSlot a.now.proc.now x.now }
    requires whole { IsWhole a.now.proc.now s.old }
    ensures next { result ≡ k + 1 }
    ensures state { state a.now.proc.now s.new ≡ assign_in p.now (frame a.now) x.now z (state a.now.proc.now s.old) }
    ensures kept { IsKept s.old s.new }
{
    assign(p, a.proc, &mut s.room.vars, x.as_slice(), at, z);
    k + 1
}

/// Assigns the exact result of a sum or product: Range where it is no int.
fn ranged(
    p: &Program,
    a: &Activation,
    k: usize,
    x: &Bytes,
    at: Slot,
    z: i64,
    s: &mut Store,
) -> Result<usize, ErrKind>
    requires at { at ≡ slot_at_of a.now.proc.now x.now }
    requires small { k + 1 < 2 ^ 64 }
    requires known { HasSlot a.now.proc.now x.now }
    requires whole { IsWhole a.now.proc.now s.old }
    ensures ok { IfOk result (λ j. (spec.ranged p.now (frame a.now) k x.now z (state a.now.proc.now s.old) ≡ Ok (j, state a.now.proc.now s.new)) × IsKept s.old s.new) }
    ensures err { IfErr result (λ e. (spec.ranged p.now (frame a.now) k x.now z (state a.now.proc.now s.old) ≡ Err e) × (s.new ≡ s.old)) }
{
    if z < -2147483648 || z > 2147483647 {
        return Err(ErrKind::Range);
    }
    Ok(assigned(p, a, k, x, at, z as i32, s))
}

fn number_in(a: &Activation, s: &Store, e: &Operand, at: Slot) -> i32
    requires at { at ≡ operand_slot_of a.now.proc.now e.now }
    ensures { result ≡ spec.value_of (state a.now.proc.now s.now) e.now }
{
    number_of(a.proc, s.room.vars.as_slice(), e, at)
}

fn pointer_in(a: &Activation, s: &Store, x: &Bytes, at: Slot) -> Ptr
    requires at { at ≡ slot_at_of a.now.proc.now x.now }
    ensures { result ≡ spec.pointer_of (state a.now.proc.now s.now) x.now }
{
    pointer_of(a.proc, s.room.vars.as_slice(), x.as_slice(), at)
}

fn copied(a: &Activation, s: &Store, q: &Option<Bytes>, at: Slot) -> Value
    requires at { at ≡ slot_if_of a.now.proc.now q.now }
    ensures { result ≡ spec.copied (state a.now.proc.now s.now) q.now }
{
    match q {
        None => Value::Ptr(Ptr::Null),
        Some(q) => value_of(a.proc, s.room.vars.as_slice(), q.as_slice(), at),
    }
}

/// Puts a value into a variable.
fn held(a: &Activation, k: usize, x: &Bytes, at: Slot, v: Value, s: &mut Store) -> usize
    requires at { at ≡ slot_at_of a.now.proc.now x.now }
    requires small { k + 1 < 2 ^ 64 }
    requires known { HasSlot a.now.proc.now x.now }
    requires whole { IsWhole a.now.proc.now s.old }
    ensures next { result ≡ k + 1 }
    ensures state { state a.now.proc.now s.new ≡ with_var x.now v (state a.now.proc.now s.old) }
    ensures kept { IsKept s.old s.new }
{
    set_var(a.proc, &mut s.room.vars, x.as_slice(), at, v);
    k + 1
}

#[tactic(auto, unfolding(cv_meaning::specs::Step::step))]
fn moved(
    p: &Program,
    a: &Activation,
    k: usize,
    x: &Bytes,
    q: &Bytes,
    e: &Operand,
    line: &Line,
    s: &mut Store,
) -> Result<usize, ErrKind>
    requires line { line.now ≡ line_as p.now a.now.proc.now (Form.Shift x.now q.now e.now) }
    requires small { k + 1 < 2 ^ 64 }
    requires known { HasSlot a.now.proc.now x.now }
    requires whole { IsWhole a.now.proc.now s.old }
    ensures { Takes p.now a.now k (Form.Shift x.now q.now e.now) s.old result s.new }
{
    let by = i64::from(number_in(a, s, e, line.third));
    let from = pointer_in(a, s, q, line.second);
    match shift(&s.room.memory, from, by) {
        Err(kind) => Err(kind),
        Ok(r) => Ok(held(a, k, x, line.first, Value::Ptr(r), s)),
    }
}

#[tactic(auto, unfolding(cv_meaning::specs::Step::step))]
fn loaded(
    p: &Program,
    a: &Activation,
    k: usize,
    x: &Bytes,
    q: &Bytes,
    line: &Line,
    s: &mut Store,
) -> Result<usize, ErrKind>
    requires line { line.now ≡ line_as p.now a.now.proc.now (Form.Load x.now q.now) }
    requires small { k + 1 < 2 ^ 64 }
    requires known { HasSlot a.now.proc.now x.now }
    requires whole { IsWhole a.now.proc.now s.old }
    ensures { Takes p.now a.now k (Form.Load x.now q.now) s.old result s.new }
{
    let from = pointer_in(a, s, q, line.second);
    match load(&s.room.memory, from) {
        Err(kind) => Err(kind),
        Ok(b) => Ok(assigned(p, a, k, x, line.first, i32::from(b), s)),
    }
}

#[tactic(auto, unfolding(cv_meaning::specs::Step::step))]
fn stored(
    p: &Program,
    a: &Activation,
    k: usize,
    q: &Bytes,
    e: &Operand,
    line: &Line,
    s: &mut Store,
) -> Result<usize, ErrKind>
    requires line { line.now ≡ line_as p.now a.now.proc.now (Form.Store q.now e.now) }
    requires small { k + 1 < 2 ^ 64 }
    ensures { Takes p.now a.now k (Form.Store q.now e.now) s.old result s.new }
{
    let byte = low_byte(number_in(a, s, e, line.second));
    let to = pointer_in(a, s, q, line.first);
    match store(&mut s.room.memory, to, byte, &a.permit) {
        Err(kind) => Err(kind),
        Ok(()) => Ok(k + 1),
    }
}

#[tactic(auto, unfolding(cv_meaning::specs::Step::step))]
fn got(
    p: &Program,
    a: &Activation,
    k: usize,
    x: &Bytes,
    w: &Bytes,
    line: &Line,
    s: &mut Store,
) -> Result<usize, ErrKind>
    requires line { line.now ≡ line_as p.now a.now.proc.now (Form.Get x.now w.now) }
    requires small { k + 1 < 2 ^ 64 }
    requires known { HasSlot a.now.proc.now x.now }
    requires whole { IsWhole a.now.proc.now s.old }
    ensures { Takes p.now a.now k (Form.Get x.now w.now) s.old result s.new }
{
    let from = pointer_in(a, s, w, line.second);
    match get(&s.room.memory, from) {
        Err(kind) => Err(kind),
        Ok(Value::Int(z)) => Ok(assigned(p, a, k, x, line.first, z, s)),
        Ok(Value::Ptr(r)) => Ok(held(a, k, x, line.first, Value::Ptr(r), s)),
    }
}

#[tactic(auto, unfolding(cv_meaning::specs::Step::step))]
fn kept(
    p: &Program,
    a: &Activation,
    k: usize,
    w: &Bytes,
    e: &AnyOperand,
    line: &Line,
    s: &mut Store,
) -> Result<usize, ErrKind>
    requires line { line.now ≡ line_as p.now a.now.proc.now (Form.Put w.now e.now) }
    requires small { k + 1 < 2 ^ 64 }
    requires cell { IsCellIfLive s.old.room.memory (spec.pointer_of (state a.now.proc.now s.old) w.now) }
    ensures { Takes p.now a.now k (Form.Put w.now e.now) s.old result s.new }
{
    let v = any_value(a.proc, s.room.vars.as_slice(), e, line.second);
    let to = pointer_in(a, s, w, line.first);
    match put(&mut s.room.memory, to, v, &a.permit) {
        Err(kind) => Err(kind),
        Ok(()) => Ok(k + 1),
    }
}

#[tactic(auto, unfolding(cv_meaning::specs::Step::step))]
fn apart(
    p: &Program,
    a: &Activation,
    k: usize,
    x: &Bytes,
    q: &Bytes,
    r: &Bytes,
    line: &Line,
    s: &mut Store,
) -> Result<usize, ErrKind>
    requires line { line.now ≡ line_as p.now a.now.proc.now (Form.Diff x.now q.now r.now) }
    requires small { k + 1 < 2 ^ 64 }
    requires known { HasSlot a.now.proc.now x.now }
    requires whole { IsWhole a.now.proc.now s.old }
    requires first { IsNearPtr (spec.pointer_of (state a.now.proc.now s.old) q.now) }
    requires second { IsNearPtr (spec.pointer_of (state a.now.proc.now s.old) r.now) }
    ensures { Takes p.now a.now k (Form.Diff x.now q.now r.now) s.old result s.new }
{
    let from = pointer_in(a, s, q, line.second);
    let to = pointer_in(a, s, r, line.third);
    match diff(&s.room.memory, from, to) {
        Err(kind) => Err(kind),
        Ok(z) => Ok(assigned(p, a, k, x, line.first, z, s)),
    }
}

fn jumped(jumps: bool, to: u32, k: usize) -> usize
    requires { k + 1 < 2 ^ 64 }
    ensures { result ≡ (if jumps then to else k + 1) }
{
    if jumps { to as usize } else { k + 1 }
}

fn by_rel(r: Rel, b: bool) -> bool
    ensures { result ≡ spec.by_rel r b }
{
    match r {
        Rel::Eq => b,
        Rel::Ne => !b,
        _ => false,
    }
}

fn compare(r: Rel, a: i32, b: i32) -> bool
    ensures { result ≡ compare_of r a b }
{
    match r {
        Rel::Eq => a == b,
        Rel::Ne => a != b,
        Rel::Lt => a < b,
        Rel::Le => a <= b,
        Rel::Gt => a > b,
        Rel::Ge => a >= b,
    }
}

fn equal_pointers(p: Ptr, q: Ptr) -> bool
    ensures { result ≡ spec.equal_pointers p q }
{
    match (p, q) {
        (Ptr::Null, Ptr::Null) => true,
        (
            Ptr::At {
                object: o,
                offset: i,
            },
            Ptr::At {
                object: u,
                offset: j,
            },
        ) => o == u && i == j,
        _ => false,
    }
}

fn is_wild(p: Ptr) -> bool
    ensures { result ≡ spec.is_wild p }
{
    matches!(p, Ptr::Wild)
}

/// Where a comparison of pointers goes; where one of them is wild, a fresh number answers.
fn branched(f: &Proc, r: Rel, p: Ptr, q: Ptr, to: u32, k: usize, s: &mut Store) -> usize
    requires { k + 1 < 2 ^ 64 }
    ensures next { spec.branch_pointers r p q to k (state f.now s.old) ≡ Ok (result, state f.now s.new) }
    ensures kept { IsKept s.old s.new }
{
    if is_wild(p) || is_wild(q) {
        let equal = fresh(&s.world, s.room.taken) != 0;
        s.room.taken = spent(&s.world, s.room.taken, 1);
        jumped(by_rel(r, equal), to, k)
    } else {
        jumped(by_rel(r, equal_pointers(p, q)), to, k)
    }
}

/// Where a comparison of two values goes.
fn compared(f: &Proc, r: Rel, u: Value, v: Value, to: u32, k: usize, s: &mut Store) -> usize
    requires { k + 1 < 2 ^ 64 }
    ensures next { spec.branch r u v to k (state f.now s.old) ≡ Ok (result, state f.now s.new) }
    ensures kept { IsKept s.old s.new }
{
    match u {
        Value::Ptr(p) => branched(f, r, p, pointer(v), to, k, s),
        Value::Int(z) => jumped(compare(r, z, number(v)), to, k),
    }
}

#[tactic(auto, unfolding(cv_meaning::specs::Step::step))]
fn tested(
    p: &Program,
    a: &Activation,
    k: usize,
    q: &Bytes,
    equal: bool,
    to: u32,
    line: &Line,
    s: &mut Store,
) -> Result<usize, ErrKind>
    requires line { line.now ≡ line_as p.now a.now.proc.now (Form.IfByte q.now equal to) }
    requires small { k + 1 < 2 ^ 64 }
    ensures { Takes p.now a.now k (Form.IfByte q.now equal to) s.old result s.new }
{
    let from = pointer_in(a, s, q, line.first);
    match load(&s.room.memory, from) {
        Err(kind) => Err(kind),
        Ok(b) => {
            let rel = if equal { Rel::Eq } else { Rel::Ne };
            Ok(jumped(by_rel(rel, b == 0), to, k))
        }
    }
}

/// The pointer to the first byte of an object.
fn named(a: &Activation, home: Home) -> Value
    requires { a.now.permit.first + own_place home < 2 ^ 64 }
    ensures { result ≡ Value.Ptr (Ptr.At (object_in a.now.permit.first home) 0) }
{
    Value::Ptr(Ptr::At {
        object: object_at(a, home),
        offset: 0,
    })
}

/// The exact sum of two operands.
#[tactic(auto, unfolding(cv_meaning::specs::Step::step))]
fn added(
    p: &Program,
    a: &Activation,
    k: usize,
    x: &Bytes,
    d: &Operand,
    e: &Operand,
    line: &Line,
    s: &mut Store,
) -> Result<usize, ErrKind>
    requires line { line.now ≡ line_as p.now a.now.proc.now (Form.Sum x.now d.now e.now) }
    requires small { k + 1 < 2 ^ 64 }
    requires known { HasSlot a.now.proc.now x.now }
    requires whole { IsWhole a.now.proc.now s.old }
    ensures { Takes p.now a.now k (Form.Sum x.now d.now e.now) s.old result s.new }
{
    let z = i64::from(number_in(a, s, d, line.second)) + i64::from(number_in(a, s, e, line.third));
    ranged(p, a, k, x, line.first, z, s)
}

/// The exact difference of two operands.
#[tactic(auto, unfolding(cv_meaning::specs::Step::step))]
fn taken_off(
    p: &Program,
    a: &Activation,
    k: usize,
    x: &Bytes,
    d: &Operand,
    e: &Operand,
    line: &Line,
    s: &mut Store,
) -> Result<usize, ErrKind>
    requires line { line.now ≡ line_as p.now a.now.proc.now (Form.Minus x.now d.now e.now) }
    requires small { k + 1 < 2 ^ 64 }
    requires known { HasSlot a.now.proc.now x.now }
    requires whole { IsWhole a.now.proc.now s.old }
    ensures { Takes p.now a.now k (Form.Minus x.now d.now e.now) s.old result s.new }
{
    let z = i64::from(number_in(a, s, d, line.second)) - i64::from(number_in(a, s, e, line.third));
    ranged(p, a, k, x, line.first, z, s)
}

fn product(a: i32, b: i32) -> i64
    ensures { result ≡ a *ℤ b }
{
    i64::from(a) * i64::from(b)
}

/// The exact product of a number and an operand.
#[tactic(auto, unfolding(cv_meaning::specs::Step::step))]
fn multiplied(
    p: &Program,
    a: &Activation,
    k: usize,
    x: &Bytes,
    by: i32,
    e: &Operand,
    line: &Line,
    s: &mut Store,
) -> Result<usize, ErrKind>
    requires line { line.now ≡ line_as p.now a.now.proc.now (Form.Product x.now by e.now) }
    requires small { k + 1 < 2 ^ 64 }
    requires known { HasSlot a.now.proc.now x.now }
    requires whole { IsWhole a.now.proc.now s.old }
    ensures { Takes p.now a.now k (Form.Product x.now by e.now) s.old result s.new }
{
    let z = product(by, number_in(a, s, e, line.second));
    ranged(p, a, k, x, line.first, z, s)
}

/// The quotient of an operand and a positive number.
#[tactic(auto, unfolding(cv_meaning::specs::Step::step))]
fn divided(
    p: &Program,
    a: &Activation,
    k: usize,
    x: &Bytes,
    e: &Operand,
    by: i32,
    line: &Line,
    s: &mut Store,
) -> usize
    requires line { line.now ≡ line_as p.now a.now.proc.now (Form.Quotient x.now e.now by) }
    requires small { k + 1 < 2 ^ 64 }
    requires known { HasSlot a.now.proc.now x.now }
    requires whole { IsWhole a.now.proc.now s.old }
    requires positive { pos 1 ≤ℤ by }
    ensures { Takes p.now a.now k (Form.Quotient x.now e.now by) s.old (Ok result) s.new }
{
    let z = number_in(a, s, e, line.second) / by;
    assigned(p, a, k, x, line.first, z, s)
}

/// The remainder of an operand by a positive number.
#[tactic(auto, unfolding(cv_meaning::specs::Step::step))]
fn reduced(
    p: &Program,
    a: &Activation,
    k: usize,
    x: &Bytes,
    e: &Operand,
    by: i32,
    line: &Line,
    s: &mut Store,
) -> usize
    requires line { line.now ≡ line_as p.now a.now.proc.now (Form.Remainder x.now e.now by) }
    requires small { k + 1 < 2 ^ 64 }
    requires known { HasSlot a.now.proc.now x.now }
    requires whole { IsWhole a.now.proc.now s.old }
    requires positive { pos 1 ≤ℤ by }
    ensures { Takes p.now a.now k (Form.Remainder x.now e.now by) s.old (Ok result) s.new }
{
    let z = number_in(a, s, e, line.second) % by;
    assigned(p, a, k, x, line.first, z, s)
}

/// One step of a statement that is no call and no return: the first error that applies, or the next statement.
#[tactic(auto, unfolding(cv_meaning::specs::Step::step))]
pub(crate) fn step(
    p: &Program,
    a: &Activation,
    k: usize,
    form: &Form,
    line: &Line,
    s: &mut Store,
) -> Result<usize, ErrKind>
    requires line { line.now ≡ line_as p.now a.now.proc.now form.now }
    requires small { k + 1 < 2 ^ 64 }
    requires room { IsSmall a.now }
    requires globals { length p.now.globals ≤ 256 }
    requires whole { IsWhole a.now.proc.now s.old }
    requires ready { IsReady a.now.proc.now (env_of a.now.proc.now s.old.room.vars.items) s.old.room.memory form.now }
    ensures { Takes p.now a.now k form.now s.old result s.new }
{
    match form {
        Form::CopyPtr { p: x, q } => {
            let v = copied(a, s, q, line.second);
            Ok(held(a, k, x, line.first, v, s))
        },
        Form::Address { p: x, .. } => Ok(held(a, k, x, line.first, named(a, line.home), s)),
        Form::Shift { p: x, q, e } => moved(p, a, k, x, q, e, line, s),
        Form::Load { x, p: q } => loaded(p, a, k, x, q, line, s),
        Form::Store { p: q, e } => stored(p, a, k, q, e, line, s),
        Form::Get { x, w } => got(p, a, k, x, w, line, s),
        Form::Put { w, value } => kept(p, a, k, w, value, line, s),
        Form::Diff { x, p: q, q: r } => apart(p, a, k, x, q, r, line, s),
        Form::Goto(to) => Ok(*to as usize),
        Form::If {
            left,
            rel,
            right,
            to,
        } => {
            let u = operand_value(a.proc, s.room.vars.as_slice(), left, line.first);
            let v = any_value(a.proc, s.room.vars.as_slice(), right, line.second);
            Ok(compared(a.proc, *rel, u, v, *to, k, s))
        }
        Form::IfByte { p: q, equal, to } => tested(p, a, k, q, *equal, *to, line, s),
        Form::Call { .. } | Form::Return(_) => Ok(k + 1),
        Form::Assign { x, e } => {
            let z = number_in(a, s, e, line.second);
            Ok(assigned(p, a, k, x, line.first, z, s))
        },
        Form::Sum { x, e, f } => added(p, a, k, x, e, f, line, s),
        Form::Minus { x, e, f } => taken_off(p, a, k, x, e, f, line, s),
        Form::Product { x, k: factor, e } => multiplied(p, a, k, x, *factor, e, line, s),
        Form::Quotient { x, e, k: by } => Ok(divided(p, a, k, x, e, *by, line, s)),
        Form::Remainder { x, e, k: by } => Ok(reduced(p, a, k, x, e, *by, line, s)),
    }
}
