//! One step of a call.
ghost use Rattle.std.specs.Prelude.{IfSome, IsSome, false, ◌≡◌, ◌++◌, ◌+◌, ◌<◌, ◌≤◌, ◌^◌, ℕ, Err, IfOk, List, None, OnErr, OnOk, Ok, Some, length, map, pos, slice_get};
ghost use Rattle.std.specs.List.{list_all};
ghost use Rattle.cv_core.specs.Limits.{first_limit};
ghost use Rattle.cv_core.specs.Names.{locals_of as locals_in, local_site as local_site_of, malloc_site as malloc_site_of, place_of, stmts_of as stmts_in};
ghost use Rattle.cv_core.specs.Headings.{breaks_extern};
ghost use Rattle.cv_core.specs.WellFormed.{IsSoundProgram};
ghost use Rattle.cv_meaning.specs.Call as spec;
ghost use Rattle.cv_meaning.specs.Memory.{is_no_literal as is_no_literal_in, may_change as may_change_in};
ghost use Rattle.cv_meaning.specs.State.{Frame, any_value as any_value_in};
ghost use Rattle.cv_meaning.specs.declared.memory.World.{World as WorldValue};
ghost use Rattle.cv_interp.specs.Called.{IsCalled, IsInto, IsSame, bound_by, lone_or_zero};
ghost use Rattle.cv_interp.specs.Entered.{IsRoom, arrived};
ghost use Rattle.cv_interp.specs.Good.{IsActive};
ghost use Rattle.cv_interp.specs.Plans.{any_slot as any_slot_of, first_malloc, line_of as line_as, plans_of as plans_as, slot_at as slot_at_of, slot_if as slot_if_of};
ghost use Rattle.cv_interp.specs.Seen.{frame, left, state, state_in};
ghost use Rattle.cv_interp.specs.Slots.{env_of};

use crate::cells::may_change;
use crate::entering::{Guest, furnished, guest_of, make_buffer, may_enter};
use crate::plan::plan_at;
use crate::sites::malloc_site;
use crate::slots::{any_value, assign_value, number};
use crate::store::{Activation, Line, Plan, Room, Slot, Store};
use crate::world::{after_allocation, after_answer, after_byte, allocation, answer_in, byte_read};
use cv_core::{AnyOperand, Atom, Bytes, ErrKind, Form, LinPart, List, Proc, Program, low_byte};
use cv_meaning::{Permit, Ptr, Value};
use std::alloc::{AllocError, Global};
use std::mem;

/// Gives an answer to the destination of a call.
pub(crate) fn give(
    p: &Program,
    f: &Proc,
    into: &Option<Bytes>,
    at: Slot,
    answer: Option<Value>,
    room: &mut Room,
)
    requires at { at ≡ slot_if_of f.now into.now }
    requires slot { IsInto f.now into.now }
    requires room { IsRoom f.now room.old }
    ensures state { (g : Frame) (w : WorldValue) (out : List ℕ) → g.proc ≡ f.now → state_in f.now w out room.new ≡ spec.give p.now g into.now answer (state_in f.now w out room.old) }
    ensures room { IsRoom f.now room.new }
{
    match into {
        None => {}
        Some(x) => match answer {
            None => {}
            Some(v) => assign_value(p, f, &mut room.vars, x.as_slice(), at, v),
        },
    }
}

/// A procedure that was entered, and the variables of its caller.
#[derive(Drop)]
pub(crate) struct Entered<'a> {
    pub(crate) callee: Activation<'a>,
    pub(crate) vars: Vec<Value>,
}

/// What a call leads to.
#[derive(Drop)]
pub(crate) enum Called<'a> {
    Errs(ErrKind),
    Goes,
    Enters(Entered<'a>),
}

/// Where a call stands, and what it is given.
#[derive(Clone, Copy, Drop)]
pub(crate) struct Site<'b> {
    pub(crate) k: usize,
    pub(crate) into: &'b Option<Bytes>,
    pub(crate) at: Slot,
    pub(crate) args: &'b [Value],
    /// The first of the arguments as a number; 0 where there is none.
    pub(crate) first: i32,
}

fn first_number(args: &[Value]) -> i32
    ensures { result ≡ spec.first_number args.now }
{
    match args {
        [] => 0,
        [first, ..] => number(*first),
    }
}

/// Gives an answer to the destination of the call that runs.
fn given(p: &Program, a: &Activation, site: &Site, v: Value, s: &mut Store)
    requires at { site.now.at ≡ slot_if_of a.now.proc.now site.now.into.now }
    requires slot { IsInto a.now.proc.now site.now.into.now }
    requires room { IsRoom a.now.proc.now s.old.room }
    ensures state { state a.now.proc.now s.new ≡ spec.give p.now (frame a.now) site.now.into.now (Some v) (state a.now.proc.now s.old) }
    ensures room { IsRoom a.now.proc.now s.new.room }
{
    give(p, a.proc, site.into, site.at, Some(v), &mut s.room);
}

fn malloc<'a>(
    alloc: Global,
    p: &Program,
    a: &Activation,
    site: &Site,
    mallocs: u32,
    s: &mut Store,
) -> Result<Called<'a>, AllocError>
    requires mallocs { mallocs ≡ first_malloc p.now a.now.number }
    requires at { site.now.at ≡ slot_if_of a.now.proc.now site.now.into.now }
    requires slot { IsInto a.now.proc.now site.now.into.now }
    requires room { IsRoom a.now.proc.now s.old.room }
    requires active { IsActive p.now a.now }
    requires place { site.now.k ≤ length (stmts_in a.now.proc.now.body) }
    ensures ok { IfOk result (λ c. IsCalled a.now site.now.k (spec.malloc p.now site.now.first (malloc_site_of p.now a.now.number site.now.k) (frame a.now) site.now.k site.now.into.now (state a.now.proc.now s.old)) s.old c s.new) }
    ensures err { OnErr result (IsSame s.old s.new) }
{
    let size = site.first;
    if size < 0 {
        return Ok(Called::Errs(ErrKind::Requires));
    }
    let taken = after_allocation(&s.world, s.room.taken);
    if !allocation(&s.world, s.room.taken) {
        s.room.taken = taken;
        given(p, a, site, Value::Ptr(Ptr::Null), s);
        return Ok(Called::Goes);
    }
    let Some(number) = malloc_site(p, a, mallocs, site.k) else {
        return Err(AllocError);
    };
    let object = make_buffer(alloc, a.proc, &s.world, number, size as usize, &mut s.room)?;
    s.room.taken = after_allocation(&s.world, s.room.taken);
    given(p, a, site, Value::Ptr(Ptr::At { object, offset: 0 }), s);
    Ok(Called::Goes)
}

fn getchar<'a>(p: &Program, a: &Activation, site: &Site, s: &mut Store) -> Called<'a>
    requires at { site.now.at ≡ slot_if_of a.now.proc.now site.now.into.now }
    requires slot { IsInto a.now.proc.now site.now.into.now }
    requires room { IsRoom a.now.proc.now s.old.room }
    ensures { IsCalled a.now site.now.k (spec.getchar p.now (frame a.now) site.now.k site.now.into.now (state a.now.proc.now s.old)) s.old result s.new }
{
    let byte = byte_read(&s.world, s.room.taken);
    s.room.taken = after_byte(&s.world, s.room.taken);
    given(p, a, site, Value::Int(byte), s);
    Called::Goes
}

fn putchar<'a>(
    p: &Program,
    a: &Activation,
    site: &Site,
    s: &mut Store,
) -> Result<Called<'a>, AllocError>
    requires at { site.now.at ≡ slot_if_of a.now.proc.now site.now.into.now }
    requires slot { IsInto a.now.proc.now site.now.into.now }
    requires room { IsRoom a.now.proc.now s.old.room }
    ensures ok { IfOk result (λ c. IsCalled a.now site.now.k (spec.putchar p.now site.now.first (frame a.now) site.now.k site.now.into.now (state a.now.proc.now s.old)) s.old c s.new) }
    ensures err { OnErr result (IsSame s.old s.new) }
{
    let byte = low_byte(site.first);
    s.output.push(byte)?;
    given(p, a, site, Value::Int(i32::from(byte)), s);
    Ok(Called::Goes)
}

fn is_no_literal(permit: &Permit, object: u64) -> bool
    ensures { result ≡ is_no_literal_in permit.now object }
{
    object < permit.literals.0 || permit.literals.1 <= object
}

fn none_literal(caller: &Permit, objects: &[u64]) -> bool
    ensures { result ≡ list_all (is_no_literal_in caller.now) objects.now }
{
    match objects {
        [] => true,
        [first, rest @ ..] => {
            let here = is_no_literal(caller, *first);
            let later = none_literal(caller, rest);
            here && later
        }
    }
}

fn all_may_change(caller: &Permit, objects: &[u64]) -> bool
    ensures { result ≡ list_all (may_change_in caller.now) objects.now }
{
    match objects {
        [] => true,
        [first, rest @ ..] => {
            let here = may_change(caller, *first);
            let later = all_may_change(caller, rest);
            here && later
        }
    }
}

/// Whether the objects may be changed by a callee: Literal, Modifies.
fn permitted(caller: &Permit, objects: &[u64]) -> Result<(), ErrKind>
    ensures { result ≡ spec.permitted caller.now objects.now (Ok tt) }
{
    if !none_literal(caller, objects) {
        return Err(ErrKind::Literal);
    }
    if !all_may_change(caller, objects) {
        return Err(ErrKind::Modifies);
    }
    Ok(())
}

/// The number that a sum of one number is.
fn lone_number(parts: &[LinPart]) -> i64
    ensures { result ≡ lone_or_zero parts.now }
{
    match parts {
        [] => 0,
        [part] => match part.number {
            None => 0,
            Some(k) => {
                if part.negative {
                    -i64::from(k)
                } else {
                    i64::from(k)
                }
            }
        },
        _ => 0,
    }
}

/// The number on the right of an atom; 0 where there is no such atom.
fn bound(atoms: &[Atom], i: usize) -> i64
    ensures { result ≡ bound_by (slice_get atoms.now i) }
{
    match atoms.get(i) {
        None => 0,
        Some(Atom::Compare { right, .. }) => lone_number(right.as_slice()),
        Some(_) => 0,
    }
}

/// The atoms of the first alternative.
fn first_alternative(alternatives: &[List<Atom>]) -> &[Atom]
    ensures { result.now ≡ spec.first_alternative alternatives.now }
{
    match alternatives {
        [] => &[],
        [first, ..] => first.as_slice(),
    }
}

/// The answer of an extern procedure.
fn extern_answer(g: &Proc, s: &Store) -> i64
    ensures { result ≡ spec.answer_in (bound_by (slice_get (spec.first_alternative g.now.contract.gives) 0)) (bound_by (slice_get (spec.first_alternative g.now.contract.gives) 1)) (left s.now.world s.now.room.taken).answers }
{
    let atoms = first_alternative(g.contract.gives.as_slice());
    answer_in(bound(atoms, 0), bound(atoms, 1), &s.world, s.room.taken)
}

fn asked<'a>(
    p: &Program,
    a: &Activation,
    site: &Site,
    g: &Proc,
    guest: &Guest,
    s: &mut Store,
) -> Result<Called<'a>, AllocError>
    requires at { site.now.at ≡ slot_if_of a.now.proc.now site.now.into.now }
    requires slot { IsInto a.now.proc.now site.now.into.now }
    requires room { IsRoom a.now.proc.now s.old.room }
    requires outside { breaks_extern g.now ≡ false }
    requires none { g.now.body ≡ None }
    ensures ok { IfOk result (λ c. (i : ℕ) → IsCalled a.now site.now.k (spec.entry_turn p.now (frame a.now) (arrived i g.now guest.now s.old.room.memory) site.now.k site.now.into.now g.now.body (state a.now.proc.now s.old)) s.old c s.new) }
    ensures err { OnErr result (IsSame s.old s.new) }
{
    let Ok(answer) = i32::try_from(extern_answer(g, s)) else {
        return Err(AllocError);
    };
    s.room.taken = after_answer(&s.world, s.room.taken);
    given(p, a, site, Value::Int(answer), s);
    Ok(Called::Goes)
}

/// Enters a procedure with a body.
fn make_entered<'a>(
    alloc: Global,
    p: &Program,
    number: u32,
    g: &'a Proc,
    plan: &Plan,
    guest: Guest,
    a: &Activation,
    place: &Site,
    s: &mut Store,
) -> Result<Called<'a>, AllocError>
    requires slots { plan.now.locals ≡ map (λ l. slot_at_of g.now l.name) (locals_in g.now.body) }
    requires site { plan.now.site ≡ local_site_of p.now number }
    requires room { IsRoom a.now.proc.now s.old.room }
    requires names { map (λ n. n.name) guest.formals ≡ map (λ f. f.name) g.now.formals }
    requires body { IsSome g.now.body }
    ensures ok { IfOk result (λ c. IsCalled a.now place.now.k (spec.entry_turn p.now (frame a.now) (arrived number g.now guest s.old.room.memory) place.now.k place.now.into.now g.now.body (state a.now.proc.now s.old)) s.old c s.new) }
    ensures err { OnErr result (IsSame s.old s.new) }
{
    let inner = furnished(
        alloc,
        p,
        g,
        plan.locals.as_slice(),
        plan.site,
        &guest.formals,
        &s.room.memory,
        s.room.made,
        &s.world,
        s.room.taken,
    )?;
    let Room { vars, memory, .. } = mem::replace(&mut s.room, inner);
    let Guest { formals, permit } = guest;
    let callee = Activation {
        number,
        proc: g,
        formals,
        entry: memory,
        permit,
    };
    Ok(Called::Enters(Entered { callee, vars }))
}

/// A call of a procedure of the program.
fn call_proc<'a>(
    alloc: Global,
    p: &Program,
    a: &Activation,
    site: &Site,
    number: u32,
    g: &'a Proc,
    plan: &Plan,
    s: &mut Store,
) -> Result<Called<'a>, AllocError>
    requires slots { plan.now.locals ≡ map (λ l. slot_at_of g.now l.name) (locals_in g.now.body) }
    requires site { plan.now.site ≡ local_site_of p.now number }
    requires at { site.now.at ≡ slot_if_of a.now.proc.now site.now.into.now }
    requires slot { IsInto a.now.proc.now site.now.into.now }
    requires room { IsRoom a.now.proc.now s.old.room }
    requires there { slice_get p.now.procs number ≡ Some g.now }
    requires sound { IsSoundProgram p.now }
    requires limits { first_limit p.now ≡ None }
    ensures ok { IfOk result (λ c. IsCalled a.now site.now.k (spec.call_proc p.now (frame a.now) site.now.k site.now.into.now number site.now.args.now (state a.now.proc.now s.old) (Some g.now)) s.old c s.new) }
    ensures err { OnErr result (IsSame s.old s.new) }
{
    let guest = guest_of(alloc, p, g, site.args, &s.room.memory, s.room.made)?;
    if !may_enter(p, g, &guest, &s.room.memory) {
        return Ok(Called::Errs(ErrKind::Requires));
    }
    match permitted(&a.permit, guest.permit.allowed.as_slice()) {
        Err(kind) => Ok(Called::Errs(kind)),
        Ok(()) => match g.body {
            None => asked(p, a, site, g, &guest, s),
            Some(_) => make_entered(alloc, p, number, g, plan, guest, a, site, s),
        },
    }
}

/// A call of a procedure that is none of those of the language.
fn call_named<'a>(
    alloc: Global,
    p: &'a Program,
    a: &Activation,
    site: &Site,
    plans: &List<Plan>,
    callee: Option<u32>,
    s: &mut Store,
) -> Result<Called<'a>, AllocError>
    requires plans { plans.now ≡ plans_as p.now }
    requires within { IfSome callee (λ i. i < length p.now.procs) }
    requires at { site.now.at ≡ slot_if_of a.now.proc.now site.now.into.now }
    requires slot { IsInto a.now.proc.now site.now.into.now }
    requires room { IsRoom a.now.proc.now s.old.room }
    requires sound { IsSoundProgram p.now }
    requires limits { first_limit p.now ≡ None }
    ensures ok { IfOk result (λ c. IsCalled a.now site.now.k (spec.call_named p.now (frame a.now) site.now.k site.now.into.now callee site.now.args.now (state a.now.proc.now s.old)) s.old c s.new) }
    ensures err { OnErr result (IsSame s.old s.new) }
{
    let Some(number) = callee else {
        return Ok(Called::Goes);
    };
    let g = &p.procs.as_slice()[number as usize];
    call_proc(alloc, p, a, site, number, g, plan_at(plans, number), s)
}

/// Puts the values of the arguments behind others.
#[tactic(auto, using(crate::proofs::Passed::more_values))]
fn put_values(
    a: &Activation,
    s: &Store,
    args: &[AnyOperand],
    slots: &[Slot],
    values: &mut Vec<Value>,
) -> Result<(), AllocError>
    requires { slots.now ≡ map (any_slot_of a.now.proc.now) args.now }
    ensures { OnOk result (values.new.items ≡ values.old.items ++ map (any_value_in (env_of a.now.proc.now s.now.room.vars.items)) args.now) }
{
    match args {
        [] => Ok(()),
        [e, rest @ ..] => match slots {
            [] => Ok(()),
            [at, others @ ..] => {
                values.push(any_value(a.proc, s.room.vars.as_slice(), e, *at))?;
                put_values(a, s, rest, others, values)
            }
        },
    }
}

fn values_of(
    alloc: Global,
    a: &Activation,
    s: &Store,
    args: &[AnyOperand],
    slots: &[Slot],
) -> Result<Vec<Value>, AllocError>
    requires { slots.now ≡ map (any_slot_of a.now.proc.now) args.now }
    ensures { IfOk result (λ vs. vs.items ≡ map (any_value_in (env_of a.now.proc.now s.now.room.vars.items)) args.now) }
{
    let mut values = Vec::with_capacity(alloc, args.len())?;
    put_values(a, s, args, slots, &mut values)?;
    Ok(values)
}

/// One step of a call; after want of memory nothing has changed.
#[tactic(auto, unfolding(cv_meaning::specs::Call::call))]
pub(crate) fn call<'a>(
    alloc: Global,
    p: &'a Program,
    a: &Activation,
    k: usize,
    into: &Option<Bytes>,
    x: &Bytes,
    args: &List<AnyOperand>,
    plans: &List<Plan>,
    line: &Line,
    s: &mut Store,
) -> Result<Called<'a>, AllocError>
    requires plans { plans.now ≡ plans_as p.now }
    requires line { line.now ≡ line_as p.now a.now.proc.now (Form.Call into.now x.now args.now) }
    requires slot { IsInto a.now.proc.now into.now }
    requires room { IsRoom a.now.proc.now s.old.room }
    requires active { IsActive p.now a.now }
    requires place { k ≤ length (stmts_in a.now.proc.now.body) }
    requires sound { IsSoundProgram p.now }
    requires limits { first_limit p.now ≡ None }
    ensures ok { IfOk result (λ c. IsCalled a.now k (spec.call p.now (frame a.now) k into.now x.now (map (any_value_in (env_of a.now.proc.now s.old.room.vars.items)) args.now) (state a.now.proc.now s.old)) s.old c s.new) }
    ensures err { OnErr result (IsSame s.old s.new) }
    ensures int { OnOk result ((n : ℕ) → spec.first_number (map (any_value_in (env_of a.now.proc.now s.old.room.vars.items)) args.now) ≡ pos n → n < 2 ^ 31) }
{
    let values = values_of(alloc, a, s, args.as_slice(), line.args.as_slice())?;
    let site = Site {
        k,
        into,
        at: line.first,
        args: values.as_slice(),
        first: first_number(values.as_slice()),
    };
    let name = x.as_slice();
    if name == b"malloc".as_slice() {
        malloc(alloc, p, a, &site, plan_at(plans, a.number).mallocs, s)
    } else if name == b"getchar".as_slice() {
        Ok(getchar(p, a, &site, s))
    } else if name == b"putchar".as_slice() {
        putchar(p, a, &site, s)
    } else {
        call_named(alloc, p, a, &site, plans, line.callee, s)
    }
}
