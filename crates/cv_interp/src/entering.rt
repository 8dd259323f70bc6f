//! Entering a procedure.
ghost use Rattle.std.specs.Prelude.{◌≡◌, ◌∷◌, [], ◌++◌, ◌<◌, ◌≤◌, ◌^◌, ℕ, IfOk, List, OnErr, OnOk, false, length, map, replicate, suc, true};
ghost use Rattle.cv_core.specs.Names.{locals_of as locals_in};
ghost use Rattle.cv_meaning.specs.Call.{entered, may_enter as may_enter_in};
ghost use Rattle.cv_meaning.specs.Few.{AreFew};
ghost use Rattle.cv_meaning.specs.Look.{look};
ghost use Rattle.cv_meaning.specs.Memory.{IsShort};
ghost use Rattle.cv_meaning.specs.State as spec;
ghost use Rattle.cv_interp.specs.Entered.{AreVariables, IsRoom, arguments, arrived};
ghost use Rattle.cv_interp.specs.Plans.{slot_at as slot_at_of};
ghost use Rattle.cv_interp.specs.Seen.{left, state_in};
ghost use Rattle.cv_interp.specs.Slots.{env_of, is_variable, slot_names, variables_of};
ghost use Rattle.cv_interp.specs.Takes.{HasSlot};
ghost use Rattle.cv_meaning.specs.declared.memory.Body.TheVariants.{Buffer};

use crate::items::item_objects;
use crate::slots::{as_kind, set_var};
use crate::store::{Room, Slot, Taken};
use crate::world::{fresh, fresh_bytes, spent};
use cv_core::{Bytes, Formal, List, Local, LocalBody, Proc, Program, VarKind, locals_of};
use cv_meaning::{Body, Mem, NamedValue, Part, Permit, Ptr, Value, View, World, holds};
use std::alloc::{AllocError, Global};

/// A memory has at most so many objects here.
const MOST_OBJECTS: u64 = 4611686018427387904;

/// Adds an object to a memory of which the number of objects is given; want of memory changes neither.
pub(crate) fn make(
    memory: &mut Mem,
    made: &mut u64,
    site: u32,
    body: &Body,
) -> Result<u64, AllocError>
    requires short { IsShort body.now }
    requires made { made.old ≡ length memory.old }
    ensures ok { IfOk result (λ object. (object ≡ length memory.old) × (memory.new ≡ memory.old ++ record { site = site; live = true; body = body.now } ∷ []) × (made.new ≡ length memory.new)) }
    ensures err { OnErr result ((memory.new ≡ memory.old) × (made.new ≡ made.old)) }
    ensures few { made.old ≤ 2 ^ 62 → made.new ≤ 2 ^ 62 }
{
    if *made >= MOST_OBJECTS {
        return Err(AllocError);
    }
    let object = memory.make(site, body)?;
    *made += 1;
    Ok(object)
}

/// A procedure that is to be entered: its formals, and what it may write.
#[derive(Drop)]
pub(crate) struct Guest {
    pub(crate) formals: List<NamedValue>,
    pub(crate) permit: Permit,
}

/// Puts each formal with its argument behind others.
#[tactic(auto, using(crate::proofs::Bound::more_arguments, crate::proofs::Bound::wild_argument))]
fn bind(
    alloc: Global,
    formals: &[Formal],
    args: &[Value],
    bound: &mut List<NamedValue>,
) -> Result<(), AllocError>
    ensures { OnOk result (bound.new ≡ bound.old ++ arguments formals.now args.now) }
{
    match formals {
        [] => Ok(()),
        [first, rest @ ..] => {
            let name = Bytes::from_slice(alloc, first.name.as_slice())?;
            match args {
                [] => {
                    bound.push(NamedValue {
                        name,
                        value: Value::Ptr(Ptr::Wild),
                    })?;
                    bind(alloc, rest, args, bound)
                }
                [value, others @ ..] => {
                    bound.push(NamedValue {
                        name,
                        value: *value,
                    })?;
                    bind(alloc, rest, others, bound)
                }
            }
        }
    }
}

/// What a procedure is entered with.
pub(crate) fn guest_of(
    alloc: Global,
    p: &Program,
    g: &Proc,
    args: &[Value],
    memory: &Mem,
    made: u64,
) -> Result<Guest, AllocError>
    requires made { made ≡ length memory.now }
    requires globals { length p.now.globals ≤ 256 }
    requires literals { length p.now.literals ≤ 1024 }
    ensures arrived { IfOk result (λ guest. (i : ℕ) → arrived i g.now guest memory.now ≡ entered p.now i g.now args.now memory.now) }
    ensures names { IfOk result (λ guest. map (λ n. n.name) guest.formals ≡ map (λ f. f.name) g.now.formals) }
{
    let mut formals = List::new(alloc);
    bind(alloc, g.formals.as_slice(), args, &mut formals)?;
    let entry = View {
        at_entry: memory,
        now: memory,
        formals: &formals,
        globals: &p.globals,
        answer: None,
        first: made,
    };
    let allowed = item_objects(alloc, &entry, g.contract.changes.as_slice())?;
    let literals = p.globals.len() as u64;
    let permit = Permit {
        first: made,
        allowed,
        literals: (literals, literals + p.literals.len() as u64),
    };
    Ok(Guest { formals, permit })
}

/// Whether requires holds at entry.
pub(crate) fn may_enter(p: &Program, g: &Proc, guest: &Guest, memory: &Mem) -> bool
    requires few { AreFew g.now.contract }
    requires names { map (λ n. n.name) guest.now.formals ≡ map (λ f. f.name) g.now.formals }
    ensures { (i : ℕ) → result ≡ may_enter_in p.now (arrived i g.now guest.now memory.now) }
{
    let view = View {
        at_entry: memory,
        now: memory,
        formals: &guest.formals,
        globals: &p.globals,
        answer: None,
        first: guest.permit.first,
    };
    holds(&g.contract, Part::Requires, &view)
}

fn variable_count(locals: &[Local]) -> usize
    ensures count { result ≡ length (variables_of locals.now) }
    ensures within { result ≤ length locals.now }
{
    match locals {
        [] => 0,
        [first, rest @ ..] => {
            let later = variable_count(rest);
            match first.body {
                LocalBody::Var(_) => 1 + later,
                _ => later,
            }
        }
    }
}

/// Puts the values of the formals behind others.
#[tactic(auto, using(crate::proofs::Making::more_values))]
fn put_values(vars: &mut Vec<Value>, formals: &[NamedValue]) -> Result<(), AllocError>
    ensures { OnOk result (vars.new.items ≡ vars.old.items ++ map (λ f. f.value) formals.now) }
{
    match formals {
        [] => Ok(()),
        [first, rest @ ..] => {
            vars.push(first.value)?;
            put_values(vars, rest)
        }
    }
}

/// Puts so many wild pointers behind others.
#[tactic(auto, using(crate::proofs::Making::more_wild))]
fn put_wild(vars: &mut Vec<Value>, count: usize) -> Result<(), AllocError>
    ensures { OnOk result (vars.new.items ≡ vars.old.items ++ replicate count (Value.Ptr Ptr.Wild)) }
{
    if count == 0 {
        return Ok(());
    }
    vars.push(Value::Ptr(Ptr::Wild))?;
    put_wild(vars, count - 1)
}

/// The variables as the procedure is entered: the formals, and wild ones.
fn first_vars(
    alloc: Global,
    formals: &[NamedValue],
    locals: &[Local],
) -> Result<Vec<Value>, AllocError>
    ensures { IfOk result (λ vars. vars.items ≡ map (λ f. f.value) formals.now ++ replicate (length (variables_of locals.now)) (Value.Ptr Ptr.Wild)) }
{
    let mut vars = Vec::new(alloc);
    put_values(&mut vars, formals)?;
    let count = variable_count(locals);
    put_wild(&mut vars, count)?;
    Ok(vars)
}

/// Makes a local variable: of a number a fresh one, of a pointer a wild one.
fn make_variable(
    p: &Program,
    g: &Proc,
    w: &World,
    _site: u32,
    x: &[u8],
    at: Slot,
    kind: VarKind,
    room: &mut Room,
)
    requires at { at ≡ slot_at_of g.now x.now }
    requires slot { HasSlot g.now x.now }
    requires room { IsRoom g.now room.old }
    ensures state { state_in g.now w.now [] room.new ≡ spec.make_local p.now _site x.now (LocalBody.Var kind) (state_in g.now w.now [] room.old) }
    ensures room { IsRoom g.now room.new }
{
    match kind {
        VarKind::Int => {
            set_var(g, &mut room.vars, x, at, Value::Int(fresh(w, room.taken)));
            room.taken = spent(w, room.taken, 1);
        }
        VarKind::Char => {
            let v = as_kind(p, VarKind::Char, fresh(w, room.taken));
            set_var(g, &mut room.vars, x, at, v);
            room.taken = spent(w, room.taken, 1);
        }
        VarKind::Ptr => set_var(g, &mut room.vars, x, at, Value::Ptr(Ptr::Wild)),
        VarKind::Pptr => set_var(g, &mut room.vars, x, at, Value::Ptr(Ptr::Wild)),
        VarKind::Iptr => set_var(g, &mut room.vars, x, at, Value::Ptr(Ptr::Wild)),
    }
}

/// Makes a buffer of fresh bytes.
#[tactic(auto, using(crate::proofs::Arriving::bytes_length))]
pub(crate) fn make_buffer(
    alloc: Global,
    g: &Proc,
    w: &World,
    site: u32,
    size: usize,
    room: &mut Room,
) -> Result<u64, AllocError>
    requires short { size < 2 ^ 31 }
    requires room { IsRoom g.now room.old }
    ensures object { IfOk result (λ object. object ≡ length room.old.memory) }
    ensures state { OnOk result (state_in g.now w.now [] room.new ≡ spec.spend size (spec.with_object (record { site = site; live = true; body = Buffer (spec.fresh_bytes size (left w.now room.old.taken)) }) (state_in g.now w.now [] room.old))) }
    ensures room { OnOk result (IsRoom g.now room.new) }
    ensures err { OnErr result (room.new ≡ room.old) }
{
    let bytes = fresh_bytes(alloc, w, room.taken, size)?;
    let body = Body::Buffer(Bytes::from_vec(bytes));
    let object = make(&mut room.memory, &mut room.made, site, &body)?;
    room.taken = spent(w, room.taken, size);
    Ok(object)
}

/// Makes an object of a local.
fn make_object(
    alloc: Global,
    p: &Program,
    g: &Proc,
    w: &World,
    site: u32,
    x: &[u8],
    body: LocalBody,
    room: &mut Room,
) -> Result<(), AllocError>
    requires object { is_variable body ≡ false }
    requires room { IsRoom g.now room.old }
    ensures state { OnOk result (state_in g.now w.now [] room.new ≡ spec.make_local p.now site x.now body (state_in g.now w.now [] room.old)) }
    ensures room { OnOk result (IsRoom g.now room.new) }
{
    match body {
        LocalBody::Var(_) => {}
        LocalBody::Buffer(size) => {
            if size > 2147483647 {
                return Err(AllocError);
            }
            let _object = make_buffer(alloc, g, w, site, size as usize, room)?;
        }
        LocalBody::PointerCell => {
            let cell = Body::Cell(Value::Ptr(Ptr::Wild));
            let _object = make(&mut room.memory, &mut room.made, site, &cell)?;
        }
        LocalBody::IntCell => {
            let cell = Body::Cell(Value::Int(fresh(w, room.taken)));
            let _object = make(&mut room.memory, &mut room.made, site, &cell)?;
            room.taken = spent(w, room.taken, 1);
        }
    }
    Ok(())
}

/// Makes one local, and answers the site of the next object.
fn make_one(
    alloc: Global,
    p: &Program,
    g: &Proc,
    w: &World,
    site: u32,
    l: &Local,
    at: Slot,
    room: &mut Room,
) -> Result<u32, AllocError>
    requires at { at ≡ slot_at_of g.now l.now.name }
    requires slot { is_variable l.now.body ≡ true → HasSlot g.now l.now.name }
    requires room { IsRoom g.now room.old }
    ensures next { IfOk result (λ next. next ≡ spec.next_site site l.now.body) }
    ensures state { OnOk result (state_in g.now w.now [] room.new ≡ spec.make_local p.now site l.now.name l.now.body (state_in g.now w.now [] room.old)) }
    ensures room { OnOk result (IsRoom g.now room.new) }
{
    let x = l.name.as_slice();
    match l.body {
        LocalBody::Var(kind) => {
            make_variable(p, g, w, site, x, at, kind, room);
            Ok(site)
        }
        LocalBody::Buffer(size) => {
            make_object(alloc, p, g, w, site, x, LocalBody::Buffer(size), room)?;
            next_number(site)
        }
        LocalBody::PointerCell => {
            make_object(alloc, p, g, w, site, x, LocalBody::PointerCell, room)?;
            next_number(site)
        }
        LocalBody::IntCell => {
            make_object(alloc, p, g, w, site, x, LocalBody::IntCell, room)?;
            next_number(site)
        }
    }
}

/// The next number; an error where 32 bits don't hold it.
fn next_number(n: u32) -> Result<u32, AllocError>
    ensures { IfOk result (λ next. next ≡ suc n) }
{
    match n.checked_add(1) {
        None => Err(AllocError),
        Some(next) => Ok(next),
    }
}

/// Makes the locals in the order in which they are declared.
#[tactic(auto, using(crate::proofs::Making::more_locals))]
fn make_locals(
    alloc: Global,
    p: &Program,
    g: &Proc,
    w: &World,
    site: u32,
    locals: &[Local],
    slots: &[Slot],
    room: &mut Room,
) -> Result<(), AllocError>
    requires slots { slots.now ≡ map (λ l. slot_at_of g.now l.name) locals.now }
    requires variables { AreVariables g.now locals.now }
    requires room { IsRoom g.now room.old }
    ensures state { OnOk result (state_in g.now w.now [] room.new ≡ spec.make_locals p.now site locals.now (state_in g.now w.now [] room.old)) }
    ensures room { OnOk result (IsRoom g.now room.new) }
{
    match locals {
        [] => Ok(()),
        [first, rest @ ..] => match slots {
            [] => Ok(()),
            [at, others @ ..] => {
                let next = make_one(alloc, p, g, w, site, first, *at, room)?;
                make_locals(alloc, p, g, w, next, rest, others, room)
            }
        },
    }
}

/// The room of a procedure as it is entered; the memory is a copy.
pub(crate) fn furnished(
    alloc: Global,
    p: &Program,
    g: &Proc,
    slots: &[Slot],
    site: u32,
    formals: &List<NamedValue>,
    memory: &Mem,
    made: u64,
    w: &World,
    taken: Taken,
) -> Result<Room, AllocError>
    requires slots { slots.now ≡ map (λ l. slot_at_of g.now l.name) (locals_in g.now.body) }
    requires variables { AreVariables g.now (locals_in g.now.body) }
    requires names { map (λ n. n.name) formals.now ≡ map (λ f. f.name) g.now.formals }
    requires made { made ≡ length memory.now }
    requires few { made ≤ 2 ^ 62 }
    ensures state { IfOk result (λ room. state_in g.now w.now [] room ≡ spec.make_locals p.now site (locals_in g.now.body) (record { vars = look formals.now; memory = memory.now; world = left w.now taken; output = [] })) }
    ensures room { IfOk result (λ room. IsRoom g.now room) }
{
    let locals = locals_of(g);
    let vars = first_vars(alloc, formals.as_slice(), locals)?;
    let mut room = Room {
        vars,
        memory: memory.copy()?,
        made,
        taken,
    };
    make_locals(alloc, p, g, w, site, locals, slots, &mut room)?;
    Ok(room)
}
