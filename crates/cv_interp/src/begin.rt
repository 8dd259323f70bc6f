//! Where a run of main begins.
ghost use Rattle.std.specs.Prelude.{◌≡◌, ◌+◌, ◌++◌, ◌∷◌, [], ◌≤◌, ◌<◌, ◌^◌, All, IfOk, OnOk, length, map, None, replicate, true};
ghost use Rattle.cv_core.specs.Grammar.{IsWritten};
ghost use Rattle.cv_core.specs.Limits.{first_limit};
ghost use Rattle.cv_core.specs.Names.{locals_of as locals_in};
ghost use Rattle.cv_core.specs.WellFormed.{IsSoundProgram};
ghost use Rattle.cv_meaning.specs.Clean.{literal_objects};
ghost use Rattle.cv_meaning.specs.Look.{look};
ghost use Rattle.cv_meaning.specs.Memory.{IsShort};
ghost use Rattle.cv_meaning.specs.State.{make_locals as make_locals_in};
ghost use Rattle.cv_meaning.specs.declared.memory.Body.TheVariants.{Buffer};
ghost use Rattle.cv_interp.specs.Entered.{IsRoom};
ghost use Rattle.cv_interp.specs.Made.{IsMade};
ghost use Rattle.cv_interp.specs.Plans.{slot_at as slot_at_of};
ghost use Rattle.cv_interp.specs.Seen.{state_in};
ghost use Rattle.cv_interp.specs.Start as spec;

use crate::entering::{furnished, make};
use crate::plan::proc_place;
use crate::store::{Plan, Room, Taken};
use cv_core::{Bytes, Formal, GlobalBody, GlobalDecl, List, Literal, Proc, Program, VarKind};
use cv_meaning::{Arg, Body, Mem, NamedValue, Ptr, Value, World};
use std::alloc::{AllocError, Global};
use thiserror::Error;

/// Why a machine can't start.
#[derive(Clone, Copy, Debug, PartialEq, Eq, Error)]
pub enum StartError {
    /// The number or the kinds of the arguments aren't main's.
    #[error("arguments that main doesn't take")]
    Args,
    #[error("out of memory")]
    Memory,
}

impl From<AllocError> for StartError {
    ghost use Rattle.cv_interp.specs.declared.begin.StartError.TheVariants.{Memory};

    ghost from_gives = { λ _ e. e ≡ Memory };

    fn from(_error: AllocError) -> StartError {
        StartError::Memory
    }
}

/// The number of main, and main.
pub(crate) fn main_of(p: &Program) -> (u32, &Proc)
    requires formed { IsSoundProgram p.now }
    requires limits { first_limit p.now ≡ None }
    ensures main { spec.IsMain p.now result.0 result.1.now }
    ensures written { IsWritten p.now }
{
    // A well-formed program has a main.
    let Some(number) = proc_place(p.procs.as_slice(), b"main") else {
        unreachable!()
    };
    let Some(main) = p.procs.get(number) else {
        unreachable!()
    };
    (number as u32, main)
}

fn fits_kind(kind: VarKind, arg: &Arg) -> bool
    ensures { result ≡ spec.fits_kind kind arg.now }
{
    match (kind, arg) {
        (VarKind::Int, Arg::Int(_)) => true,
        (VarKind::Ptr, Arg::Text(_)) => true,
        _ => false,
    }
}

/// Whether there is one argument for each formal, of its kind.
pub(crate) fn fit(formals: &[Formal], args: &[Arg]) -> bool
    ensures { result ≡ spec.fit formals.now args.now }
{
    match formals {
        [] => args.is_empty(),
        [f, others @ ..] => match args {
            [] => false,
            [a, rest @ ..] => {
                let here = fits_kind(f.kind, a);
                let later = fit(others, rest);
                here && later
            }
        },
    }
}

/// A memory and the number of its objects.
#[derive(Drop)]
pub(crate) struct Made {
    pub(crate) memory: Mem,
    pub(crate) count: u64,
}

fn add(made: &mut Made, site: u32, body: &Body) -> Result<u64, AllocError>
    requires short { IsShort body.now }
    requires made { IsMade made.old }
    ensures object { IfOk result (λ object. object ≡ length made.old.memory) }
    ensures memory { OnOk result (made.new.memory ≡ made.old.memory ++ record { site = site; live = true; body = body.now } ∷ []) }
    ensures made { OnOk result (IsMade made.new) }
{
    make(&mut made.memory, &mut made.count, site, body)
}

#[tactic(auto, using(crate::proofs::Begun::replicate_more))]
fn zeros(alloc: Global, count: u32) -> Result<Vec<u8>, AllocError>
    ensures { IfOk result (λ bytes. bytes.items ≡ replicate count 0) }
{
    let mut bytes = Vec::new(alloc);
    for i in 0..count {
        bytes.push(0)?;
    }
    Ok(bytes)
}

fn global_body(alloc: Global, body: GlobalBody) -> Result<Body, AllocError>
    ensures value { IfOk result (λ b. b ≡ spec.global_body body) }
    ensures short { IfOk result (λ b. IsShort b) }
{
    match body {
        GlobalBody::Buffer(size) => {
            if size > 2147483647 {
                return Err(AllocError);
            }
            Ok(Body::Buffer(Bytes::from_vec(zeros(alloc, size)?)))
        }
        GlobalBody::Pointer => Ok(Body::Cell(Value::Ptr(Ptr::Null))),
        GlobalBody::Int => Ok(Body::Cell(Value::Int(0))),
    }
}

/// Makes the globals, and answers the next site.
#[tactic(auto, using(crate::proofs::Begun::more_globals))]
fn make_globals(
    alloc: Global,
    globals: &[GlobalDecl],
    site: u32,
    made: &mut Made,
) -> Result<u32, AllocError>
    requires { IsMade made.old }
    ensures site { IfOk result (λ next. next ≡ site + length globals.now) }
    ensures memory { OnOk result (made.new.memory ≡ made.old.memory ++ spec.global_objects site globals.now) }
    ensures made { OnOk result (IsMade made.new) }
{
    match globals {
        [] => Ok(site),
        [first, rest @ ..] => {
            let body = global_body(alloc, first.body)?;
            let _object = add(made, site, &body)?;
            match site.checked_add(1) {
                None => Err(AllocError),
                Some(next) => make_globals(alloc, rest, next, made),
            }
        }
    }
}

/// A buffer of the bytes and a zero byte.
fn ended(alloc: Global, bytes: &[u8]) -> Result<Body, AllocError>
    requires { length bytes.now ≤ 1048576 }
    ensures value { IfOk result (λ b. b ≡ Buffer (bytes.now ++ 0 ∷ [])) }
    ensures short { IfOk result (λ b. IsShort b) }
{
    let mut text = Vec::from_slice(alloc, bytes)?;
    text.push(0)?;
    Ok(Body::Buffer(Bytes::from_vec(text)))
}

/// Makes the literals.
#[tactic(auto, using(crate::proofs::Begun::more_literals))]
fn make_literals(
    alloc: Global,
    literals: &[Literal],
    site: u32,
    made: &mut Made,
) -> Result<(), AllocError>
    requires { IsMade made.old }
    ensures memory { OnOk result (made.new.memory ≡ made.old.memory ++ literal_objects site literals.now) }
    ensures made { OnOk result (IsMade made.new) }
{
    match literals {
        [] => Ok(()),
        [first, rest @ ..] => {
            if first.bytes.len() > 4096 {
                return Err(AllocError);
            }
            let body = ended(alloc, first.bytes.as_slice())?;
            let _object = add(made, site, &body)?;
            match site.checked_add(1) {
                None => Err(AllocError),
                Some(next) => make_literals(alloc, rest, next, made),
            }
        }
    }
}

/// Makes the buffers of the texts, and puts the values of the arguments behind others.
#[tactic(auto, using(crate::proofs::Begun::more_int, crate::proofs::Begun::more_text, crate::proofs::Begun::more_outs, crate::proofs::Begun::first_outs))]
fn make_args(
    alloc: Global,
    args: &[Arg],
    made: &mut Made,
    values: &mut List<Value>,
) -> Result<(), AllocError>
    requires made { IsMade made.old }
    requires texts { All spec.HasFewBytes args.now }
    ensures memory { OnOk result (made.new.memory ≡ made.old.memory ++ spec.out_objects args.now) }
    ensures values { OnOk result (values.new ≡ values.old ++ spec.arg_values (length made.old.memory) args.now) }
    ensures made { OnOk result (IsMade made.new) }
{
    match args {
        [] => Ok(()),
        [first, rest @ ..] => match first {
            Arg::Int(z) => {
                values.push(Value::Int(*z))?;
                make_args(alloc, rest, made, values)
            }
            Arg::Text(bytes) => {
                let body = ended(alloc, bytes.as_slice())?;
                let object = add(made, 0, &body)?;
                values.push(Value::Ptr(Ptr::At { object, offset: 0 }))?;
                make_args(alloc, rest, made, values)
            }
        },
    }
}

/// The memory at the start, and the values of main's formals.
#[tactic(auto, using(crate::proofs::Begun::start_length))]
pub(crate) fn beginning(
    alloc: Global,
    p: &Program,
    args: &[Arg],
    values: &mut List<Value>,
) -> Result<Made, AllocError>
    requires { All spec.HasFewBytes args.now }
    ensures memory { IfOk result (λ made. made.memory ≡ spec.start_memory p.now args.now) }
    ensures values { OnOk result (values.new ≡ values.old ++ spec.start_values p.now args.now) }
    ensures made { IfOk result (λ made. IsMade made) }
{
    let mut made = Made {
        memory: Mem::new(alloc),
        count: 0,
    };
    let site = make_globals(alloc, p.globals.as_slice(), 1, &mut made)?;
    make_literals(alloc, p.literals.as_slice(), site, &mut made)?;
    make_args(alloc, args, &mut made, values)?;
    Ok(made)
}

/// The room of main at its start, where nothing of the world is taken; the memory is a copy.
pub(crate) fn first_room(
    alloc: Global,
    p: &Program,
    main: &Proc,
    plan: &Plan,
    formals: &List<NamedValue>,
    memory: &Mem,
    count: u64,
    w: &World,
) -> Result<Room, AllocError>
    requires slots { plan.now.locals ≡ map (λ l. slot_at_of main.now l.name) (locals_in main.now.body) }
    requires names { map (λ n. n.name) formals.now ≡ map (λ f. f.name) main.now.formals }
    requires count { count ≡ length memory.now }
    requires few { count ≤ 2 ^ 62 }
    ensures state { IfOk result (λ room. state_in main.now w.now [] room ≡ make_locals_in p.now plan.now.site (locals_in main.now.body) (record { vars = look formals.now; memory = memory.now; world = w.now; output = [] })) }
    ensures room { IfOk result (λ room. IsRoom main.now room) }
{
    let taken = Taken {
        input: 0,
        fresh: 0,
        allocations: 0,
        answers: 0,
    };
    let slots = plan.locals.as_slice();
    furnished(
        alloc, p, main, slots, plan.site, formals, memory, count, w, taken,
    )
}
