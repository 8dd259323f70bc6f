//! What the names of a program stand for, looked up once before a run.
ghost use Rattle.std.specs.Prelude.{◌≡◌, ◌+◌, ◌++◌, ◌<◌, ◌≤◌, IfOk, IfSome, IsSome, OnOk, Some, length, map, slice_get};
ghost use Rattle.cv_core.specs.Names.{place_of};
ghost use Rattle.cv_interp.specs.Plans as spec;

use crate::objects::home_of;
use crate::sites::{local_site, plus};
use crate::slots::slot_at;
use crate::store::{Home, Line, Plan, Slot};
use cv_core::{
    AnyOperand, Bytes, Form, List, Local, Operand, Proc, Program, Stmt, VarKind, locals_of,
    malloc_count, object_count, stmts_of,
};
use std::alloc::{AllocError, Global};

/// The slot where no variable is named.
fn nowhere() -> Slot
    ensures { result ≡ spec.nowhere }
{
    Slot {
        place: None,
        kind: VarKind::Int,
    }
}

fn slot_if(f: &Proc, x: &Option<Bytes>) -> Slot
    ensures { result ≡ spec.slot_if f.now x.now }
{
    match x {
        None => nowhere(),
        Some(x) => slot_at(f, x.as_slice()),
    }
}

fn operand_slot(f: &Proc, e: &Operand) -> Slot
    ensures { result ≡ spec.operand_slot f.now e.now }
{
    match e {
        Operand::Var(x) => slot_at(f, x.as_slice()),
        Operand::Number(_) => nowhere(),
    }
}

fn any_slot(f: &Proc, e: &AnyOperand) -> Slot
    ensures { result ≡ spec.any_slot f.now e.now }
{
    match e {
        AnyOperand::Operand(e) => operand_slot(f, e),
        AnyOperand::Null => nowhere(),
    }
}

fn any_slot_if(f: &Proc, e: &Option<AnyOperand>) -> Slot
    ensures { result ≡ spec.any_slot_if f.now e.now }
{
    match e {
        None => nowhere(),
        Some(e) => any_slot(f, e),
    }
}

/// A line of these slots, without an object and without a call; it takes no memory.
fn plain(alloc: Global, first: Slot, second: Slot, third: Slot) -> Line
    ensures { result ≡ spec.plain first second third }
{
    Line {
        first,
        second,
        third,
        home: Home::Shared(0),
        args: List::new(alloc),
        callee: None,
    }
}

/// The number of a procedure.
pub(crate) fn proc_place(procs: &[Proc], x: &[u8]) -> Option<usize>
    ensures within { IfSome result (λ i. i < length procs.now) }
    ensures place { result ≡ place_of (λ g. g.name) x.now procs.now }
{
    procs.iter().position(|g| g.name.as_slice() == x)
}

fn any_slots(alloc: Global, f: &Proc, args: &[AnyOperand]) -> Result<Vec<Slot>, AllocError>
    ensures { IfOk result (λ slots. slots.items ≡ map (spec.any_slot f.now) args.now) }
{
    args.iter().map(|e| any_slot(f, e)).collect(alloc)
}

/// The number of the procedure that is called; an error where it is no 32-bit number.
fn callee_of(p: &Program, g: &Bytes) -> Result<Option<u32>, AllocError>
    ensures { IfOk result (λ c. c ≡ place_of (λ h. h.name) g.now p.now.procs) }
{
    match proc_place(p.procs.as_slice(), g.as_slice()) {
        None => Ok(None),
        Some(i) => match u32::try_from(i) {
            Err(_) => Err(AllocError),
            Ok(number) => Ok(Some(number)),
        },
    }
}

/// The line of a call.
fn call_line(
    alloc: Global,
    p: &Program,
    f: &Proc,
    into: &Option<Bytes>,
    g: &Bytes,
    args: &List<AnyOperand>,
) -> Result<Line, AllocError>
    ensures { IfOk result (λ line. line ≡ spec.line_of p.now f.now (Form.Call into.now g.now args.now)) }
{
    let slots = any_slots(alloc, f, args.as_slice())?;
    Ok(Line {
        first: slot_if(f, into),
        second: nowhere(),
        third: nowhere(),
        home: Home::Shared(0),
        args: List::from_vec(slots),
        callee: callee_of(p, g)?,
    })
}

/// The line of an address.
fn address_line(alloc: Global, p: &Program, f: &Proc, x: &Bytes, object: &Bytes) -> Line
    requires globals { length p.now.globals ≤ 256 }
    ensures { result ≡ spec.line_of p.now f.now (Form.Address x.now object.now) }
{
    Line {
        first: slot_at(f, x.as_slice()),
        second: nowhere(),
        third: nowhere(),
        home: home_of(p, f, object.as_slice()),
        args: List::new(alloc),
        callee: None,
    }
}

/// The slot of a variable and that of an operand.
fn with_operand(alloc: Global, f: &Proc, x: &Bytes, e: &Operand) -> Line
    ensures { result ≡ spec.plain (spec.slot_at f.now x.now) (spec.operand_slot f.now e.now) spec.nowhere }
{
    plain(
        alloc,
        slot_at(f, x.as_slice()),
        operand_slot(f, e),
        nowhere(),
    )
}

/// The slot of a variable and those of two operands.
fn with_operands(alloc: Global, f: &Proc, x: &Bytes, d: &Operand, e: &Operand) -> Line
    ensures { result ≡ spec.plain (spec.slot_at f.now x.now) (spec.operand_slot f.now d.now) (spec.operand_slot f.now e.now) }
{
    plain(
        alloc,
        slot_at(f, x.as_slice()),
        operand_slot(f, d),
        operand_slot(f, e),
    )
}

/// The slots of two variables.
fn with_variable(alloc: Global, f: &Proc, x: &Bytes, y: &Bytes) -> Line
    ensures { result ≡ spec.plain (spec.slot_at f.now x.now) (spec.slot_at f.now y.now) spec.nowhere }
{
    plain(
        alloc,
        slot_at(f, x.as_slice()),
        slot_at(f, y.as_slice()),
        nowhere(),
    )
}

/// The slots of three variables.
fn with_variables(alloc: Global, f: &Proc, x: &Bytes, y: &Bytes, z: &Bytes) -> Line
    ensures { result ≡ spec.plain (spec.slot_at f.now x.now) (spec.slot_at f.now y.now) (spec.slot_at f.now z.now) }
{
    plain(
        alloc,
        slot_at(f, x.as_slice()),
        slot_at(f, y.as_slice()),
        slot_at(f, z.as_slice()),
    )
}

/// The slots of two variables and that of an operand.
fn with_both(alloc: Global, f: &Proc, x: &Bytes, y: &Bytes, e: &Operand) -> Line
    ensures { result ≡ spec.plain (spec.slot_at f.now x.now) (spec.slot_at f.now y.now) (spec.operand_slot f.now e.now) }
{
    plain(
        alloc,
        slot_at(f, x.as_slice()),
        slot_at(f, y.as_slice()),
        operand_slot(f, e),
    )
}

/// The slot of a variable, and that of one that may not be there.
fn with_maybe(alloc: Global, f: &Proc, x: &Bytes, q: &Option<Bytes>) -> Line
    ensures { result ≡ spec.plain (spec.slot_at f.now x.now) (spec.slot_if f.now q.now) spec.nowhere }
{
    plain(alloc, slot_at(f, x.as_slice()), slot_if(f, q), nowhere())
}

/// The slot of a variable, and that of an operand or null.
fn with_any(alloc: Global, f: &Proc, x: &Bytes, e: &AnyOperand) -> Line
    ensures { result ≡ spec.plain (spec.slot_at f.now x.now) (spec.any_slot f.now e.now) spec.nowhere }
{
    plain(alloc, slot_at(f, x.as_slice()), any_slot(f, e), nowhere())
}

/// The slot of a variable alone.
fn alone(alloc: Global, f: &Proc, x: &Bytes) -> Line
    ensures { result ≡ spec.plain (spec.slot_at f.now x.now) spec.nowhere spec.nowhere }
{
    plain(alloc, slot_at(f, x.as_slice()), nowhere(), nowhere())
}

/// The line of a form; an error is want of memory.
fn line_of(alloc: Global, p: &Program, f: &Proc, form: &Form) -> Result<Line, AllocError>
    requires globals { length p.now.globals ≤ 256 }
    ensures { IfOk result (λ line. line ≡ spec.line_of p.now f.now form.now) }
{
    match form {
        Form::Assign { x, e } => Ok(with_operand(alloc, f, x, e)),
        Form::Sum { x, e, f: d } => Ok(with_operands(alloc, f, x, e, d)),
        Form::Minus { x, e, f: d } => Ok(with_operands(alloc, f, x, e, d)),
        Form::Product { x, e, .. } => Ok(with_operand(alloc, f, x, e)),
        Form::Quotient { x, e, .. } => Ok(with_operand(alloc, f, x, e)),
        Form::Remainder { x, e, .. } => Ok(with_operand(alloc, f, x, e)),
        Form::CopyPtr { p: x, q } => Ok(with_maybe(alloc, f, x, q)),
        Form::Address { p: x, object } => Ok(address_line(alloc, p, f, x, object)),
        Form::Shift { p: x, q, e } => Ok(with_both(alloc, f, x, q, e)),
        Form::Load { x, p: q } => Ok(with_variable(alloc, f, x, q)),
        Form::Store { p: x, e } => Ok(with_operand(alloc, f, x, e)),
        Form::Get { x, w } => Ok(with_variable(alloc, f, x, w)),
        Form::Put { w, value } => Ok(with_any(alloc, f, w, value)),
        Form::Diff { x, p: q, q: r } => Ok(with_variables(alloc, f, x, q, r)),
        Form::Goto(_) => Ok(plain(alloc, nowhere(), nowhere(), nowhere())),
        Form::If { left, right, .. } => Ok(plain(
            alloc,
            operand_slot(f, left),
            any_slot(f, right),
            nowhere(),
        )),
        Form::IfByte { p: x, .. } => Ok(alone(alloc, f, x)),
        Form::Call { into, f: g, args } => call_line(alloc, p, f, into, g, args),
        Form::Return(e) => Ok(plain(alloc, any_slot_if(f, e), nowhere(), nowhere())),
    }
}

fn lines_of(alloc: Global, p: &Program, f: &Proc, stmts: &[Stmt]) -> Result<List<Line>, AllocError>
    requires globals { length p.now.globals ≤ 256 }
    ensures { IfOk result (λ lines. lines ≡ map (λ s. spec.line_of p.now f.now s.form) stmts.now) }
{
    let mut lines = List::new(alloc);
    for stmt in stmts {
        lines.push(line_of(alloc, p, f, &stmt.form)?)?;
    }
    Ok(lines)
}

fn local_slot(f: &Proc, l: &Local) -> Slot
    ensures { result ≡ spec.slot_at f.now l.now.name }
{
    slot_at(f, l.name.as_slice())
}

fn local_slots(alloc: Global, f: &Proc, locals: &[Local]) -> Result<Vec<Slot>, AllocError>
    ensures { IfOk result (λ slots. slots.items ≡ map (λ l. spec.slot_at f.now l.name) locals.now) }
{
    locals.iter().map(|l| local_slot(f, l)).collect(alloc)
}

/// The plan of a procedure; an error is want of memory.
fn plan_of(
    alloc: Global,
    p: &Program,
    f: &Proc,
    site: u32,
    mallocs: u32,
) -> Result<Plan, AllocError>
    requires globals { length p.now.globals ≤ 256 }
    ensures { IfOk result (λ plan. plan ≡ spec.plan_of p.now f.now site mallocs) }
{
    Ok(Plan {
        lines: lines_of(alloc, p, f, stmts_of(f))?,
        locals: List::from_vec(local_slots(alloc, f, locals_of(f))?),
        site,
        mallocs,
    })
}

/// The site behind so many more; an error where 32 bits don't hold it.
fn past(site: u32, count: usize) -> Result<u32, AllocError>
    ensures { IfOk result (λ next. next ≡ site + count) }
{
    match plus(site, count) {
        None => Err(AllocError),
        Some(next) => Ok(next),
    }
}

/// Puts the plans of procedures that follow one another behind others.
#[tactic(auto, using(crate::proofs::Planned::more_plans))]
fn put_plans(
    alloc: Global,
    p: &Program,
    procs: &[Proc],
    site: u32,
    mallocs: u32,
    plans: &mut List<Plan>,
) -> Result<(), AllocError>
    requires globals { length p.now.globals ≤ 256 }
    ensures { OnOk result (plans.new ≡ plans.old ++ spec.plans_from p.now site mallocs procs.now) }
{
    match procs {
        [] => Ok(()),
        [f, rest @ ..] => {
            plans.push(plan_of(alloc, p, f, site, mallocs)?)?;
            let next = past(site, object_count(f))?;
            let later = past(mallocs, malloc_count(stmts_of(f)))?;
            put_plans(alloc, p, rest, next, later, plans)
        }
    }
}

/// The plans of all procedures; an error is want of memory.
pub(crate) fn plans_of(alloc: Global, p: &Program) -> Result<List<Plan>, AllocError>
    requires globals { length p.now.globals ≤ 256 }
    ensures { IfOk result (λ plans. plans ≡ spec.plans_of p.now) }
{
    let mut plans = List::new(alloc);
    let Some(site) = local_site(p, 0) else {
        return Err(AllocError);
    };
    let Some(mallocs) = local_site(p, p.procs.len()) else {
        return Err(AllocError);
    };
    put_plans(alloc, p, p.procs.as_slice(), site, mallocs, &mut plans)?;
    Ok(plans)
}

/// The line of the statement `at` of the procedure of a number.
pub(crate) fn line_at(plans: &List<Plan>, number: u32, at: usize) -> &Line
    requires { IsSome (spec.line_in plans.now number at) }
    ensures { spec.line_in plans.now number at ≡ Some result.now }
{
    &plans.as_slice()[number as usize].lines.as_slice()[at]
}

/// The plan of the procedure of a number.
pub(crate) fn plan_at(plans: &List<Plan>, number: u32) -> &Plan
    requires { number < length plans.now }
    ensures { slice_get plans.now number ≡ Some result.now }
{
    &plans.as_slice()[number as usize]
}
