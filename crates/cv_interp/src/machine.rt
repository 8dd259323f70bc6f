//! The machine.
ghost use Rattle.std.specs.Prelude.{◌≡◌, ◌+◌, ◌<◌, ◌++◌, ◌∷◌, [], ℕ, vec_len, vec_capacity, All, IfErr, IfOk, IfSome, IsOk, IsTrue, List, OnErr, OnOk, None, Some, false, if◌then◌else◌, map, option_map, slice_get, true};
ghost use Rattle.cv_core.specs.Grammar.{IsWritten};
ghost use Rattle.cv_core.specs.Limits.{first_limit};
ghost use Rattle.cv_core.specs.WellFormed.{IsSoundProgram};
ghost use Rattle.cv_meaning.specs.Call.{give as give_in, may_enter as may_enter_in};
ghost use Rattle.cv_meaning.specs.Few.{AreFew};
ghost use Rattle.cv_meaning.specs.Run.{run_main};
ghost use Rattle.cv_meaning.specs.State.{Frame, any_value as any_value_in};
ghost use Rattle.cv_meaning.specs.declared.memory.World.{World as WorldValue};
ghost use Rattle.cv_interp.specs.Called.{IsInto};
ghost use Rattle.cv_interp.specs.Entered.{IsRoom, arrived};
ghost use Rattle.cv_interp.specs.Machine.{answer_of as answer_in, at_call, end, end_behind, into_at, is_call, seen, turn_of as turn_at};
ghost use Rattle.cv_interp.specs.Plans as spec;
ghost use Rattle.cv_interp.specs.Seen.{state_in};
ghost use Rattle.cv_interp.specs.Slots.{env_of};
ghost use Rattle.cv_interp.specs.Takes.{IsNear};
ghost use Rattle.cv_interp.specs.Good.{IsGood, Leads, ended_how, is_plain};
ghost use Rattle.cv_interp.specs.Stack.{stack_of};
ghost use Rattle.cv_core.specs.Names.{local_site as local_site_of, locals_of as locals_in, stmts_of as stmts_in};
ghost use Rattle.cv_interp.specs.Start.{HasFewBytes, IsMain, IsRefusal, are_mains, fit as fit_in, start_memory, start_values};

use crate::begin::{Made, StartError, beginning, first_room, fit, main_of};
use crate::calls::{Called, Entered, call, give};
use crate::entering::{Guest, guest_of, may_enter};
use crate::leaving::leave;
use crate::plan::{line_at, plan_at, plans_of};
use crate::slots::any_value;
use crate::steps::step;
use crate::store::{Activation, Line, Plan, Room, Slot, Store, Waiting};
use cv_core::{AnyOperand, Bytes, ErrKind, Form, List, Proc, Program, Stmt, stmts_of};
use cv_meaning::{Arg, Mem, RunEnd, Value, World};
use std::alloc::{AllocError, Global};
use std::marker::Model;
use std::mem;

/// What a step leads to.
#[derive(Clone, Copy, Debug, PartialEq, Eq)]
pub enum Turn {
    On,
    /// The number of the procedure from 0, and the line of its statement.
    Error { kind: ErrKind, proc: u32, line: u32 },
    /// What main answered.
    Returned(i32),
}

/// How a machine has ended.
#[derive(Clone, Copy, Debug, PartialEq, Eq)]
pub(crate) enum Ended {
    Error { kind: ErrKind, proc: u32, line: u32 },
    Returned(i32),
}

/// All that a machine works on.
#[derive(Drop)]
pub(crate) struct Core<'a> {
    alloc: Global,
    program: &'a Program,
    waiting: Vec<Waiting<'a>>,
    running: Activation<'a>,
    at: usize,
    store: Store,
    ended: Option<Ended>,
}

/// Runs a program step by step, on a stack of its own. Contracts see the procedures that run and wait, what they
/// share, and the end.
#[derive(Drop)]
pub struct Machine<'a> {
    core: Core<'a>,
    /// What the names of the program stand for.
    plans: List<Plan>,
}

impl<'a> Model for Machine<'a> {
    ghost use Rattle.cv_core.specs.contracts.program.PtrTerm as pointer;
    ghost use Rattle.cv_core.specs.contracts.program.Term as term;
    ghost use Rattle.std.specs.Coded.{codes};
    ghost use Rattle.cv_interp.specs.Level.{Stack};

    ghost Value = { Stack };

    ghost coded = { Prim.hlevel (codes, pointer.the_row.coded, term.the_row.coded) };

    ghost use Rattle.cv_interp.specs.Stack.{stack_of};
    ghost use Rattle.std.specs.Prelude.{◌≡◌};
    ghost use Rattle.cv_interp.specs.Good.{IsGood};
    ghost use Rattle.cv_interp.specs.Plans.{plans_of};

    ghost view = { λ m. stack_of m.core };

    ghost invariant = { λ m. IsGood m.core × (m.plans ≡ plans_of m.core.program.now) };
}

fn turn_of(end: Ended) -> Turn
    ensures { result ≡ turn_at (ended_how end) }
{
    match end {
        Ended::Error { kind, proc, line } => Turn::Error { kind, proc, line },
        Ended::Returned(z) => Turn::Returned(z),
    }
}

fn run_end_of(end: Ended) -> RunEnd
    ensures { result ≡ ended_how end }
{
    match end {
        Ended::Error { kind, proc, line } => RunEnd::Error { kind, proc, line },
        Ended::Returned(z) => RunEnd::Returned(z),
    }
}

fn answer_of(answer: Option<Value>) -> i32
    ensures { result ≡ answer_in answer }
{
    match answer {
        Some(Value::Int(z)) => z,
        _ => 0,
    }
}

/// Ends a machine by an error of the statement that runs.
fn fail(core: &mut Core, kind: ErrKind, line: u32) -> Turn
    ensures answer { result ≡ Turn.Error kind core.old.running.number line }
    ensures core { core.new ≡ record core.old { ended = Some (Ended.Error kind core.old.running.number line) } }
{
    let end = Ended::Error {
        kind,
        proc: core.running.number,
        line,
    };
    core.ended = Some(end);
    turn_of(end)
}

/// Takes a step that is no call and no return.
fn go(core: &mut Core, stmt: &Stmt, line: &Line) -> Turn
    requires good { IsGood core.old }
    requires line { line.now ≡ spec.line_of core.old.program.now core.old.running.proc.now stmt.now.form }
    requires on { core.old.ended ≡ None }
    requires at { slice_get (stmts_in core.old.running.proc.now.body) core.old.at ≡ Some stmt.now }
    requires plain { is_plain stmt.now.form ≡ true }
    ensures good { IsGood core.new }
    ensures program { core.new.program ≡ core.old.program }
    ensures led { Leads (stack_of core.old) result (stack_of core.new) }
{
    match step(
        core.program,
        &core.running,
        core.at,
        &stmt.form,
        line,
        &mut core.store,
    ) {
        Err(kind) => fail(core, kind, stmt.line),
        Ok(at) => {
            core.at = at;
            Turn::On
        }
    }
}

/// Runs a procedure that was entered; its caller waits. There is room for one more that waits.
fn enter<'a>(core: &mut Core<'a>, entered: Entered<'a>)
    requires { vec_len core.old.waiting < vec_capacity core.old.waiting }
    ensures waiting { core.new.waiting.items ≡ core.old.waiting.items ++ record { activation = core.old.running; at = core.old.at; vars = entered.entry.vars } ∷ [] }
    ensures running { core.new.running ≡ entered.entry.callee }
    ensures at { core.new.at ≡ 0 }
    ensures rest { (core.new.program ≡ core.old.program) × (core.new.store ≡ core.old.store) × (core.new.ended ≡ core.old.ended) }
{
    let Entered { callee, vars } = entered;
    let activation = mem::replace(&mut core.running, callee);
    let at = mem::replace(&mut core.at, 0);
    core.waiting
        .push(Waiting {
            activation,
            at,
            vars,
        })
        .unwrap();
}

/// Takes a step of a call.
fn go_into(
    core: &mut Core,
    into: &Option<Bytes>,
    f: &Bytes,
    args: &List<AnyOperand>,
    number: u32,
    plans: &List<Plan>,
    line: &Line,
) -> Result<Turn, AllocError>
    requires good { IsGood core.old }
    requires plans { plans.now ≡ spec.plans_of core.old.program.now }
    requires line { line.now ≡ spec.line_of core.old.program.now core.old.running.proc.now (Form.Call into.now f.now args.now) }
    requires on { core.old.ended ≡ None }
    requires at { slice_get (stmts_in core.old.running.proc.now.body) core.old.at ≡ Some (record { line = number; form = Form.Call into.now f.now args.now }) }
    ensures good { IsGood core.new }
    ensures program { core.new.program ≡ core.old.program }
    ensures led { IfOk result (λ t. Leads (stack_of core.old) t (stack_of core.new)) }
    ensures unchanged { OnErr result (stack_of core.new ≡ stack_of core.old) }
{
    core.waiting.reserve(1)?;
    match call(
        core.alloc,
        core.program,
        &core.running,
        core.at,
        into,
        f,
        args,
        plans,
        line,
        &mut core.store,
    )? {
        Called::Errs(kind) => Ok(fail(core, kind, number)),
        Called::Goes => {
            core.at += 1;
            Ok(Turn::On)
        }
        Called::Enters(entered) => {
            enter(core, entered);
            Ok(Turn::On)
        }
    }
}

/// Gives an answer to the destination of the call at a statement.
fn give_at(p: &Program, f: &Proc, at: usize, line: &Line, answer: Option<Value>, room: &mut Room)
    requires line { line.now.first ≡ spec.slot_if f.now (into_at f.now at) }
    requires slot { IsInto f.now (into_at f.now at) }
    requires room { IsRoom f.now room.old }
    ensures state { (g : Frame) (w : WorldValue) (out : List ℕ) → g.proc ≡ f.now → state_in f.now w out room.new ≡ give_in p.now g (into_at f.now at) answer (state_in f.now w out room.old) }
    ensures room { IsRoom f.now room.new }
{
    match stmts_of(f).get(at) {
        None => {}
        Some(stmt) => match &stmt.form {
            Form::Call { into, .. } => give(p, f, into, line.first, answer, room),
            _ => {}
        },
    }
}

/// Goes on in the procedure that waits, or ends the machine where none does.
fn go_back(core: &mut Core, answer: Option<Value>, plans: &List<Plan>) -> Turn
    requires good { IsGood core.old }
    requires plans { plans.now ≡ spec.plans_of core.old.program.now }
    requires on { core.old.ended ≡ None }
    requires near { IfSome answer IsNear }
    ensures good { IsGood core.new }
    ensures program { core.new.program ≡ core.old.program }
    ensures turn { result ≡ turn_at (end_behind (stack_of core.old) answer 0).how }
    ensures stands { (n : ℕ) → end (stack_of core.new) n ≡ end_behind (stack_of core.old) answer n }
{
    match core.waiting.pop() {
        None => {
            let end = Ended::Returned(answer_of(answer));
            core.ended = Some(end);
            turn_of(end)
        }
        Some(waiting) => {
            let Waiting {
                activation,
                at,
                vars,
            } = waiting;
            core.store.room.vars = vars;
            core.running = activation;
            give_at(
                core.program,
                core.running.proc,
                at,
                line_at(plans, core.running.number, at),
                answer,
                &mut core.store.room,
            );
            core.at = at + 1;
            Turn::On
        }
    }
}

/// What a return of a procedure answers.
fn answer_by(f: &Proc, vars: &[Value], e: &Option<AnyOperand>, at: Slot) -> Option<Value>
    requires at { at ≡ spec.any_slot_if f.now e.now }
    ensures { result ≡ option_map (any_value_in (env_of f.now vars.now)) e.now }
{
    match e {
        None => None,
        Some(e) => Some(any_value(f, vars, e, at)),
    }
}

/// Takes a step of a return.
fn go_out(
    core: &mut Core,
    e: &Option<AnyOperand>,
    number: u32,
    plans: &List<Plan>,
    line: &Line,
) -> Turn
    requires good { IsGood core.old }
    requires plans { plans.now ≡ spec.plans_of core.old.program.now }
    requires line { line.now ≡ spec.line_of core.old.program.now core.old.running.proc.now (Form.Return e.now) }
    requires on { core.old.ended ≡ None }
    requires at { slice_get (stmts_in core.old.running.proc.now.body) core.old.at ≡ Some (record { line = number; form = Form.Return e.now }) }
    ensures good { IsGood core.new }
    ensures program { core.new.program ≡ core.old.program }
    ensures led { Leads (stack_of core.old) result (stack_of core.new) }
{
    let answer = answer_by(
        core.running.proc,
        core.store.room.vars.as_slice(),
        e,
        line.first,
    );
    match leave(core.program, &core.running, answer, &mut core.store) {
        Err(kind) => fail(core, kind, number),
        Ok(()) => go_back(core, answer, plans),
    }
}

/// Takes a step of a statement.
fn take_stmt(core: &mut Core, stmt: &Stmt, plans: &List<Plan>) -> Result<Turn, AllocError>
    requires good { IsGood core.old }
    requires plans { plans.now ≡ spec.plans_of core.old.program.now }
    requires on { core.old.ended ≡ None }
    requires at { slice_get (stmts_in core.old.running.proc.now.body) core.old.at ≡ Some stmt.now }
    ensures good { IsGood core.new }
    ensures program { core.new.program ≡ core.old.program }
    ensures led { IfOk result (λ t. Leads (stack_of core.old) t (stack_of core.new)) }
    ensures unchanged { OnErr result (stack_of core.new ≡ stack_of core.old) }
    ensures steady { is_call stmt.now.form ≡ false → IsOk result }
{
    let line = line_at(plans, core.running.number, core.at);
    match &stmt.form {
        Form::Call { into, f, args } => go_into(core, into, f, args, stmt.line, plans, line),
        Form::Return(e) => Ok(go_out(core, e, stmt.line, plans, line)),
        _ => Ok(go(core, stmt, line)),
    }
}

/// Takes a step.
fn take(core: &mut Core, plans: &List<Plan>) -> Result<Turn, AllocError>
    requires good { IsGood core.old }
    requires plans { plans.now ≡ spec.plans_of core.old.program.now }
    ensures good { IsGood core.new }
    ensures program { core.new.program ≡ core.old.program }
    ensures led { IfOk result (λ t. Leads (stack_of core.old) t (stack_of core.new)) }
    ensures unchanged { OnErr result (stack_of core.new ≡ stack_of core.old) }
    ensures steady { at_call (stack_of core.old) ≡ false → IsOk result }
{
    if let Some(end) = core.ended {
        return Ok(turn_of(end));
    }
    let proc: &Proc = core.running.proc;
    match stmts_of(proc).get(core.at) {
        None => Ok(Turn::On),
        Some(stmt) => take_stmt(core, stmt, plans),
    }
}

/// How a machine ends that may not enter main; none where it may.
fn barred(p: &Program, number: u32, main: &Proc, guest: &Guest, memory: &Mem) -> Option<Ended>
    requires few { AreFew main.now.contract }
    requires names { map (λ n. n.name) guest.now.formals ≡ map (λ f. f.name) main.now.formals }
    ensures { result ≡ (if may_enter_in p.now (arrived number main.now guest.now memory.now) then None else Some (Ended.Error ErrKind.Requires number main.now.line)) }
{
    if may_enter(p, main, guest, memory) {
        return None;
    }
    Some(Ended::Error {
        kind: ErrKind::Requires,
        proc: number,
        line: main.line,
    })
}

/// Enters main, or ends where its requires does not hold.
fn first_core<'a>(
    alloc: Global,
    program: &'a Program,
    number: u32,
    main: &'a Proc,
    plan: &Plan,
    args: &[Arg],
    world: World,
) -> Result<Core<'a>, AllocError>
    requires slots { plan.now.locals ≡ map (λ l. spec.slot_at main.now l.name) (locals_in main.now.body) }
    requires site { plan.now.site ≡ local_site_of program.now number }
    requires well_formed { IsSoundProgram program.now }
    requires limits { first_limit program.now ≡ None }
    requires texts { All HasFewBytes args.now }
    requires written { IsWritten program.now }
    requires main { IsMain program.now number main.now }
    requires kinds { fit_in main.now.formals args.now ≡ true }
    ensures good { IfOk result (λ c. IsGood c) }
    ensures program { IfOk result (λ c. c.program.now ≡ program.now) }
    ensures started { IfOk result (λ c. (n : ℕ) → end (stack_of c) n ≡ seen (run_main n program.now (start_values program.now args.now) (start_memory program.now args.now) world)) }
{
    let mut values = List::new(alloc);
    let Made { memory, count } = beginning(alloc, program, args, &mut values)?;
    let guest = guest_of(alloc, program, main, values.as_slice(), &memory, count)?;
    let ended = barred(program, number, main, &guest, &memory);
    let formals = &guest.formals;
    let room = first_room(alloc, program, main, plan, formals, &memory, count, &world)?;
    let Guest { formals, permit } = guest;
    Ok(Core {
        alloc,
        program,
        waiting: Vec::new(alloc),
        running: Activation {
            number,
            proc: main,
            formals,
            entry: memory,
            permit,
        },
        at: 0,
        store: Store {
            room,
            world,
            output: Vec::new(alloc),
        },
        ended,
    })
}

impl<'a> Machine<'a> {
    /// A machine at the start of main. The globals are 0 and null; a text is a buffer of its bytes and a zero byte, and
    /// its formal points to the first of them. Conditions: the program is well formed and within its limits; a text has
    /// at most 1048576 bytes.
    pub fn start(
        alloc: Global,
        program: &'a Program,
        args: &[Arg],
        world: World,
    ) -> Result<Machine<'a>, StartError>
        requires well_formed { IsSoundProgram program.now }
        requires limits { first_limit program.now ≡ None }
        requires texts { All HasFewBytes args.now }
        ensures started { IfOk result (λ m. (n : ℕ) → end m n ≡ seen (run_main n program.now (start_values program.now args.now) (start_memory program.now args.now) world)) }
        ensures mains { OnOk result (IsTrue (are_mains program.now args.now)) }
        ensures refused { IfErr result (IsRefusal program.now args.now) }
    {
        let (number, main) = main_of(program);
        if !fit(main.formals.as_slice(), args) {
            return Err(StartError::Args);
        }
        let plans = plans_of(alloc, program)?;
        let main_plan = plan_at(&plans, number);
        let core = first_core(alloc, program, number, main, main_plan, args, world)?;
        Ok(Machine { core, plans })
    }

    /// Takes one step; an error is want of memory. After an end it gives the end again.
    pub fn step(&mut self) -> Result<Turn, AllocError>
        ensures turn { IfOk result (λ t. t ≡ turn_at (end self.old 1).how) }
        ensures stands { OnOk result ((n : ℕ) → end self.new n ≡ end self.old (1 + n)) }
        ensures unchanged { OnErr result (self.new ≡ self.old) }
        ensures steady { at_call self.old ≡ false → IsOk result }
    {
        take(&mut self.core, &self.plans)
    }

    /// Takes at most so many steps; an error is want of memory, at a step that is then left untaken.
    pub fn run(&mut self, steps: u64) -> Result<RunEnd, AllocError>
        ensures ended { IfOk result (λ e. e ≡ (end self.old steps).how) }
        ensures stands { OnOk result ((n : ℕ) → end self.new n ≡ end self.old (steps + n)) }
        ensures taken { OnErr result ((k : ℕ) × (k < steps) × ((n : ℕ) → end self.new n ≡ end self.old (k + n))) }
    {
        if let Some(end) = self.core.ended {
            return Ok(run_end_of(end));
        }
        for i in 0..steps {
            match self.step()? {
                Turn::On => {}
                Turn::Error { kind, proc, line } => {
                    return Ok(RunEnd::Error { kind, proc, line });
                }
                Turn::Returned(z) => return Ok(RunEnd::Returned(z)),
            }
        }
        Ok(RunEnd::Stopped)
    }

    /// The bytes that were written so far.
    pub fn output(&self) -> &[u8]
        ensures { result.now ≡ (end self.now 0).output }
    {
        self.core.store.output.as_slice()
    }
}
