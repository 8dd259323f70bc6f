//! The command `run FILE STEPS ARG..`.
ghost use Rattle.std.specs.Prelude.{◌≡◌, ◌≢◌, ◌≤◌, ◌⊎◌, ℕ, List, Option, All, IfOk, IfErr, IfSome, IsTrue, Some, None, Ok, Err, true, codes, slice_get, option_and_then};
ghost use Rattle.cv_core.specs.Limits.{first_limit};
ghost use Rattle.cv_core.specs.Names.{place_of};
ghost use Rattle.cv_core.specs.WellFormed.{IsSoundProgram};
ghost use Rattle.cv_interp.specs.Start.{are_mains, formals_of, main_of, HasFewBytes};
ghost use Rattle.cv_io.specs.Counts.{Rose};
ghost use Rattle.cv_app.specs.declared.served.Served.{Served as Answer};
ghost use Rattle.cv_app.specs.Answers.{Answers, IsTold, IsUsage, ReadsIn};
ghost use Rattle.cv_app.specs.Commands.{Run, words_of};
ghost use Rattle.cv_app.specs.Calls as spec;
ghost use Rattle.cv_app.specs.Decided.{run_outcome};
ghost use Rattle.cv_app.specs.Faults.{InputRefused, UnlessHindered};
ghost use Rattle.cv_app.specs.Refusals.{MayRefuse};
ghost use Rattle.cv_app.specs.Runs.{IsInput, HasOtherWords, RunEnds, run_served, ends};
ghost use Rattle.cv_app.specs.Sinks.{IsSettled, IsEnding, IsUntouched, Answered, RunAnswered, Becomes, PrintsBy, RefusesBy};

use crate::args::args_of;
use crate::ended::{end_line, end_status, print_end};
use crate::fault::{Fault, report};
use crate::input::read_input;
use crate::program::program_of_file;
use crate::reads::reads_input;
use crate::served::Served;
use cv_core::{Formal, Proc, Program};
use cv_interp::{Machine, StartError};
use cv_io::{Sink, Source, Store};
use cv_list::{Bytes, List};
use cv_meaning::{Arg, World};
use std::alloc::Global;

/// The place of the first procedure that is named main.
fn main_place(procs: &[Proc]) -> Option<usize>
    ensures { result ≡ place_of (λ g. g.name) (codes "main") procs.now }
{
    procs
        .iter()
        .position(|g| g.name.as_slice() == b"main".as_slice())
}

/// The formals of the procedure at a place.
fn formals_at(procs: &[Proc], at: Option<usize>) -> &[Formal]
    ensures { result.now ≡ formals_of (option_and_then (λ i. slice_get procs.now i) at) }
{
    match at {
        None => &[],
        Some(at) => match procs.get(at) {
            None => &[],
            Some(proc) => proc.formals.as_slice(),
        },
    }
}

/// The formals of main.
fn main_formals(program: &Program) -> &[Formal]
    ensures { result.now ≡ formals_of (main_of program.now) }
{
    let procs = program.procs.as_slice();
    formals_at(procs, main_place(procs))
}

/// Runs main for at most `steps` steps, over this input alone.
fn run_program(
    alloc: Global,
    program: &Program,
    args: &[Arg],
    input: Vec<u8>,
    steps: u32,
) -> Result<Served, Fault>
    requires within { first_limit program.now ≡ None }
    requires formed { IsSoundProgram program.now }
    requires mains { IsTrue (are_mains program.now args.now) }
    requires few { All HasFewBytes args.now }
    ensures served { IfOk result (λ served. served ≡ run_served program.now steps (ends program.now steps args.now input.items)) }
    ensures fault { IfErr result (λ fault. fault ≡ Fault.Memory) }
{
    let world = World {
        input: Bytes::from_vec(input),
        fresh: List::new(alloc),
        allocations: List::new(alloc),
        answers: List::new(alloc),
    };
    let mut machine = match Machine::start(alloc, program, args, world) {
        Ok(machine) => machine,
        Err(StartError::Memory) => return Err(Fault::Memory),
        // The arguments are main's.
        Err(StartError::Args) => unreachable!(),
    };
    let end = machine.run(u64::from(steps))?;
    Ok(Served {
        status: end_status(end),
        out: Bytes::from_slice(alloc, machine.output())?,
        errs: Bytes::from_vec(end_line(alloc, program, steps, end)?),
    })
}

/// The input of a run of the program: all that is left in the source where some statement calls getchar, else nothing.
fn input_of<I: Source>(alloc: Global, program: &Program, input: &mut I) -> Result<Vec<u8>, Fault>
    ensures is { IfOk result (λ bytes. IsInput (spec.reads_input program.now) (I.content input.old) bytes.items) }
    ensures asked { IfErr result (λ _. spec.reads_input program.now ≡ true) }
    ensures refused { IfErr result (InputRefused (I.content input.old) (I.faults input.old) (I.faults input.new)) }
    ensures untouched { (spec.reads_input program.now ≡ true)
        ⊎ IsUntouched (I.content input.old) (I.content input.new) (I.faults input.old) (I.faults input.new) }
{
    if reads_input(program) {
        read_input(alloc, input)
    } else {
        Ok(Vec::new(alloc))
    }
}

/// Runs main of the program for which a file stands.
fn run_file<S: Store, I: Source>(
    alloc: Global,
    store: &mut S,
    input: &mut I,
    file: &[u8],
    steps: u32,
    words: &[Vec<u8>],
) -> Result<Served, Fault>
    ensures answer { UnlessHindered result (Answers (S.content store.old) (Run file.now steps (words_of words.now) (I.content input.old)) (run_outcome file.now result)) }
    ensures ended { IfOk result (λ served. RunEnds steps served.status served.out served.errs) }
    ensures faults { IfErr result (MayRefuse (Run file.now steps (words_of words.now) (I.content input.old))) }
    ensures usage { result ≡ Err Fault.Usage → IfSome (S.content store.old) (λ files. HasOtherWords files file.now (words_of words.now)) }
    ensures read_fault { result ≡ Err Fault.Read →
        Rose (S.reading_faults store.old file.now) (S.reading_faults store.new file.now) ⊎ Rose (I.faults input.old) (I.faults input.new) }
    ensures read_place { result ≡ Err Fault.Read →
        Rose (S.reading_faults store.old file.now) (S.reading_faults store.new file.now)
        ⊎ ReadsIn (S.content store.old) (Run file.now steps (words_of words.now) (I.content input.old)) }
    ensures input { ReadsIn (S.content store.old) (Run file.now steps (words_of words.now) (I.content input.old))
        ⊎ IsUntouched (I.content input.old) (I.content input.new) (I.faults input.old) (I.faults input.new) }
    ensures unchanged { S.content store.new ≡ S.content store.old }
{
    let program = program_of_file(alloc, store, file)?;
    let Some(args) = args_of(alloc, main_formals(&program), words)? else {
        return Err(Fault::Usage);
    };
    let bytes = input_of(alloc, &program, input)?;
    let served = run_program(alloc, &program, &args, bytes, steps)?;
    Ok(served)
}

/// Runs main of the program for which the file `file` stands for at most `steps` steps, over the words and the input.
pub(crate) fn run<S: Store, I: Source, O: Sink, E: Sink>(
    alloc: Global,
    file: &[u8],
    steps: u32,
    words: &[Vec<u8>],
    store: &mut S,
    input: &mut I,
    out: &mut O,
    errs: &mut E,
) -> u8
    ensures answered { IsSettled result → Answered (S.content store.old) (Run file.now steps (words_of words.now) (I.content input.old)) result
        (O.content out.old) (O.content out.new) (E.content errs.old) (E.content errs.new) (E.faults errs.old) (E.faults errs.new) }
    ensures ended { IsEnding result → RunAnswered (S.content store.old) (Run file.now steps (words_of words.now) (I.content input.old)) result
        (O.content out.old) (O.content out.new) (E.content errs.old) (E.content errs.new) }
    ensures exactly { IfSome (S.content store.old) (λ files. IsTold files (Run file.now steps (words_of words.now) (I.content input.old)) → (answer : Answer) →
        Answers (Some files) (Run file.now steps (words_of words.now) (I.content input.old)) answer → Becomes answer result (O.content out.old) (O.content out.new)) }
    ensures status { result ≤ 8 }
    ensures usage { result ≡ 2 → IsUsage (S.content store.old) (Run file.now steps (words_of words.now) (I.content input.old)) }
    ensures read_fault { result ≡ 5 → Rose (S.reading_faults store.old file.now) (S.reading_faults store.new file.now)
        ⊎ (ReadsIn (S.content store.old) (Run file.now steps (words_of words.now) (I.content input.old)) × Rose (I.faults input.old) (I.faults input.new)) }
    ensures write_fault { result ≡ 6 → Rose (O.faults out.old) (O.faults out.new) ⊎ Rose (E.faults errs.old) (E.faults errs.new) }
    ensures unchanged { S.content store.new ≡ S.content store.old }
    ensures input { ReadsIn (S.content store.old) (Run file.now steps (words_of words.now) (I.content input.old))
        ⊎ IsUntouched (I.content input.old) (I.content input.new) (I.faults input.old) (I.faults input.new) }
    ensures out { PrintsBy (Run file.now steps (words_of words.now) (I.content input.old)) result (O.content out.old) (O.content out.new) }
    ensures errs { RefusesBy (Run file.now steps (words_of words.now) (I.content input.old)) result (E.content errs.old) (E.content errs.new)
        (E.faults errs.old) (E.faults errs.new) }
{
    match run_file(alloc, store, input, file, steps, words) {
        Ok(served) => print_end(out, errs, &served),
        Err(fault) => report(alloc, errs, file, fault),
    }
}
