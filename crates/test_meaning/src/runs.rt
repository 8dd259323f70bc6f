//! Runs of small programs.
ghost use Rattle.std.specs.Prelude.{All, IfOk};
ghost use Rattle.cv_interp.specs.Start.{HasFewBytes};

use cv_core::{Bytes, ErrKind, List, Program, check_limits, check_shape};
use cv_interp::{Arg, Machine, RunEnd, StartError, Turn};
use cv_meaning::World;
use cv_text::read_core;
use std::alloc::{AllocError, Global};
use std::test::Fail;

// ---- programs

const SEVEN: &str = "1: proc int main() { 10: return 7; }";

const ENDLESS: &str = "1: proc int main() { 10: goto 0; }";

/// Writes a byte, and then reads through null.
const NULL_READ: &str = "1: proc int main() { ptr p; int x;
    10: call putchar(321); 11: p = null; 12: x = load p; 13: return 0; }";

/// Returns a byte of the input.
const ONE_BYTE: &str = "1: proc int main() { int x; 10: x = call getchar(); 11: return x; }";

/// Stores into a buffer of one byte, which it makes.
const ONE_STORE: &str = "1: proc int main() { ptr p;
    10: p = call malloc(1); 11: store p, 5; 12: return 3; }";

const CALLS_ITSELF: &str = "1: proc void f() { 10: call f(); 11: return; }
    1: proc int main() { 10: call f(); 11: return 0; }";

/// f returns its own buffer.
const OWN_BUFFER: &str = "1: proc ptr f() { buf b 4; ptr p; 10: p = &b; 11: return p; }
    1: proc int main() { 10: call f(); 11: return 0; }";

/// Returns the first byte of its argument.
const FIRST_BYTE: &str = "1: proc int main(ptr s) { char x; 10: x = load s; 11: return x; }";

// ---- machines

/// What main is given.
#[derive(Clone, Copy, Debug)]
enum Given {
    Nothing,
    Int(i32),
    Text(&'static str),
}

fn args_of(alloc: Global, given: Given) -> Result<Vec<Arg>, Fail>
    ensures { IfOk result (λ args. All HasFewBytes args.items) }
{
    match given {
        Given::Nothing => Ok(vec![in alloc]?),
        Given::Int(z) => Ok(vec![in alloc; Arg::Int(z)]?),
        Given::Text(text) => {
            if text.len() > 1048576 {
                return Err(Fail::from("a long argument"));
            }
            let bytes = Bytes::from_slice(alloc, text.as_bytes())?;
            Ok(vec![in alloc; Arg::Text(bytes)]?)
        }
    }
}

/// The world with this input, in which each allocation succeeds but those for which there is a false.
fn world(alloc: Global, input: &str, allocations: &[bool]) -> Result<World, AllocError> {
    Ok(World {
        input: Bytes::from_slice(alloc, input.as_bytes())?,
        fresh: List::new(alloc),
        allocations: List::from_slice(alloc, allocations)?,
        answers: List::new(alloc),
    })
}

fn program(alloc: Global, text: &str) -> Result<Program, Fail> {
    if text.len() > 65536 {
        return Err(Fail::from("a long text"));
    }
    match read_core(alloc, text.as_bytes()) {
        Ok(p) => Ok(p),
        Err(_) => Err(Fail::from("no program")),
    }
}

/// A machine for a program that is well formed and within its limits.
fn machine<'a>(
    alloc: Global,
    p: &'a Program,
    args: &[Arg],
    world: World,
) -> Result<Machine<'a>, StartError>
    requires { All HasFewBytes args.now }
{
    let Ok(()) = check_shape(alloc, p) else {
        return Err(StartError::Memory);
    };
    let Ok(()) = check_limits(p) else {
        return Err(StartError::Memory);
    };
    Machine::start(alloc, p, args, world)
}

fn started<'a>(
    alloc: Global,
    p: &'a Program,
    given: Given,
    world: World,
) -> Result<Result<Machine<'a>, StartError>, Fail> {
    let args = args_of(alloc, given)?;
    Ok(machine(alloc, p, &args, world))
}

fn ended(m: &mut Machine, steps: u64) -> Result<RunEnd, AllocError> {
    m.run(steps)
}

fn turned(m: &mut Machine) -> Result<Turn, AllocError> {
    m.step()
}

fn has_printed(m: &Machine, text: &str) -> bool {
    m.output() == text.as_bytes()
}

// ---- how runs end

const NULL_LOADED: RunEnd = RunEnd::Error {
    kind: ErrKind::Null,
    proc: 0,
    line: 12,
};

const NULL_STORED: RunEnd = RunEnd::Error {
    kind: ErrKind::Null,
    proc: 0,
    line: 11,
};

const DEAD_RETURNED: RunEnd = RunEnd::Error {
    kind: ErrKind::Dead,
    proc: 0,
    line: 11,
};

/// A program, what it is given, its input, and which allocations succeed; then its end within so many
/// steps and within nine more, and what it writes.
struct Run {
    text: &'static str,
    given: Given,
    input: &'static str,
    allocations: &'static [bool],
    steps: u64,
    ends: [RunEnd; 2],
    output: &'static str,
}

const RUNS: [Run; 10] = [
    // no step is taken
    Run {
        text: SEVEN,
        given: Given::Nothing,
        input: "",
        allocations: &[],
        steps: 0,
        ends: [RunEnd::Stopped, RunEnd::Returned(7)],
        output: "",
    },
    Run {
        text: ENDLESS,
        given: Given::Nothing,
        input: "",
        allocations: &[],
        steps: 1000,
        ends: [RunEnd::Stopped, RunEnd::Stopped],
        output: "",
    },
    Run {
        text: NULL_READ,
        given: Given::Nothing,
        input: "",
        allocations: &[],
        steps: 3,
        ends: [NULL_LOADED, NULL_LOADED],
        output: "A",
    },
    // the input has ended
    Run {
        text: ONE_BYTE,
        given: Given::Nothing,
        input: "",
        allocations: &[],
        steps: 9,
        ends: [RunEnd::Returned(-1), RunEnd::Returned(-1)],
        output: "",
    },
    Run {
        text: ONE_BYTE,
        given: Given::Nothing,
        input: "BA",
        allocations: &[],
        steps: 9,
        ends: [RunEnd::Returned(66), RunEnd::Returned(66)],
        output: "",
    },
    Run {
        text: ONE_STORE,
        given: Given::Nothing,
        input: "",
        allocations: &[],
        steps: 9,
        ends: [RunEnd::Returned(3), RunEnd::Returned(3)],
        output: "",
    },
    Run {
        text: ONE_STORE,
        given: Given::Nothing,
        input: "",
        allocations: &[false],
        steps: 9,
        ends: [NULL_STORED, NULL_STORED],
        output: "",
    },
    Run {
        text: CALLS_ITSELF,
        given: Given::Nothing,
        input: "",
        allocations: &[],
        steps: 50,
        ends: [RunEnd::Stopped, RunEnd::Stopped],
        output: "",
    },
    Run {
        text: OWN_BUFFER,
        given: Given::Nothing,
        input: "",
        allocations: &[],
        steps: 50,
        ends: [DEAD_RETURNED, DEAD_RETURNED],
        output: "",
    },
    // an empty text has its zero byte
    Run {
        text: FIRST_BYTE,
        given: Given::Text(""),
        input: "",
        allocations: &[],
        steps: 2,
        ends: [RunEnd::Returned(0), RunEnd::Returned(0)],
        output: "",
    },
];

/// Whether a run ends as its row says.
fn is_as_said(alloc: Global, row: &Run) -> Result<bool, Fail> {
    let p = program(alloc, row.text)?;
    let world = world(alloc, row.input, row.allocations)?;
    let mut m = started(alloc, &p, row.given, world)??;
    let ends = [ended(&mut m, row.steps)?, ended(&mut m, 9)?];
    Ok(ends == row.ends && has_printed(&m, row.output))
}

#[test]
fn runs_end_and_stay_ended(rt: HostRuntime) -> Result<(), Fail> {
    for row in &RUNS {
        assert!(rt; is_as_said(rt.alloc(), row)?, "{}", row.text);
    }
    Ok(())
}

/// A program, and what its first two steps lead to.
const TURNS: [(&str, Turn, Turn); 2] = [
    (SEVEN, Turn::Returned(7), Turn::Returned(7)),
    (ENDLESS, Turn::On, Turn::On),
];

fn first_turns(alloc: Global, text: &str) -> Result<(Turn, Turn), Fail> {
    let p = program(alloc, text)?;
    let world = world(alloc, "", &[])?;
    let mut m = started(alloc, &p, Given::Nothing, world)??;
    let first = turned(&mut m)?;
    Ok((first, turned(&mut m)?))
}

#[test]
fn steps_lead_on_or_to_the_end(rt: HostRuntime) -> Result<(), Fail> {
    for (text, first, second) in &TURNS {
        assert_eq!(rt; first_turns(rt.alloc(), text)?, (*first, *second), "{text}");
    }
    Ok(())
}

/// Whether a program can't be started, since these are no arguments of main.
fn is_refused(alloc: Global, text: &str, given: Given) -> Result<bool, Fail> {
    let p = program(alloc, text)?;
    let world = world(alloc, "", &[])?;
    match started(alloc, &p, given, world)? {
        Err(StartError::Args) => Ok(true),
        Err(StartError::Memory) => Err(Fail::from("out of memory")),
        Ok(_) => Ok(false),
    }
}

/// What a main with one text is given, and whether that is refused.
const ARGUMENTS: [(Given, bool); 3] = [
    (Given::Int(0), true),
    (Given::Nothing, true),
    (Given::Text(""), false),
];

#[test]
fn arguments_are_mains(rt: HostRuntime) -> Result<(), Fail> {
    for (given, expected) in &ARGUMENTS {
        let found = is_refused(rt.alloc(), FIRST_BYTE, *given)?;
        assert_eq!(rt; found, *expected, "{given:?}");
    }
    Ok(())
}
