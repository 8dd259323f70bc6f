//! Reading programs.

ghost use Rattle.std.specs.Prelude.{◌≡◌, ◌↔◌, ◌<◌, ◌^◌, ◌-◌, [], true, length, IsTrue, IfOk, IfErr, MatchOption, None, Some};
ghost use Rattle.cv_core.specs.Grammar.{IsWritten};
ghost use Rattle.cv_core.specs.declared.program.Program.{Program};
ghost use Rattle.cv_reading.specs.Deep.{next_by};
ghost use Rattle.cv_text.specs.ProgramReader as spec;
ghost use Rattle.cv_text.specs.ContractReader as contracts;
ghost use Rattle.cv_text.specs.Given.{Gives, from};
ghost use Rattle.cv_text.specs.Nested.{GivesNested};
ghost use Rattle.cv_text.specs.Whole.{Spells};
ghost use Rattle.cv_text.specs.CoreText.{Answers, CausedBy};

use crate::contract::contract;
use crate::cursor::{LIMIT, ReadError, a_name, the_mark, the_word, value_within};
use crate::declarations::{answer, body, formals, globals, literals};
use crate::faults::{TextError, fault_at};
use crate::lexer::next_token;
use crate::nesting::NestedError;
use crate::token::{Key, Sign, Token};
use cv_core::{Bytes, Formal, GlobalDecl, List, Literal, Proc, Program, ResultKind};
use std::alloc::Global;

/// What stands between the line and the contract of a procedure.
#[derive(Debug, Drop)]
struct ProcHead {
    answer: ResultKind,
    name: Bytes,
    formals: List<Formal>,
}

#[tactic(auto, unfolding(crate::specs::ProgramReader::heading))]
fn heading(alloc: Global, text: &[u8], at: usize) -> Result<(ProcHead, usize), ReadError>
    ensures { Gives text.now (λ x. ((x.0.answer, (x.0.name, x.0.formals)), x.1)) result (spec.heading (from text.now at)) }
{
    let at = the_mark(text, at, Sign::Colon)?;
    let at = the_word(text, at, Key::Proc)?;
    let (answer, at) = answer(text, at)?;
    let (name, at) = a_name(alloc, text, at)?;
    let at = the_mark(text, at, Sign::Open)?;
    let (formals, at) = formals(alloc, text, at)?;
    Ok((
        ProcHead {
            answer,
            name,
            formals,
        },
        at,
    ))
}

/// What stands behind the line of a procedure.
#[tactic(auto, unfolding(crate::specs::ProgramReader::proc_rest, crate::specs::ProgramReader::contract_and_body))]
fn proc_rest(alloc: Global, text: &[u8], at: usize, line: u32) -> Result<(Proc, usize), NestedError>
    ensures { GivesNested text.now (λ x. (x.0, x.1)) result (spec.proc_rest contracts.contract line (from text.now at)) }
{
    let (heading, at) = heading(alloc, text, at)?;
    let (contract, at) = contract(alloc, text, at)?;
    let (body, at) = body(alloc, text, at, heading.formals.as_slice())?;
    let ProcHead {
        answer,
        name,
        formals,
    } = heading;
    Ok((
        Proc {
            line,
            answer,
            name,
            formals,
            contract,
            body,
        },
        at,
    ))
}

/// The line that stands next, and the place behind it; None where none does.
fn next_line(text: &[u8], at: usize) -> Option<(u32, usize)>
    ensures { MatchOption result (next_by spec.line_of (from text.now at) ≡ None) (λ x. next_by spec.line_of (from text.now at) ≡ Some (x.0, from text.now x.1)) }
{
    let next = next_token(text, at);
    match next.token {
        Some(Token::Digits(digits)) => match value_within(digits, 0, LIMIT) {
            Some(line) => Some((line, next.end)),
            None => None,
        },
        _ => None,
    }
}

/// The procedures that stand next, and the place behind them.
#[tactic(auto, unfolding(crate::specs::ProgramReader::procs, crate::specs::ProgramReader::procs_onto))]
fn procs(alloc: Global, text: &[u8], at: usize) -> Result<(List<Proc>, usize), NestedError>
    ensures { GivesNested text.now (λ x. (x.0, x.1)) result (spec.procs contracts.contract (from text.now at)) }
{
    let mut procs = List::new(alloc);
    let mut here = at;
    loop {
        let Some((line, behind)) = next_line(text, here) else {
            return Ok((procs, here));
        };
        let (proc, after) = proc_rest(alloc, text, behind, line)?;
        procs.push(proc)?;
        here = after;
    }
}

/// The three lists of a program, whatever they hold.
#[derive(Debug, Drop)]
struct Parts {
    globals: List<GlobalDecl>,
    literals: List<Literal>,
    procs: List<Proc>,
}

#[tactic(auto, unfolding(crate::specs::ProgramReader::program))]
fn all_parts(alloc: Global, text: &[u8]) -> Result<(Parts, usize), NestedError>
    ensures { GivesNested text.now (λ x. ((x.0.globals, (x.0.literals, x.0.procs)), x.1)) result (spec.program contracts.contract (from text.now 0)) }
{
    let (globals, at) = globals(alloc, text, 0)?;
    let (literals, at) = literals(alloc, text, at)?;
    let (procs, at) = procs(alloc, text, at)?;
    Ok((
        Parts {
            globals,
            literals,
            procs,
        },
        at,
    ))
}

fn is_at_end(text: &[u8], at: usize) -> bool
    ensures { IsTrue result ↔ (from text.now at ≡ []) }
{
    next_token(text, at).token.is_none()
}

fn program_of(parts: Parts) -> Program
    requires { IsWritten (spec.program_of (parts.globals, (parts.literals, parts.procs))) }
    ensures { result ≡ spec.program_of (parts.globals, (parts.literals, parts.procs)) }
{
    let Parts {
        globals,
        literals,
        procs,
    } = parts;
    Program {
        globals,
        literals,
        procs,
    }
}

/// The program that a CoreC text of at most 4294967294 bytes spells. Errors: the first fault of the text with its line, a level of
/// a contract too many in front of it, and want of memory.
pub fn read_core(alloc: Global, text: &[u8]) -> Result<Program, TextError>
    requires { length text.now < 2 ^ 32 - 1 }
    // What is given is spelled by the text, within the levels that a text may open.
    ensures spelled { IfOk result (λ p. Spells text.now p × (spec.is_within p ≡ true)) }
    // What the text spells within the levels is given, or memory is wanting.
    ensures only { (p : Program) → Spells text.now p → spec.is_within p ≡ true → Answers p result }
    // Each error has its cause: the first fault, or the level too many.
    ensures cause { IfErr result (λ e. CausedBy text.now e) }
{
    let (parts, at) = match all_parts(alloc, text) {
        Ok(found) => found,
        Err(NestedError::Memory) => return Err(TextError::Memory),
        Err(NestedError::Nesting(_)) => return Err(TextError::Nesting),
        Err(NestedError::Fault(at)) => return Err(TextError::Fault(fault_at(text, at))),
    };
    if !is_at_end(text, at) {
        return Err(TextError::Fault(fault_at(text, at)));
    }
    let program = program_of(parts);
    Ok(program)
}
