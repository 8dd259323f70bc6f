//! How a run ended: its status, its line, and what is printed.
ghost use Rattle.std.specs.Prelude.{◌≡◌, ◌++◌, codes, decimal, IfOk};
ghost use Rattle.cv_app.specs.Ends as spec;
ghost use Rattle.cv_app.specs.Sinks.{PrintedEnd};
ghost use Rattle.cv_app.specs.Texts.{line};

use crate::fault::{NO_MEMORY, refuse};
use crate::served::Served;
use cv_core::{ErrKind, Program};
use cv_io::{Sink, SinkError};
use cv_meaning::RunEnd;
use std::alloc::{AllocError, Global};

fn kind_name(kind: ErrKind) -> &'static str
    ensures { result.now ≡ spec.kind_name kind }
{
    match kind {
        ErrKind::Range => "Range",
        ErrKind::Null => "Null",
        ErrKind::Wild => "Wild",
        ErrKind::Dead => "Dead",
        ErrKind::Bounds => "Bounds",
        ErrKind::Terminator => "Terminator",
        ErrKind::Literal => "Literal",
        ErrKind::Modifies => "Modifies",
        ErrKind::Requires => "Requires",
        ErrKind::Ensures => "Ensures",
    }
}

/// The name of the procedure of this number, from 0; no bytes where there is none.
fn proc_name(program: &Program, number: u32) -> &[u8]
    ensures { result.now ≡ spec.proc_name program.now number }
{
    match program.procs.as_slice().get(number as usize) {
        Some(proc) => proc.name.as_slice(),
        None => &[],
    }
}

fn error_line(alloc: Global, kind: ErrKind, name: &[u8], number: u32) -> Result<Vec<u8>, AllocError>
    ensures { IfOk result (λ text. text.items ≡ codes "error " ++ spec.kind_name kind ++ codes " in " ++ name.now ++ codes " at line " ++ line (decimal number)) }
{
    let kind = kind_name(kind);
    let mut text = Vec::from_slice(alloc, format!(in alloc; "error {kind} in ")?.as_bytes())?;
    text.extend_from_slice(name)?;
    let place = format!(in alloc; " at line {number}\n")?;
    text.extend_from_slice(place.as_bytes())?;
    Ok(text)
}

/// The line that says how a run of at most `steps` steps ended.
pub(crate) fn end_line(
    alloc: Global,
    program: &Program,
    steps: u32,
    end: RunEnd,
) -> Result<Vec<u8>, AllocError>
    ensures { IfOk result (λ text. text.items ≡ spec.end_text program.now steps end) }
{
    match end {
        RunEnd::Returned(value) => {
            let text = format!(in alloc; "returned {value}\n")?;
            Ok(Vec::from_slice(alloc, text.as_bytes())?)
        }
        RunEnd::Error { kind, proc, line } => {
            let name = proc_name(program, proc);
            error_line(alloc, kind, name, line)
        }
        RunEnd::Stopped => {
            let text = format!(in alloc; "stopped after {steps} steps\n")?;
            Ok(Vec::from_slice(alloc, text.as_bytes())?)
        }
    }
}

/// The status of the program for the end of a run: 0 returned, 1 an error, 8 stopped.
pub(crate) fn end_status(end: RunEnd) -> u8
    ensures { result ≡ spec.end_status end }
{
    match end {
        RunEnd::Returned(_) => 0,
        RunEnd::Error { .. } => 1,
        RunEnd::Stopped => 8,
    }
}

/// Prints the output of a run, and then the line of its end on standard error. The status is that of the end, but 6 after
/// a fault and 7 for want of memory.
pub(crate) fn print_end<O: Sink, E: Sink>(out: &mut O, errs: &mut E, end: &Served) -> u8
    ensures { PrintedEnd end.now result (O.content out.old) (O.content out.new) (O.faults out.old) (O.faults out.new)
        (E.content errs.old) (E.content errs.new) (E.faults errs.old) (E.faults errs.new) }
{
    match out.write(end.out.as_slice()) {
        Ok(()) => match errs.write(end.errs.as_slice()) {
            Ok(()) => end.status,
            Err(SinkError::Failed) => 6,
            Err(SinkError::Memory) => 7,
        },
        Err(SinkError::Failed) => refuse(errs, 6, b"write fault\n"),
        Err(SinkError::Memory) => refuse(errs, 7, NO_MEMORY),
    }
}
