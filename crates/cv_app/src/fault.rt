//! Why a command answers nothing, and the lines that say so.
ghost use Rattle.std.specs.Prelude.{◌≡◌, ◌≢◌, ◌⊎◌, List, ℕ, IfOk};
ghost use Rattle.cv_io.specs.Streams.{AppendsPrefix};
ghost use Rattle.cv_app.specs.declared.fault.Fault.TheVariants.{Memory as memory};
ghost use Rattle.cv_app.specs.Faults.{refusal_of};
ghost use Rattle.cv_app.specs.Served.{refused};
ghost use Rattle.cv_app.specs.Sinks.{Writes, Reported};
ghost use Rattle.cv_app.specs.Texts as spec;

use cv_core::{LimitName, ShapeFault, ShapeRule};
use cv_io::{Sink, SinkError};
use std::alloc::{AllocError, Global};
use thiserror::Error;

const USAGE: &[u8] =
    b"usage: cssv verify FILE CERT, check FILE CERT, run FILE STEPS ARG.., core FILE, report FILE, gen N\n";

pub(crate) const NO_MEMORY: &[u8] = b"no memory\n";

/// Why a command answers nothing.
#[derive(Clone, Copy, Debug, PartialEq, Eq, Error)]
pub enum Fault {
    /// The words are those of no command.
    #[error("usage")]
    Usage,
    /// The file is no program that is treated yet, as is seen at this line, from 1.
    #[error("not built at line {line}")]
    NotBuilt { line: u32 },
    /// The first fault of the text of the file is on this line, from 1.
    #[error("fault text at line {line}")]
    Text { line: u32 },
    /// A limit is passed: by the bytes of the file, of the certificate or of the input, by the levels of a contract, or by
    /// a count of the program.
    #[error("limit")]
    Limit(LimitName),
    /// A fault of shape stands in the program of the file.
    #[error("fault of shape")]
    Shape(ShapeFault),
    /// A load failed, or a read of the input.
    #[error("read fault")]
    Read,
    /// Want of memory.
    #[error("no memory")]
    Memory,
}

impl From<AllocError> for Fault {
    ghost from_gives = { λ _ e. e ≡ memory };

    fn from(_: AllocError) -> Fault {
        Fault::Memory
    }
}

/// The line of a file that has a fault of this name on a line.
fn fault_line(alloc: Global, file: &[u8], number: u32, name: &[u8]) -> Result<Vec<u8>, AllocError>
    ensures { IfOk result (λ text. text.items ≡ spec.fault_text file.now number name.now) }
{
    let mut text = Vec::from_slice(alloc, file)?;
    let place = format!(in alloc; ":{number}: fault ")?;
    text.extend_from_slice(place.as_bytes())?;
    text.extend_from_slice(name)?;
    text.push(b'\n')?;
    Ok(text)
}

fn rule_name(rule: ShapeRule) -> &'static [u8]
    ensures { result.now ≡ spec.rule_name rule }
{
    match rule {
        ShapeRule::DoubleName => b"DoubleName",
        ShapeRule::UnknownName => b"UnknownName",
        ShapeRule::KindMismatch => b"KindMismatch",
        ShapeRule::ArgumentCount => b"ArgumentCount",
        ShapeRule::JumpOutOfRange => b"JumpOutOfRange",
        ShapeRule::NoReturn => b"NoReturn",
        ShapeRule::UnlistedGlobal => b"UnlistedGlobal",
        ShapeRule::MainForm => b"MainForm",
        ShapeRule::ExternForm => b"ExternForm",
        ShapeRule::ContractForm => b"ContractForm",
        ShapeRule::NoMain => b"NoMain",
    }
}

/// The line of a limit that is passed: its name and its value.
fn limit_line(which: LimitName) -> &'static [u8]
    ensures { result.now ≡ spec.limit_text which }
{
    match which {
        LimitName::Procedures => b"limit procedures 256\n",
        LimitName::Globals => b"limit globals 256\n",
        LimitName::Literals => b"limit literals 1024\n",
        LimitName::Literal => b"limit literal 4096\n",
        LimitName::Formals => b"limit formals 8\n",
        LimitName::Locals => b"limit locals 200\n",
        LimitName::Statements => b"limit statements 1000\n",
        LimitName::Atoms => b"limit atoms 16\n",
        LimitName::Parts => b"limit parts 12\n",
        LimitName::Alternatives => b"limit alternatives 8\n",
        LimitName::File => b"limit file 1048576\n",
        LimitName::Certificate => b"limit certificate 268435456\n",
        LimitName::Input => b"limit input 1048576\n",
        LimitName::Nesting => b"limit nesting 100\n",
        LimitName::Cases => b"limit cases 64\n",
        LimitName::Variables => b"limit variables 200\n",
        LimitName::Transitions => b"limit transitions 256\n",
        LimitName::Templates => b"limit templates 2500\n",
    }
}

/// Writes a line to standard error. The status is the line's, also where the write fails, but 7 for want of memory.
pub(crate) fn refuse<E: Sink>(errs: &mut E, status: u8, text: &[u8]) -> u8
    ensures status { (result ≡ status) ⊎ (result ≡ 7) }
    ensures whole { result ≢ 7 → Writes (E.content errs.old) text.now (E.content errs.new) (E.faults errs.old) (E.faults errs.new) }
    ensures front { AppendsPrefix (E.content errs.old) text.now (E.content errs.new) }
{
    match errs.write(text) {
        Ok(()) | Err(SinkError::Failed) => status,
        Err(SinkError::Memory) => 7,
    }
}

/// Says on standard error that a file has a fault of this name on a line.
fn report_fault<E: Sink>(alloc: Global, errs: &mut E, file: &[u8], number: u32, name: &[u8]) -> u8
    ensures { Reported (refused 3 (spec.fault_text file.now number name.now)) result (E.content errs.old) (E.content errs.new)
        (E.faults errs.old) (E.faults errs.new) }
{
    match fault_line(alloc, file, number, name) {
        Ok(text) => refuse(errs, 3, &text),
        Err(_) => refuse(errs, 7, NO_MEMORY),
    }
}

/// Says on standard error why a command answers nothing.
pub(crate) fn report<E: Sink>(alloc: Global, errs: &mut E, file: &[u8], fault: Fault) -> u8
    ensures { Reported (refusal_of file.now fault) result (E.content errs.old) (E.content errs.new) (E.faults errs.old)
        (E.faults errs.new) }
{
    match fault {
        Fault::Usage => refuse(errs, 2, USAGE),
        Fault::NotBuilt { line } => report_fault(alloc, errs, file, line, b"NotBuilt"),
        Fault::Text { line } => report_fault(alloc, errs, file, line, b"text"),
        Fault::Shape(found) => report_fault(alloc, errs, file, found.line, rule_name(found.rule)),
        Fault::Limit(which) => refuse(errs, 4, limit_line(which)),
        Fault::Read => refuse(errs, 5, b"read fault\n"),
        Fault::Memory => refuse(errs, 7, NO_MEMORY),
    }
}
