//! Which program a file stands for.
ghost use Rattle.std.specs.Prelude.{◌≡◌, ◌≢◌, ◌<◌, ◌^◌, ◌-◌, ℕ, List, length, IfOk, IfErr, IfSome, None, Err};
ghost use Rattle.cv_core.specs.Limits.{first_limit};
ghost use Rattle.cv_core.specs.WellFormed.{IsSoundProgram};
ghost use Rattle.cv_io.specs.Counts.{Rose, NoneRose};
ghost use Rattle.cv_text.specs.Readings.{IsReading};
ghost use Rattle.cv_app.specs.Faults.{UnlessHindered};
ghost use Rattle.cv_app.specs.Refusals.{IsFileFault};
ghost use Rattle.cv_app.specs.Programs.{by_limit, BytesGive, FileGives};
ghost use Rattle.cv_app.specs.Decided.{IsTextFault, reading_of, outcome_of};

use crate::check::{FILE_LIMIT, load};
use crate::fault::Fault;
use cv_core::{LimitName, Program, ShapeError, check_limits, check_shape};
use cv_io::Store;
use cv_text::{TextError, read_core};
use std::alloc::Global;

/// The program of a text of at most 4294967294 bytes.
fn read_text(alloc: Global, bytes: &[u8]) -> Result<Program, Fault>
    requires { length bytes.now < 2 ^ 32 - 1 }
    ensures read { UnlessHindered result (IsReading bytes.now (reading_of result)) }
    ensures faults { IfErr result IsTextFault }
{
    match read_core(alloc, bytes) {
        Ok(program) => Ok(program),
        Err(TextError::Fault(fault)) => Err(Fault::Text { line: fault.line }),
        Err(TextError::Nesting) => Err(Fault::Limit(LimitName::Nesting)),
        Err(TextError::Memory) => Err(Fault::Memory),
    }
}

/// The program, where it passes no limit and is well formed.
fn tested(alloc: Global, program: Program) -> Result<Program, Fault>
    ensures tested { (name : List ℕ) → UnlessHindered result (outcome_of name result ≡ by_limit name program (first_limit program)) }
    ensures within { IfOk result (λ p. first_limit p ≡ None) }
    ensures formed { IfOk result IsSoundProgram }
    ensures faults { IfErr result IsFileFault }
    ensures no_read_fault { result ≢ Err Fault.Read }
{
    if let Err(limit) = check_limits(&program) {
        return Err(Fault::Limit(limit.which));
    }
    match check_shape(alloc, &program) {
        Ok(()) => Ok(program),
        Err(ShapeError::Fault(fault)) => Err(Fault::Shape(fault)),
        Err(ShapeError::Memory) => Err(Fault::Memory),
    }
}

/// The program for which the bytes of a file of this name stand.
fn program_of_bytes(alloc: Global, name: &[u8], bytes: &[u8]) -> Result<Program, Fault>
    requires { length bytes.now < 2 ^ 32 - 1 }
    ensures given { UnlessHindered result (BytesGive name.now bytes.now (outcome_of name.now result)) }
    ensures within { IfOk result (λ p. first_limit p ≡ None) }
    ensures formed { IfOk result IsSoundProgram }
    ensures faults { IfErr result IsFileFault }
    ensures no_read_fault { result ≢ Err Fault.Read }
{
    if name.ends_with(b".c") {
        return Err(Fault::NotBuilt { line: 1 });
    }
    let program = read_text(alloc, bytes)?;
    tested(alloc, program)
}

/// The program for which a file stands: its text is loaded and read, and its limits and its shape are tested.
pub(crate) fn program_of_file<S: Store>(
    alloc: Global,
    store: &mut S,
    file: &[u8],
) -> Result<Program, Fault>
    ensures found { UnlessHindered result (IfSome (S.content store.old) (λ files. FileGives files file.now (outcome_of file.now result))) }
    ensures within { IfOk result (λ p. first_limit p ≡ None) }
    ensures formed { IfOk result IsSoundProgram }
    ensures faults { IfErr result IsFileFault }
    ensures read_fault { result ≡ Err Fault.Read → Rose (S.reading_faults store.old file.now) (S.reading_faults store.new file.now) }
    ensures unchanged { S.content store.new ≡ S.content store.old }
    ensures quiet { result ≢ Err Fault.Read → NoneRose (S.reading_faults store.old) (S.reading_faults store.new) }
{
    let bytes = load(alloc, store, file, FILE_LIMIT, LimitName::File)?;
    program_of_bytes(alloc, file, &bytes)
}
