//! The command `check FILE CERT`.
ghost use Rattle.std.specs.Prelude.{◌≡◌, ◌≢◌, ◌≤◌, ◌⊎◌, length, IfOk, IfErr, IfSome, Some, Ok, Err, true};
ghost use Rattle.cv_io.specs.Counts.{Rose, NoneRose};
ghost use Rattle.cv_app.specs.declared.served.Served.{Served as Answer};
ghost use Rattle.cv_app.specs.Answers.{Answers, IsTold, LoadFailed, LoadsCert};
ghost use Rattle.cv_app.specs.Commands.{Check};
ghost use Rattle.cv_app.specs.Sinks.{IsSettled, Answered, Becomes, PrintsBy, RefusesBy};
ghost use Rattle.cv_app.specs.Check.{HasCleanProgram};
ghost use Rattle.cv_app.specs.Decided.{check_outcome};
ghost use Rattle.cv_app.specs.Programs.{Gives};
ghost use Rattle.cv_app.specs.Faults.{LoadRefused, UnlessHindered};
ghost use Rattle.cv_app.specs.Refusals.{MayRefuse};

use crate::answer::print;
use crate::fault::{Fault, report};
use crate::program::program_of_file;
use crate::unbuilt::built;
use cv_check::check_narrow;
use cv_core::LimitName;
use cv_io::{Sink, Store, StoreError};
use std::alloc::Global;

pub(crate) const FILE_LIMIT: u64 = 1048576;

const CERTIFICATE_LIMIT: u64 = 268435456;

/// Loads the bytes of a name, at most `limit` of them.
pub(crate) fn load<S: Store>(
    alloc: Global,
    store: &mut S,
    name: &[u8],
    limit: u64,
    which: LimitName,
) -> Result<Vec<u8>, Fault>
    ensures given { IfOk result (λ bytes. IfSome (S.content store.old) (λ files. Gives files name.now limit bytes.items)) }
    ensures within { IfOk result (λ bytes. length bytes.items ≤ limit) }
    ensures refused { IfErr result (LoadRefused (S.content store.old) name.now limit which
        (S.reading_faults store.old name.now) (S.reading_faults store.new name.now)) }
    ensures unchanged { S.content store.new ≡ S.content store.old }
    ensures quiet { result ≢ Err Fault.Read → NoneRose (S.reading_faults store.old) (S.reading_faults store.new) }
{
    match store.load(alloc, name, limit) {
        Ok(bytes) => Ok(bytes),
        Err(StoreError::Failed) => Err(Fault::Read),
        Err(StoreError::TooLong) => Err(Fault::Limit(which)),
        Err(StoreError::Memory) => Err(Fault::Memory),
    }
}

/// Decides what `check` answers, before anything is written.
fn decide<S: Store>(alloc: Global, store: &mut S, file: &[u8], cert: &[u8]) -> Result<bool, Fault>
    ensures answer { UnlessHindered result (Answers (S.content store.old) (Check file.now cert.now) (check_outcome file.now result)) }
    ensures clean { result ≡ Ok true → IfSome (S.content store.old) (λ files. HasCleanProgram files file.now) }
    ensures faults { IfErr result (MayRefuse (Check file.now cert.now)) }
    ensures read_fault { result ≡ Err Fault.Read →
        Rose (S.reading_faults store.old file.now) (S.reading_faults store.new file.now)
        ⊎ Rose (S.reading_faults store.old cert.now) (S.reading_faults store.new cert.now) }
    ensures read_place { result ≡ Err Fault.Read →
        Rose (S.reading_faults store.old file.now) (S.reading_faults store.new file.now) ⊎ LoadsCert (S.content store.old) file.now }
    ensures unchanged { S.content store.new ≡ S.content store.old }
{
    let program = program_of_file(alloc, store, file)?;
    if let Some(line) = built(&program) {
        return Err(Fault::NotBuilt { line });
    }
    let text = load(
        alloc,
        store,
        cert,
        CERTIFICATE_LIMIT,
        LimitName::Certificate,
    )?;
    let accepted = check_narrow(alloc, &program, &text)?;
    Ok(accepted)
}

/// Checks the certificate `cert` for the file `file`, and prints whether it is accepted.
pub(crate) fn check<S: Store, O: Sink, E: Sink>(
    alloc: Global,
    file: &[u8],
    cert: &[u8],
    store: &mut S,
    out: &mut O,
    errs: &mut E,
) -> u8
    ensures headline { result ≡ 0 → IfSome (S.content store.old) (λ files. HasCleanProgram files file.now) }
    ensures answered { IsSettled result → Answered (S.content store.old) (Check file.now cert.now) result
        (O.content out.old) (O.content out.new) (E.content errs.old) (E.content errs.new) (E.faults errs.old) (E.faults errs.new) }
    ensures exactly { IfSome (S.content store.old) (λ files. IsTold files (Check file.now cert.now) → (answer : Answer) →
        Answers (Some files) (Check file.now cert.now) answer → Becomes answer result (O.content out.old) (O.content out.new)) }
    ensures status { result ≤ 7 }
    ensures no_usage { result ≢ 2 }
    ensures read_fault { result ≡ 5 →
        LoadFailed (S.content store.old) (Check file.now cert.now) (S.reading_faults store.old) (S.reading_faults store.new) }
    ensures write_fault { result ≡ 6 → Rose (O.faults out.old) (O.faults out.new) }
    ensures unchanged { S.content store.new ≡ S.content store.old }
    ensures out { PrintsBy (Check file.now cert.now) result (O.content out.old) (O.content out.new) }
    ensures errs { RefusesBy (Check file.now cert.now) result (E.content errs.old) (E.content errs.new) (E.faults errs.old) (E.faults errs.new) }
{
    match decide(alloc, store, file, cert) {
        Ok(true) => print(out, errs, 0, b"accepted\n"),
        Ok(false) => print(out, errs, 1, b"rejected\n"),
        Err(fault) => report(alloc, errs, file, fault),
    }
}
