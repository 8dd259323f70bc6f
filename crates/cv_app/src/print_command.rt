//! The command `core FILE`.
ghost use Rattle.std.specs.Prelude.{◌≡◌, ◌≢◌, ◌≤◌, IfOk, IfErr, IfSome, Some, Err};
ghost use Rattle.cv_core.specs.declared.program.Program.{Program as Tree};
ghost use Rattle.cv_text.specs.Printed.{program_text};
ghost use Rattle.cv_io.specs.Counts.{Rose};
ghost use Rattle.cv_app.specs.declared.served.Served.{Served as Answer};
ghost use Rattle.cv_app.specs.Answers.{Answers, IsTold, LoadFailed};
ghost use Rattle.cv_app.specs.Commands.{Core};
ghost use Rattle.cv_app.specs.Faults.{UnlessHindered};
ghost use Rattle.cv_app.specs.Decided.{core_outcome};
ghost use Rattle.cv_app.specs.Refusals.{IsFileFault};
ghost use Rattle.cv_app.specs.Sinks.{IsSettled, Answered, Becomes, PrintsBy, RefusesBy};

use crate::answer::print;
use crate::fault::{Fault, report};
use crate::program::program_of_file;
use cv_io::{Sink, Store};
use cv_text::print_core;
use std::alloc::Global;

/// The printed text of the program for which a file stands.
fn printed_of<S: Store>(alloc: Global, store: &mut S, file: &[u8]) -> Result<Vec<u8>, Fault>
    ensures answer { UnlessHindered result (Answers (S.content store.old) (Core file.now) (core_outcome file.now result)) }
    ensures text { IfOk result (λ text. (p : Tree) × (text.items ≡ program_text p)) }
    ensures faults { IfErr result IsFileFault }
    ensures read_fault { result ≡ Err Fault.Read → Rose (S.reading_faults store.old file.now) (S.reading_faults store.new file.now) }
    ensures unchanged { S.content store.new ≡ S.content store.old }
{
    let program = program_of_file(alloc, store, file)?;
    let text = print_core(alloc, &program)?;
    Ok(text)
}

/// Prints the program for which the file `file` stands in its one printed form.
pub(crate) fn print_command<S: Store, O: Sink, E: Sink>(
    alloc: Global,
    file: &[u8],
    store: &mut S,
    out: &mut O,
    errs: &mut E,
) -> u8
    ensures answered { IsSettled result → Answered (S.content store.old) (Core file.now) result
        (O.content out.old) (O.content out.new) (E.content errs.old) (E.content errs.new) (E.faults errs.old) (E.faults errs.new) }
    ensures exactly { IfSome (S.content store.old) (λ files. IsTold files (Core file.now) → (answer : Answer) →
        Answers (Some files) (Core file.now) answer → Becomes answer result (O.content out.old) (O.content out.new)) }
    ensures status { result ≤ 7 }
    ensures no_usage { result ≢ 2 }
    ensures read_fault { result ≡ 5 → LoadFailed (S.content store.old) (Core file.now) (S.reading_faults store.old) (S.reading_faults store.new) }
    ensures write_fault { result ≡ 6 → Rose (O.faults out.old) (O.faults out.new) }
    ensures unchanged { S.content store.new ≡ S.content store.old }
    ensures out { PrintsBy (Core file.now) result (O.content out.old) (O.content out.new) }
    ensures errs { RefusesBy (Core file.now) result (E.content errs.old) (E.content errs.new) (E.faults errs.old) (E.faults errs.new) }
{
    match printed_of(alloc, store, file) {
        Ok(text) => print(out, errs, 0, &text),
        Err(fault) => report(alloc, errs, file, fault),
    }
}
