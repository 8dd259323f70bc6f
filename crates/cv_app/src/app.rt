//! The call that the program makes, and the same over devices in memory.
ghost use Rattle.std.specs.Prelude.{◌≡◌, ◌≢◌, ◌≤◌, ◌⊎◌, ℕ, List, [], ◌∷◌, codes, map, Some, IfOk, IfSome};
ghost use Rattle.cv_io.specs.Counts.{Rose};
ghost use Rattle.cv_app.specs.declared.served.Served.{Served as Answer};
ghost use Rattle.cv_app.specs.Answers.{Answers, IsTold, LoadFailed, ReadsIn, RunFailed, IsUsage};
ghost use Rattle.cv_app.specs.Check.{HasCleanProgram};
ghost use Rattle.cv_app.specs.Commands.{Unknown, IsRun, command_of, words_of};
ghost use Rattle.cv_app.specs.Sinks.{IsSettled, IsEnding, IsUntouched, Answered, RunAnswered, Becomes, ServedOf, PrintsBy, RefusesBy};

use crate::check::check;
use crate::fault::{Fault, report};
use crate::print_command::print_command;
use crate::request::{Request, request_of};
use crate::run::run;
use crate::served::Served;
use cv_io::{Sink, Source, SteadySink, SteadySource, Store};
use cv_list::Bytes;
use std::alloc::{AllocError, Global};

/// Does what the words ask for, over these devices, and answers the status of the program:
/// 0 accepted, printed, or the run returned, 1 rejected, or the run erred, 2 usage, 3 fault of the file, 4 limit,
/// 5 read fault, 6 write fault, 7 want of memory, 8 the run was stopped.
/// The words are those after the program's name, and may be any bytes.
pub fn cssv<S: Store, I: Source, O: Sink, E: Sink>(
    alloc: Global,
    words: &[Vec<u8>],
    store: &mut S,
    input: &mut I,
    out: &mut O,
    errs: &mut E,
) -> u8
    // Where the store tells its content, the words are `check FILE CERT` and the status is 0, FILE gives a program, and
    // that one alone, and it is clean: no run of it errs, whatever its start, input, fresh numbers and answers from outside.
    ensures headline { (file cert : List ℕ) → words_of words.now ≡ codes "check" ∷ file ∷ cert ∷ [] → result ≡ 0 →
        IfSome (S.content store.old) (λ files. HasCleanProgram files file) }

    // Where no fault and no want of memory came between, the status and the texts on both sinks are the command's answer.
    ensures answered { IsSettled result → Answered (S.content store.old) (command_of (I.content input.old) (words_of words.now)) result
        (O.content out.old) (O.content out.new) (E.content errs.old) (E.content errs.new) (E.faults errs.old) (E.faults errs.new) }

    // A run that was begun and ended or was stopped: its output and the line of its end are on the two sinks.
    ensures ended { IsRun (command_of (I.content input.old) (words_of words.now)) → IsEnding result →
        RunAnswered (S.content store.old) (command_of (I.content input.old) (words_of words.now)) result
        (O.content out.old) (O.content out.new) (E.content errs.old) (E.content errs.new) }

    // An answer of the command is given, but for faults and want of memory. Where `run` comes to read standard input, its
    // bytes have to be told.
    ensures exactly { IfSome (S.content store.old) (λ files. IsTold files (command_of (I.content input.old) (words_of words.now)) → (answer : Answer) →
        Answers (Some files) (command_of (I.content input.old) (words_of words.now)) answer → Becomes answer result (O.content out.old) (O.content out.new)) }
    ensures usage { command_of (I.content input.old) (words_of words.now) ≡ Unknown → (result ≡ 2) ⊎ (result ≡ 7) }
    ensures usage_only { result ≡ 2 → IsUsage (S.content store.old) (command_of (I.content input.old) (words_of words.now)) }

    // The statuses of faults come only where a device counted one in this call. Where the store tells its content, 5 comes
    // only at its place in the order of refusals: that of CERT after FILE gave a program that is treated, that of standard
    // input after FILE gave a program that reads it and the words were main's.
    ensures status { result ≤ 8 }
    ensures stopped { result ≡ 8 → IsRun (command_of (I.content input.old) (words_of words.now)) }
    ensures read_fault { result ≡ 5 →
        LoadFailed (S.content store.old) (command_of (I.content input.old) (words_of words.now)) (S.reading_faults store.old) (S.reading_faults store.new)
        ⊎ (ReadsIn (S.content store.old) (command_of (I.content input.old) (words_of words.now)) × Rose (I.faults input.old) (I.faults input.new)) }
    ensures write_fault { result ≡ 6 → Rose (O.faults out.old) (O.faults out.new)
        ⊎ RunFailed (command_of (I.content input.old) (words_of words.now)) (E.faults errs.old) (E.faults errs.new) }

    // What the devices hold afterwards. Standard input stays as it was, but where `run` comes to read it.
    ensures unchanged { S.content store.new ≡ S.content store.old }
    ensures input { ReadsIn (S.content store.old) (command_of (I.content input.old) (words_of words.now))
        ⊎ IsUntouched (I.content input.old) (I.content input.new) (I.faults input.old) (I.faults input.new) }
    ensures out { PrintsBy (command_of (I.content input.old) (words_of words.now)) result (O.content out.old) (O.content out.new) }
    ensures errs { RefusesBy (command_of (I.content input.old) (words_of words.now)) result (E.content errs.old) (E.content errs.new)
        (E.faults errs.old) (E.faults errs.new) }
{
    match request_of(words) {
        Request::Check { file, cert } => check(alloc, file, cert, store, out, errs),
        Request::Core { file } => print_command(alloc, file, store, out, errs),
        Request::Run { file, steps, args } => {
            run(alloc, file, steps, args, store, input, out, errs)
        }
        Request::Unknown => report(alloc, errs, &[], Fault::Usage),
    }
}

/// The same over devices in memory that never fail: what is read from standard input is `input`, and what is written
/// is given back. An error is want of memory before or after the call.
pub fn serve_words<S: Store>(
    alloc: Global,
    words: &[Vec<u8>],
    store: &mut S,
    input: &[u8],
) -> Result<Served, AllocError>
    // Where the store tells its content, the words are `check FILE CERT` and the status is 0, FILE gives a program, and
    // that one alone, and it is clean.
    ensures headline { IfOk result (λ served. (file cert : List ℕ) → words_of words.now ≡ codes "check" ∷ file ∷ cert ∷ [] →
        served.status ≡ 0 → IfSome (S.content store.old) (λ files. HasCleanProgram files file)) }

    // Where no load failed and memory sufficed, what is served is the command's answer.
    ensures answered { IfOk result (λ served. IsSettled served.status →
        Answers (S.content store.old) (command_of (Some input.now) (words_of words.now)) served) }

    // An answer of the command is served, but for faults of reading and want of memory.
    ensures exactly { IfOk result (λ served. IfSome (S.content store.old) (λ files. (answer : Answer) →
        Answers (Some files) (command_of (Some input.now) (words_of words.now)) answer → ServedOf answer served)) }
    ensures usage { IfOk result (λ served. command_of (Some input.now) (words_of words.now) ≡ Unknown → (served.status ≡ 2) ⊎ (served.status ≡ 7)) }
    ensures usage_only { IfOk result (λ served. served.status ≡ 2 → IsUsage (S.content store.old) (command_of (Some input.now) (words_of words.now))) }

    ensures status { IfOk result (λ served. served.status ≤ 8) }
    ensures stopped { IfOk result (λ served. served.status ≡ 8 → IsRun (command_of (Some input.now) (words_of words.now))) }
    ensures read_fault { IfOk result (λ served. served.status ≡ 5 →
        LoadFailed (S.content store.old) (command_of (Some input.now) (words_of words.now)) (S.reading_faults store.old) (S.reading_faults store.new)) }
    ensures no_write_fault { IfOk result (λ served. served.status ≢ 6) }

    ensures unchanged { S.content store.new ≡ S.content store.old }
    ensures out { IfOk result (λ served. PrintsBy (command_of (Some input.now) (words_of words.now)) served.status (Some []) (Some served.out)) }
    ensures errs { IfOk result (λ served. RefusesBy (command_of (Some input.now) (words_of words.now)) served.status (Some []) (Some served.errs) 0 0) }
{
    let mut source = SteadySource::new(Vec::from_slice(alloc, input)?);
    let mut out = SteadySink::new(alloc);
    let mut errs = SteadySink::new(alloc);
    let status = cssv(alloc, words, store, &mut source, &mut out, &mut errs);
    Ok(Served {
        status,
        out: Bytes::from_slice(alloc, out.bytes())?,
        errs: Bytes::from_slice(alloc, errs.bytes())?,
    })
}
