//! What `run` answers.

use crate::programs::{
    AFTER, BAD, DOWN, ECHO, FIRST, INC, LENGTH, MAKE, PAST, SCAN, SKIP, TEXT, WRITE_AT,
};
use crate::serving::{Failing, STRAIGHT, Said, USAGE, says, says_failing, words_of};
use std::alloc::{AllocError, Global};
use std::process::Abort;
use std::test::Fail;

/// A program, the words after its file, the status, and the line on standard error.
const RUNS: &[(&str, &[&str], u8, &str)] = &[
    (STRAIGHT, &["4"], 0, "returned 0\n"),
    (STRAIGHT, &["3"], 8, "stopped after 3 steps\n"),
    (STRAIGHT, &["0"], 8, "stopped after 0 steps\n"),
    (STRAIGHT, &["1000000000"], 0, "returned 0\n"),
    (DOWN, &["100"], 0, "returned 0\n"),
    (INC, &["100", "9"], 0, "returned 10\n"),
    (INC, &["0", "10"], 1, "error Requires in main at line 1\n"),
    (TEXT, &["100", "abc"], 0, "returned 3\n"),
];

/// The same for programs that read and write memory, some of them where there is none.
const ERRORS: &[(&str, &[&str], u8, &str)] = &[
    (WRITE_AT, &["100", "3"], 0, "returned 0\n"),
    (
        WRITE_AT,
        &["100", "4"],
        1,
        "error Bounds in main at line 3\n",
    ),
    (SKIP, &["100", "4"], 0, "returned 0\n"),
    (
        SKIP,
        &["100", "5"],
        1,
        "error Requires in main at line 16\n",
    ),
    (SCAN, &["100", "ab"], 0, "returned 0\n"),
    (LENGTH, &["100"], 0, "returned 3\n"),
    (AFTER, &["100"], 1, "error Terminator in main at line 6\n"),
    (BAD, &["100"], 1, "error Dead in bad at line 3\n"),
    (MAKE, &["100", "0"], 1, "error Bounds in main at line 4\n"),
    (
        MAKE,
        &["100", "-1"],
        1,
        "error Requires in main at line 2\n",
    ),
    (MAKE, &["100", "1"], 0, "returned 0\n"),
    (MAKE, &["100", "100000"], 0, "returned 0\n"),
];

/// The same for words that no run of the program takes, and for faults of the file.
const REFUSED: &[(&str, &[&str], u8, &str)] = &[
    (INC, &[""], 2, USAGE),
    (INC, &["x"], 2, USAGE),
    (INC, &["-1"], 2, USAGE),
    (INC, &["1000000001"], 2, USAGE),
    (INC, &["9"], 2, USAGE),
    (INC, &["9", "2147483648"], 2, USAGE),
    (INC, &["9", "+1"], 2, USAGE),
    (
        "1: proc int main( {",
        &["1", "x"],
        3,
        "a.core:1: fault text\n",
    ),
    (
        "1: proc int f() { 2: return 0; }",
        &["1", "x"],
        3,
        "a.core:1: fault NoMain\n",
    ),
];

/// A program, its input, and what is said.
const INPUTS: &[(&str, &str, Said<'_>)] = &[
    (ECHO, "hey", (0, "hey", "returned -1\n")),
    (ECHO, "", (0, "", "returned -1\n")),
    (PAST, "", (1, "ok", "error Bounds in main at line 6\n")),
];

/// How many bytes the word of the run has, and what is said.
const LENGTHS: &[(usize, Said<'_>)] = &[
    (0, (0, "", "returned 0\n")),
    (1048576, (0, "", "returned 97\n")),
    (1048577, (2, "", USAGE)),
];

/// The calls of standard output, of standard error and of standard input that fail, and what is
/// said.
const FAILING: &[(&[u64], &[u64], &[u64], Said<'_>)] = &[
    (&[0], &[], &[], (6, "", "write fault\n")),
    (&[], &[0], &[], (6, "x", "")),
    (&[], &[], &[1], (5, "", "read fault\n")),
];

/// `run a.core` with each row's words after it is answered so.
fn run_all(
    rt: &impl Abort,
    alloc: Global,
    table: &[(&str, &[&str], u8, &str)],
) -> Result<(), AllocError> {
    for (text, more, status, line) in table {
        let mut words = words_of(alloc, &["run", "a.core"])?;
        for word in *more {
            words.push(Vec::from_slice(alloc, word.as_bytes())?)?;
        }
        let files = [("a.core", text.as_bytes())];
        says(rt, alloc, &words, &files, b"", (*status, "", line))?;
    }
    Ok(())
}

#[test]
fn runs_end_as_defined(rt: HostRuntime) -> Result<(), Fail> {
    Ok(run_all(&rt, rt.alloc(), RUNS)?)
}

#[test]
fn errors_of_memory_are_named(rt: HostRuntime) -> Result<(), Fail> {
    Ok(run_all(&rt, rt.alloc(), ERRORS)?)
}

#[test]
fn other_words_and_faults_are_refused(rt: HostRuntime) -> Result<(), Fail> {
    run_all(&rt, rt.alloc(), REFUSED)?;
    let words = words_of(rt.alloc(), &["run", "b.core", "1", "x"])?;
    let files = [("a.core", STRAIGHT.as_bytes())];
    says(
        &rt,
        rt.alloc(),
        &words,
        &files,
        b"",
        (5, "", "read fault\n"),
    )?;
    Ok(())
}

#[test]
fn input_is_read_and_output_printed(rt: HostRuntime) -> Result<(), Fail> {
    let words = words_of(rt.alloc(), &["run", "a.core", "1000000000"])?;
    for (text, input, said) in INPUTS {
        let files = [("a.core", text.as_bytes())];
        says(&rt, rt.alloc(), &words, &files, input.as_bytes(), *said)?;
    }
    Ok(())
}

#[test]
fn words_are_buffers(rt: HostRuntime) -> Result<(), Fail> {
    let alloc = rt.alloc();
    for (length, said) in LENGTHS {
        let mut words = words_of(alloc, &["run", "a.core", "9"])?;
        words.push(vec![in alloc; b'a'; *length]?)?;
        let files = [("a.core", FIRST.as_bytes())];
        says(&rt, alloc, &words, &files, b"", *said)?;
    }
    Ok(())
}

#[test]
fn failing_devices_are_told(rt: HostRuntime) -> Result<(), Fail> {
    let words = words_of(rt.alloc(), &["run", "a.core", "9"])?;
    let files = [("a.core", ECHO.as_bytes())];
    for (out, errs, input, said) in FAILING {
        let failing = Failing {
            store: &[],
            input,
            out,
            errs,
        };
        says_failing(&rt, rt.alloc(), &words, &files, b"x", &failing, *said)?;
    }
    Ok(())
}
