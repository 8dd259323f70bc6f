//! Programs and files at each limit and past it.

use crate::serving::{Said, says, serve, words_of};
use std::alloc::{AllocError, Global};
use std::process::Abort;
use std::test::Fail;

/// A front, what stands before and after the number of each piece, and a back.
type Parts<'a> = [&'a str; 4];

const MAIN: &str = "1: proc int main() { 1: return 0; }";

const AFTER: &str = "; { 1: return 0; } 2: proc int main() { 2: return 0; }";

const GLOBALS: Parts<'_> = ["", "global int g", ";", MAIN];

const LITERALS: Parts<'_> = ["", "literal l", " { };", MAIN];

const BYTES: Parts<'_> = [
    "literal l { 0",
    ", ",
    "",
    " }; 1: proc int main() { 1: return 0; }",
];

const LOCALS: Parts<'_> = ["1: proc int main() {", "int x", "; ", "1: return 0; }"];

const FORMALS: Parts<'_> = [
    "1: proc int main(int a",
    ", int x",
    "",
    ") { 1: return 0; }",
];

const STATEMENTS: Parts<'_> = ["1: proc int main() { 1: goto 0; ", "", ": goto 0; ", "}"];

const PROCEDURES: Parts<'_> = [MAIN, "1: proc int f", "() { 1: return 0; }", ""];

const ATOMS: Parts<'_> = ["1: proc int f(int a) requires a >= 0", ", a >= ", "", AFTER];

const PARTS: Parts<'_> = ["1: proc int f(int a) requires a >= 0", " + ", "", AFTER];

const ALTERNATIVES: Parts<'_> = ["1: proc int f(int a) ensures a >= 0", " | a >= ", "", AFTER];

/// The most pieces that are within each limit, for which `core` answers 0.
const WITHIN: &[(Parts<'_>, usize)] = &[
    (GLOBALS, 256),
    (LITERALS, 1024),
    (BYTES, 255),
    (LOCALS, 200),
    (FORMALS, 7),
    (STATEMENTS, 999),
    (PROCEDURES, 255),
];

/// A piece too many, and the line of the limit.
const PAST: &[(Parts<'_>, usize, &str)] = &[
    (GLOBALS, 257, "limit globals 256\n"),
    (LITERALS, 1025, "limit literals 1024\n"),
    (LOCALS, 201, "limit locals 200\n"),
    (FORMALS, 8, "limit formals 8\n"),
    (STATEMENTS, 1000, "limit statements 1000\n"),
    (PROCEDURES, 256, "limit procedures 256\n"),
    (ATOMS, 16, "limit atoms 16\n"),
    (PARTS, 11, "limit parts 12\n"),
    (ALTERNATIVES, 8, "limit alternatives 8\n"),
];

/// How many words `pre` are in one another in a contract, and what `core` says.
const LEVELS: &[(usize, Said<'_>)] = &[
    (99, (3, "", "a.core:1: fault ContractForm\n")),
    (100, (4, "", "limit nesting 100\n")),
];

/// How many statements a straight-line program has, and what `check` says.
const BUILT: &[(usize, Said<'_>)] = &[
    (100, (0, "accepted\n", "")),
    (101, (3, "", "a.core:3: fault NotBuilt\n")),
];

/// How many blanks a file has, and what `check` says.
const LENGTHS: &[(usize, Said<'_>)] = &[
    (1048577, (4, "", "limit file 1048576\n")),
    (1048576, (3, "", "a.core:1: fault NoMain\n")),
];

/// A text of so many pieces with their numbers.
fn repeated(alloc: Global, parts: &Parts<'_>, count: usize) -> Result<Vec<u8>, AllocError> {
    let [front, before, after, back] = parts;
    let mut text = Vec::from_slice(alloc, front.as_bytes())?;
    for number in 0..count {
        let piece = format!(in alloc; "{before}{number}{after}")?;
        text.extend_from_slice(piece.as_bytes())?;
    }
    text.extend_from_slice(back.as_bytes())?;
    Ok(text)
}

#[test]
fn programs_within_the_limits_are_printed(rt: HostRuntime) -> Result<(), Fail> {
    let alloc = rt.alloc();
    let words = words_of(alloc, &["core", "a.core"])?;
    for (parts, count) in WITHIN {
        let text = repeated(alloc, parts, *count)?;
        let served = serve(alloc, &words, &[("a.core", text.as_slice())], b"")?;
        assert_eq!(rt; served.status, 0, "{count}");
    }
    Ok(())
}

#[test]
fn programs_past_a_limit_are_refused(rt: HostRuntime) -> Result<(), Fail> {
    let alloc = rt.alloc();
    let words = words_of(alloc, &["core", "a.core"])?;
    for (parts, count, line) in PAST {
        let text = repeated(alloc, parts, *count)?;
        says(
            &rt,
            alloc,
            &words,
            &[("a.core", text.as_slice())],
            b"",
            (4, "", line),
        )?;
    }
    Ok(())
}

/// `pre(` so many times around a name, in a contract.
fn nested(alloc: Global, count: usize) -> Result<Vec<u8>, AllocError> {
    let mut text = Vec::from_slice(alloc, b"1: proc int f(int n)\nensures result == ")?;
    for _ in 0..count {
        text.extend_from_slice(b"pre(")?;
    }
    text.push(b'n')?;
    for _ in 0..count {
        text.push(b')')?;
    }
    text.extend_from_slice(AFTER.as_bytes())?;
    Ok(text)
}

#[test]
fn levels_are_counted_to_100(rt: HostRuntime) -> Result<(), Fail> {
    let alloc = rt.alloc();
    let words = words_of(alloc, &["core", "a.core"])?;
    for (count, said) in LEVELS {
        let text = nested(alloc, *count)?;
        says(
            &rt,
            alloc,
            &words,
            &[("a.core", text.as_slice())],
            b"",
            *said,
        )?;
    }
    Ok(())
}

/// A program of so many statements, and a certificate for it.
fn straight(alloc: Global, count: usize) -> Result<(Vec<u8>, Vec<u8>), AllocError> {
    let mut core = Vec::from_slice(alloc, b"1: proc int main()\n{\nptr p;\nbuf b 4;\n")?;
    let mut cert = Vec::from_slice(
        alloc,
        b"cssv-cert 1\npoints 1\nset 1\nproc main 1\ncase 1\nat 0 0\n",
    )?;
    for number in 1..count {
        core.extend_from_slice(b"2: p = &b;\n")?;
        let place = format!(in alloc; "at {number} 0\n")?;
        cert.extend_from_slice(place.as_bytes())?;
    }
    core.extend_from_slice(b"3: return 0;\n}\n")?;
    cert.extend_from_slice(b"picks 0\nsteps 0\nend\n")?;
    Ok((core, cert))
}

/// What `check` says of a program and a certificate.
fn checks(
    rt: &impl Abort,
    alloc: Global,
    core: &[u8],
    cert: &[u8],
    said: Said<'_>,
) -> Result<(), AllocError> {
    let words = words_of(alloc, &["check", "a.core", "a.cert"])?;
    says(
        rt,
        alloc,
        &words,
        &[("a.core", core), ("a.cert", cert)],
        b"",
        said,
    )
}

#[test]
fn a_hundred_statements_are_built(rt: HostRuntime) -> Result<(), Fail> {
    for (count, said) in BUILT {
        let (core, cert) = straight(rt.alloc(), *count)?;
        checks(&rt, rt.alloc(), &core, &cert, *said)?;
    }
    Ok(())
}

#[test]
fn a_long_file_is_refused(rt: HostRuntime) -> Result<(), Fail> {
    let alloc = rt.alloc();
    for (length, said) in LENGTHS {
        let core = vec![in alloc; b' '; *length]?;
        checks(&rt, alloc, &core, b"", *said)?;
    }
    Ok(())
}
