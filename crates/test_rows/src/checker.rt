//! Certificates that are accepted and certificates that are not.

use cv_check::check_narrow;
use cv_core::Program;
use cv_text::read_core;
use std::alloc::Global;
use std::test::Fail;

/// Points into a buffer of four bytes, moves to its last byte and stores there.
const PROGRAM: &str = "1: proc int main() { buf b 4; ptr p;
    2: p = &b; 3: p = p + 3; 4: store p, 0; 5: return 0; }";

const POINTER_FIRST: &str = "1: proc int main() { ptr p; buf b 4;
    2: p = &b; 3: p = p + 3; 4: store p, 0; 5: return 0; }";

const OTHER_BYTE: &str = "1: proc int main() { buf b 4; ptr p;
    2: p = &b; 3: p = p + 3; 4: store p, 7; 5: return 0; }";

const TOO_FAR: &str = "1: proc int main() { buf b 4; ptr p;
    2: p = &b; 3: p = p + 4; 4: store p, 0; 5: return 0; }";

const NO_POINTER: &str = "1: proc int main() { buf b 4; ptr p; 4: store p, 0; 5: return 0; }";

// ---- the certificate of PROGRAM, in three pieces

const HEAD: &str = "cssv-cert 1\npoints 1\nset 1\nproc main 1\ncase 1\nat 0 0\n";

const ROWS: &str =
    "at 1 2\nrow -1 0 1\nrow 0 1 -1\nat 2 2\nrow -1 0 1\nrow 3 1 -1\nat 3 0\npicks 0\n";

const STEPS: &str = "steps 2\nstep 1 0 1 3 1\nstep 1 0 1 3 1\nend\n";

// ---- wrong pieces

const NO_SITE: &str = "cssv-cert 1\npoints 1\nset\nproc main 1\ncase 1\nat 0 0\n";

const NO_SET: &str = "cssv-cert 1\npoints 0\nproc main 1\ncase 1\nat 0 0\n";

const OTHER_NAME: &str = "cssv-cert 1\npoints 1\nset 1\nproc other 1\ncase 1\nat 0 0\n";

/// At the start the code of the pointer is -1, and not at least 1.
const ENTRY_ROW: &str = "cssv-cert 1\npoints 1\nset 1\nproc main 1\ncase 1\nat 0 1\nrow -1 0 1\n";

/// The offset is at most 4 where the store needs 3.
const WEAK_ROW: &str =
    "at 1 2\nrow -1 0 1\nrow 0 1 -1\nat 2 2\nrow -1 0 1\nrow 4 1 -1\nat 3 0\npicks 0\n";

const STATEMENT_LEFT_OUT: &str =
    "at 1 2\nrow -1 0 1\nrow 0 1 -1\nat 2 2\nrow -1 0 1\nrow 3 1 -1\npicks 0\n";

const PICK_LEFT_OVER: &str =
    "at 1 2\nrow -1 0 1\nrow 0 1 -1\nat 2 2\nrow -1 0 1\nrow 3 1 -1\nat 3 0\npicks 1 1\n";

const OTHER_MULTIPLIER: &str = "steps 2\nstep 1 0 2 3 1\nstep 1 0 1 3 1\nend\n";

const NO_NEWLINE: &str = "steps 2\nstep 1 0 1 3 1\nstep 1 0 1 3 1\nend";

const BYTES_AFTER: &str = "steps 2\nstep 1 0 1 3 1\nstep 1 0 1 3 1\nend\n ";

const STEP_MISSING: &str = "steps 1\nstep 1 0 1 3 1\nend\n";

const STEP_LEFT_OVER: &str = "steps 3\nstep 1 0 1 3 1\nstep 1 0 1 3 1\nstep 1 0 1\nend\n";

/// A program, the three pieces of a certificate, and whether it is accepted.
const CERTIFICATES: [(&str, [&str; 3], bool); 18] = [
    (PROGRAM, [HEAD, ROWS, STEPS], true),
    (POINTER_FIRST, [HEAD, ROWS, STEPS], true),
    (OTHER_BYTE, [HEAD, ROWS, STEPS], true),
    (TOO_FAR, [HEAD, ROWS, STEPS], false),
    (NO_POINTER, [HEAD, ROWS, STEPS], false),
    (PROGRAM, [HEAD, ROWS, OTHER_MULTIPLIER], false),
    (PROGRAM, [HEAD, ROWS, NO_NEWLINE], false),
    (PROGRAM, [HEAD, ROWS, BYTES_AFTER], false),
    (PROGRAM, [HEAD, ROWS, STEP_MISSING], false),
    (PROGRAM, [HEAD, ROWS, STEP_LEFT_OVER], false),
    (PROGRAM, [HEAD, WEAK_ROW, STEPS], false),
    (PROGRAM, [HEAD, STATEMENT_LEFT_OUT, STEPS], false),
    (PROGRAM, [HEAD, PICK_LEFT_OVER, STEPS], false),
    (PROGRAM, [NO_SITE, ROWS, STEPS], false),
    (PROGRAM, [NO_SET, ROWS, STEPS], false),
    (PROGRAM, [OTHER_NAME, ROWS, STEPS], false),
    (PROGRAM, [ENTRY_ROW, ROWS, STEPS], false),
    (PROGRAM, ["", "", ""], false),
];

fn program(alloc: Global, text: &str) -> Result<Program, Fail> {
    if text.len() > 65536 {
        return Err(Fail::from("a long text"));
    }
    match read_core(alloc, text.as_bytes()) {
        Ok(p) => Ok(p),
        Err(_) => Err(Fail::from("no program")),
    }
}

fn certificate(alloc: Global, pieces: &[&str; 3]) -> Result<Vec<u8>, Fail> {
    let mut text = Vec::new(alloc);
    for piece in pieces {
        text.extend_from_slice(piece.as_bytes())?;
    }
    Ok(text)
}

/// Whether the program has the certificate of these pieces.
fn is_accepted(alloc: Global, text: &str, pieces: &[&str; 3]) -> Result<bool, Fail> {
    let p = program(alloc, text)?;
    let cert = certificate(alloc, pieces)?;
    if cert.len() > 4096 {
        return Err(Fail::from("a long certificate"));
    }
    Ok(check_narrow(alloc, &p, &cert)?)
}

#[test]
fn accepts_exactly_what_is_shown(rt: HostRuntime) -> Result<(), Fail> {
    for (text, pieces, expected) in &CERTIFICATES {
        let found = is_accepted(rt.alloc(), text, pieces)?;
        assert_eq!(rt; found, *expected, "{text} {pieces:?}");
    }
    Ok(())
}
