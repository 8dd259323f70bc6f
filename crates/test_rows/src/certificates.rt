//! Texts with one line changed, and texts cut at each byte.
use cv_cert::{CertError, read_cert, write_cert};
use std::alloc::{AllocError, Global};
use std::test::Fail;

/// A certificate of a program that moves a pointer and stores through it.
const LINES: [&str; 18] = [
    "cssv-cert 1",
    "points 1",
    "set 1",
    "proc main 1",
    "case 1",
    "at 0 0",
    "at 1 2",
    "row -1 0 1",
    "row 0 1 -1",
    "at 2 2",
    "row -1 0 1",
    "row 3 1 -1",
    "at 3 0",
    "picks 0",
    "steps 2",
    "step 1 0 1 3 1",
    "step 1 0 1 3 1",
    "end",
];

/// The certificate with another text as the line at a place, counted from 0, and more bytes at its end.
fn changed(alloc: Global, at: usize, line: &str, more: &str) -> Result<Vec<u8>, AllocError> {
    let mut text = Vec::new(alloc);
    for (i, old) in LINES.iter().enumerate() {
        let new = if i == at { line } else { *old };
        text.extend_from_slice(new.as_bytes())?;
        text.push(b'\n')?;
    }
    text.extend_from_slice(more.as_bytes())?;
    Ok(text)
}

/// 0 where the text is read, else the line that is named.
fn wrong_line(alloc: Global, text: &[u8]) -> u32 {
    if text.len() > 4294967294 {
        return 4294967295;
    }
    match read_cert(alloc, text) {
        Ok(_) => 0,
        Err(CertError::Line(n)) => n,
        Err(CertError::Memory) => 4294967295,
    }
}

/// Whether a text is read, and written as it was.
fn comes_back(alloc: Global, text: &[u8]) -> Result<bool, AllocError> {
    if text.len() > 4294967294 {
        return Ok(false);
    }
    let Ok(cert) = read_cert(alloc, text) else {
        return Ok(false);
    };
    let written = write_cert(alloc, &cert)?;
    Ok(written.as_slice() == text)
}

/// The place of a changed line, what stands there, and the line that is named, 0 where the text is read.
const CHANGES: [(usize, &str, u32); 62] = [
    (0, "cssv-cert 2", 1),
    (0, "cssv-cert  1", 1),
    (1, "points 2", 4),
    (1, "points 0", 3),
    (1, "points 01", 2),
    (2, "set 0 1", 0),
    (2, "set 1 0", 3),
    (2, "set 1 1", 3),
    (2, "set", 0),
    (2, "set 01", 3),
    (2, "set +1", 3),
    (2, "set -0", 3),
    (2, "set  1", 3),
    (2, "set 1 ", 3),
    (2, " set 1", 3),
    (2, "set 4294967295", 0),
    (2, "set 4294967296", 3),
    (3, "proc other 1", 0),
    (3, "proc $_a9 1", 0),
    (3, "proc int 1", 4),
    (3, "proc 1x 1", 4),
    (3, "proc main 01", 4),
    (3, "proc main 0", 5),
    (4, "case 2", 5),
    (4, "case 0", 5),
    (5, "at 0 1", 7),
    (5, "at 1 0", 6),
    (6, "at 1 3", 10),
    (6, "at 1 1", 9),
    (6, "at 2 2", 7),
    (7, "row -9223372036854775809 0 1", 8),
    (7, "row -9223372036854775808 0 1", 0),
    (7, "row 9223372036854775807 0 1", 0),
    (7, "row 9223372036854775808 0 1", 8),
    (7, "row -0 0 1", 8),
    (7, "row 03 0 1", 8),
    (7, "row -1 0 0", 8),
    (7, "row -1 0", 8),
    (7, "row -1 1 1 0 1", 8),
    (7, "row -1 0 1 0 1", 8),
    (7, "row -1 1 -2", 0),
    (7, "row -1 1 -1", 9),
    (7, "row -1 2 1", 9),
    (7, "row -1", 0),
    (7, "row -1 4294967295 9223372036854775807", 8),
    (7, "row -1 4294967295 9223372036854775806", 9),
    (8, "row 0 7 -1", 0),
    (13, "picks 1", 14),
    (13, "picks 2 1 2", 0),
    (13, "picks 1 4294967296", 14),
    (13, "picks", 14),
    (14, "steps 3", 18),
    (14, "steps 1", 17),
    (14, "steps 02", 15),
    (14, "steps 4294967296", 15),
    (15, "step 0 0 1 3 1", 0),
    (15, "step 1 3 1 0 1", 0),
    (15, "step 1", 0),
    (15, "step", 16),
    (15, "step 1 0", 16),
    (17, "end ", 18),
    (17, "end 1", 18),
];

#[test]
fn changed_lines(rt: HostRuntime) -> Result<(), Fail> {
    let alloc = rt.alloc();
    for (at, line, wanted) in CHANGES {
        let text = changed(alloc, at, line, "")?;
        assert_eq!(rt; wrong_line(alloc, text.as_slice()), wanted, "{line}");
        assert_eq!(rt; comes_back(alloc, text.as_slice())?, wanted == 0, "{line}");
    }
    Ok(())
}

#[test]
fn other_ends(rt: HostRuntime) -> Result<(), Fail> {
    let alloc = rt.alloc();
    assert_eq!(rt; wrong_line(alloc, b""), 1);
    for more in ["x", "\n", "end\n", " "] {
        let text = changed(alloc, 18, "", more)?;
        assert_eq!(rt; wrong_line(alloc, text.as_slice()), 19);
    }
    Ok(())
}

#[test]
fn cut_texts(rt: HostRuntime) -> Result<(), Fail> {
    let alloc = rt.alloc();
    let text = changed(alloc, 18, "", "")?;
    let mut cut = Vec::new(alloc);
    let mut line = 1u32;
    for byte in &text {
        assert_eq!(rt; wrong_line(alloc, cut.as_slice()), line);
        cut.push(*byte)?;
        if *byte == b'\n' {
            line = line.saturating_add(1);
        }
    }
    assert!(rt; comes_back(alloc, cut.as_slice())?);
    Ok(())
}
