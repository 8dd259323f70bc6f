//! What `check` answers, and which words are those of a command.

use crate::serving::{Failing, STRAIGHT, Said, USAGE, says, says_failing, words_of};
use std::alloc::{AllocError, Global};
use std::process::Abort;
use std::test::Fail;

/// A certificate for the straight-line program.
const CERT: &str = "cssv-cert 1
points 1
set 1
proc main 1
case 1
at 0 0
at 1 2
row -1 0 1
row 0 1 -1
at 2 2
row -1 0 1
row 3 1 -1
at 3 0
picks 0
steps 2
step 1 0 1 3 1
step 1 0 1 3 1
end
";

/// What becomes of a text.
#[derive(Clone, Copy)]
enum Edit<'a> {
    Same,
    /// A line, counted from 1, is another.
    Line(usize, &'a str),
    Whole(&'a str),
    /// Something stands after it.
    More(&'a str),
    /// So many bytes at its end are cut off.
    Less(usize),
}

/// An edit of the program, one of its certificate, the status, and what is printed.
const CHECKED: &[(Edit<'_>, Edit<'_>, u8, &str)] = &[
    (Edit::Same, Edit::Same, 0, "accepted\n"),
    (Edit::Line(6, "3: p = p + 4;"), Edit::Same, 1, "rejected\n"),
    (Edit::Same, Edit::Whole(""), 1, "rejected\n"),
    (Edit::Same, Edit::Less(1), 1, "rejected\n"),
    (Edit::Same, Edit::Less(4), 1, "rejected\n"),
    (Edit::Same, Edit::More("x"), 1, "rejected\n"),
    (
        Edit::Same,
        Edit::Line(16, "step 1 0 2 3 1"),
        1,
        "rejected\n",
    ),
    (
        Edit::Same,
        Edit::Line(16, "step 1 0 1 3 2"),
        1,
        "rejected\n",
    ),
    (Edit::Same, Edit::Line(3, "set"), 1, "rejected\n"),
    (Edit::Same, Edit::Line(12, "row 4 1 -1"), 1, "rejected\n"),
    (Edit::Same, Edit::Line(12, "row 03 1 -1"), 1, "rejected\n"),
];

/// An edit of the program that leaves a part that isn't treated, and the line that names the
/// first one.
const NOT_BUILT: &[(Edit<'_>, u8, &str)] = &[
    (
        Edit::Line(1, "global int g; 7: proc int main()"),
        3,
        "b.core:1: fault NotBuilt\n",
    ),
    (
        Edit::Line(1, "literal s { }; 7: proc int main()"),
        3,
        "b.core:1: fault NotBuilt\n",
    ),
    (
        Edit::Line(1, "6: proc int f() { 8: return 0; } 7: proc int main()"),
        3,
        "b.core:6: fault NotBuilt\n",
    ),
    (
        Edit::Line(1, "7: proc int main(int n)"),
        3,
        "b.core:7: fault NotBuilt\n",
    ),
    (
        Edit::Line(1, "7: proc int main() requires 0 <= 1;"),
        3,
        "b.core:7: fault NotBuilt\n",
    ),
    (
        Edit::More("9: proc int f() { 8: return 0; }"),
        3,
        "b.core:9: fault NotBuilt\n",
    ),
    (
        Edit::Line(4, "ptr p; int x;"),
        3,
        "b.core:1: fault NotBuilt\n",
    ),
    (
        Edit::Line(3, "buf b 4; buf c 4;"),
        3,
        "b.core:1: fault NotBuilt\n",
    ),
    (
        Edit::Line(5, "2: p = null;"),
        3,
        "b.core:2: fault NotBuilt\n",
    ),
    (Edit::Line(6, "3: goto 0;"), 3, "b.core:3: fault NotBuilt\n"),
    (
        Edit::Line(7, "4: return 0;"),
        3,
        "b.core:4: fault NotBuilt\n",
    ),
    (Edit::Line(8, "5: goto 0;"), 3, "b.core:5: fault NotBuilt\n"),
    (
        Edit::Line(5, "2: p = null; 3: p = null;"),
        3,
        "b.core:2: fault NotBuilt\n",
    ),
];

/// A fault, or a limit, is named before what isn't treated, and a limit before a fault of shape.
const FAULTS: &[(Edit<'_>, u8, &str)] = &[
    (Edit::Whole(""), 3, "b.core:1: fault NoMain\n"),
    (Edit::Line(7, "4: store p;"), 3, "b.core:7: fault text\n"),
    (
        Edit::Line(5, "2: p = null; store"),
        3,
        "b.core:5: fault text\n",
    ),
    (
        Edit::Line(8, "5: return p;"),
        3,
        "b.core:5: fault KindMismatch\n",
    ),
    (
        Edit::Line(5, "2: p = null; 3: q = null;"),
        3,
        "b.core:3: fault UnknownName\n",
    ),
    (Edit::Line(4, "ptr b;"), 3, "b.core:1: fault DoubleName\n"),
    (
        Edit::Line(1, "global int g; 7: proc int nain()"),
        3,
        "b.core:1: fault NoMain\n",
    ),
    (
        Edit::Line(
            1,
            "1: proc int main(int a, int a, int a, int a, int a, int a, int a, int a, int a)",
        ),
        4,
        "limit formals 8\n",
    ),
];

/// Words over the files b.core, b.cert and the empty b.c, the status, and the line on standard
/// error.
const WORDS: &[(&[&str], u8, &str)] = &[
    (&[], 2, USAGE),
    (&["check"], 2, USAGE),
    (&["check", "b.core"], 2, USAGE),
    (&["check", "b.core", "b.cert", "b.cert"], 2, USAGE),
    (&["verify", "b.core", "b.cert"], 2, USAGE),
    (&["Check", "b.core", "b.cert"], 2, USAGE),
    (&["check", "a.core", "b.cert"], 5, "read fault\n"),
    (&["check", "a.c", "b.cert"], 5, "read fault\n"),
    (&["check", "b.core", "a.cert"], 5, "read fault\n"),
    (&["check", "b.c", "b.cert"], 3, "b.c:1: fault NotBuilt\n"),
    (&["core"], 2, USAGE),
    (&["core", "b.core", "b.core"], 2, USAGE),
    (&["core", "a.core"], 5, "read fault\n"),
    (&["core", "b.c"], 3, "b.c:1: fault NotBuilt\n"),
];

/// Words, the calls of the store, of standard output and of standard error that fail, and what is
/// said.
const FAILING: &[(&[&str], &[u64], &[u64], &[u64], Said<'_>)] = &[
    (
        &["check", "b.core", "b.cert"],
        &[],
        &[],
        &[],
        (0, "accepted\n", ""),
    ),
    (
        &["check", "b.core", "b.cert"],
        &[0],
        &[],
        &[],
        (5, "", "read fault\n"),
    ),
    (
        &["check", "b.core", "b.cert"],
        &[1],
        &[],
        &[],
        (5, "", "read fault\n"),
    ),
    (&["check", "b.core", "b.cert"], &[1], &[], &[0], (5, "", "")),
    (
        &["check", "b.core", "b.cert"],
        &[],
        &[0],
        &[],
        (6, "", "write fault\n"),
    ),
    (&["check", "b.core", "b.cert"], &[], &[0], &[0], (6, "", "")),
    (&[], &[0], &[0], &[], (2, "", USAGE)),
    (&[], &[], &[], &[0], (2, "", "")),
];

fn edited(alloc: Global, text: &str, edit: &Edit<'_>) -> Result<Vec<u8>, AllocError> {
    let mut all = Vec::new(alloc);
    for (at, line) in text.lines().enumerate() {
        let now = match edit {
            Edit::Line(number, other) if *number == at.wrapping_add(1) => *other,
            _ => line,
        };
        all.extend_from_slice(now.as_bytes())?;
        all.push(b'\n')?;
    }
    match edit {
        Edit::Whole(other) => Vec::from_slice(alloc, other.as_bytes()),
        Edit::More(other) => {
            all.extend_from_slice(other.as_bytes())?;
            Ok(all)
        }
        Edit::Less(count) => {
            all.truncate(all.len().saturating_sub(*count));
            Ok(all)
        }
        Edit::Same | Edit::Line(_, _) => Ok(all),
    }
}

#[test]
fn files_and_certificates_are_checked(rt: HostRuntime) -> Result<(), Fail> {
    let alloc = rt.alloc();
    let words = words_of(alloc, &["check", "b.core", "b.cert"])?;
    for (core, cert, status, printed) in CHECKED {
        let core = edited(alloc, STRAIGHT, core)?;
        let cert = edited(alloc, CERT, cert)?;
        let files = [("b.core", core.as_slice()), ("b.cert", cert.as_slice())];
        says(&rt, alloc, &words, &files, b"", (*status, printed, ""))?;
    }
    Ok(())
}

/// `check` refuses each edited file with its line, whether or not the certificate is there.
fn refuse_all(
    rt: &impl Abort,
    alloc: Global,
    table: &[(Edit<'_>, u8, &str)],
) -> Result<(), AllocError> {
    for (core, status, line) in table {
        let core = edited(alloc, STRAIGHT, core)?;
        let files = [("b.core", core.as_slice()), ("b.cert", b"".as_slice())];
        for cert in ["b.cert", "a.cert"] {
            let words = words_of(alloc, &["check", "b.core", cert])?;
            says(rt, alloc, &words, &files, b"", (*status, "", line))?;
        }
    }
    Ok(())
}

#[test]
fn parts_that_are_not_built_have_lines(rt: HostRuntime) -> Result<(), Fail> {
    Ok(refuse_all(&rt, rt.alloc(), NOT_BUILT)?)
}

#[test]
fn faults_and_limits_come_before_what_is_not_built(rt: HostRuntime) -> Result<(), Fail> {
    Ok(refuse_all(&rt, rt.alloc(), FAULTS)?)
}

#[test]
fn words_and_names_are_refused(rt: HostRuntime) -> Result<(), Fail> {
    let alloc = rt.alloc();
    let files = [
        ("b.core", STRAIGHT.as_bytes()),
        ("b.cert", CERT.as_bytes()),
        ("b.c", b"".as_slice()),
    ];
    for (words, status, line) in WORDS {
        let words = words_of(alloc, words)?;
        says(&rt, alloc, &words, &files, b"", (*status, "", line))?;
    }
    Ok(())
}

#[test]
fn failing_devices_are_told(rt: HostRuntime) -> Result<(), Fail> {
    let alloc = rt.alloc();
    let files = [("b.core", STRAIGHT.as_bytes()), ("b.cert", CERT.as_bytes())];
    for (words, store, out, errs, said) in FAILING {
        let words = words_of(alloc, words)?;
        let failing = Failing {
            store,
            input: &[],
            out,
            errs,
        };
        says_failing(&rt, alloc, &words, &files, b"", &failing, *said)?;
    }
    Ok(())
}
