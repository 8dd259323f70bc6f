//! What texts are straight-line programs.

use cv_core::Program;
use cv_text::{print_core, read_narrow};
use std::alloc::{AllocError, Global};
use std::test::Fail;

/// Straight-line programs.
const NARROW: &[&str] = &[
    "1: proc int main()\n{\nbuf b 4;\nptr p;\n2: p = &b;\n3: p = p + 3;\n4: store p, 0;\n\
    5: return 0;\n}\n",
    "1: proc int main()\n{\nptr p;\nbuf b 4;\n2: p = &b;\n3: p = p + 4;\n5: return 0;\n}\n",
    "1:proc int main(){buf b 2147483647;ptr p;0:return -2147483648;}",
    "007: proc int main() { buf b 0004; ptr p; 02147483647: store p, - 5; 1: p = p + -00; \
    1: return 2147483647; }",
    "1:\tproc\rint main ( ) { buf uses 1 ; ptr main ; 2 : main = & uses ; 3 : return - 0 ; }",
];

/// Texts of no straight-line program, or of no program.
const OTHERS: &[&str] = &[
    "",
    " \t\r\n",
    "1: proc int main() { buf b 4; ptr p; 2: return p; }",
    "1: proc int main() { buf b 4; ptr p; 2: return; }",
    "1: proc int main() { buf b 4; ptr p; 2: p = p - 3; 3: return 0; }",
    "1: proc int main() { buf b 4; ptr p; 2: return 0; 3: return 0; }",
    "1: proc int main() { buf b 4; ptr p; 2: p = &b; }",
    "1: proc int main() { buf b 4; ptr p; }",
    "1: proc int main() { buf b 4; ptr p; 2: return 0 }",
    "1: proc int main() { buf b 4; ptr p; 2: return 0; } x",
    "1: proc int main() { buf b 4; ptr p; 2: return 0; } 1: proc int f() { 2: return 0; }",
    "1: proc int f() { buf b 4; ptr p; 2: return 0; }",
    "1: proc void main() { buf b 4; ptr p; 2: return 0; }",
    "1: proc int main(int n) { buf b 4; ptr p; 2: return 0; }",
    "1: proc int main() uses g; { buf b 4; ptr p; 2: return 0; }",
    "global int g; 1: proc int main() { buf b 4; ptr p; 2: return 0; }",
    "1: proc int main() { buf b 4; ptr b; 2: return 0; }",
    "1: proc int main() { buf b 4; buf c 4; 2: return 0; }",
    "1: proc int main() { buf b 4; ptr p; int x; 2: return 0; }",
    "1: proc int main() { buf b 0; ptr p; 2: return 0; }",
    "1: proc int main() { buf b 2147483648; ptr p; 2: return 0; }",
    "2147483648: proc int main() { buf b 4; ptr p; 2: return 0; }",
    "1: proc int main() { buf b 4; ptr p; 2: return 2147483648; }",
    "1: proc int main() { buf b 4; ptr p; 2: return -2147483649; }",
    "1: proc int main() { buf b 4; ptr p; 2: return 99999999999999999999; }",
    "1: proc int main() { buf b 4; ptr p; 2: return --1; }",
    "1: proc int main() { buf b 4; ptr p; 2: return +1; }",
    "1: proc int main() { buf b 4; ptr p; 2: return 0x1; }",
    "1: proc int main() { buf b 4; ptr p; /* c */ 2: return 0; }",
    "1: proc int main() { buf b 4; ptr p; // c\n2: return 0; }",
    "1: proc int main() { buf b 4; ptr p; 2: return 0; }\0",
    "1: proc int main() { buf b 4; ptr p; 2: return\u{c}0; }",
    "1: proc int main() { buf if 4; ptr p; 2: return 0; }",
    "1: proc int main() { buf b 4; ptr 1p; 2: return 0; }",
    "1: proc int main() { buf b 4; ptr p; 2: p = &p; 3: return 0; }",
    "1: proc int main() { buf b 4; ptr p; 2: p = b + 1; 3: return 0; }",
    "1: proc int main() { buf b 4; ptr p; 2: store b, 1; 3: return 0; }",
    "1: proc int main() { buf b 4; ptr p; 2: store p, p; 3: return 0; }",
];

/// `read_narrow`, of whose clauses no test needs one.
fn read(alloc: Global, text: &[u8]) -> Result<Option<Program>, AllocError> {
    read_narrow(alloc, text)
}

#[test]
fn straight_line_programs_alone_are_read(rt: HostRuntime) -> Result<(), Fail> {
    for (table, wanted) in [(NARROW, true), (OTHERS, false)] {
        for text in table {
            let found = read(rt.alloc(), text.as_bytes())?.is_some();
            assert_eq!(rt; found, wanted, "{text}");
        }
    }
    Ok(())
}

/// Whether a program with so many statements before its return is read.
fn is_read_with(alloc: Global, count: usize) -> Result<bool, AllocError> {
    let mut text = Vec::from_slice(alloc, b"1: proc int main() { buf b 4; ptr p; ")?;
    for _ in 0..count {
        text.extend_from_slice(b"2: store p, 7; ")?;
    }
    text.extend_from_slice(b"3: return 0; }")?;
    Ok(read(alloc, &text)?.is_some())
}

#[test]
fn statements_are_counted_to_100(rt: HostRuntime) -> Result<(), Fail> {
    for (count, wanted) in [(0, true), (99, true), (100, false)] {
        assert_eq!(rt; is_read_with(rt.alloc(), count)?, wanted, "{count}");
    }
    Ok(())
}

#[test]
fn lines_names_and_numbers_are_kept(rt: HostRuntime) -> Result<(), Fail> {
    let alloc = rt.alloc();
    let text = b"7: proc int main() { ptr p; buf b 12; 8: store p, -3; 9: return 0; }";
    let program = read(alloc, text)?.ok_or("no program")?;
    let printed = print_core(alloc, &program)?;
    let wanted = "7: proc int main()\n{\nptr p;\nbuf b 12;\n8: store p, -3;\n9: return 0;\n}\n";
    assert_eq!(rt; printed.as_slice(), wanted.as_bytes());
    Ok(())
}
