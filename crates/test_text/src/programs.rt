//! What texts are programs, and where others have their first fault.

use crate::reading::{Answer, program_answer, read_program};
use cv_core::Form;
use cv_text::TextFault;
use std::alloc::{AllocError, Global};
use std::test::Fail;

/// Texts of the grammar.
const READ: &[&str] = &[
    "",
    " \t\r\n",
    "global buf g 2147483647; global ptr p; global int n; literal l { }; \
    literal m { 0, 255, 007 };",
    "1: proc void f(int a, char b, ptr c, pptr d, iptr e) extern;",
    "1:proc char f(){}2:proc ptr g(ptr p){}02147483647:proc int main(){}",
    "1: proc int f() { int x; char c; ptr p; pptr w; iptr i; buf b 3; pcell pc; icell ic; }",
    "1: proc int f() { 2: x = y; 3: x = -5; 4: x = y + 1; 5: x = 1 + y; 6: x = y - - 1; \
    7: x = y--5; }",
    "1: proc int f() { 2: x = 3 * y; 3: x = - 3 * -2; 4: x = y / 1; 5: x = 7 % 2147483647; }",
    "1: proc int f() { 2: p = null; 3: p = &b; 4: x = load p; 5: x = get i; 6: x = diff p, q; }",
    "1: proc int f() { 2: store p, c; 3: store p, -1; 4: put w, p; 5: put w, null; 6: put i, 5; }",
    "1: proc int f() { 2: goto 0; 3: if x < 1 goto 2147483647; 4: if 1 >= -2 goto 1; \
    5: if p != null goto 1; }",
    "1: proc int f() { 2: if load p == 0 goto 0; 3: if load p != 0 goto 0; \
    4: if x == null goto 0; }",
    "1: proc int f() { 2: call f(); 3: call f(x, 1, null); 4: x = call f(p); \
    5: p = call malloc(-4); }",
    "1: proc int f() { 2: return; 3: return x; 4: return null; 5: return -2147483648; }",
    "1: proc int down(int n)\nrequires n >= 0;\nensures result == 0;\n{\n2: if n == 0 goto 4;\n}",
    "1: proc int f(ptr d, pptr w) uses g, h; requires nullt(d), alloc(d) > 2*strlen(*w) - 1; \
    modifies body(d), *w; ensures pre(x) == 1 | fresh(*w), base(d) == base(*w); {}",
];

/// Texts with a mark `@` where their first fault is. The mark is no part of the text.
const FAULTS: &[&str] = &[
    "@x",
    "1@",
    "\n \n@;",
    "@2147483648: proc int main() { }",
    "1: proc int main()@",
    "1: proc int main() { 2: return @",
    "1: proc int main() { 2: return 0; }@\0",
    "1: proc int main() { 2: return@\u{c}0; }",
    "1: proc int main() { }\n@{",
    "1: proc @iptr main() { }",
    "1: proc int @if() { }",
    "1: proc int main(@, int a) { }",
    "1: proc int main(int a,@) { }",
    "1: proc int main() extern @{",
    "1: proc int main() {\nint x;\n2: x = @2147483648;\n}",
    "1: proc int main() {\nint x;\n2: x = -@2147483649;\n}",
    "1: proc int main() { 2: x = @99999999999999999999; }",
    "1: proc int main() { 2: x = @+5; }",
    "1: proc int main() { 2: x = @0x10; }",
    "1: proc int main() { 2: x = 5@x; }",
    "1: proc int main() { 2: x = -@-5; }",
    "1: proc int main() { 2: x = y@++; }",
    "1: proc int main() { 2: x = y / @0; }",
    "1: proc int main() { 2: x = y % @-1; }",
    "1: proc int main() { 2: x = y @* 2; }",
    "1: proc int main() { 2: goto @2147483648; }",
    "1: proc int main() { 2: goto @-1; }",
    "1: proc int main() { 2: if load p == @00 goto 0; }",
    "1: proc int main() { 2: if load p == @-0 goto 0; }",
    "1: proc int main() { 2: if load p @< 0 goto 0; }",
    "1: proc int main() { 2: if 1 == @null goto 0; }",
    "1: proc int main() { 2: if x < @null goto 0; }",
    "1: proc int main() { 2: store p, @null; }",
    "1: proc int main() { 2: @null = 3; }",
    "1: proc int main() { 2: x = load @load; }",
    "1: proc int main() { 2: return 0; @int x; }",
    "1: proc int main() { buf b @0; }",
    "1: proc int main() { buf b @2147483648; }",
    "1: proc int main() { buf b@; }",
    "literal l { @256 };",
    "literal l { 1, @};",
    "literal l {1 @2};",
    "global @char g;",
    "global int g\n@1: proc int main() { }",
    "literal l { };\n@global int g;",
    "global int @int;",
    "1: proc int f(int n) requires n >= 0 @{ }",
    "1: proc int f(int n)\nrequires n >= 0,@;\n{ }",
    "1: proc int f(int n) modifies *@1; { }",
    "1: proc int f(int n) ensures pre(x @>= 1; { }",
    "1: proc int f(int n) @signed; { }",
    "1: proc int main() { @/* c */ }",
];

/// The same for what the lexer of C and CoreC has and the grammar hasn't, and for signs that are
/// two in CoreC.
const FAULTS_OF_TOKENS: &[&str] = &[
    "@#define X 1",
    "1: proc int main() { @// c\n }",
    "1: proc int main() { @/* c */ }",
    "1: proc int main() { @/* c",
    "1: proc int main() { 2: x = @'a'; }",
    "1: proc int main() { 2: x = @\"a\"; }",
    "1: proc int main() { 2: x = y@[1]; }",
    "1: proc int main() { 2: x = y +@= 1; }",
    "1: proc int main() { 2: p = &@&b; }",
    "1: proc int main() { 2: x = y @|| z; }",
];

#[test]
fn texts_of_the_grammar_are_read(rt: HostRuntime) {
    for text in READ {
        assert_eq!(rt;
            program_answer(rt.alloc(), text.as_bytes()),
            Answer::Read,
            "{text}"
        );
    }
}

/// A marked text without its mark, and the fault at the mark.
fn unmarked(alloc: Global, marked: &str) -> Result<(Vec<u8>, TextFault), AllocError> {
    let mut text = Vec::new(alloc);
    let mut fault = TextFault { at: 0, line: 1 };
    let mut line = 1u32;
    let mut at = 0u32;
    for c in marked.as_bytes() {
        if *c == b'@' {
            fault = TextFault { at, line };
        } else {
            text.push(*c)?;
            at = at.saturating_add(1);
        }
        if *c == b'\n' {
            line = line.saturating_add(1);
        }
    }
    Ok((text, fault))
}

#[test]
fn first_faults_are_at_the_marks(rt: HostRuntime) -> Result<(), Fail> {
    for table in [FAULTS, FAULTS_OF_TOKENS] {
        for marked in table {
            let (text, fault) = unmarked(rt.alloc(), marked)?;
            assert_eq!(rt;
                program_answer(rt.alloc(), &text),
                Answer::Fault(fault),
                "{marked}"
            );
        }
    }
    Ok(())
}

/// What becomes of a contract with so many words `pre` in one another.
fn nested(alloc: Global, count: usize) -> Result<Answer, AllocError> {
    let mut text = Vec::from_slice(alloc, b"1: proc int f(int n) requires ")?;
    for _ in 0..count {
        text.extend_from_slice(b"pre(")?;
    }
    text.push(b'n')?;
    for _ in 0..count {
        text.push(b')')?;
    }
    text.extend_from_slice(b" >= 0; { }")?;
    Ok(program_answer(alloc, &text))
}

#[test]
fn levels_are_counted_to_100(rt: HostRuntime) -> Result<(), Fail> {
    let table = [
        (99, Answer::Read),
        (100, Answer::Nesting),
        (3000, Answer::Nesting),
    ];
    for (count, wanted) in table {
        assert_eq!(rt; nested(rt.alloc(), count)?, wanted, "{count}");
    }
    Ok(())
}

/// The kinds of the names decide what these statements are, and the first declaration of a name
/// decides its kind.
const DECIDED: &str = "1: proc int f(pptr w) { ptr p; int x; int p; \
    2: p = q; 3: x = q; 4: p = q + 1; 5: x = q + 1; 6: w = y; 7: z = y; 8: p = 1 + q; }";

const FORMS: [&str; 7] = [
    "CopyPtr", "Assign", "Shift", "Sum", "CopyPtr", "Assign", "Sum",
];

fn form_name(form: &Form) -> &'static str {
    match form {
        Form::CopyPtr { .. } => "CopyPtr",
        Form::Assign { .. } => "Assign",
        Form::Shift { .. } => "Shift",
        Form::Sum { .. } => "Sum",
        _ => "another",
    }
}

#[test]
fn the_first_declaration_decides(rt: HostRuntime) -> Result<(), Fail> {
    let program = read_program(rt.alloc(), DECIDED.as_bytes())
        .ok()
        .ok_or("no program")?;
    let f = program.procs.get(0).ok_or("no procedure")?;
    let body = f.body.as_ref().ok_or("no body")?;
    let stmts = body.stmts.as_slice();
    assert_eq!(rt; stmts.len(), FORMS.len());
    for (stmt, name) in stmts.iter().zip(FORMS) {
        assert_eq!(rt; form_name(&stmt.form), name, "line {}", stmt.line);
    }
    Ok(())
}
