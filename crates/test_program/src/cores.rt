//! What `core` prints of a program, and which faults of shape it names.

use crate::serving::{File, says, serve, words_of};
use std::alloc::{AllocError, Global};
use std::process::Abort;
use std::test::Fail;

/// Each kind of declaration and each form of statement.
const STATEMENTS: &str = "global buf g 7;
global ptr h;
global int k;
literal empty { };
literal s { 0, 255, 7 };
1: proc char f(int a, char c, ptr p, pptr w, iptr i)
{
int x;
char y;
ptr q;
pptr v;
iptr j;
buf b 2147483647;
pcell pc;
icell ic;
2: x = a;
2: x = -2147483648;
3: x = a + 1;
3: y = c - -1;
4: x = -3 * y;
5: x = a / 7;
5: x = -7 % 2147483647;
6: p = q;
6: q = null;
6: w = v;
6: p = &b;
6: w = &pc;
6: i = &ic;
7: p = q + x;
8: y = load p;
9: store p, y;
9: store p, -300;
10: x = get i;
10: p = get w;
11: put i, x;
11: put w, p;
11: put w, null;
12: x = diff p, q;
13: if x == a goto 0;
13: if x != 1 goto 0;
13: if -1 < x goto 0;
13: if x <= y goto 0;
13: if x > y goto 0;
13: if x >= y goto 0;
13: if p == q goto 0;
13: if p != null goto 0;
13: if load p == 0 goto 0;
13: if load p != 0 goto 0;
14: x = call f(x, 255, null, v, null);
14: call putchar(x);
14: x = call getchar();
14: p = call malloc(-4);
14: goto 0;
15: return c;
}
16: proc int main()
{
16: return 0;
}
";

/// Each clause, item, atom and term of contracts.
const CONTRACTS: &str = "global ptr g;
global int n;
1: proc ptr f(ptr d, pptr w, iptr i)
uses g, n;
requires nullt(d), clear(*w), apart(d, *w), base(g) == base(d), d != null, *w == null;
modifies body(d), body(*w), *w, *i, n;
ensures fresh(result), alloc(result) == pre(alloc(d)) + 1 | result == null, \
strlen(pre(*w)) - 2 * offset(d) < -3;
{
2: return d;
}
3: proc int g2(int a)
requires a >= -1, a <= 20;
ensures result >= 0, result <= 255;
extern;
4: proc int main(int uses, int pre, ptr body)
requires uses > pre, strlen(body) == pre;
{
5: return 0;
}
";

const COPY: &str = "literal $s1 { 104, 101, 108, 108, 111 };
1: proc void copy(ptr d, ptr s)
requires strlen(s) < alloc(d), clear(d), apart(d, s);
modifies body(d);
ensures nullt(d);
{
char $1;
5: if load s == 0 goto 6;
6: $1 = load s;
6: store d, $1;
7: d = d + 1;
8: s = s + 1;
5: goto 0;
10: store d, 0;
11: return;
}
12: proc int main()
{
buf a 8;
ptr $1;
ptr $2;
14: $1 = &a;
14: $2 = &$s1;
14: call copy($1, $2);
15: return 0;
}
";

/// Texts, and the one form in which they are printed.
const PRINTED: &[(&str, &str)] = &[
    (STATEMENTS, STATEMENTS),
    (CONTRACTS, CONTRACTS),
    (COPY, COPY),
    (
        "1:proc int main(){7:return -0;}",
        "1: proc int main()\n{\n7: return 0;\n}\n",
    ),
    (
        "\n1 :\tproc int main ( int a , int b )\r{ int x ; 02: x=a--5; 3:return x;}\n\n",
        "1: proc int main(int a, int b)\n{\nint x;\n2: x = a - -5;\n3: return x;\n}\n",
    ),
    (
        "1: proc int main() { ptr uses; int result2; 2: result2 = - 007; 3: return 2147483647; }",
        "1: proc int main()\n{\nptr uses;\nint result2;\n2: result2 = -7;\n\
        3: return 2147483647;\n}\n",
    ),
];

/// What stands after each text of the next two tables.
const MAIN: &str = "\n9: proc int main() { 9: return 0; }\n";

/// A fault of each rule.
const SHAPES: &[(&str, &str)] = &[
    (
        "2: proc int f() { int x; int x; 3: return 0; }",
        "a.core:2: fault DoubleName\n",
    ),
    (
        "2: proc int f() { int x; 3: x = y; 4: return 0; }",
        "a.core:3: fault UnknownName\n",
    ),
    (
        "2: proc int f() { int x; 3: x = load x; 4: return 0; }",
        "a.core:3: fault KindMismatch\n",
    ),
    (
        "2: proc int f(int a) { 3: call f(); 4: return 0; }",
        "a.core:3: fault ArgumentCount\n",
    ),
    (
        "2: proc int f() { 3: goto 2; 4: return 0; }",
        "a.core:3: fault JumpOutOfRange\n",
    ),
    (
        "2: proc int f() { int x; 3: x = 1; }",
        "a.core:3: fault NoReturn\n",
    ),
    ("2: proc int f() { }", "a.core:2: fault NoReturn\n"),
    (
        "global ptr g; 2: proc int f() { pptr w; 3: w = &g; 4: return 0; }",
        "a.core:3: fault UnlistedGlobal\n",
    ),
    (
        "2: proc int f(ptr p) requires alloc(p) >= 0; extern;",
        "a.core:2: fault ExternForm\n",
    ),
    (
        "2: proc int f(int a) requires result >= 0; { 3: return 0; }",
        "a.core:2: fault ContractForm\n",
    ),
];

/// Of two faults the place decides first, and then the rule.
const TWO_FAULTS: &[(&str, &str)] = &[
    (
        "2: proc int f() { 3: x = 1; 4: y = load y; 5: return 0; }",
        "a.core:3: fault UnknownName\n",
    ),
    (
        "2: proc int f() { int x; 3: x = load x; 4: y = 1; 5: return 0; }",
        "a.core:3: fault KindMismatch\n",
    ),
    (
        "2: proc int f(int a) { 3: call f(null, 1); 4: return 0; }",
        "a.core:3: fault KindMismatch\n",
    ),
    (
        "2: proc int f() { 3: goto 7; }",
        "a.core:3: fault JumpOutOfRange\n",
    ),
    (
        "2: proc int f() { 3: call main(); 4: goto 9; }",
        "a.core:3: fault MainForm\n",
    ),
    (
        "global int a; literal a { }; 2: proc int f() { }",
        "a.core:1: fault DoubleName\n",
    ),
    (
        "2: proc int f() { } 3: proc int f() { 4: return 0; }",
        "a.core:2: fault NoReturn\n",
    ),
    (
        "2: proc int f(int a) requires b >= 0; { int a; 3: return 0; }",
        "a.core:2: fault UnknownName\n",
    ),
];

/// Faults of a program's main, with nothing after the texts.
const MAINS: &[(&str, &str)] = &[
    (
        "1: proc int f() { 2: return 0; }",
        "a.core:1: fault NoMain\n",
    ),
    (
        "7: proc void main() { 2: return; }",
        "a.core:7: fault MainForm\n",
    ),
];

#[test]
fn texts_are_printed_in_one_form(rt: HostRuntime) -> Result<(), Fail> {
    let alloc = rt.alloc();
    let words = words_of(alloc, &["core", "a.core"])?;
    for (text, printed) in PRINTED {
        let files = [("a.core", text.as_bytes())];
        says(&rt, alloc, &words, &files, b"", (0, printed, ""))?;
    }
    Ok(())
}

/// `core` refuses each text, with the same text after it, by its line.
fn refuse_all(
    rt: &impl Abort,
    alloc: Global,
    table: &[(&str, &str)],
    after: &str,
) -> Result<(), AllocError> {
    let words = words_of(alloc, &["core", "a.core"])?;
    for (text, line) in table {
        let mut whole = Vec::from_slice(alloc, text.as_bytes())?;
        whole.extend_from_slice(after.as_bytes())?;
        let files = [("a.core", whole.as_slice())];
        says(rt, alloc, &words, &files, b"", (3, "", line))?;
    }
    Ok(())
}

#[test]
fn faults_of_shape_are_named(rt: HostRuntime) -> Result<(), Fail> {
    refuse_all(&rt, rt.alloc(), SHAPES, MAIN)?;
    refuse_all(&rt, rt.alloc(), MAINS, "")?;
    Ok(())
}

#[test]
fn the_first_of_two_faults_is_named(rt: HostRuntime) -> Result<(), Fail> {
    Ok(refuse_all(&rt, rt.alloc(), TWO_FAULTS, MAIN)?)
}

/// How many of the texts that end earlier are refused with status 3.
fn refused_fronts(alloc: Global, text: &[u8]) -> Result<usize, AllocError> {
    let words = words_of(alloc, &["core", "a.core"])?;
    let mut refused = 0usize;
    for end in 0..text.len() {
        let files: [File<'_>; 1] = [("a.core", &text[..end])];
        if serve(alloc, &words, &files, b"")?.status == 3 {
            refused = refused.wrapping_add(1);
        }
    }
    Ok(refused)
}

/// All fronts of the text have a fault but the one that lacks the last newline.
#[test]
fn cut_texts_are_refused(rt: HostRuntime) -> Result<(), Fail> {
    let refused = refused_fronts(rt.alloc(), COPY.as_bytes())?;
    assert_eq!(rt; refused.wrapping_add(1), COPY.len());
    Ok(())
}
