//! The tokens of small texts.

use cv_lex::{LexFault, LexRule, Lexer, Token, TokenKind};
use std::alloc::{AllocError, Global};
use std::process::Abort;
use std::test::Fail;

/// Each kind alone and beside others: the longest token is taken. A token is its letter, its
/// place, its length and its line; a text ends at its end or at a fault with its place.
const KINDS: &[(&str, &str)] = &[
    ("", "end"),
    (" \t\r\n ", "end"),
    ("a", "w0+1/1 end"),
    ("_a$1 $2", "w0+4/1 w5+2/1 end"),
    ("12ab", "n0+2/1 w2+2/1 end"),
    ("0x1Fg", "n0+4/1 w4+1/1 end"),
    ("0x", "n0+1/1 w1+1/1 end"),
    ("0xg1", "n0+1/1 w1+3/1 end"),
    ("00x1", "n0+2/1 w2+2/1 end"),
    ("0x+0xa", "n0+1/1 w1+1/1 s2+1/1 n3+3/1 end"),
    ("0X1", "n0+1/1 w1+2/1 end"),
    ("007", "n0+3/1 end"),
    ("x=-5;", "w0+1/1 s1+1/1 s2+1/1 n3+1/1 s4+1/1 end"),
    ("y--5", "w0+1/1 s1+2/1 n3+1/1 end"),
    ("===", "s0+2/1 s2+1/1 end"),
    ("=!=<=>=", "s0+1/1 s1+2/1 s3+2/1 s5+2/1 end"),
    ("&&&|||", "s0+2/1 s2+1/1 s3+2/1 s5+1/1 end"),
    (
        "+++---+=-=",
        "s0+2/1 s2+1/1 s3+2/1 s5+1/1 s6+2/1 s8+2/1 end",
    ),
    (
        "<>*/%!,:(){}[]",
        "s0+1/1 s1+1/1 s2+1/1 s3+1/1 s4+1/1 s5+1/1 s6+1/1 s7+1/1 s8+1/1 s9+1/1 s10+1/1 \
        s11+1/1 s12+1/1 s13+1/1 end",
    ),
    ("\"\"\"a\"", "t0+2/1 t2+3/1 end"),
    ("\"\\n\\t\\r\\0\\\\\\'\\\"\"", "t0+16/1 end"),
    ("\"/*\" /*\"*/", "t0+4/1 k5+5/1 end"),
    ("'a''\"'", "c0+3/1 c3+3/1 end"),
    ("'\\n''\\t''\\r''\\0'", "c0+4/1 c4+4/1 c8+4/1 c12+4/1 end"),
    ("'\\\\''\\'''\\\"'", "c0+4/1 c4+4/1 c8+4/1 end"),
    ("/**/a", "k0+4/1 w4+1/1 end"),
    ("/***/*", "k0+5/1 s5+1/1 end"),
    ("/*@ uses g; @*/;", "k0+15/1 s15+1/1 end"),
    ("a//b\r", "w0+1/1 k1+4/1 end"),
    ("//\n", "k0+2/1 end"),
];

/// Lines are counted in blanks and in comments; a `#` line stands at the front of its line alone.
const LINES: &[(&str, &str)] = &[
    ("a\nb\n\nc", "w0+1/1 w2+1/2 w5+1/4 end"),
    ("/*\n\n*/a\nb", "k0+6/1 w6+1/3 w8+1/4 end"),
    ("\r\n\r\na", "w4+1/3 end"),
    ("#a /* \" '\nb", "h0+9/1 w10+1/2 end"),
    ("a\n#", "w0+1/1 h2+1/2 end"),
    ("#\n#\n", "h0+1/1 h2+1/2 end"),
    (" #", "BadByte 1"),
    ("a#", "w0+1/1 BadByte 1"),
    ("/*\n*/#", "k0+5/1 BadByte 5"),
];

/// Each fault with its place.
const FAULTS: &[(&str, &str)] = &[
    ("a @", "w0+1/1 BadByte 2"),
    ("\\", "BadByte 0"),
    ("\u{c}", "BadByte 0"),
    ("\0", "BadByte 0"),
    ("a \u{e4}", "w0+1/1 BadByte 2"),
    ("~^?.`", "BadByte 0"),
    ("a /*", "w0+1/1 OpenComment 2"),
    ("/*/", "OpenComment 0"),
    ("/* *", "OpenComment 0"),
    ("2147483648", "n0+10/1 end"),
    ("a 2147483649", "w0+1/1 WideNumber 2"),
    ("00002147483648", "n0+14/1 end"),
    ("0x80000000 0x80000001", "n0+10/1 WideNumber 11"),
    ("0x0000000007FFFFFFf", "n0+19/1 end"),
    ("99999999999999999999999999", "WideNumber 0"),
    ("a \"b", "w0+1/1 OpenText 2"),
    ("\"b\n\"", "OpenText 0"),
    ("\"\\x\"", "OpenText 0"),
    ("\"\\\"", "OpenText 0"),
    ("\"\\\n\"", "OpenText 0"),
    ("''", "OpenText 0"),
    ("'''", "OpenText 0"),
    ("'ab'", "OpenText 0"),
    ("'\n'", "OpenText 0"),
    ("'\\x'", "OpenText 0"),
    ("'\\'", "OpenText 0"),
    ("a '", "w0+1/1 OpenText 2"),
];

/// A text of many tokens, to be cut at each byte.
const MIXED: &str = "#include <a.h>\nint x = 0x1F; /* a\n b */ char *s = \"q\\n\"; // c\n\
    x += 'a'; y--; \n#define N 2147483648\nif (a<=b && c!='\\'') {}";

fn letter(kind: TokenKind) -> char {
    match kind {
        TokenKind::Word => 'w',
        TokenKind::Number => 'n',
        TokenKind::Text => 't',
        TokenKind::Character => 'c',
        TokenKind::Sign => 's',
        TokenKind::Comment => 'k',
        TokenKind::HashLine => 'h',
    }
}

fn name(rule: LexRule) -> &'static str {
    match rule {
        LexRule::BadByte => "BadByte",
        LexRule::OpenComment => "OpenComment",
        LexRule::WideNumber => "WideNumber",
        LexRule::OpenText => "OpenText",
    }
}

/// A lexer of at most 1000 bytes of a text.
fn lexer_of(text: &str) -> Lexer<'_> {
    let source = text.as_bytes();
    Lexer::new(&source[..source.len().min(1000)])
}

/// The tokens of a text, and how it ends.
fn shown(alloc: Global, text: &str) -> Result<String, AllocError> {
    let mut out = String::new(alloc);
    let mut lexer = lexer_of(text);
    for _ in 0..2000 {
        let piece = match lexer.next() {
            Ok(
                Some(
                    Token {
                        kind,
                        text,
                        at,
                        line,
                    },
                ),
            ) => { format!(in alloc; "{}{at}+{}/{line} ", letter(kind), text.len())? }
            Ok(None) => format!(in alloc; "end")?,
            Err(LexFault { rule, at }) => format!(in alloc; "{} {at}", name(rule))?,
        };
        out.push_str(piece.as_str())?;
        if !piece.as_str().ends_with(' ') {
            break;
        }
    }
    Ok(out)
}

/// Compares the tokens of each row's text with those that are wanted.
fn compare(rt: &impl Abort, alloc: Global, rows: &[(&str, &str)]) -> Result<(), AllocError> {
    for (text, wanted) in rows {
        assert_eq!(rt; shown(alloc, text)?.as_str(), *wanted, "{text}");
    }
    Ok(())
}

#[test]
fn the_longest_token_of_each_kind_is_taken(rt: HostRuntime) -> Result<(), Fail> {
    Ok(compare(&rt, rt.alloc(), KINDS)?)
}

#[test]
fn lines_and_hash_lines_are_counted(rt: HostRuntime) -> Result<(), Fail> {
    Ok(compare(&rt, rt.alloc(), LINES)?)
}

#[test]
fn faults_have_their_rules_and_places(rt: HostRuntime) -> Result<(), Fail> {
    Ok(compare(&rt, rt.alloc(), FAULTS)?)
}

#[test]
fn the_end_and_a_fault_come_again(rt: HostRuntime) {
    let fault = LexFault {
        rule: LexRule::BadByte,
        at: 1,
    };
    for (text, tokens, ended) in [("a ", 1, Ok(None)), (" @ a", 0, Err(fault))] {
        let mut lexer = lexer_of(text);
        for _ in 0..tokens {
            assert!(rt; matches!(lexer.next(), Ok(Some(_))), "{text}");
        }
        assert_eq!(rt; lexer.next(), ended, "{text}");
        assert_eq!(rt; lexer.next(), ended, "{text}");
    }
}

/// Where a text is cut, the tokens that end before the cut are those of the whole text.
#[test]
fn a_cut_leaves_the_tokens_before_it(rt: HostRuntime) {
    let source = MIXED.as_bytes();
    for cut in 0..source.len() {
        let mut whole = Lexer::new(source);
        let mut part = Lexer::new(&source[..cut]);
        for _ in 0..source.len() {
            if let Ok(Some(token)) = whole.next() {
                let end = (token.at as usize).saturating_add(token.text.len());
                if cut <= end {
                    break;
                }
                assert_eq!(rt; part.next(), Ok(Some(token)));
            }
        }
    }
}
