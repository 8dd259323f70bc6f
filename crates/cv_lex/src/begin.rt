//! The token that begins at a place.

ghost use Rattle.std.specs.Prelude.{◌≡◌, ◌<◌, ◌≤◌, ◌^◌, length, get_or};
ghost use Rattle.std.specs.List.{list_any};
ghost use Rattle.cv_lex.specs.Bytes.{begins};
ghost use Rattle.cv_lex.specs.Parts as part;
ghost use Rattle.cv_lex.specs.Parts.{Fits};

use crate::bytes::{
    byte, digits_in_front, hex_digits_in_front, is_hex_digit, is_letter, line_bytes,
    word_bytes_in_front,
};
use crate::number::{WIDE, value_up_to_wide};
use crate::quoted::{character_bytes, comment_end, text_end};
use crate::token::{LexRule, TokenKind};

/// A token of so many bytes, or the rule that is broken.
#[derive(Clone, Copy, Debug)]
pub enum Front {
    Part(TokenKind, usize),
    Broken(LexRule),
}

fn part_or(kind: TokenKind, rule: LexRule, len: Option<usize>) -> Front
    ensures { result ≡ part.part_or kind rule len }
{
    match len {
        Some(len) => Front::Part(kind, len),
        None => Front::Broken(rule),
    }
}

fn sized(value: u64, len: usize) -> Front
    ensures { result ≡ part.sized value len }
{
    if WIDE <= value {
        Front::Broken(LexRule::WideNumber)
    } else {
        Front::Part(TokenKind::Number, len)
    }
}

/// The number of a text that begins with a digit.
fn number(text: &[u8]) -> Front
    ensures front { result ≡ part.number text.now }
{
    if text.starts_with(b"0x") && is_hex_digit(byte(text, 2)) {
        let digits = &text[2..];
        let len = hex_digits_in_front(digits);
        return sized(value_up_to_wide(16, &digits[..len]), 2 + len);
    }
    let len = digits_in_front(text);
    sized(value_up_to_wide(10, &text[..len]), len)
}

fn begins_double(text: &[u8]) -> bool
    ensures { result ≡ list_any (begins text.now) part.double_signs }
{
    text.starts_with(b"==")
        || text.starts_with(b"!=")
        || text.starts_with(b"<=")
        || text.starts_with(b">=")
        || text.starts_with(b"&&")
        || text.starts_with(b"||")
        || text.starts_with(b"++")
        || text.starts_with(b"--")
        || text.starts_with(b"+=")
        || text.starts_with(b"-=")
}

fn is_single(c: u8) -> bool
    ensures { result ≡ part.is_single c }
{
    matches!(
        c,
        b'=' | b'<'
            | b'>'
            | b'+'
            | b'-'
            | b'*'
            | b'/'
            | b'%'
            | b'&'
            | b'|'
            | b'!'
            | b','
            | b';'
            | b':'
            | b'('
            | b')'
            | b'{'
            | b'}'
            | b'['
            | b']'
    )
}

fn sign(first: u8, text: &[u8]) -> Front
    ensures front { result ≡ part.sign first text.now }
{
    if begins_double(text) {
        Front::Part(TokenKind::Sign, 2)
    } else if is_single(first) {
        Front::Part(TokenKind::Sign, 1)
    } else {
        Front::Broken(LexRule::BadByte)
    }
}

/// A comment, a text, a character or a `#` line, where one begins.
fn marked(starts: bool, first: u8, text: &[u8]) -> Option<Front>
    requires { 0 < length text.now }
    ensures front { result ≡ part.marked starts first text.now }
{
    if starts && first == b'#' {
        return Some(Front::Part(TokenKind::HashLine, line_bytes(text)));
    }
    if text.starts_with(b"//") {
        return Some(Front::Part(TokenKind::Comment, line_bytes(text)));
    }
    if text.starts_with(b"/*") {
        let end = comment_end(text);
        return Some(part_or(TokenKind::Comment, LexRule::OpenComment, end));
    }
    if first == b'"' {
        let end = text_end(text);
        return Some(part_or(TokenKind::Text, LexRule::OpenText, end));
    }
    if first == b'\'' {
        let len = character_bytes(text);
        return Some(part_or(TokenKind::Character, LexRule::OpenText, len));
    }
    None
}

/// The token that begins a text whose first byte is `first`; `starts` says whether that is the first of its line.
pub fn begun(starts: bool, first: u8, text: &[u8]) -> Front
    requires { 0 < length text.now }
    ensures front { result ≡ part.begun starts first text.now }
{
    if let Some(front) = marked(starts, first, text) {
        return front;
    }
    if is_letter(first) {
        return Front::Part(TokenKind::Word, word_bytes_in_front(text));
    }
    if first.is_ascii_digit() {
        return number(text);
    }
    sign(first, text)
}
