//! Comments, texts and characters: where they end.

ghost use Rattle.std.specs.Prelude.{◌≡◌, ◌+◌, ◌≤◌, ◌<◌, ◌^◌, IfSome, false, true, length, drop};
ghost use Rattle.cv_lex.specs.Parts as spec;

use crate::bytes::{byte, is_escape};

/// A `*` before a `/`.
#[tactic(auto, unfolding(crate::specs::Parts::closes))]
fn closes(first: u8, behind: &[u8]) -> bool
    ensures value { result ≡ spec.closes first behind.now }
    ensures within { result ≡ true → 1 ≤ length behind.now }
{
    match behind {
        [second, ..] => {
            let is_star = first == b'*';
            let is_slash = *second == b'/';
            is_star && is_slash
        }
        [] => false,
    }
}

/// The place behind the first `*/`, of which the first byte is at 2 or behind.
pub fn comment_end(text: &[u8]) -> Option<usize>
    requires { 2 ≤ length text.now }
    ensures end { result ≡ spec.close_from 2 (drop 2 text.now) }
    ensures within { IfSome result (λ n. n ≤ length text.now) }
{
    let mut at = 2;
    let mut rest = &text[2..];
    while let [first, tail @ ..] = rest {
        if closes(*first, tail) {
            return Some(at + 2);
        }
        at += 1;
        rest = tail;
    }
    None
}

/// The place behind the quote that closes a text whose first byte is the opening one.
pub fn text_end(text: &[u8]) -> Option<usize>
    requires { 1 ≤ length text.now }
    ensures end { result ≡ spec.quote_from false 1 (drop 1 text.now) }
    ensures within { IfSome result (λ n. n ≤ length text.now) }
{
    let mut at = 1;
    let mut escaped = false;
    let mut rest = &text[1..];
    while let [c, tail @ ..] = rest {
        at += 1;
        if escaped {
            if !is_escape(*c) {
                return None;
            }
            escaped = false;
        } else {
            if *c == b'"' {
                return Some(at);
            }
            if *c == b'\n' {
                return None;
            }
            escaped = *c == b'\\';
        }
        rest = tail;
    }
    None
}

/// How many bytes a character has whose first byte is the opening quote.
pub fn character_bytes(text: &[u8]) -> Option<usize>
    ensures end { result ≡ spec.character_length text.now }
    ensures within { IfSome result (λ n. n ≤ length text.now) }
{
    let first = byte(text, 1);
    let second = byte(text, 2);
    let third = byte(text, 3);
    let is_plain = first != b'\'' && first != b'\\' && first != b'\n';
    let is_escaped = first == b'\\' && is_escape(second);
    if is_plain && second == b'\'' {
        Some(3)
    } else if is_escaped && third == b'\'' {
        Some(4)
    } else {
        None
    }
}
