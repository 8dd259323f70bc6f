//! Bytes, and how many of a kind stand in front of a text.

ghost use Rattle.std.specs.Prelude.{◌≡◌, ◌≤◌, not, length};
ghost use Rattle.cv_core.specs.Grammar.{is_letter as letter, is_digit as digit};
ghost use Rattle.cv_lex.specs.Bytes as spec;
ghost use Rattle.cv_lex.specs.Parts.{line_length};

pub fn is_letter(c: u8) -> bool
    ensures { result ≡ letter c }
{
    c.is_ascii_alphabetic() || c == b'_' || c == b'$'
}

pub fn is_blank(c: u8) -> bool
    ensures { result ≡ spec.is_blank c }
{
    matches!(c, b' ' | b'\t' | b'\n' | b'\r')
}

fn is_word_byte(c: u8) -> bool
    ensures { result ≡ spec.is_word_byte c }
{
    is_letter(c) || c.is_ascii_digit()
}

pub fn is_hex_digit(c: u8) -> bool
    ensures { result ≡ spec.is_hex_digit c }
{
    c.is_ascii_hexdigit()
}

pub fn is_escape(c: u8) -> bool
    ensures { result ≡ spec.is_escape c }
{
    matches!(c, b'n' | b't' | b'r' | b'0' | b'\\' | b'\'' | b'"')
}

/// The byte at a place, 0 behind the end.
pub fn byte(text: &[u8], at: usize) -> u8
    ensures { result ≡ spec.byte_at text.now at }
{
    if at < text.len() { text[at] } else { 0 }
}

pub fn blanks_in_front(text: &[u8]) -> usize
    ensures count { result ≡ spec.run spec.is_blank text.now }
    ensures within { result ≤ length text.now }
{
    text.iter().take_while(|c| is_blank(**c)).count()
}

pub fn word_bytes_in_front(text: &[u8]) -> usize
    ensures count { result ≡ spec.run spec.is_word_byte text.now }
    ensures within { result ≤ length text.now }
{
    text.iter().take_while(|c| is_word_byte(**c)).count()
}

pub fn digits_in_front(text: &[u8]) -> usize
    ensures count { result ≡ spec.run digit text.now }
    ensures within { result ≤ length text.now }
{
    text.iter().take_while(|c| c.is_ascii_digit()).count()
}

pub fn hex_digits_in_front(text: &[u8]) -> usize
    ensures count { result ≡ spec.run spec.is_hex_digit text.now }
    ensures within { result ≤ length text.now }
{
    text.iter().take_while(|c| is_hex_digit(**c)).count()
}

/// The bytes up to before the newline, or up to the end.
pub fn line_bytes(text: &[u8]) -> usize
    ensures count { result ≡ line_length text.now }
    ensures within { result ≤ length text.now }
{
    text.iter().take_while(|c| **c != b'\n').count()
}
