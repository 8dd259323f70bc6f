//! The lines of a text.
ghost use Rattle.std.specs.Prelude.{◌≡◌, ◌==◌, ◌<◌, ◌≤◌, ◌∷◌, length, MatchOption};
ghost use Rattle.cv_cert.specs.Reading.{tokens_of, lines_in, unfinished};
ghost use Rattle.std.specs.List.{position_or_len};
ghost use Rattle.cv_cert.specs.declared.fault.ReadError.TheVariants.{Fault};

use crate::fault::ReadError;

/// The place of the first byte that is this one, or the length where there is none.
pub(crate) fn place_of(bytes: &[u8], byte: u8) -> usize
    ensures within { result ≤ length bytes.now }
    ensures place { result ≡ position_or_len (λ b. b == byte) bytes.now }
{
    for (i, b) in bytes.iter().enumerate() {
        if *b == byte {
            return i;
        }
    }
    bytes.len()
}

/// The first line without its newline, and what stands behind it; None where there is no newline.
pub(crate) fn next_line(text: &[u8]) -> Option<(&[u8], &[u8])>
    ensures { MatchOption result (lines_in text.now ≡ unfinished text.now) (λ p. (lines_in text.now ≡ tokens_of p.0.now ∷ lines_in p.1.now) × (length p.1.now < length text.now)) }
{
    let end = place_of(text, b'\n');
    if end == text.len() {
        return None;
    }
    Some((&text[..end], &text[end + 1..]))
}

/// How many lines there are; one without a newline counts.
pub(crate) fn lines_left(text: &[u8]) -> usize
    ensures { result ≡ length (lines_in text.now) }
{
    let mut count = 0;
    let mut rest = text;
    while let Some((_, after)) = next_line(rest) {
        count += 1;
        rest = after;
    }
    if rest.is_empty() { count } else { count + 1 }
}

/// That the first line of a text is wrong.
pub(crate) fn fault(text: &[u8]) -> ReadError
    ensures { result ≡ Fault (length (lines_in text.now)) }
{
    ReadError::Fault(lines_left(text))
}
