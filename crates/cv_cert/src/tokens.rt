//! The tokens of a line.
ghost use Rattle.std.specs.Prelude.{◌≡◌, ◌<◌, ◌≤◌, ◌^◌, ◌-◌, ◌∷◌, [], length, take, drop, pos, negsuc, MatchOption, IfSome, option_map};
ghost use Rattle.cv_cert.specs.Reading.{tokens_of};
ghost use Rattle.cv_cert.specs.Tokens.{fields, natural_of, negative_of, number_of, integer_of};
ghost use Rattle.cv_cert.specs.Lines.{tail_of};

use crate::lines::place_of;

/// Where the first token ends: at a space, or at the end.
fn token_end(bytes: &[u8]) -> usize
    ensures within { result ≤ length bytes.now }
    ensures tokens { tokens_of bytes.now ≡ take result bytes.now ∷ fields (drop result bytes.now) }
{
    place_of(bytes, b' ')
}

/// The next token behind a space, and what stands behind it; None at the end of the line.
pub(crate) fn next_token(rest: &[u8]) -> Option<(&[u8], &[u8])>
    ensures { MatchOption result (fields rest.now ≡ []) (λ p. (fields rest.now ≡ p.0.now ∷ fields p.1.now) × (length p.1.now < length rest.now)) }
{
    let [_, bytes @ ..] = rest else {
        return None;
    };
    let end = token_end(bytes);
    Some((&bytes[..end], &bytes[end..]))
}

/// What stands behind a line's first token, where that is this word.
pub(crate) fn after_word<'a>(line: &'a [u8], word: &[u8]) -> Option<&'a [u8]>
    ensures { option_map (λ r. fields r.now) result ≡ tail_of word.now (tokens_of line.now) }
{
    let end = token_end(line);
    if &line[..end] == word {
        Some(&line[end..])
    } else {
        None
    }
}

/// The number of at most `most` that a token spells, without a sign or a leading zero.
#[tactic(auto, unfolding(crate::specs::Tokens::natural_of))]
fn natural(token: &[u8], most: u64) -> Option<u64>
    requires { most ≤ 2 ^ 63 }
    ensures value { result ≡ natural_of most token.now }
    ensures bound { IfSome result (λ n. n ≤ most) }
{
    match token {
        [] => return None,
        [b'0', _, ..] => return None,
        _ => {}
    }
    let mut value = 0;
    let mut rest = token;
    while let [digit, tail @ ..] = rest {
        if !digit.is_ascii_digit() {
            return None;
        }
        if value > most / 10 {
            return None;
        }
        value = value * 10 + u64::from(*digit - b'0');
        rest = tail;
    }
    if value <= most { Some(value) } else { None }
}

/// The number of 32 bits that a token spells.
#[tactic(auto, unfolding(crate::specs::Tokens::number_of))]
pub(crate) fn number(token: &[u8]) -> Option<u32>
    ensures { result ≡ number_of token.now }
{
    match natural(token, 4294967295) {
        None => None,
        Some(n) => Some(n as u32),
    }
}

/// `-n`.
fn negated(n: u64) -> i64
    requires positive { 0 < n }
    requires bound { n ≤ 2 ^ 63 }
    ensures { result ≡ negsuc (n - 1) }
{
    -((n - 1) as i64) - 1
}

/// The number of 64 bits of which these are the digits behind a minus.
fn negative(digits: &[u8]) -> Option<i64>
    ensures { result ≡ negative_of (natural_of 9223372036854775808 digits.now) }
{
    match natural(digits, 9223372036854775808) {
        None | Some(0) => None,
        Some(n) => Some(negated(n)),
    }
}

/// The number of 64 bits of which these are the digits.
fn positive(digits: &[u8]) -> Option<i64>
    ensures { result ≡ option_map (λ n. pos n) (natural_of 9223372036854775807 digits.now) }
{
    match natural(digits, 9223372036854775807) {
        None => None,
        Some(n) => Some(n as i64),
    }
}

/// The number of 64 bits that a token spells, with a minus before it where it is below 0.
#[tactic(auto, unfolding(crate::specs::Tokens::integer_of))]
pub(crate) fn integer(token: &[u8]) -> Option<i64>
    ensures { result ≡ integer_of token.now }
{
    let [sign, digits @ ..] = token else {
        return None;
    };
    if *sign == b'-' {
        negative(digits)
    } else {
        positive(token)
    }
}
