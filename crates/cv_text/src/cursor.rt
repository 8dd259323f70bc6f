//! Reading single tokens of a text from a place on.

ghost use Rattle.std.specs.Prelude.{◌≡◌, ◌≤◌, ◌<◌, ◌^◌, ◌+◌, min, IfOk, pos, neg_ℤ};
ghost use Rattle.cv_text.specs.Tokens as spec;
ghost use Rattle.cv_text.specs.Reader as reader;
ghost use Rattle.cv_text.specs.Given.{Gives, from};
ghost use Rattle.cv_text.specs.declared.cursor.ReadError.TheVariants.{Memory};

use crate::lexer::next_token;
use crate::token::{Key, Sign, Token, key_bytes, sign_bytes};
use cv_list::{Bytes, List};
use std::alloc::{AllocError, AllocFailed, Global};

/// Why a reader stopped.
#[derive(Debug, Drop)]
pub enum ReadError {
    Memory,
    /// The token at or behind this place can't stand there.
    Fault(usize),
}

impl From<AllocError> for ReadError {
    ghost from_gives = { λ _ e. e ≡ Memory };

    fn from(_e: AllocError) -> ReadError {
        ReadError::Memory
    }
}

impl<T: Drop> From<AllocFailed<T>> for ReadError {
    ghost from_gives = { λ _ e. e ≡ Memory };

    fn from(_e: AllocFailed<T>) -> ReadError {
        ReadError::Memory
    }
}

/// The place behind the sign that has to stand next.
#[tactic(auto, unfolding(crate::specs::Reader::the_mark))]
pub fn the_mark(text: &[u8], at: usize, sign: Sign) -> Result<usize, ReadError>
    ensures { Gives text.now (λ end. (tt, end)) result (reader.the_mark sign (from text.now at)) }
{
    let next = next_token(text, at);
    match next.token {
        Some(Token::Mark(found)) if sign_bytes(found) == sign_bytes(sign) => Ok(next.end),
        _ => Err(ReadError::Fault(at)),
    }
}

/// The name that has to stand next, and the place behind it.
#[tactic(auto, unfolding(crate::specs::Reader::a_name))]
pub fn a_name(alloc: Global, text: &[u8], at: usize) -> Result<(Bytes, usize), ReadError>
    ensures { Gives text.now (λ x. (x.0, x.1)) result (reader.a_name (from text.now at)) }
{
    let next = next_token(text, at);
    match next.token {
        Some(Token::Name(name)) => Ok((List::from_slice(alloc, name)?, next.end)),
        _ => Err(ReadError::Fault(at)),
    }
}

/// The place behind the word that has to stand next.
#[tactic(auto, unfolding(crate::specs::Reader::the_word))]
pub fn the_word(text: &[u8], at: usize, key: Key) -> Result<usize, ReadError>
    ensures { Gives text.now (λ end. (tt, end)) result (reader.the_word key (from text.now at)) }
{
    let next = next_token(text, at);
    match next.token {
        Some(Token::Word(found)) if key_bytes(found) == key_bytes(key) => Ok(next.end),
        _ => Err(ReadError::Fault(at)),
    }
}

/// The place behind the name that has to stand next.
#[tactic(auto, unfolding(crate::specs::Reader::the_name))]
pub fn the_name(text: &[u8], at: usize, name: &[u8]) -> Result<usize, ReadError>
    ensures { Gives text.now (λ end. (tt, end)) result (reader.the_name name.now (from text.now at)) }
{
    let next = next_token(text, at);
    match next.token {
        Some(Token::Name(found)) if found == name => Ok(next.end),
        _ => Err(ReadError::Fault(at)),
    }
}

const WIDE: u64 = 4294967296;

/// The value of digits, or 2^32 where it is more.
fn value_up_to_wide(digits: &[u8]) -> u64
    ensures { result ≡ min (spec.value_of digits.now) (2 ^ 32) }
{
    let mut value = 0;
    for digit in digits {
        value = (10 * value + u64::from(digit.saturating_sub(b'0'))).min(WIDE);
    }
    value
}

/// The value of digits, where it is from `low` up to below `high`.
pub(crate) fn value_within(digits: &[u8], low: u32, high: u32) -> Option<u32>
    ensures { result ≡ reader.within low high (spec.digits digits.now) }
{
    let value = value_up_to_wide(digits);
    if u64::from(low) <= value && value < u64::from(high) {
        Some(value as u32)
    } else {
        None
    }
}

/// The value of the digits that have to stand next, from `low` up to below `high`, and the place behind them.
#[tactic(auto, unfolding(crate::specs::Reader::digits_within))]
pub fn digits_within(text: &[u8], at: usize, low: u32, high: u32) -> Result<(u32, usize), ReadError>
    ensures value { Gives text.now (λ x. (x.0, x.1)) result (reader.digits_within low high (from text.now at)) }
    ensures bound { IfOk result (λ x. x.0 < high) }
{
    let next = next_token(text, at);
    if let Some(Token::Digits(digits)) = next.token {
        if let Some(value) = value_within(digits, low, high) {
            return Ok((value, next.end));
        }
    }
    Err(ReadError::Fault(at))
}

pub(crate) const LIMIT: u32 = 2147483648;

/// The number of a line or a jump that has to stand next, and the place behind it.
#[tactic(auto, unfolding(crate::specs::Reader::count))]
pub fn count(text: &[u8], at: usize) -> Result<(u32, usize), ReadError>
    ensures { Gives text.now (λ x. (x.0, x.1)) result (reader.count (from text.now at)) }
{
    digits_within(text, at, 0, LIMIT)
}

/// The size of a buffer that has to stand next, and the place behind it.
#[tactic(auto, unfolding(crate::specs::Reader::size))]
pub fn size(text: &[u8], at: usize) -> Result<(u32, usize), ReadError>
    ensures { Gives text.now (λ x. (x.0, x.1)) result (reader.size (from text.now at)) }
{
    digits_within(text, at, 1, LIMIT)
}

fn negated(n: u32) -> i32
    requires { n ≤ 2 ^ 31 }
    ensures { result ≡ neg_ℤ (pos n) }
{
    if n == LIMIT { i32::MIN } else { -(n as i32) }
}

/// The number within the range of an int that has to stand next, and the place behind it.
#[tactic(auto, unfolding(crate::specs::Reader::number))]
pub fn number(text: &[u8], at: usize) -> Result<(i32, usize), ReadError>
    ensures { Gives text.now (λ x. (x.0, x.1)) result (reader.number (from text.now at)) }
{
    let next = next_token(text, at);
    if let Some(Token::Mark(Sign::Minus)) = next.token {
        let (value, at) = digits_within(text, next.end, 0, LIMIT + 1)?;
        return Ok((negated(value), at));
    }
    let (value, at) = digits_within(text, at, 0, LIMIT)?;
    Ok((value as i32, at))
}

/// The place behind the semicolon that has to stand next.
#[tactic(auto, unfolding(crate::specs::Reader::semicolon))]
pub fn semicolon(text: &[u8], at: usize) -> Result<usize, ReadError>
    ensures { Gives text.now (λ end. (tt, end)) result (reader.semicolon (from text.now at)) }
{
    the_mark(text, at, Sign::Semicolon)
}
