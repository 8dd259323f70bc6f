//! The numbers that words write.
ghost use Rattle.std.specs.Prelude.{◌≡◌};
ghost use Rattle.std.specs.List.{list_all};
ghost use Rattle.std.specs.Char.{is_ascii_digit};
ghost use Rattle.cv_app.specs.Numbers as spec;

/// Whether all bytes are digits.
fn are_digits(word: &[u8]) -> bool
    ensures { result ≡ list_all is_ascii_digit word.now }
{
    word.iter().all(|byte| byte.is_ascii_digit())
}

/// Whether the word is one to ten digits.
fn is_short(word: &[u8]) -> bool
    ensures { result ≡ spec.is_short word.now }
{
    let some = 1 <= word.len();
    let few = word.len() <= 10;
    let digits = are_digits(word);
    some && few && digits
}

/// The number that one to ten digits write, where it is at most `most`.
fn number_up_to(word: &[u8], most: u32) -> Option<u32>
    ensures { result ≡ spec.number_up_to most word.now }
{
    if !is_short(word) {
        return None;
    }
    let mut value = 0;
    for digit in word {
        let next = 10 * u64::from(value) + u64::from(digit.saturating_sub(b'0'));
        if next > u64::from(most) {
            return None;
        }
        value = next as u32;
    }
    Some(value)
}

/// The number of steps that a word writes: one to ten digits, at most 1000000000.
pub(crate) fn steps_of(word: &[u8]) -> Option<u32>
    ensures { result ≡ spec.steps_of word.now }
{
    number_up_to(word, 1000000000)
}

/// The int that a word writes: one to ten digits, with a minus before them or without.
pub(crate) fn int_of(word: &[u8]) -> Option<i32>
    ensures { result ≡ spec.int_of word.now }
{
    let [sign, digits @ ..] = word else {
        return None;
    };
    if *sign == b'-' {
        let number = number_up_to(digits, 2147483648)?;
        Some(-i64::from(number) as i32)
    } else {
        let number = number_up_to(word, 2147483647)?;
        Some(number as i32)
    }
}
