//! Numbers: their values.

ghost use Rattle.std.specs.Prelude.{◌≡◌, ◌≤◌, ◌^◌, ◌+◌, min};
ghost use Rattle.cv_lex.specs.Bytes.{digit_value, value_of};

/// The least value that is wider than any number of the two grammars may be.
pub const WIDE: u64 = 2147483649;

/// What a digit or a hexadecimal digit is worth.
fn worth(c: u8) -> u8
    ensures { result ≡ digit_value c }
{
    if c.is_ascii_digit() {
        c - b'0'
    } else if b'a' <= c {
        c - 87
    } else {
        c.saturating_sub(55)
    }
}

/// The value of digits to this base, or `WIDE` where it is more.
pub fn value_up_to_wide(base: u8, digits: &[u8]) -> u64
    requires { 1 ≤ base }
    ensures { result ≡ min (value_of base digits.now) (2 ^ 31 + 1) }
{
    let mut value = 0;
    for digit in digits {
        value = (u64::from(base) * value + u64::from(worth(*digit))).min(WIDE);
    }
    value
}
