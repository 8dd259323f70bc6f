//! The order of the rows of a statement.
ghost use Rattle.std.specs.Prelude.{◌≡◌, ℕ, ℤ};
ghost use Rattle.cv_cert.specs.Certificate.{is_before as before_of};
ghost use Rattle.cv_cert.specs.Tokens as spec;
ghost use Rattle.cv_cert.specs.Views.{last_row};

use cv_num::Row;

/// Whether pairs stand before others: pair by pair, and a prefix first.
fn is_before(left: &[(u32, i64)], right: &[(u32, i64)]) -> bool
    ensures { result ≡ before_of left.now right.now }
{
    let mut a = left;
    let mut b = right;
    while let [(v, c), a_rest @ ..] = a {
        let [(w, d), b_rest @ ..] = b else {
            return false;
        };
        if v != w {
            return v < w;
        }
        if c != d {
            return c < d;
        }
        a = a_rest;
        b = b_rest;
    }
    !b.is_empty()
}

/// Whether there are `count` coefficients above this one.
fn has_above(count: u32, coefficient: i64) -> bool
    ensures { result ≡ spec.room_above count coefficient }
{
    coefficient < 0 || u64::from(count) + coefficient as u64 <= 9223372036854775807
}

/// Whether `count` rows can stand behind one with these pairs.
pub(crate) fn has_room(count: u32, pairs: &[(u32, i64)]) -> bool
    ensures { result ≡ spec.has_room count pairs.now }
{
    match pairs {
        [] => true,
        [(variable, coefficient), ..] => {
            *variable < 4294967295 || has_above(count, *coefficient)
        }
    }
}

/// Whether a row may stand behind the last of these.
pub(crate) fn is_after(rows: &[Row], r: &Row) -> bool
    ensures { result ≡ spec.is_after (last_row rows.now) r.now }
{
    match rows {
        [] => true,
        [.., last] => is_before(last.pairs.as_slice(), r.pairs.as_slice()),
    }
}
