//! The order of lists of pairs.
ghost use Rattle.std.specs.Prelude.{◌≡◌};
ghost use Rattle.cv_num.specs.Comparison.{pairs_cmp};

use std::cmp::Ordering;

/// The order of lists of pairs: pair by pair, each by its variable, then by its coefficient, and a
/// prefix first.
pub fn compare_pairs(a: &[(u32, i64)], b: &[(u32, i64)]) -> Ordering
    ensures { result ≡ pairs_cmp a.now b.now }
{
    a.cmp(b)
}
