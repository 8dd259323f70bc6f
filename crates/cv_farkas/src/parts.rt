//! The parts of a step, and the sums over them.
ghost use Rattle.std.specs.Prelude.{◌≡◌, ◌↔◌, ◌≤◌, ◌<◌, ◌^◌, ◌-◌, ℕ, ℤ, pos, ◌+ℤ◌, ◌*ℤ◌, ◌≤ℤ◌, IsTrue, All, length};
ghost use Rattle.std.specs.Int.RustNames.{unsigned_abs};
ghost use Rattle.cv_num.specs.Pairs.{IsCanonical, coefficient_of, IsBefore, IsFrom};
ghost use Rattle.cv_farkas.specs.Parts.{sum_of_parts};

use cv_num::{Row, coefficient, lesser, next_variable, next_wide_variable, wide_coefficient};

/// `sum + multiplier * value`.
fn plus_multiple(sum: i128, multiplier: u32, value: i64) -> i128
    requires { unsigned_abs sum ≤ 2 ^ 126 }
    ensures { result ≡ sum +ℤ pos multiplier *ℤ value }
{
    sum + i128::from(multiplier) * i128::from(value)
}

/// Whether `d * value` is the sum.
fn is_multiple(d: u32, value: i128, sum: i128) -> bool
    ensures { IsTrue result ↔ (pos d *ℤ value ≡ sum) }
{
    i128::from(d).checked_mul(value) == Some(sum)
}

/// Whether the sum is at most `d * value + (d - 1)`, the greatest number that d divides down to `value`.
/// The sum is divided, so that no product can overflow.
pub(crate) fn is_within_multiple(sum: i128, d: u32, value: i128) -> bool
    requires { 1 ≤ d }
    ensures { IsTrue result ↔ (sum ≤ℤ ((pos d *ℤ value) +ℤ pos (d - 1))) }
{
    sum.div_euclid(i128::from(d)) <= value
}

/// The coefficient of a variable in the sum of the parts.
pub(crate) fn coefficient_sum(hyps: &[Row], parts: &[(u32, u32)], variable: u32) -> i128
    requires hypotheses { All (λ p. p.0 < length hyps.now) parts.now }
    requires multipliers { All (λ p. p.1 ≤ 2147483647) parts.now }
    requires few { length parts.now ≤ 4096 }
    ensures { result ≡ sum_of_parts (λ r. coefficient_of r.pairs variable) hyps.now parts.now }
{
    let mut sum = 0i128;
    for (hypothesis, multiplier) in parts {
        let row = &hyps[*hypothesis as usize];
        let value = coefficient(row.pairs.as_slice(), variable);
        sum = plus_multiple(sum, *multiplier, value);
    }
    sum
}

/// The constant of the sum of the parts.
pub(crate) fn constant_sum(hyps: &[Row], parts: &[(u32, u32)]) -> i128
    requires hypotheses { All (λ p. p.0 < length hyps.now) parts.now }
    requires multipliers { All (λ p. p.1 ≤ 2147483647) parts.now }
    requires few { length parts.now ≤ 4096 }
    ensures { result ≡ sum_of_parts (λ r. r.constant) hyps.now parts.now }
{
    let mut sum = 0i128;
    for (hypothesis, multiplier) in parts {
        let row = &hyps[*hypothesis as usize];
        sum = plus_multiple(sum, *multiplier, row.constant);
    }
    sum
}

/// A variable before which, from `from` on, neither the goal nor the hypotheses of the parts have one.
pub(crate) fn next_of_parts(
    hyps: &[Row],
    parts: &[(u32, u32)],
    goal: &[(u32, i128)],
    from: u64,
) -> Option<u32>
    requires hypotheses { All (λ p. p.0 < length hyps.now) parts.now }
    requires goal { IsCanonical goal.now }
    ensures zero_before { (u : ℕ) → from ≤ u → IsBefore u result → (coefficient_of goal.now u ≡ pos 0) × (sum_of_parts (λ r. coefficient_of r.pairs u) hyps.now parts.now ≡ pos 0) }
    ensures at_least { IsFrom from result }
{
    let mut least = next_wide_variable(goal, from);
    for (hypothesis, _) in parts {
        let row = &hyps[*hypothesis as usize];
        least = lesser(least, next_variable(row.pairs.as_slice(), from));
    }
    least
}

/// Whether d * goal has the coefficients of the sum of the parts.
pub(crate) fn balances(hyps: &[Row], parts: &[(u32, u32)], goal: &[(u32, i128)], d: u32) -> bool
    requires hypotheses { All (λ p. p.0 < length hyps.now) parts.now }
    requires multipliers { All (λ p. p.1 ≤ 2147483647) parts.now }
    requires few { length parts.now ≤ 4096 }
    requires canonical { IsCanonical goal.now }
    ensures { IsTrue result ↔ ((v : ℕ) → pos d *ℤ coefficient_of goal.now v ≡ sum_of_parts (λ r. coefficient_of r.pairs v) hyps.now parts.now) }
{
    let mut from = 0u64;
    while let Some(variable) = next_of_parts(hyps, parts, goal, from) {
        let sum = coefficient_sum(hyps, parts, variable);
        if !is_multiple(d, wide_coefficient(goal, variable), sum) {
            return false;
        }
        from = u64::from(variable) + 1;
    }
    true
}
