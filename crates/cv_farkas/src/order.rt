//! The order of rows by their coefficients, those of the least variable first.
ghost use Rattle.std.specs.Prelude.{◌≡◌, ◌≤◌, ◌<◌, ℕ, ℤ, pos, ◌+ℤ◌, ◌*ℤ◌};
ghost use Rattle.std.specs.Ordering.{is_lt};
ghost use Rattle.cv_num.specs.Pairs.{IsCanonical, coefficient_of, IsBefore, IsFrom};
ghost use Rattle.cv_farkas.specs.Order.{IsCompared, IsSplit, row_lt};

use cv_num::{Row, lesser, next_variable, next_wide_variable, plus_product};
use std::cmp::Ordering;

/// The coefficient of a variable, and the pairs of greater variables.
#[derive(Drop)]
struct Split<'a> {
    coefficient: i64,
    rest: &'a [(u32, i64)],
}

/// The same of a wide row.
#[derive(Drop)]
struct WideSplit<'a> {
    coefficient: i128,
    rest: &'a [(u32, i128)],
}

/// Splits pairs at a variable below which they have none.
fn split_at(pairs: &[(u32, i64)], variable: u32) -> Split<'_>
    requires canonical { IsCanonical pairs.now }
    requires none_below { (u : ℕ) → u < variable → coefficient_of pairs.now u ≡ pos 0 }
    ensures { IsSplit pairs.now variable result.coefficient result.rest.now }
{
    if let [(at, coefficient), rest @ ..] = pairs {
        if *at == variable {
            return Split {
                coefficient: *coefficient,
                rest,
            };
        }
        return Split {
            coefficient: 0,
            rest: pairs,
        };
    }
    Split {
        coefficient: 0,
        rest: pairs,
    }
}

/// The same of a wide row.
fn wide_split_at(pairs: &[(u32, i128)], variable: u32) -> WideSplit<'_>
    requires canonical { IsCanonical pairs.now }
    requires none_below { (u : ℕ) → u < variable → coefficient_of pairs.now u ≡ pos 0 }
    ensures { IsSplit pairs.now variable result.coefficient result.rest.now }
{
    if let [(at, coefficient), rest @ ..] = pairs {
        if *at == variable {
            return WideSplit {
                coefficient: *coefficient,
                rest,
            };
        }
        return WideSplit {
            coefficient: 0,
            rest: pairs,
        };
    }
    WideSplit {
        coefficient: 0,
        rest: pairs,
    }
}

/// The least variable from `from` on that one of the three has.
fn next_of_three(
    left: &[(u32, i64)],
    right: &[(u32, i64)],
    goal: &[(u32, i128)],
    from: u64,
) -> Option<u32>
    requires left { IsCanonical left.now }
    requires right { IsCanonical right.now }
    requires goal { IsCanonical goal.now }
    ensures zero_before { (u : ℕ) → from ≤ u → IsBefore u result → (coefficient_of left.now u ≡ pos 0) × (coefficient_of right.now u ≡ pos 0) × (coefficient_of goal.now u ≡ pos 0) }
    ensures at_least { IsFrom from result }
{
    let least = lesser(next_variable(left, from), next_variable(right, from));
    lesser(least, next_wide_variable(goal, from))
}

/// How `left + k * right` compares with `goal`.
pub(crate) fn compare_combined(
    left: &[(u32, i64)],
    k: i64,
    right: &[(u32, i64)],
    goal: &[(u32, i128)],
) -> Ordering
    requires left { IsCanonical left.now }
    requires right { IsCanonical right.now }
    requires goal { IsCanonical goal.now }
    ensures { IsCompared result (λ u. coefficient_of left.now u +ℤ k *ℤ coefficient_of right.now u) (coefficient_of goal.now) }
{
    let mut left_rest = left;
    let mut right_rest = right;
    let mut goal_rest = goal;
    let mut from = 0u64;
    while let Some(variable) = next_of_three(left_rest, right_rest, goal_rest, from) {
        let x = split_at(left_rest, variable);
        let y = split_at(right_rest, variable);
        let z = wide_split_at(goal_rest, variable);
        let sum = plus_product(i128::from(x.coefficient), k, y.coefficient);
        if sum < z.coefficient {
            return Ordering::Less;
        }
        if z.coefficient < sum {
            return Ordering::Greater;
        }
        left_rest = x.rest;
        right_rest = y.rest;
        goal_rest = z.rest;
        from = u64::from(variable) + 1;
    }
    Ordering::Equal
}

/// How a row compares with another: by their coefficients, then by their constants.
pub(crate) fn compare_rows(a: &Row, b: &Row) -> Ordering
    ensures { is_lt result ≡ row_lt a.now b.now }
{
    match compare_combined(a.pairs.as_slice(), -1, b.pairs.as_slice(), &[]) {
        Ordering::Equal => a.constant.cmp(&b.constant),
        other => other,
    }
}
