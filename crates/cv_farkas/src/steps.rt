//! Steps of proof.
ghost use Rattle.std.specs.Prelude.{◌≡◌, ◌↔◌, ◌≤◌, ◌<◌, ℕ, ℤ, pos, ◌≤ℤ◌, IsTrue, IfOk, MatchOption, All, length, [], ◌∷◌};
ghost use Rattle.cv_num.specs.Pairs.{IsCanonical};
ghost use Rattle.cv_num.specs.Rows.{as_row, row_value, wide_value};
ghost use Rattle.cv_farkas.specs.Covers.{IsInRange, IsCovered};
ghost use Rattle.cv_farkas.specs.Proof;
ghost use Rattle.cv_farkas.specs.Steps.{Holds, HoldsBy, IsShort, IsTwoParts, two_ascending};
ghost use Rattle.cv_farkas.specs.declared.steps.Step.{Step};

use crate::parts::{balances, constant_sum, is_within_multiple};
use crate::search::{find_sum, index_of};
use cv_list::List;
use cv_num::{Row, Wide};
use std::alloc::{AllocError, Global};

/// A step of proof: d times the goal against a sum of multiples of hypotheses.
#[derive(Debug, Drop)]
pub struct Step {
    pub d: u32,
    /// Ascending hypotheses, counted from 0, each with its multiplier.
    pub parts: List<(u32, u32)>,
}

/// Whether a divisor and parts are in their ranges, over so many hypotheses.
fn is_in_range(count: usize, d: u32, parts: &[(u32, u32)]) -> bool
    ensures { IsTrue result ↔ IsInRange count d parts.now }
{
    if count > 4096 || d < 1 || d > 65535 {
        return false;
    }
    let mut rest = parts;
    while let [(hypothesis, multiplier), tail @ ..] = rest {
        if *hypothesis as usize >= count || *multiplier < 1 || *multiplier > 2147483647 {
            return false;
        }
        if let [(next, _), ..] = tail
            && next <= hypothesis
        {
            return false;
        }
        rest = tail;
    }
    true
}

/// Whether d * goal + (d - 1) less the sum of the parts is a constant of at least 0.
fn covers(hyps: &[Row], parts: &[(u32, u32)], pairs: &[(u32, i128)], constant: i128, d: u32) -> bool
    requires range { IsInRange (length hyps.now) d parts.now }
    requires canonical { IsCanonical pairs.now }
    ensures { IsTrue result ↔ IsCovered hyps.now (record { pairs = pairs.now; constant = constant }) d parts.now }
{
    is_within_multiple(constant_sum(hyps, parts), d, constant) && balances(hyps, parts, pairs, d)
}

/// Whether parts and a divisor prove the goal, or a contradiction, from the hypotheses.
fn holds(hyps: &[Row], goal: &Wide, d: u32, parts: &[(u32, u32)]) -> bool
    ensures { IsTrue result ↔ HoldsBy hyps.now goal.now d parts.now }
{
    if !is_in_range(hyps.len(), d, parts) {
        return false;
    }
    if covers(hyps, parts, goal.pairs.as_slice(), goal.constant, d) {
        return true;
    }
    d == 1 && covers(hyps, parts, &[], -1, 1)
}

/// Whether a step proves the goal, or a contradiction, from the hypotheses. It takes no memory.
pub fn step_holds(hyps: &[Row], goal: &Wide, s: &Step) -> bool
    ensures holds { IsTrue result ↔ Holds hyps.now goal.now s.now }
    ensures computed { result ≡ Proof.holds hyps.now (as_row goal.now) s.now }
{
    holds(hyps, goal, s.d, s.parts.as_slice())
}

/// A step with d = 1.
fn plain_step(alloc: Global, parts: &[(u32, u32)]) -> Result<Step, AllocError>
    ensures { IfOk result (λ s. (s.d ≡ 1) × (s.parts ≡ parts.now)) }
{
    let items = parts.to_vec(alloc)?;
    Ok(Step {
        d: 1,
        parts: List::from_vec(items),
    })
}

/// A hypothesis that proves the goal, or a contradiction, alone.
fn lone_part(hyps: &[Row], goal: &Wide) -> Option<u32>
    requires { length hyps.now ≤ 4096 }
    ensures { MatchOption result ((i : ℕ) → i < length hyps.now → ¬ (HoldsBy hyps.now goal.now 1 ((i, 1) ∷ []))) (λ i. HoldsBy hyps.now goal.now 1 ((i, 1) ∷ [])) }
{
    let count = hyps.len() as u32;
    for number in 0..count {
        if holds(hyps, goal, 1, &[(number, 1)]) {
            return Some(number);
        }
    }
    None
}

/// Two hypotheses whose sum proves the goal, or a contradiction. An error is want of memory.
fn two_parts(alloc: Global, hyps: &[Row], goal: &Wide) -> Result<Option<(u32, u32)>, AllocError>
    requires { length hyps.now ≤ 4096 }
    ensures { IfOk result (λ found. MatchOption found ((i j : ℕ) → ¬ (HoldsBy hyps.now goal.now 1 ((i, 1) ∷ (j, 1) ∷ []))) (λ p. IsTwoParts hyps.now goal.now p.0 p.1)) }
{
    let index = index_of(alloc, hyps)?;
    if let Some(found) = find_sum(&index, goal.pairs.as_slice(), goal.constant) {
        return Ok(Some(found));
    }
    Ok(find_sum(&index, &[], -1))
}

/// The step of two hypotheses, each with the multiplier 1. An error is want of memory.
fn pair_step(alloc: Global, first: u32, second: u32) -> Result<Step, AllocError>
    ensures { IfOk result (λ s. (s.d ≡ 1) × (s.parts ≡ two_ascending first second)) }
{
    if first < second {
        plain_step(alloc, &[(first, 1), (second, 1)])
    } else {
        plain_step(alloc, &[(second, 1), (first, 1)])
    }
}

/// A short step that holds, where there is one: of the divisor 1, with at most two hypotheses, each
/// with the multiplier 1. None where no short step holds, and so always beyond 4096 hypotheses. An
/// error is want of memory.
pub fn prove(alloc: Global, hyps: &[Row], goal: &Wide) -> Result<Option<Step>, AllocError>
    ensures { IfOk result (λ found. MatchOption found ((s : Step) → IsShort s → ¬ (Holds hyps.now goal.now s)) (λ s. IsShort s × Holds hyps.now goal.now s)) }
{
    if hyps.len() > 4096 {
        return Ok(None);
    }
    if holds(hyps, goal, 1, &[]) {
        return Ok(Some(plain_step(alloc, &[])?));
    }
    if let Some(number) = lone_part(hyps, goal) {
        return Ok(Some(plain_step(alloc, &[(number, 1)])?));
    }
    let Some((first, second)) = two_parts(alloc, hyps, goal)? else {
        return Ok(None);
    };
    Ok(Some(pair_step(alloc, first, second)?))
}

/// Where a step holds, the goal is at least 0 at each point where all hypotheses are.
pub fn step_law(hyps: &[Row], goal: &Wide, s: &Step)
    ensures { Holds hyps.now goal.now s.now → (at : ℕ → ℤ) → All (λ r. pos 0 ≤ℤ row_value at r) hyps.now → pos 0 ≤ℤ wide_value at goal.now }
{}
