//! Goals that need no step.
ghost use Rattle.std.specs.Prelude.{◌≡◌, ◌↔◌, ℕ, ℤ, pos, ◌≤ℤ◌, [], IsTrue, All, Any};
ghost use Rattle.cv_num.specs.Rows.{as_row, row_value, wide_value};
ghost use Rattle.cv_farkas.specs.Proof;
ghost use Rattle.cv_farkas.specs.Steps.{IsDirect};

use cv_num::{Row, Wide, same_pairs};

/// Whether a hypothesis has the goal's pairs and no greater constant.
pub(crate) fn shows(hyp: &Row, goal: &Wide) -> bool
    ensures { IsTrue result ↔ ((hyp.now.pairs ≡ goal.now.pairs) × (hyp.now.constant ≤ℤ goal.now.constant)) }
{
    i128::from(hyp.constant) <= goal.constant
        && same_pairs(goal.pairs.as_slice(), hyp.pairs.as_slice())
}

/// Whether the goal has no pairs and a constant of at least 0, or a hypothesis has its pairs and no
/// greater constant. It takes no memory.
pub fn direct(hyps: &[Row], goal: &Wide) -> bool
    ensures direct { IsTrue result ↔ IsDirect hyps.now goal.now }
    ensures computed { result ≡ Proof.direct hyps.now (as_row goal.now) }
{
    is_number(goal) || is_shown(hyps, goal)
}

/// Whether a goal is a number of at least 0.
fn is_number(goal: &Wide) -> bool
    ensures { IsTrue result ↔ ((goal.now.pairs ≡ []) × (pos 0 ≤ℤ goal.now.constant)) }
{
    goal.constant >= 0 && goal.pairs.as_slice().is_empty()
}

/// Whether a hypothesis has the goal's pairs and no greater constant.
fn is_shown(hyps: &[Row], goal: &Wide) -> bool
    ensures { IsTrue result ↔ Any (λ h. (h.pairs ≡ goal.now.pairs) × (h.constant ≤ℤ goal.now.constant)) hyps.now }
{
    for hyp in hyps {
        if shows(hyp, goal) {
            return true;
        }
    }
    false
}

/// A direct goal is at least 0 at each point where all hypotheses are.
pub fn direct_law(hyps: &[Row], goal: &Wide)
    ensures { IsDirect hyps.now goal.now → (at : ℕ → ℤ) → All (λ r. pos 0 ≤ℤ row_value at r) hyps.now → pos 0 ≤ℤ wide_value at goal.now }
{}
