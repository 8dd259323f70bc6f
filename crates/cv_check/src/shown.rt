//! How steps show what is owed: a goal that is direct takes none, another the next one.
ghost use Rattle.std.specs.Prelude.{◌≡◌, ◌≤◌, ◌++◌, ◌∷◌, [], length, slice_index_or, map, All, IfOk, MatchOption, Some, None};
ghost use Rattle.std.specs.List.{flat_map};
ghost use Rattle.cv_num.specs.Rows.{as_row};
ghost use Rattle.cv_num.specs.Algebra.{substituted, zero_row};
ghost use Rattle.cv_num.specs.Assigned.{IsSmallAssign};
ghost use Rattle.cv_check.specs.Shown as spec;

use crate::rows::hypotheses;
use cv_farkas::{Step, direct, step_holds};
use cv_num::{Assign, Row, Wide, subst, widen};
use std::alloc::{AllocError, Global};

/// Whether the row does not name the first zero.
fn is_free(r: &Row) -> bool
    ensures { result ≡ spec.is_free r.now }
{
    r.pairs.as_slice().iter().all(|pair| pair.0 != 2)
}

/// Whether the hypothesis of a part does not name the first zero.
fn is_free_at(hyps: &[Row], at: u32) -> bool
    ensures { result ≡ spec.is_free (slice_index_or hyps.now at zero_row) }
{
    match hyps.get(at as usize) {
        None => true,
        Some(r) => is_free(r),
    }
}

/// Whether the parts have multiplier 1, and none is of a hypothesis that names the first zero.
fn are_plain(hyps: &[Row], parts: &[(u32, u32)]) -> bool
    ensures { result ≡ spec.are_plain hyps.now parts.now }
{
    parts
        .iter()
        .all(|part| part.1 == 1 && is_free_at(hyps, part.0))
}

/// Whether the step has the divisor 1 and one or two plain parts.
fn is_plain(hyps: &[Row], s: &Step) -> bool
    ensures { result ≡ spec.is_plain hyps.now s.now }
{
    let parts = s.parts.as_slice();
    let plain = are_plain(hyps, parts);
    s.d == 1 && 1 <= parts.len() && parts.len() <= 2 && plain
}

/// The steps that are left where the first of them is plain and shows the goal.
fn by_step<'a>(hyps: &[Row], goal: &Wide, steps: &'a [Step]) -> Option<&'a [Step]>
    ensures { MatchOption result (spec.by_step hyps.now (as_row goal.now) steps.now ≡ None) (λ left. spec.by_step hyps.now (as_row goal.now) steps.now ≡ Some left.now) }
{
    match steps {
        [] => None,
        [first, left @ ..] => {
            if is_plain(hyps, first) && step_holds(hyps, goal, first) {
                Some(left)
            } else {
                None
            }
        },
    }
}

/// The steps that are left where the goal is direct, or the next step shows it.
fn shown<'a>(hyps: &[Row], goal: &Wide, steps: &'a [Step]) -> Option<&'a [Step]>
    ensures { MatchOption result (spec.shown (spec.owed hyps.now (as_row goal.now)) steps.now ≡ None) (λ left. spec.shown (spec.owed hyps.now (as_row goal.now)) steps.now ≡ Some left.now) }
{
    if direct(hyps, goal) {
        Some(steps)
    } else {
        by_step(hyps, goal, steps)
    }
}

/// The steps that are left where each goal is shown in turn.
pub(crate) fn goals_shown<'a>(
    alloc: Global,
    hyps: &[Row],
    goals: &[Row],
    steps: &'a [Step],
) -> Result<Option<&'a [Step]>, AllocError>
    ensures { IfOk result (λ found. MatchOption found (spec.all_shown (map (spec.owed hyps.now) goals.now) steps.now ≡ None) (λ left. spec.all_shown (map (spec.owed hyps.now) goals.now) steps.now ≡ Some left.now)) }
{
    let mut left = steps;
    let mut rest = goals;
    while let [goal, tail @ ..] = rest {
        let wide = widen(alloc, goal)?;
        let Some(after) = shown(hyps, &wide, left) else {
            return Ok(None);
        };
        left = after;
        rest = tail;
    }
    Ok(Some(left))
}

/// The steps that are left where each row of the next statement, after the assignments, is shown in turn.
pub(crate) fn move_shown<'a>(
    alloc: Global,
    hyps: &[Row],
    assign: &Assign,
    next: &[Row],
    steps: &'a [Step],
) -> Result<Option<&'a [Step]>, AllocError>
    requires small { IsSmallAssign assign.now }
    requires few { All (λ r. length r.pairs ≤ 200) next.now }
    ensures { IfOk result (λ found. MatchOption found (spec.all_shown (map (λ r. spec.owed hyps.now (substituted assign.now r)) next.now) steps.now ≡ None) (λ left. spec.all_shown (map (λ r. spec.owed hyps.now (substituted assign.now r)) next.now) steps.now ≡ Some left.now)) }
{
    let mut left = steps;
    for r in next {
        let goal = subst(alloc, r, assign)?;
        let Some(after) = shown(hyps, &goal, left) else {
            return Ok(None);
        };
        left = after;
    }
    Ok(Some(left))
}
