//! The least closed codes of a case.
ghost use Rattle.std.specs.Prelude.{◌≡◌, Contains, IfOk, IfSome, length, ℕ, ℤ};
ghost use Rattle.cv_ppts.specs.Growing.{IsSaturated, IsTable};
ghost use Rattle.cv_ppts.specs.Keys.{setting};
ghost use Rattle.cv_ppts.specs.Numbers.{IsNumber, codes_of, row_at};
ghost use Rattle.cv_ppts.specs.Plain.{IsWithin, Sets};
ghost use Rattle.cv_ppts.specs.Planned.{IsPlan};
ghost use Rattle.cv_ppts.specs.Setting.{set_count as set_count_of};
ghost use Rattle.cv_ppts.specs.Targets.{AreClosedFor, AreLeast, AreLeastFor, HasRoomFor, IsAscending, set_count_for};

use crate::codes::{Case, Targets};
use crate::growth::{empty_sets, pass};
use crate::listing::proc_at;
use crate::places::{all_contents, set_count};
use crate::plan::{Plan, all_rules, all_targets};
use crate::scope::scope_of;
use crate::setting::Scope;
use cv_core::{List, Program};
use std::alloc::{AllocError, Global};

/// How many sets there are; None where a word can't count them.
fn set_total(s: &Scope) -> Option<usize>
    ensures { IfSome result (λ n. n ≡ set_count_of (setting s.entry.now)) }
{
    let total = set_count(s);
    if total < usize::MAX as u128 {
        Some(total as usize)
    } else {
        None
    }
}

/// Lets sets grow until they are closed, in passes.
fn saturated(
    alloc: Global,
    s: &Scope,
    plan: &Plan,
    start: Vec<List<i32>>,
) -> Result<Vec<List<i32>>, AllocError>
    requires plan { IsPlan (setting s.now) plan.now.rules.now plan.now.targets.now }
    requires table { IsTable (length start.items) start.items }
    ensures { IfOk result (λ sets. IsSaturated (setting s.entry.now) start.items sets.items) }
{
    let mut sets = start;
    while pass(alloc, s, plan, &mut sets)? {}
    Ok(sets)
}

/// Closed sets, grown from empty ones.
fn grown(alloc: Global, s: &Scope, plan: &Plan, count: usize) -> Result<Vec<List<i32>>, AllocError>
    requires plan { IsPlan (setting s.now) plan.now.rules.now plan.now.targets.now }
    requires count { count ≡ set_count_of (setting s.now) }
    ensures { IfOk result (λ sets. AreLeast (setting s.entry.now) sets.items) }
{
    let start = empty_sets(alloc, count)?;
    let sets = saturated(alloc, s, plan, start)?;
    Ok(sets)
}

fn closed_sets(alloc: Global, s: &Scope, count: usize) -> Result<Vec<List<i32>>, AllocError>
    requires { count ≡ set_count_of (setting s.now) }
    ensures { IfOk result (λ sets. AreLeast (setting s.entry.now) sets.items) }
{
    let rules = all_rules(alloc, s)?;
    let targets = all_targets(alloc, s)?;
    let plan = Plan {
        rules: rules.as_slice(),
        targets: targets.as_slice(),
    };
    let contents = all_contents(alloc, s)?;
    let listed = Scope {
        p: s.p,
        f: s.f,
        codes: s.codes,
        literal_count: s.literal_count,
        contents: contents.as_slice(),
    };
    let sets = grown(alloc, &listed, &plan, count)?;
    Ok(sets)
}

fn least_sets(alloc: Global, s: &Scope) -> Result<Vec<List<i32>>, AllocError>
    ensures { IfOk result (λ sets. AreLeast (setting s.entry.now) sets.items) }
{
    match set_total(s) {
        None => Err(AllocError),
        Some(count) => {
            let sets = closed_sets(alloc, s, count)?;
            Ok(sets)
        }
    }
}

#[tactic(auto, unfolding(crate::specs::Targets::AreClosedFor, crate::specs::Targets::HasRoomFor))]
fn least_targets(
    alloc: Global,
    p: &Program,
    proc: usize,
    codes: &[u32],
) -> Result<Vec<List<i32>>, AllocError>
    requires { HasRoomFor p.now proc codes.now }
    ensures { IfOk result (λ sets. AreLeastFor p.now proc codes.now sets.items) }
{
    match proc_at(p, proc) {
        None => Ok(Vec::new(alloc)),
        Some(f) => {
            let sets = least_sets(alloc, &scope_of(p, f, codes))?;
            Ok(sets)
        }
    }
}

/// The codes that pointers can have inside the procedure of this number in a case: one ascending set for each pointer
/// variable and for what each target that is a pointer cell holds, closed under the statements, and within all that
/// are closed. A procedure that isn't there has no sets. An error is want of memory. The statements are gone through
/// in passes, until a pass adds no code; each goes on until it asks for nothing.
pub fn targets(alloc: Global, p: &Program, proc: u32, case: &Case) -> Result<Targets, AllocError>
    requires { HasRoomFor p.now proc case.now.codes }
    ensures counted { IfOk result (λ targets. length targets.sets ≡ set_count_for p.now proc case.now.codes) }
    ensures ascending { IfOk result (λ targets. (h : ℕ) → IsAscending (row_at targets.sets h)) }
    ensures numbers { IfOk result (λ targets. (h : ℕ) (n : ℤ) → Contains (row_at targets.sets h) n → IsNumber n) }
    ensures closed { IfOk result (λ targets. AreClosedFor p.now proc case.now.codes (codes_of targets.sets)) }
    ensures least { IfOk result (λ targets. (R : Sets) → length R ≡ set_count_for p.now proc case.now.codes → AreClosedFor p.now proc case.now.codes R → IsWithin (codes_of targets.sets) R) }
{
    let sets = least_targets(alloc, p, proc as usize, case.codes.as_slice())?;
    Ok(Targets {
        sets: List::from_vec(sets),
    })
}
