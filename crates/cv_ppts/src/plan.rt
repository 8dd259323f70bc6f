//! What the statements of a procedure ask for, with their places and targets looked up once.
ghost use Rattle.std.specs.Prelude.{◌≡◌, ◌<◌, IfOk, MatchOption, None as Nothing, if◌then◌else◌, length, map, slice_index_or, suc};
ghost use Rattle.cv_core.specs.Names.{stmts_of as stmts_in};
ghost use Rattle.cv_ppts.specs.Keys.{setting};
ghost use Rattle.cv_ppts.specs.Lacking.{Lacks};
ghost use Rattle.cv_ppts.specs.Numbers.{codes_of};
ghost use Rattle.cv_ppts.specs.Plain.{plain_rule as plain_rule_of};
ghost use Rattle.cv_ppts.specs.Planned.{IsPlan, later_targets};
ghost use Rattle.cv_ppts.specs.Setting.{new_target as new_target_of};
ghost use Rattle.cv_ppts.specs.Targets.{HoldsAt};

use crate::closed::{missing_for, statement_at};
use crate::places::{allocates, new_target};
use crate::sets::{Missing, Rule, plain_rule};
use crate::setting::Scope;
use cv_core::{List, stmts_of};
use std::alloc::{AllocError, Global};

/// The rules and the targets of the statements.
#[derive(Drop)]
pub(crate) struct Plan<'a> {
    pub rules: &'a [Option<Rule>],
    pub targets: &'a [u32],
}

/// The rules of the statements that aren't calls.
pub(crate) fn all_rules(alloc: Global, s: &Scope) -> Result<Vec<Option<Rule>>, AllocError>
    ensures { IfOk result (λ v. v.items ≡ map (λ x. plain_rule_of (setting s.entry.now) x.form) (stmts_in s.entry.now.f.now.body)) }
{
    let mut rules = Vec::new(alloc);
    let mut rest = stmts_of(s.f);
    while let [statement, tail @ ..] = rest {
        rules.push(plain_rule(s, &statement.form))?;
        rest = tail;
    }
    Ok(rules)
}

/// The target after that of a statement.
fn next_target(target: u32, new: bool) -> u32
    requires { target < 4294967295 }
    ensures { result ≡ (if new then suc target else target) }
{
    if new { target + 1 } else { target }
}

/// The targets of what the statements allocate.
pub(crate) fn all_targets(alloc: Global, s: &Scope) -> Result<Vec<u32>, AllocError>
    ensures { IfOk result (λ v. v.items ≡ later_targets s.entry.now.p.now (new_target_of (setting s.entry.now) 0) (stmts_in s.entry.now.f.now.body)) }
{
    let mut targets = Vec::new(alloc);
    let mut target = new_target(s, 0);
    let mut rest = stmts_of(s.f);
    while let [statement, tail @ ..] = rest {
        targets.push(target)?;
        target = next_target(target, allocates(s.p, &statement.form));
        rest = tail;
    }
    Ok(targets)
}

fn rule_at(rules: &[Option<Rule>], statement: usize) -> Option<Rule>
    ensures { result ≡ slice_index_or rules.now statement Nothing }
{
    match rules.get(statement) {
        None => None,
        Some(rule) => *rule,
    }
}

fn target_at(targets: &[u32], statement: usize) -> u32
    ensures { result ≡ slice_index_or targets.now statement 0 }
{
    match targets.get(statement) {
        None => 0,
        Some(target) => *target,
    }
}

/// What the statement of a number asks for.
pub(crate) fn missing_by_plan(
    s: &Scope,
    plan: &Plan,
    sets: &[List<i32>],
    statement: usize,
) -> Option<Missing>
    requires { IsPlan (setting s.now) plan.now.rules.now plan.now.targets.now }
    ensures { MatchOption result (HoldsAt (setting s.entry.now) (codes_of sets.now) statement) (λ m. Lacks (codes_of sets.now) (λ R. HoldsAt (setting s.entry.now) R statement) m.to m.code) }
{
    match statement_at(s.f, statement) {
        None => None,
        Some(x) => missing_for(
            s,
            sets,
            rule_at(plan.rules, statement),
            target_at(plan.targets, statement),
            &x.form,
        ),
    }
}
