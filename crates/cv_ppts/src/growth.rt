//! Sets of codes that grow by what they lack.
ghost use Rattle.std.specs.Prelude.{◌≡◌, ◌++◌, ◌||◌, ◌∷◌, ◌≤◌, IfOk, OnOk, length, ℕ};
ghost use Rattle.cv_ppts.specs.Growing.{AreEmpty, IsAdded, IsTable, Settles, inserted};
ghost use Rattle.cv_ppts.specs.Keys.{setting};
ghost use Rattle.cv_ppts.specs.Plain.{HasEntryCodes};
ghost use Rattle.cv_ppts.specs.Planned.{IsPlan};
ghost use Rattle.cv_ppts.specs.Targets.{AreClosed, HoldsAt};

use crate::closed::missing_at_entry;
use crate::numbers::number_of;
use crate::plan::{Plan, missing_by_plan};
use crate::sets::Missing;
use crate::setting::Scope;
use cv_core::{List, stmts_of};
use std::alloc::{AllocError, Global};

/// So many empty sets.
pub(crate) fn empty_sets(alloc: Global, count: usize) -> Result<Vec<List<i32>>, AllocError>
    ensures { IfOk result (λ v. AreEmpty count v.items) }
{
    let mut sets = Vec::new(alloc);
    for _ in 0..count {
        sets.push(List::new(alloc))?;
    }
    Ok(sets)
}

// ---- one more code

/// Puts the numbers of a row up to `number` after `items`, and gives those above it.
fn push_below<'a>(
    items: &mut Vec<i32>,
    set: &'a [i32],
    number: i32,
) -> Result<&'a [i32], AllocError>
    ensures { IfOk result (λ rest. items.new.items ++ number ∷ rest.now ≡ items.old.items ++ inserted number set.now) }
{
    let mut rest = set;
    while let [n, tail @ ..] = rest {
        if *n > number {
            return Ok(rest);
        }
        items.push(*n)?;
        rest = tail;
    }
    Ok(rest)
}

/// An ascending row with one more number.
fn with_number(alloc: Global, set: &[i32], number: i32) -> Result<List<i32>, AllocError>
    ensures { IfOk result (λ xs. xs ≡ inserted number set.now) }
{
    let mut items = Vec::new(alloc);
    let rest = push_below(&mut items, set, number)?;
    items.push(number)?;
    items.extend_from_slice(rest)?;
    Ok(List::from_vec(items))
}

/// Puts a code into the set that lacks it. A code that 32 bits do not hold has no room in memory.
fn add(alloc: Global, sets: &mut Vec<List<i32>>, missing: Missing) -> Result<(), AllocError>
    ensures { OnOk result (IsAdded sets.old.items sets.new.items missing.to missing.code) }
{
    match number_of(missing.code) {
        None => Err(AllocError),
        Some(number) => {
            if missing.to >= sets.len() as u128 {
                return Err(AllocError);
            }
            let place = missing.to as usize;
            let set = with_number(alloc, sets[place].as_slice(), number)?;
            sets[place] = set;
            Ok(())
        }
    }
}

// ---- what is asked for

/// Puts the codes at entry into the sets, and says whether one was new.
fn enter(alloc: Global, s: &Scope, sets: &mut Vec<List<i32>>) -> Result<bool, AllocError>
    requires { IsTable (length sets.old.items) sets.old.items }
    ensures { IfOk result (λ more. Settles sets.old.items sets.new.items more (λ R. HasEntryCodes (setting s.entry.now) R)) }
{
    let mut more = false;
    while let Some(missing) = missing_at_entry(s, sets.as_slice()) {
        add(alloc, sets, missing)?;
        more = true;
    }
    Ok(more)
}

/// Puts what a statement asks for into the sets, and says whether something was new.
fn settle(
    alloc: Global,
    s: &Scope,
    plan: &Plan,
    sets: &mut Vec<List<i32>>,
    statement: usize,
) -> Result<bool, AllocError>
    requires plan { IsPlan (setting s.now) plan.now.rules.now plan.now.targets.now }
    requires table { IsTable (length sets.old.items) sets.old.items }
    ensures { IfOk result (λ more. Settles sets.old.items sets.new.items more (λ R. HoldsAt (setting s.entry.now) R statement)) }
{
    let mut more = false;
    while let Some(missing) = missing_by_plan(s, plan, sets.as_slice(), statement) {
        add(alloc, sets, missing)?;
        more = true;
    }
    Ok(more)
}

fn either(one: bool, other: bool) -> bool
    ensures { result ≡ (one || other) }
{
    one || other
}

/// Puts what each statement asks for into the sets, and says whether something was new.
fn settle_body(
    alloc: Global,
    s: &Scope,
    plan: &Plan,
    sets: &mut Vec<List<i32>>,
) -> Result<bool, AllocError>
    requires plan { IsPlan (setting s.now) plan.now.rules.now plan.now.targets.now }
    requires table { IsTable (length sets.old.items) sets.old.items }
    ensures { IfOk result (λ more. Settles sets.old.items sets.new.items more (λ R. (k : ℕ) → HoldsAt (setting s.entry.now) R k)) }
{
    let mut more = false;
    for statement in 0..stmts_of(s.f).len() {
        let grew = settle(alloc, s, plan, sets, statement)?;
        more = either(more, grew);
    }
    Ok(more)
}

/// One pass over the codes at entry and the statements; it says whether something was new.
pub(crate) fn pass(
    alloc: Global,
    s: &Scope,
    plan: &Plan,
    sets: &mut Vec<List<i32>>,
) -> Result<bool, AllocError>
    requires plan { IsPlan (setting s.now) plan.now.rules.now plan.now.targets.now }
    requires table { IsTable (length sets.old.items) sets.old.items }
    ensures { IfOk result (λ more. Settles sets.old.items sets.new.items more (λ R. AreClosed (setting s.entry.now) R)) }
{
    let entered = enter(alloc, s, sets)?;
    let grew = settle_body(alloc, s, plan, sets)?;
    Ok(either(entered, grew))
}
