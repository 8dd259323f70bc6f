//! The least closed family.
ghost use Rattle.std.specs.Prelude.{◌≡◌, IfOk, IfSome, OnOk, length, ℕ};
ghost use Rattle.cv_points.specs.Closed.{Family, IsClosed, IsWithin, set_at};
ghost use Rattle.cv_points.specs.Growing.{Flows, IsSaturated, IsTable};
ghost use Rattle.cv_points.specs.Holders.{holders};
ghost use Rattle.cv_points.specs.Least.{IsAscending, IsLeast};

use crate::agenda::Agenda;
use crate::collect::all_rules;
use crate::distinct::distinct;
use crate::groups::groups_of;
use crate::growth::{apply, apply_all, empty_sets};
use crate::holders::{first_holder, proc_count};
use crate::places::cell_places;
use crate::readers::Readers;
use crate::rules::Rule;
use crate::walk::cell_total;
use cv_core::{List, Program, PtsTable};
use std::alloc::{AllocError, Global};

/// How many holders a program has; None where a word can't count them.
fn holder_total(p: &Program) -> Option<usize>
    ensures { IfSome result (λ n. n ≡ holders p.now) }
{
    match cell_total(p) {
        None => None,
        Some(cells) => {
            let total = first_holder(p, proc_count(p)).saturating_add(cells);
            if total < usize::MAX {
                Some(total)
            } else {
                None
            }
        }
    }
}

/// Applies the rule of a number, and makes the rules due that read a set that grew by it.
fn visit(
    alloc: Global,
    cells: &[Option<usize>],
    rules: &[Rule],
    sets: &mut Vec<List<u32>>,
    readers: &mut Readers,
    agenda: &mut Agenda,
    number: usize,
) -> Result<(), AllocError>
    ensures { OnOk result (Flows cells.now rules.now sets.old.items sets.new.items) }
{
    match rules.get(number) {
        None => Ok(()),
        Some(rule) => {
            readers.link(alloc, cells, sets, *rule, number)?;
            if apply(alloc, cells, sets, *rule)? {
                readers.tell(cells, sets, *rule, agenda)?;
            }
            Ok(())
        }
    }
}

/// Lets sets grow by rules, which belong to groups: first by each of them, and then by those that read a set that has
/// grown, until there are none.
fn flow(
    alloc: Global,
    cells: &[Option<usize>],
    rules: &[Rule],
    groups: Vec<usize>,
    sets: &mut Vec<List<u32>>,
) -> Result<(), AllocError>
    ensures { OnOk result (Flows cells.now rules.now sets.old.items sets.new.items) }
{
    let mut readers = Readers::of(alloc, rules, sets.len())?;
    let mut agenda = Agenda::full(alloc, groups)?;
    for _ in 0..usize::MAX {
        match agenda.pop() {
            None => return Ok(()),
            Some(number) => visit(alloc, cells, rules, sets, &mut readers, &mut agenda, number)?,
        }
    }
    Ok(())
}

/// Lets sets grow by rules until they keep them all: first those that are due, and then in passes over all.
fn saturated(
    alloc: Global,
    cells: &[Option<usize>],
    rules: &[Rule],
    groups: Vec<usize>,
    start: Vec<List<u32>>,
) -> Result<Vec<List<u32>>, AllocError>
    requires { IsTable (length start.items) start.items }
    ensures { IfOk result (λ sets. IsSaturated cells.now rules.now start.items sets.items) }
{
    let mut sets = start;
    flow(alloc, cells, rules, groups, &mut sets)?;
    while apply_all(alloc, cells, &mut sets, rules)? {}
    Ok(sets)
}

/// The sets of the least closed family.
fn least_sets(alloc: Global, p: &Program, count: usize) -> Result<Vec<List<u32>>, AllocError>
    requires { count ≡ holders p.now }
    ensures { IfOk result (λ sets. IsLeast p.now sets.items) }
{
    let cells = cell_places(alloc, p)?;
    let listed = all_rules(alloc, p)?;
    let rules = distinct(alloc, listed.as_slice())?;
    let groups = groups_of(alloc, p, rules.as_slice())?;
    let start = empty_sets(alloc, count)?;
    let sets = saturated(alloc, cells.as_slice(), rules.as_slice(), groups, start)?;
    Ok(sets)
}

fn least_family(alloc: Global, p: &Program) -> Result<PtsTable, AllocError>
    ensures { IfOk result (λ table. IsLeast p.now table) }
{
    match holder_total(p) {
        None => Err(AllocError),
        Some(count) => {
            let sets = least_sets(alloc, p, count)?;
            Ok(PtsTable {
                sets: List::from_vec(sets),
            })
        }
    }
}

/// The least closed family of a program: one ascending set of sites for each holder, closed under the rules of
/// inclusion after Andersen, and within every closed family that has as many sets. An error is want of memory.
/// The rules of all statements are listed, nearly all of them once. Each rule is due at first, and again where a set
/// that it reads has grown; those that are due are visited procedure by procedure, forward and back by turns. A visit
/// takes one walk over the ascending sets that the rule joins. At the end all rules are tried once more.
pub fn least(alloc: Global, p: &Program) -> Result<PtsTable, AllocError>
    ensures counted { IfOk result (λ table. length table ≡ holders p.now) }
    ensures ascending { IfOk result (λ table. (h : ℕ) → IsAscending (set_at table h)) }
    ensures closed { IfOk result (λ table. IsClosed p.now table) }
    ensures least { IfOk result (λ table. (R : Family) → length R ≡ holders p.now → IsClosed p.now R → IsWithin table R) }
{
    least_family(alloc, p)
}
