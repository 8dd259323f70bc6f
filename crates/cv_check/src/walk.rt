//! What is owed at each statement, one after another.
ghost use Rattle.std.specs.Prelude.{◌≡◌, ◌≤◌, ◌++◌, ◌+◌, length, All, IfOk, IsTrue, MatchOption, Some, None};
ghost use Rattle.std.specs.List.{flat_map, list_all};
ghost use Rattle.cv_num.specs.Assigned.{IsSmallAssign};
ghost use Rattle.cv_check.specs.Integer.{facts as facts_of, place as place_of};
ghost use Rattle.cv_check.specs.Shown.{all_shown, group_owed, move_owed, place_owed, stmts_owed, first_rows as first_rows_of, later_rows as later_rows_of};
ghost use Rattle.cv_check.specs.Accepted as spec;

use crate::place::{Group, Move, Place, statement_place};
use crate::rows::hypotheses;
use crate::shown::{goals_shown, move_shown};
use cv_core::{List, Stmt};
use cv_farkas::Step;
use cv_num::Row;
use std::alloc::{AllocError, Global};

/// The rows of the first statement, none where there is no statement.
pub(crate) fn first_rows(rows: &[List<Row>]) -> &[Row]
    ensures value { result.now ≡ first_rows_of rows.now }
    ensures within { All (λ rs. All (λ r. length r.pairs ≤ 200) rs) rows.now → All (λ r. length r.pairs ≤ 200) result.now }
{
    match rows {
        [] => &[],
        [first, ..] => first.as_slice(),
    }
}

/// The rows of the later statements.
fn later_rows(rows: &[List<Row>]) -> &[List<Row>]
    ensures value { result.now ≡ later_rows_of rows.now }
    ensures within { All (λ rs. All (λ r. length r.pairs ≤ 200) rs) rows.now → All (λ rs. All (λ r. length r.pairs ≤ 200) rs) result.now }
{
    match rows {
        [] => &[],
        [_, later @ ..] => later,
    }
}

/// The steps that are left where each goal of the group is shown in turn.
fn group_shown<'a>(
    alloc: Global,
    rows: &[Row],
    facts: &[Row],
    group: &Group,
    steps: &'a [Step],
) -> Result<Option<&'a [Step]>, AllocError>
    ensures { IfOk result (λ found. MatchOption found (all_shown (group_owed rows.now facts.now group.now) steps.now ≡ None) (λ left. all_shown (group_owed rows.now facts.now group.now) steps.now ≡ Some left.now)) }
{
    let hyps = hypotheses(alloc, rows, group.guard.as_slice(), facts)?;
    goals_shown(alloc, &hyps, group.goals.as_slice(), steps)
}

/// The steps that are left where each goal of the groups is shown in turn.
fn groups_shown<'a>(
    alloc: Global,
    rows: &[Row],
    facts: &[Row],
    groups: &[Group],
    steps: &'a [Step],
) -> Result<Option<&'a [Step]>, AllocError>
    ensures { IfOk result (λ found. MatchOption found (all_shown (flat_map (group_owed rows.now facts.now) groups.now) steps.now ≡ None) (λ left. all_shown (flat_map (group_owed rows.now facts.now) groups.now) steps.now ≡ Some left.now)) }
{
    let mut left = steps;
    for group in groups {
        let Some(after) = group_shown(alloc, rows, facts, group, left)? else {
            return Ok(None);
        };
        left = after;
    }
    Ok(Some(left))
}

/// The steps that are left where each row of the next statement is shown after the move.
fn rows_shown<'a>(
    alloc: Global,
    rows: &[Row],
    next: &[Row],
    facts: &[Row],
    step: &Move,
    steps: &'a [Step],
) -> Result<Option<&'a [Step]>, AllocError>
    requires small { IsSmallAssign step.now.assign }
    requires few { All (λ r. length r.pairs ≤ 200) next.now }
    ensures { IfOk result (λ found. MatchOption found (all_shown (move_owed rows.now next.now facts.now step.now) steps.now ≡ None) (λ left. all_shown (move_owed rows.now next.now facts.now step.now) steps.now ≡ Some left.now)) }
{
    let hyps = hypotheses(alloc, rows, step.guard.as_slice(), facts)?;
    move_shown(alloc, &hyps, &step.assign, next, steps)
}

/// The steps that are left where the rows of the next statement are shown after each move in turn.
fn moves_shown<'a>(
    alloc: Global,
    rows: &[Row],
    next: &[Row],
    facts: &[Row],
    moves: &[Move],
    steps: &'a [Step],
) -> Result<Option<&'a [Step]>, AllocError>
    requires small { All (λ t. IsSmallAssign t.assign) moves.now }
    requires few { All (λ r. length r.pairs ≤ 200) next.now }
    ensures { IfOk result (λ found. MatchOption found (all_shown (flat_map (move_owed rows.now next.now facts.now) moves.now) steps.now ≡ None) (λ left. all_shown (flat_map (move_owed rows.now next.now facts.now) moves.now) steps.now ≡ Some left.now)) }
{
    let mut left = steps;
    for step in moves {
        let Some(after) = rows_shown(alloc, rows, next, facts, step, left)? else {
            return Ok(None);
        };
        left = after;
    }
    Ok(Some(left))
}

/// The steps that are left where all that a statement owes is shown in turn.
#[tactic(auto, using(crate::proofs::Appended::front_fails, crate::proofs::Appended::front_shown))]
fn place_shown<'a>(
    alloc: Global,
    rows: &[Row],
    next: &[Row],
    facts: &[Row],
    at: &Place,
    steps: &'a [Step],
) -> Result<Option<&'a [Step]>, AllocError>
    requires small { All (λ t. IsSmallAssign t.assign) at.now.moves }
    requires few { All (λ r. length r.pairs ≤ 200) next.now }
    ensures { IfOk result (λ found. MatchOption found (all_shown (place_owed rows.now next.now facts.now at.now) steps.now ≡ None) (λ left. all_shown (place_owed rows.now next.now facts.now at.now) steps.now ≡ Some left.now)) }
{
    let Some(left) = groups_shown(alloc, rows, facts, at.groups.as_slice(), steps)? else {
        return Ok(None);
    };
    let found = moves_shown(alloc, rows, next, facts, at.moves.as_slice(), left)?;
    Ok(found)
}

/// Whether the hypotheses of a guard are at most 4096.
fn is_sized(rows: &[Row], facts: &[Row], guard: &[Row]) -> bool
    ensures { result ≡ spec.is_sized rows.now facts.now guard.now }
{
    rows.len() <= 4096
        && guard.len() <= 4096 - rows.len()
        && facts.len() <= 4096 - rows.len() - guard.len()
}

fn groups_sized(rows: &[Row], facts: &[Row], groups: &[Group]) -> bool
    ensures { result ≡ list_all (λ g. spec.is_sized rows.now facts.now g.guard) groups.now }
{
    groups
        .iter()
        .all(|group| is_sized(rows, facts, group.guard.as_slice()))
}

fn moves_sized(rows: &[Row], facts: &[Row], moves: &[Move]) -> bool
    ensures { result ≡ list_all (λ t. spec.is_sized rows.now facts.now t.guard) moves.now }
{
    moves
        .iter()
        .all(|step| is_sized(rows, facts, step.guard.as_slice()))
}

/// Whether each list of hypotheses of a statement is at most 4096 long.
fn place_sized(rows: &[Row], facts: &[Row], at: &Place) -> bool
    ensures { result ≡ spec.place_sized rows.now facts.now at.now }
{
    let groups = groups_sized(rows, facts, at.groups.as_slice());
    let moves = moves_sized(rows, facts, at.moves.as_slice());
    groups && moves
}

/// Whether each list of hypotheses of each statement is at most 4096 long.
pub(crate) fn statements_sized(
    alloc: Global,
    size: u32,
    target: bool,
    stmts: &[Stmt],
    rows: &[List<Row>],
    facts: &[Row],
) -> Result<bool, AllocError>
    requires { facts.now ≡ facts_of size target }
    ensures { IfOk result (λ sized. sized ≡ spec.all_sized size target stmts.now rows.now) }
{
    match stmts {
        [] => Ok(true),
        [first, rest @ ..] => {
            let at = statement_place(alloc, size, target, &first.form)?;
            let here = place_sized(first_rows(rows), facts, &at);
            let later = statements_sized(alloc, size, target, rest, later_rows(rows), facts)?;
            Ok(here && later)
        },
    }
}

/// The steps that are left where all that the first of some statements owes is shown in turn.
fn statement_shown<'a>(
    alloc: Global,
    size: u32,
    target: bool,
    first: &Stmt,
    rows: &[List<Row>],
    facts: &[Row],
    steps: &'a [Step],
) -> Result<Option<&'a [Step]>, AllocError>
    requires facts { facts.now ≡ facts_of size target }
    requires few { All (λ rs. All (λ r. length r.pairs ≤ 200) rs) rows.now }
    ensures { IfOk result (λ found. MatchOption found (all_shown (place_owed (first_rows_of rows.now) (first_rows_of (later_rows_of rows.now)) (facts_of size target) (place_of size target first.now.form)) steps.now ≡ None) (λ left. all_shown (place_owed (first_rows_of rows.now) (first_rows_of (later_rows_of rows.now)) (facts_of size target) (place_of size target first.now.form)) steps.now ≡ Some left.now)) }
{
    let at = statement_place(alloc, size, target, &first.form)?;
    let next = first_rows(later_rows(rows));
    place_shown(alloc, first_rows(rows), next, facts, &at, steps)
}

/// The steps that are left where all that the statements owe is shown in turn.
pub(crate) fn statements_shown<'a>(
    alloc: Global,
    size: u32,
    target: bool,
    stmts: &[Stmt],
    rows: &[List<Row>],
    facts: &[Row],
    steps: &'a [Step],
) -> Result<Option<&'a [Step]>, AllocError>
    requires facts { facts.now ≡ facts_of size target }
    requires few { All (λ rs. All (λ r. length r.pairs ≤ 200) rs) rows.now }
    ensures { IfOk result (λ found. MatchOption found (all_shown (stmts_owed size target stmts.now rows.now) steps.now ≡ None) (λ left. all_shown (stmts_owed size target stmts.now rows.now) steps.now ≡ Some left.now)) }
{
    match stmts {
        [] => Ok(Some(steps)),
        [first, rest @ ..] => {
            let found = statement_shown(alloc, size, target, first, rows, facts, steps)?;
            let Some(left) = found else {
                return Ok(None);
            };
            let later = later_rows(rows);
            match statements_shown(alloc, size, target, rest, later, facts, left)? {
                None => Ok(None),
                Some(last) => Ok(Some(last)),
            }
        },
    }
}
