//! Whether sets of codes are closed under the statements of a case's procedure.
ghost use Rattle.std.specs.Prelude.{◌≡◌, ◌+◌, ◌≤◌, ◌↔◌, IsTrue, ◌<◌, MatchOption, count_by, drop, length, slice_get, ℕ};
ghost use Rattle.std.specs.Option.{option_copied};
ghost use Rattle.cv_core.specs.Names.{objects_of, stmts_of as stmts_in};
ghost use Rattle.cv_points.specs.Holders.{pointer_count as pointer_count_of, pointer_locals};
ghost use Rattle.cv_ppts.specs.Keys.{setting};
ghost use Rattle.cv_ppts.specs.Lacking.{Lacks};
ghost use Rattle.cv_ppts.specs.Numbers.{codes_of};
ghost use Rattle.cv_ppts.specs.Plain.{AreCoded, AreUnknown, HasEntryCodes, plain_rule as plain_rule_of};
ghost use Rattle.cv_ppts.specs.Setting.{allocates as allocates_of, block_count as block_count_of, cell_blocks as cell_blocks_of, first_content as first_content_of, formal_count as formal_count_of, object_cells};
ghost use Rattle.cv_ppts.specs.Targets.{AreClosed, AreClosedFor, CallFormHolds, CallStatementHolds, FormHolds, HasRoomFor, HoldsAt};

use crate::calls::{missing_in_call, missing_losses};
use crate::codes::{Case, Targets};
use crate::listing::proc_at;
use crate::places::{allocates, cell_count, local_count, new_target, pointer_count};
use crate::scope::{block_count, cell_blocks, content_codes, formals_of, greatest, scope_of};
use crate::sets::{
    Missing, Rule, missing_by, missing_coded, missing_unknown, place_of_variable, plain_rule,
};
use crate::setting::Scope;
use cv_core::{
    AnyOperand, Bytes, Form, List, Proc, Program, Stmt, locals_of, object_count, stmts_of,
};

// ---- the codes at entry

fn missing_of_formals(s: &Scope, sets: &[List<i32>]) -> Option<Missing>
    ensures { MatchOption result (AreCoded (codes_of sets.now) 0 s.entry.now.codes.now (formal_count_of (setting s.entry.now))) (λ m. Lacks (codes_of sets.now) (λ R. AreCoded R 0 s.entry.now.codes.now (formal_count_of (setting s.entry.now))) m.to m.code) }
{
    missing_coded(sets, 0, s.codes, formals_of(s))
}

fn locals_count(s: &Scope) -> usize
    ensures { result ≡ length (pointer_locals s.entry.now.f.now) }
{
    local_count(locals_of(s.f))
}

fn missing_of_locals(s: &Scope, sets: &[List<i32>]) -> Option<Missing>
    ensures { MatchOption result (AreUnknown (codes_of sets.now) (formal_count_of (setting s.entry.now)) (length (pointer_locals s.entry.now.f.now))) (λ m. Lacks (codes_of sets.now) (λ R. AreUnknown R (formal_count_of (setting s.entry.now)) (length (pointer_locals s.entry.now.f.now))) m.to m.code) }
{
    missing_unknown(sets, formals_of(s) as u128, locals_count(s))
}

fn content_count(s: &Scope) -> u32
    ensures { result ≡ cell_blocks_of (setting s.entry.now) (block_count_of (setting s.entry.now)) }
{
    cell_blocks(s, block_count(s))
}

fn missing_of_contents(s: &Scope, sets: &[List<i32>]) -> Option<Missing>
    ensures { MatchOption result (AreCoded (codes_of sets.now) (pointer_count_of s.entry.now.f.now) (drop (first_content_of (setting s.entry.now)) s.entry.now.codes.now) (cell_blocks_of (setting s.entry.now) (block_count_of (setting s.entry.now)))) (λ m. Lacks (codes_of sets.now) (λ R. AreCoded R (pointer_count_of s.entry.now.f.now) (drop (first_content_of (setting s.entry.now)) s.entry.now.codes.now) (cell_blocks_of (setting s.entry.now) (block_count_of (setting s.entry.now)))) m.to m.code) }
{
    missing_coded(
        sets,
        pointer_count(s.f),
        content_codes(s),
        content_count(s) as usize,
    )
}

fn cells_count(s: &Scope) -> usize
    ensures { result ≡ count_by (λ c. c) (object_cells s.entry.now.f.now) }
{
    cell_count(locals_of(s.f))
}

fn missing_of_cells(s: &Scope, sets: &[List<i32>]) -> Option<Missing>
    ensures { MatchOption result (AreUnknown (codes_of sets.now) (pointer_count_of s.entry.now.f.now + cell_blocks_of (setting s.entry.now) (block_count_of (setting s.entry.now))) (count_by (λ c. c) (object_cells s.entry.now.f.now))) (λ m. Lacks (codes_of sets.now) (λ R. AreUnknown R (pointer_count_of s.entry.now.f.now + cell_blocks_of (setting s.entry.now) (block_count_of (setting s.entry.now))) (count_by (λ c. c) (object_cells s.entry.now.f.now))) m.to m.code) }
{
    missing_unknown(
        sets,
        pointer_count(s.f) + u128::from(content_count(s)),
        cells_count(s),
    )
}

/// What the codes at entry ask for.
pub(crate) fn missing_at_entry(s: &Scope, sets: &[List<i32>]) -> Option<Missing>
    ensures { MatchOption result (HasEntryCodes (setting s.entry.now) (codes_of sets.now)) (λ m. Lacks (codes_of sets.now) (λ R. HasEntryCodes (setting s.entry.now) R) m.to m.code) }
{
    match missing_of_formals(s, sets) {
        Some(missing) => Some(missing),
        None => match missing_of_locals(s, sets) {
            Some(missing) => Some(missing),
            None => match missing_of_contents(s, sets) {
                Some(missing) => Some(missing),
                None => missing_of_cells(s, sets),
            },
        },
    }
}

// ---- statements

/// What a call asks for.
fn missing_in_statement(
    s: &Scope,
    sets: &[List<i32>],
    target: u32,
    into: &Option<Bytes>,
    name: &Bytes,
    args: &List<AnyOperand>,
    new: bool,
) -> Option<Missing>
    ensures { MatchOption result (CallStatementHolds (setting s.entry.now) (codes_of sets.now) target into.now name.now args.now new) (λ m. Lacks (codes_of sets.now) (λ R. CallStatementHolds (setting s.entry.now) R target into.now name.now args.now new) m.to m.code) }
{
    let place = place_of_variable(s, into);
    match missing_in_call(s, sets, target, place, name, args) {
        Some(missing) => Some(missing),
        None => {
            if new {
                missing_losses(sets, target, place)
            } else {
                None
            }
        }
    }
}

fn missing_call(s: &Scope, sets: &[List<i32>], target: u32, form: &Form) -> Option<Missing>
    ensures { MatchOption result (CallFormHolds (setting s.entry.now) (codes_of sets.now) target form.now (allocates_of s.entry.now.p.now form.now)) (λ m. Lacks (codes_of sets.now) (λ R. CallFormHolds (setting s.entry.now) R target form.now (allocates_of s.entry.now.p.now form.now)) m.to m.code) }
{
    let new = allocates(s.p, form);
    match form {
        Form::Call { into, f, args } => missing_in_statement(s, sets, target, into, f, args, new),
        Form::CopyPtr { .. } => None,
        Form::Address { .. } => None,
        Form::Shift { .. } => None,
        Form::Get { .. } => None,
        Form::Put { .. } => None,
        Form::Assign { .. } => None,
        Form::Sum { .. } => None,
        Form::Minus { .. } => None,
        Form::Product { .. } => None,
        Form::Quotient { .. } => None,
        Form::Remainder { .. } => None,
        Form::Load { .. } => None,
        Form::Store { .. } => None,
        Form::Diff { .. } => None,
        Form::Goto(_) => None,
        Form::If { .. } => None,
        Form::IfByte { .. } => None,
        Form::Return(_) => None,
    }
}

/// What a statement asks for, whose rule is given.
pub(crate) fn missing_for(
    s: &Scope,
    sets: &[List<i32>],
    rule: Option<Rule>,
    target: u32,
    form: &Form,
) -> Option<Missing>
    requires rule { rule ≡ plain_rule_of (setting s.now) form.now }
    ensures { MatchOption result (FormHolds (setting s.entry.now) (codes_of sets.now) target form.now) (λ m. Lacks (codes_of sets.now) (λ R. FormHolds (setting s.entry.now) R target form.now) m.to m.code) }
{
    match missing_by(s, sets, rule) {
        Some(missing) => Some(missing),
        None => missing_call(s, sets, target, form),
    }
}

/// What a statement asks for.
fn missing_in_form(s: &Scope, sets: &[List<i32>], target: u32, form: &Form) -> Option<Missing>
    ensures { MatchOption result (FormHolds (setting s.entry.now) (codes_of sets.now) target form.now) (λ m. Lacks (codes_of sets.now) (λ R. FormHolds (setting s.entry.now) R target form.now) m.to m.code) }
{
    missing_for(s, sets, plain_rule(s, form), target, form)
}

/// The statement of a number.
pub(crate) fn statement_at(f: &Proc, statement: usize) -> Option<&Stmt>
    ensures { option_copied result ≡ slice_get (stmts_in f.now.body) statement }
{
    match &f.body {
        None => None,
        Some(body) => body.stmts.get(statement),
    }
}

/// What the statement of a number asks for.
fn missing_at(s: &Scope, sets: &[List<i32>], statement: usize) -> Option<Missing>
    requires { statement ≤ length (stmts_in s.now.f.now.body) }
    ensures { MatchOption result (HoldsAt (setting s.entry.now) (codes_of sets.now) statement) (λ m. Lacks (codes_of sets.now) (λ R. HoldsAt (setting s.entry.now) R statement) m.to m.code) }
{
    match statement_at(s.f, statement) {
        None => None,
        Some(x) => missing_in_form(s, sets, new_target(s, statement), &x.form),
    }
}

/// What the statements ask for.
fn missing_in_body(s: &Scope, sets: &[List<i32>]) -> Option<Missing>
    ensures { MatchOption result ((k : ℕ) → HoldsAt (setting s.entry.now) (codes_of sets.now) k) (λ m. Lacks (codes_of sets.now) (λ R. (k : ℕ) → HoldsAt (setting s.entry.now) R k) m.to m.code) }
{
    for statement in 0..stmts_of(s.f).len() {
        match missing_at(s, sets, statement) {
            None => {}
            Some(missing) => return Some(missing),
        }
    }
    None
}

/// A code that sets are to have and lack.
pub(crate) fn missing(s: &Scope, sets: &[List<i32>]) -> Option<Missing>
    ensures { MatchOption result (AreClosed (setting s.entry.now) (codes_of sets.now)) (λ m. Lacks (codes_of sets.now) (λ R. AreClosed (setting s.entry.now) R) m.to m.code) }
{
    match missing_at_entry(s, sets) {
        Some(missing) => Some(missing),
        None => missing_in_body(s, sets),
    }
}

fn is_closed(s: &Scope, sets: &[List<i32>]) -> bool
    ensures { IsTrue result ↔ AreClosed (setting s.entry.now) (codes_of sets.now) }
{
    match missing(s, sets) {
        None => true,
        Some(_) => false,
    }
}

fn has_few(f: &Proc, blocks: u32) -> bool
    ensures { IsTrue result ↔ (blocks + length (objects_of f.now) + length (stmts_in f.now.body) < 2147483647) }
{
    let others = object_count(f) as u128 + stmts_of(f).len() as u128;
    u128::from(blocks) + others < 2147483647
}

/// Whether the targets of a case of the procedure of this number are few enough for their numbers, as those of each case
/// of a program within the limits are.
pub fn has_room(p: &Program, proc: u32, case: &Case) -> bool
    ensures room { IsTrue result ↔ HasRoomFor p.now proc case.now.codes }
{
    match proc_at(p, proc as usize) {
        None => true,
        Some(f) => has_few(f, greatest(case.codes.as_slice())),
    }
}

/// Whether the codes of a case are closed under the statements of the procedure of this number: exactly where each
/// code at entry, and each that a statement asks for by the codes that there are, is in its set. A pointer without a
/// set counts as having the empty one, and a number below 0 as the unknown code; those of a procedure that isn't there
/// are closed. It takes no memory.
pub fn targets_closed(p: &Program, proc: u32, case: &Case, targets: &Targets) -> bool
    requires { HasRoomFor p.now proc case.now.codes }
    ensures closed { IsTrue result ↔ AreClosedFor p.now proc case.now.codes (codes_of targets.now.sets) }
{
    match proc_at(p, proc as usize) {
        None => true,
        Some(f) => is_closed(
            &scope_of(p, f, case.codes.as_slice()),
            targets.sets.as_slice(),
        ),
    }
}
