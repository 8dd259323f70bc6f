//! Whether a family is closed under the rules of a program's statements.
ghost use Rattle.std.specs.Prelude.{◌≡◌, ◌<◌, ◌≤◌, ◌^◌, ◌↔◌, IfErr, IsOk, MatchBool, MatchOption, MatchResult, Some, length, slice_get, ℕ};
ghost use Rattle.cv_core.specs.Names as spec;
ghost use Rattle.cv_points.specs.Closed.{HoldsAt, HoldsIn, IsClosed, IsFirstOpenAt, capped as capped_of};
ghost use Rattle.cv_points.specs.Walks.{AreBases, AreStarts};

use crate::holders::{Bases, bases_of, starts};
use crate::place::Place;
use crate::statements::missing_in_statement;
use cv_core::{List, Proc, Program, PtsTable, stmts_of};

/// Whether the rules of a statement hold.
fn holds_in(
    p: &Program,
    sets: &[List<u32>],
    known: &[usize],
    proc: usize,
    bases: Bases,
    f: &Proc,
    statement: usize,
) -> bool
    requires counted { length sets.now < 2 ^ 64 }
    requires known { AreStarts p.now known.now }
    requires bases { AreBases p.now proc bases }
    requires here { slice_get p.now.procs proc ≡ Some f.now }
    requires among { proc ≤ length p.now.procs }
    requires there { statement ≤ length (spec.stmts_of f.now.body) }
    ensures { MatchBool result (HoldsIn p.now sets.now proc f.now statement) (HoldsIn p.now sets.now proc f.now statement → ⊥) }
{
    match missing_in_statement(p, sets, known, proc, bases, f, statement) {
        None => true,
        Some(_) => false,
    }
}

/// The first statement of a procedure of which a rule fails.
fn first_open_in(
    p: &Program,
    sets: &[List<u32>],
    known: &[usize],
    proc: usize,
    bases: Bases,
    f: &Proc,
) -> Option<usize>
    requires counted { length sets.now < 2 ^ 64 }
    requires known { AreStarts p.now known.now }
    requires bases { AreBases p.now proc bases }
    requires here { slice_get p.now.procs proc ≡ Some f.now }
    requires among { proc ≤ length p.now.procs }
    ensures { MatchOption result ((k : ℕ) → HoldsIn p.now sets.now proc f.now k) (λ k. (HoldsIn p.now sets.now proc f.now k → ⊥) × ((n : ℕ) → n < k → HoldsIn p.now sets.now proc f.now n)) }
{
    for statement in 0..stmts_of(f).len() {
        if !holds_in(p, sets, known, proc, bases, f, statement) {
            return Some(statement);
        }
    }
    None
}

/// The first statement of the procedure of this number of which a rule fails.
fn first_open_at(p: &Program, sets: &[List<u32>], known: &[usize], proc: usize) -> Option<usize>
    requires counted { length sets.now < 2 ^ 64 }
    requires known { AreStarts p.now known.now }
    requires among { proc ≤ length p.now.procs }
    ensures { MatchOption result ((k : ℕ) → HoldsAt p.now sets.now proc k) (λ k. (HoldsAt p.now sets.now proc k → ⊥) × ((n : ℕ) → n < k → HoldsAt p.now sets.now proc n)) }
{
    match p.procs.get(proc) {
        None => None,
        Some(f) => first_open_in(p, sets, known, proc, bases_of(p, proc), f),
    }
}

fn proc_count(p: &Program) -> usize
    ensures { result ≡ length p.now.procs }
{
    p.procs.len()
}

/// A number as a place has it.
fn capped(number: usize) -> u32
    ensures { result ≡ capped_of number }
{
    if number < 4294967295 {
        number as u32
    } else {
        4294967295
    }
}

fn sets_of(table: &PtsTable) -> &[List<u32>]
    ensures value { result.now ≡ table.now }
    ensures counted { length result.now < 2 ^ 64 }
{
    let sets = table.sets.as_slice();
    let _count = sets.len();
    sets
}

/// Whether a family is closed: each rule of each statement of the program holds in it. `Err` is the first
/// statement, in the order of procedures and statements, of which a rule fails; what the start asks for
/// belongs to the first statement of main. A holder without a set counts as having the empty one. It takes
/// no memory. The rules are those of inclusion after Andersen, without regard to the order of statements.
pub fn closed(p: &Program, table: &PtsTable) -> Result<(), Place>
    ensures closed { IsOk result ↔ IsClosed p.now table.now }
    ensures place { IfErr result (λ at. IsFirstOpenAt p.now table.now at) }
{
    closed_under(p, sets_of(table))
}

fn closed_under(p: &Program, sets: &[List<u32>]) -> Result<(), Place>
    requires { length sets.now < 2 ^ 64 }
    ensures { MatchResult result (λ done. IsClosed p.now sets.now) (λ at. IsFirstOpenAt p.now sets.now at) }
{
    let known = starts(p);
    for proc in 0..proc_count(p) {
        match first_open_at(p, sets, known.as_slice(), proc) {
            None => {}
            Some(statement) => {
                return Err(Place {
                    proc: capped(proc),
                    statement: capped(statement),
                });
            }
        }
    }
    Ok(())
}
