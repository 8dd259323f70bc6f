//! All alias cases of a procedure.
ghost use Rattle.std.specs.Prelude.{◌≡◌, ◌<◌, ◌≤◌, ◌↔◌, [], Contains, IfErr, IfOk, List as Items, MatchOption, OnSome, length, slice_get, ℕ};
ghost use Rattle.std.specs.Option.{option_copied};
ghost use Rattle.cv_points.specs.Holders.{first_holder as first_holder_of};
ghost use Rattle.cv_ppts.specs.Cases.{AreAscending, AreCases, AreTooMany, IsCase, IsCauseOf, codes_of};
ghost use Rattle.cv_ppts.specs.Entities.{named_entities};
ghost use Rattle.cv_ppts.specs.Listed.{named_lists};

use crate::codes::{Case, CaseError};
use crate::named::{entities_from, listed_of};
use crate::search::{Search, find_named};
use cv_core::{List, Proc, Program, PtsTable};
use cv_points::{cell_places, first_holder};
use std::alloc::{AllocError, Global};

/// The place of the first holder of a procedure; a greater place than a word holds has no room in memory.
fn first_place(p: &Program, proc: usize) -> Result<usize, AllocError>
    requires { proc ≤ length p.now.procs }
    ensures { IfOk result (λ n. n ≡ first_holder_of p.now proc) }
{
    let first = first_holder(p, proc);
    if first == usize::MAX {
        return Err(AllocError);
    }
    Ok(first)
}

/// The codes of all cases of a procedure; None where they are more than 64.
fn all_codes(
    alloc: Global,
    p: &Program,
    proc: usize,
    f: &Proc,
    sets: &[List<u32>],
) -> Result<Option<Vec<List<u32>>>, AllocError>
    requires { proc ≤ length p.now.procs }
    ensures { IfOk result (λ v. MatchOption v (64 < length (named_lists p.now sets.now f.now (named_entities p.now sets.now proc f.now) [] [])) (λ w. (w.items ≡ named_lists p.now sets.now f.now (named_entities p.now sets.now proc f.now) [] []) × (length w.items ≤ 64))) }
{
    let first = first_place(p, proc)?;
    let cells = cell_places(alloc, p)?;
    let listed = listed_of(alloc, p, f)?;
    let entities = entities_from(alloc, p, sets, first, f)?;
    let search = Search {
        p,
        f,
        sets,
        cells: cells.as_slice(),
        listed: listed.as_slice(),
    };
    let mut found = Vec::new(alloc);
    let all = find_named(alloc, &search, entities.as_slice(), &[], &[], &mut found)?;
    if all { Ok(Some(found)) } else { Ok(None) }
}

/// Cases with these codes.
fn as_cases(alloc: Global, lists: Vec<List<u32>>) -> Result<Vec<Case>, AllocError>
    ensures { IfOk result (λ v. codes_of v.items ≡ lists.items) }
{
    let mut cases = Vec::new(alloc);
    for codes in lists {
        cases.push(Case { codes })?;
    }
    Ok(cases)
}

pub(crate) fn proc_at(p: &Program, proc: usize) -> Option<&Proc>
    ensures value { option_copied result ≡ slice_get p.now.procs proc }
    ensures within { OnSome result (proc < length p.now.procs) }
{
    p.procs.get(proc)
}

/// All cases of a procedure; None where they are more than 64.
fn all_cases(
    alloc: Global,
    p: &Program,
    proc: usize,
    sets: &[List<u32>],
) -> Result<Option<Vec<Case>>, AllocError>
    ensures { IfOk result (λ v. MatchOption v (AreTooMany p.now sets.now proc) (λ w. AreCases p.now sets.now proc (codes_of w.items) × (length w.items ≤ 64))) }
{
    match proc_at(p, proc) {
        None => Ok(Some(Vec::new(alloc))),
        Some(f) => match all_codes(alloc, p, proc, f, sets)? {
            None => Ok(None),
            Some(lists) => {
                let cases = as_cases(alloc, lists)?;
                Ok(Some(cases))
            }
        },
    }
}

/// The alias cases of the procedure of this number over a family: all lists of codes that its entities can have at
/// entry by the sites of the family, ascending, each once. `Limit` is given exactly where they are more than 64; the
/// other error is want of memory. Codes are given to the entities one after the other. A list is given up where an
/// entity can't have its code, and as soon as the codes so far make an atom of requires false, or show an item of
/// modifies that is a literal's, whatever codes come behind.
pub fn cases(
    alloc: Global,
    p: &Program,
    proc: u32,
    table: &PtsTable,
) -> Result<Vec<Case>, CaseError>
    ensures each { IfOk result (λ cases. (codes : Items ℕ) → Contains (codes_of cases.items) codes ↔ IsCase p.now table.now proc codes) }
    ensures ascending { IfOk result (λ cases. AreAscending (codes_of cases.items)) }
    ensures few { IfOk result (λ cases. length cases.items ≤ 64) }
    ensures cause { IfErr result (λ e. IsCauseOf p.now table.now proc e) }
{
    match all_cases(alloc, p, proc as usize, table.sets.as_slice()) {
        Err(_) => Err(CaseError::Memory),
        Ok(found) => match found {
            None => Err(CaseError::Limit),
            Some(cases) => Ok(cases),
        },
    }
}
