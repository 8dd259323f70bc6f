//! The growth of a family by the rules of a program.
ghost use Rattle.std.specs.Prelude.{◌≡◌, ◌||◌, Contains, IfOk, ℕ};
ghost use Rattle.cv_points.specs.Closed as spec;
ghost use Rattle.cv_points.specs.Growing.{Grows, IsGrownAt, Keeps, KeepsAll, ReadsCell, WritesCell, place_at};
ghost use Rattle.cv_points.specs.Least.{IsEmptyFamily};

use crate::merge::merged;
use crate::missing::set_at;
use crate::rules::Rule;
use cv_core::List;
use std::alloc::{AllocError, Global};

/// So many empty sets.
pub(crate) fn empty_sets(alloc: Global, count: usize) -> Result<Vec<List<u32>>, AllocError>
    ensures { IfOk result (λ v. IsEmptyFamily count v.items) }
{
    let mut sets = Vec::new(alloc);
    for _ in 0..count {
        sets.push(List::new(alloc))?;
    }
    Ok(sets)
}

/// The set at a place, empty where there is none.
pub(crate) fn set_in(sets: &Vec<List<u32>>, place: usize) -> &[u32]
    ensures { result.now ≡ spec.set_at sets.now.items place }
{
    set_at(sets.as_slice(), place)
}

/// The set at `to` with the sites of `source`; None where it has them.
fn grown_at(
    alloc: Global,
    sets: &Vec<List<u32>>,
    source: &[u32],
    to: usize,
) -> Result<Option<List<u32>>, AllocError>
    ensures { IfOk result (λ set. IsGrownAt sets.now.items source.now to set) }
{
    match merged(alloc, source, set_in(sets, to))? {
        None => Ok(None),
        Some(set) => {
            if to < sets.len() {
                Ok(Some(set))
            } else {
                Err(AllocError)
            }
        }
    }
}

/// Puts a site into the set at `to`, and says whether it was new there.
fn add(alloc: Global, sets: &mut Vec<List<u32>>, to: usize, site: usize) -> Result<bool, AllocError>
    ensures { IfOk result (λ more. Grows sets.old.items sets.new.items more (λ R. Contains (spec.set_at R to) site)) }
{
    if site > 4294967295 {
        return Err(AllocError);
    }
    match grown_at(alloc, sets, [site as u32].as_slice(), to)? {
        None => Ok(false),
        Some(set) => {
            sets[to] = set;
            Ok(true)
        }
    }
}

/// Puts the sites of the set at `from` into the one at `to`, and says whether one was new there.
fn include(
    alloc: Global,
    sets: &mut Vec<List<u32>>,
    from: usize,
    to: usize,
) -> Result<bool, AllocError>
    ensures { IfOk result (λ more. Grows sets.old.items sets.new.items more (λ R. spec.IsSubset (spec.set_at R from) (spec.set_at R to))) }
{
    match grown_at(alloc, sets, set_in(sets, from), to)? {
        None => Ok(false),
        Some(set) => {
            sets[to] = set;
            Ok(true)
        }
    }
}

/// The place of the set of the pointer cell at a site.
pub(crate) fn cell_at(cells: &[Option<usize>], site: u32) -> Option<usize>
    ensures { result ≡ place_at cells.now site }
{
    match cells.get(site as usize) {
        None => None,
        Some(place) => *place,
    }
}

/// Puts what the cell at a site holds into the set at `to`.
fn read_cell(
    alloc: Global,
    cells: &[Option<usize>],
    sets: &mut Vec<List<u32>>,
    site: u32,
    to: usize,
) -> Result<bool, AllocError>
    ensures { IfOk result (λ more. Grows sets.old.items sets.new.items more (λ R. ReadsCell cells.now R to site)) }
{
    match cell_at(cells, site) {
        None => Ok(false),
        Some(cell) => {
            let more = include(alloc, sets, cell, to)?;
            Ok(more)
        }
    }
}

/// Puts the set at `from` into the cell at a site.
fn write_cell(
    alloc: Global,
    cells: &[Option<usize>],
    sets: &mut Vec<List<u32>>,
    from: usize,
    site: u32,
) -> Result<bool, AllocError>
    ensures { IfOk result (λ more. Grows sets.old.items sets.new.items more (λ R. WritesCell cells.now R from site)) }
{
    match cell_at(cells, site) {
        None => Ok(false),
        Some(cell) => {
            let more = include(alloc, sets, from, cell)?;
            Ok(more)
        }
    }
}

fn either(one: bool, other: bool) -> bool
    ensures { result ≡ (one || other) }
{
    one || other
}

/// Puts what the cells at sites hold into the set at `to`.
fn read_cells(
    alloc: Global,
    cells: &[Option<usize>],
    sets: &mut Vec<List<u32>>,
    pointed: &[u32],
    to: usize,
) -> Result<bool, AllocError>
    ensures { IfOk result (λ more. Grows sets.old.items sets.new.items more (λ R. (s : ℕ) → Contains pointed.now s → ReadsCell cells.now R to s)) }
{
    let mut more = false;
    for site in pointed {
        let grew = read_cell(alloc, cells, sets, *site, to)?;
        more = either(more, grew);
    }
    Ok(more)
}

/// Puts the set at `from` into the cells at sites.
fn write_cells(
    alloc: Global,
    cells: &[Option<usize>],
    sets: &mut Vec<List<u32>>,
    from: usize,
    pointed: &[u32],
) -> Result<bool, AllocError>
    ensures { IfOk result (λ more. Grows sets.old.items sets.new.items more (λ R. (s : ℕ) → Contains pointed.now s → WritesCell cells.now R from s)) }
{
    let mut more = false;
    for site in pointed {
        let grew = write_cell(alloc, cells, sets, from, *site)?;
        more = either(more, grew);
    }
    Ok(more)
}

/// A copy of the set at a place.
fn copied(alloc: Global, sets: &Vec<List<u32>>, place: usize) -> Result<Vec<u32>, AllocError>
    ensures { IfOk result (λ v. v.items ≡ spec.set_at sets.now.items place) }
{
    let items = Vec::from_slice(alloc, set_in(sets, place))?;
    Ok(items)
}

/// Puts what a rule asks for into the sets, and says whether something was new.
pub(crate) fn apply(
    alloc: Global,
    cells: &[Option<usize>],
    sets: &mut Vec<List<u32>>,
    rule: Rule,
) -> Result<bool, AllocError>
    ensures { IfOk result (λ more. Grows sets.old.items sets.new.items more (λ R. Keeps cells.now R rule)) }
{
    match rule {
        Rule::Has { to, site } => {
            let more = add(alloc, sets, to, site)?;
            Ok(more)
        }
        Rule::Includes { from, to } => {
            let more = include(alloc, sets, from, to)?;
            Ok(more)
        }
        Rule::Reads { pointer, to } => {
            let pointed = copied(alloc, sets, pointer)?;
            let more = read_cells(alloc, cells, sets, pointed.as_slice(), to)?;
            Ok(more)
        }
        Rule::Writes { from, pointer } => {
            let pointed = copied(alloc, sets, pointer)?;
            let more = write_cells(alloc, cells, sets, from, pointed.as_slice())?;
            Ok(more)
        }
    }
}

/// Puts what each rule asks for into the sets once, and says whether something was new.
pub(crate) fn apply_all(
    alloc: Global,
    cells: &[Option<usize>],
    sets: &mut Vec<List<u32>>,
    rules: &[Rule],
) -> Result<bool, AllocError>
    ensures { IfOk result (λ more. Grows sets.old.items sets.new.items more (λ R. KeepsAll cells.now rules.now R)) }
{
    let mut more = false;
    for rule in rules {
        let grew = apply(alloc, cells, sets, *rule)?;
        more = either(more, grew);
    }
    Ok(more)
}
