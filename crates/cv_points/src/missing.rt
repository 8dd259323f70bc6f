//! What a rule asks of a family and the family lacks.
ghost use Rattle.std.specs.Prelude.{◌≡◌, ◌<◌, ◌^◌, Contains, MatchBool, MatchOption, Option as Maybe, length, ℕ};
ghost use Rattle.std.specs.Option.{option_map};
ghost use Rattle.cv_points.specs.Closed as spec;
ghost use Rattle.cv_points.specs.Cursors.{IsCursor};
ghost use Rattle.cv_points.specs.Missing.{CellRead, CellWritten, IsLacking, LacksFromCell, LacksInCell, LacksRead, LacksWritten, IsMissing, MaybeMissing, ReadsHold, WritesHold};
ghost use Rattle.cv_points.specs.Walks.{word_rule};
ghost use Rattle.cv_points.specs.declared.rules.Rule.{Rule as RuleValue};

use crate::cursor::{Cursor, cell_place_from, first_cursor};
use crate::merge::is_within;
use crate::rules::Rule;
use cv_core::{List, Program};

/// A site that is to be in the set at the place `to`, and is not there.
#[derive(Clone, Copy, PartialEq, Eq, Debug)]
pub(crate) struct Missing {
    pub to: usize,
    pub site: usize,
}

/// The set at a place, empty where there is none.
pub(crate) fn set_at(sets: &[List<u32>], place: usize) -> &[u32]
    ensures { result.now ≡ spec.set_at sets.now place }
{
    match sets.get(place) {
        None => &[],
        Some(set) => set.as_slice(),
    }
}

fn has_site(set: &[u32], site: usize) -> bool
    ensures answer { MatchBool result (Contains set.now site) (Contains set.now site → ⊥) }
    ensures small { (s : ℕ) → Contains set.now s → s < 2 ^ 32 }
{
    for s in set {
        if *s as usize == site {
            return true;
        }
    }
    false
}

/// Whether the set at a place has a site.
fn has_site_at(sets: &[List<u32>], place: usize, site: usize) -> bool
    ensures answer { MatchBool result (Contains (spec.set_at sets.now place) site) (Contains (spec.set_at sets.now place) site → ⊥) }
    ensures small { (s : ℕ) → Contains (spec.set_at sets.now place) s → s < 2 ^ 32 }
{
    has_site(set_at(sets, place), site)
}

/// The first site of `from` that `to` lacks, by a search for each.
fn first_searched(from: &[u32], to: &[u32]) -> Option<usize>
    ensures { MatchOption result (spec.IsSubset from.now to.now) (λ s. Contains from.now s × (Contains to.now s → ⊥)) }
{
    for s in from {
        let site = *s as usize;
        if !has_site(to, site) {
            return Some(site);
        }
    }
    None
}

/// The first site of `from` that `to` lacks. Where both ascend and `to` lacks none, one walk over both is enough.
fn first_absent(from: &[u32], to: &[u32]) -> Option<usize>
    ensures { MatchOption result (spec.IsSubset from.now to.now) (λ s. Contains from.now s × (Contains to.now s → ⊥)) }
{
    if is_within(from, to) {
        None
    } else {
        first_searched(from, to)
    }
}

/// A site in the set at `from` and not in the one at `to`.
fn missing_within(sets: &[List<u32>], from: usize, to: usize) -> Option<Missing>
    ensures { MatchOption result (spec.IsSubset (spec.set_at sets.now from) (spec.set_at sets.now to)) (λ m. (m.to ≡ to) × IsLacking sets.now from to m.site) }
{
    match first_absent(set_at(sets, from), set_at(sets, to)) {
        None => None,
        Some(site) => Some(Missing { to, site }),
    }
}

/// A site that the cell at `pointed` holds and the set at `to` lacks.
fn missing_from_cell(
    p: &Program,
    sets: &[List<u32>],
    at: &mut Cursor,
    pointed: usize,
    to: usize,
) -> Option<Missing>
    requires { IsCursor p.now at.old }
    ensures missing { MatchOption result (CellRead p.now sets.now pointed to) (λ m. (m.to ≡ to) × LacksFromCell p.now sets.now pointed to m.site) }
    ensures cursor { IsCursor p.now at.new }
{
    match cell_place_from(p, at, pointed) {
        None => None,
        Some(cell) => missing_within(sets, cell, to),
    }
}

/// A site that the set at `from` has and the cell at `pointed` lacks.
fn missing_in_cell(
    p: &Program,
    sets: &[List<u32>],
    at: &mut Cursor,
    from: usize,
    pointed: usize,
) -> Option<Missing>
    requires { IsCursor p.now at.old }
    ensures missing { MatchOption result (CellWritten p.now sets.now from pointed) (λ m. LacksInCell p.now sets.now from pointed m.to m.site) }
    ensures cursor { IsCursor p.now at.new }
{
    match cell_place_from(p, at, pointed) {
        None => None,
        Some(cell) => missing_within(sets, from, cell),
    }
}

/// A site that a cell in the set at `pointer` holds and the set at `to` lacks.
fn missing_read(p: &Program, sets: &[List<u32>], pointer: usize, to: usize) -> Option<Missing>
    ensures { MatchOption result (ReadsHold p.now sets.now pointer to) (λ m. (m.to ≡ to) × LacksRead p.now sets.now pointer to m.site) }
{
    let pointed = set_at(sets, pointer);
    let mut at = first_cursor(p);
    for s in pointed {
        match missing_from_cell(p, sets, &mut at, *s as usize, to) {
            None => {}
            Some(missing) => return Some(missing),
        }
    }
    None
}

/// A site that the set at `from` has and a cell in the set at `pointer` lacks.
fn missing_write(p: &Program, sets: &[List<u32>], from: usize, pointer: usize) -> Option<Missing>
    ensures { MatchOption result (WritesHold p.now sets.now from pointer) (λ m. LacksWritten p.now sets.now from pointer m.to m.site) }
{
    let pointed = set_at(sets, pointer);
    let mut at = first_cursor(p);
    for s in pointed {
        match missing_in_cell(p, sets, &mut at, from, *s as usize) {
            None => {}
            Some(missing) => return Some(missing),
        }
    }
    None
}

/// What a rule asks of a family and the family lacks.
pub(crate) fn missing_by_rule(p: &Program, sets: &[List<u32>], rule: Rule) -> Option<Missing>
    ensures { (r : RuleValue) → length sets.now < 2 ^ 64 → rule ≡ word_rule r → MatchOption result (spec.Holds p.now sets.now r) (λ m. IsMissing p.now sets.now r m.to m.site) }
{
    match rule {
        Rule::Has { to, site } => {
            if has_site_at(sets, to, site) {
                None
            } else {
                Some(Missing { to, site })
            }
        }
        Rule::Includes { from, to } => missing_within(sets, from, to),
        Rule::Reads { pointer, to } => missing_read(p, sets, pointer, to),
        Rule::Writes { from, pointer } => missing_write(p, sets, from, pointer),
    }
}

/// What a rule asks of a family and the family lacks, where there is a rule.
pub(crate) fn missing_by(p: &Program, sets: &[List<u32>], rule: Option<Rule>) -> Option<Missing>
    ensures { (r : Maybe RuleValue) → length sets.now < 2 ^ 64 → rule ≡ option_map word_rule r → MatchOption result (spec.MaybeHolds p.now sets.now r) (λ m. MaybeMissing p.now sets.now r m.to m.site) }
{
    match rule {
        None => None,
        Some(rule) => missing_by_rule(p, sets, rule),
    }
}
