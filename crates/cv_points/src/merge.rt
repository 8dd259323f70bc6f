//! Ascending sets of sites.
ghost use Rattle.std.specs.Prelude.{◌≡◌, ◌++◌, IfOk, IsTrue, MatchOption, false, true};
ghost use Rattle.cv_points.specs.Closed.{IsSubset};
ghost use Rattle.cv_points.specs.Merge as spec;

use cv_core::List;
use std::alloc::{AllocError, Global};

/// What stands behind a site in a set; None where the set lacks it.
fn after(set: &[u32], site: u32) -> Option<&[u32]>
    ensures { MatchOption result (spec.is_next site set.now ≡ false) (λ rest. (spec.is_next site set.now ≡ true) × (rest.now ≡ spec.above site set.now)) }
{
    let mut rest = set;
    while let [s, tail @ ..] = rest {
        if *s >= site {
            return if *s == site { Some(tail) } else { None };
        }
        rest = tail;
    }
    None
}

/// Whether each site of `from` is in `to`.
fn is_merged(from: &[u32], to: &[u32]) -> bool
    ensures { result ≡ spec.is_merged from.now to.now }
{
    let mut left = from;
    let mut right = to;
    while let [site, tail @ ..] = left {
        match after(right, *site) {
            None => return false,
            Some(rest) => right = rest,
        }
        left = tail;
    }
    true
}

/// Whether one walk over two sets finds each site of `from` in `to`. It finds each that is there where both ascend.
pub(crate) fn is_within(from: &[u32], to: &[u32]) -> bool
    ensures { IsTrue result → IsSubset from.now to.now }
{
    is_merged(from, to)
}

/// Puts the sites of a set below `site` behind `items`, and gives those above it.
fn push_below<'a>(items: &mut Vec<u32>, set: &'a [u32], site: u32) -> Result<&'a [u32], AllocError>
    ensures { IfOk result (λ rest. (items.new.items ≡ items.old.items ++ spec.below site set.now) × (rest.now ≡ spec.above site set.now)) }
{
    let mut rest = set;
    while let [s, tail @ ..] = rest {
        if *s >= site {
            return Ok(if *s == site { tail } else { rest });
        }
        items.push(*s)?;
        rest = tail;
    }
    Ok(rest)
}

/// The union of two sets.
fn union(alloc: Global, from: &[u32], to: &[u32]) -> Result<List<u32>, AllocError>
    ensures { IfOk result (λ xs. xs ≡ spec.merge from.now to.now) }
{
    let mut items = Vec::new(alloc);
    let mut left = from;
    let mut right = to;
    while let [site, tail @ ..] = left {
        right = push_below(&mut items, right, *site)?;
        items.push(*site)?;
        left = tail;
    }
    items.extend_from_slice(right)?;
    Ok(List::from_vec(items))
}

/// The union of two sets, None where it is `to` itself. It takes one walk over both.
pub(crate) fn merged(
    alloc: Global,
    from: &[u32],
    to: &[u32],
) -> Result<Option<List<u32>>, AllocError>
    ensures { IfOk result (λ set. MatchOption set (spec.is_merged from.now to.now ≡ true) (λ xs. (spec.is_merged from.now to.now ≡ false) × (xs ≡ spec.merge from.now to.now))) }
{
    if is_merged(from, to) {
        return Ok(None);
    }
    let set = union(alloc, from, to)?;
    Ok(Some(set))
}
