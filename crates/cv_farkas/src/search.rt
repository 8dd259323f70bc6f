//! Two rows with a given sum, found in an index of the rows by their order.
ghost use Rattle.std.specs.Prelude.{◌≡◌, ◌≤◌, ℕ, ℤ, IfOk, MatchOption, length};
ghost use Rattle.cv_num.specs.Pairs.{IsCanonical};
ghost use Rattle.cv_farkas.specs.Search.{IsFound, IsIndex, IsNumbered, IsReached, IsSortedIndex, NoneReaches};

use crate::order::{compare_combined, compare_rows};
use cv_num::Row;
use std::alloc::{AllocError, Global};
use std::cmp::Ordering;

/// A row and its place in a list, from 0.
#[derive(Clone, Copy)]
pub(crate) struct Entry<'a> {
    row: &'a Row,
    number: u32,
}

/// The rows with their places.
fn numbered(alloc: Global, rows: &[Row]) -> Result<Vec<Entry<'_>>, AllocError>
    requires { length rows.now ≤ 4096 }
    ensures { IfOk result (λ entries. IsNumbered rows.now entries.items) }
{
    let mut entries = Vec::new(alloc);
    let mut number = 0u32;
    for row in rows {
        entries.push(Entry { row, number })?;
        number += 1;
    }
    Ok(entries)
}

/// The index of the rows, in their order.
pub(crate) fn index_of(alloc: Global, rows: &[Row]) -> Result<Vec<Entry<'_>>, AllocError>
    requires { length rows.now ≤ 4096 }
    ensures { IfOk result (λ entries. IsIndex rows.now entries.items) }
{
    let mut entries = numbered(alloc, rows)?;
    entries.sort_unstable_by(|a, b| compare_rows(a.row, b.row));
    Ok(entries)
}

/// Equal where the sum of two rows has the pairs and no greater constant, Less where its pairs stand
/// before those, else Greater.
fn compare_sum(a: &Row, b: &Row, pairs: &[(u32, i128)], constant: i128) -> Ordering
    requires { IsCanonical pairs.now }
    ensures { IsReached result a.now b.now pairs.now constant }
{
    match compare_combined(a.pairs.as_slice(), 1, b.pairs.as_slice(), pairs) {
        Ordering::Equal => {
            if i128::from(a.constant) + i128::from(b.constant) <= constant {
                Ordering::Equal
            } else {
                Ordering::Greater
            }
        }
        other => other,
    }
}

/// The places of two rows of the index whose sum has the pairs and no greater constant. One walk from
/// both ends: where the sum of the ends stands before what is sought, no row goes with the lower end,
/// and where it stands behind, none goes with the upper one.
pub(crate) fn find_sum(
    index: &[Entry<'_>],
    pairs: &[(u32, i128)],
    constant: i128,
) -> Option<(u32, u32)>
    requires sorted { IsSortedIndex index.now }
    requires canonical { IsCanonical pairs.now }
    ensures { MatchOption result (NoneReaches index.now pairs.now constant) (λ found. IsFound index.now pairs.now constant found.0 found.1) }
{
    let mut low = 0usize;
    let mut high = index.len();
    while high - low > 1 {
        let first = &index[low];
        let last = &index[high - 1];
        match compare_sum(first.row, last.row, pairs, constant) {
            Ordering::Less => low += 1,
            Ordering::Equal => return Some((first.number, last.number)),
            Ordering::Greater => high -= 1,
        }
    }
    None
}
