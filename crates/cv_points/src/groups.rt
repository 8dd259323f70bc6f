//! Which rules belong together: those of one procedure, by whose number their group goes. Nothing but speed rests on it.
use crate::holders::{proc_count, starts};
use crate::rules::Rule;
use cv_core::Program;
use std::alloc::{AllocError, Global};

/// The place of the set that a rule reads, or adds to where it reads none: nearly always one of the procedure whose
/// statement the rule belongs to.
fn own_place(rule: Rule) -> usize {
    match rule {
        Rule::Has { to, .. } => to,
        Rule::Includes { from, .. } => from,
        Rule::Reads { pointer, .. } => pointer,
        Rule::Writes { pointer, .. } => pointer,
    }
}

/// How many of the first so many numbers, which ascend, are at most a place.
fn count_at_most(starts: &[usize], count: usize, place: usize) -> usize {
    let mut low = 0;
    let mut high = count.min(starts.len());
    for _ in 0..usize::BITS {
        if low >= high {
            return low;
        }
        let middle = low + (high - low) / 2;
        match starts.get(middle) {
            Some(start) if *start <= place => low = middle + 1,
            _ => high = middle,
        }
    }
    low
}

/// For each rule the number of its group, from 0 on: procedures in their order, and the cells with the last.
pub(crate) fn groups_of(
    alloc: Global,
    p: &Program,
    rules: &[Rule],
) -> Result<Vec<usize>, AllocError> {
    let known = starts(p);
    let count = proc_count(p);
    let mut groups = Vec::new(alloc);
    for rule in rules {
        groups.push(count_at_most(known.as_slice(), count, own_place(*rule)))?;
    }
    Ok(groups)
}
