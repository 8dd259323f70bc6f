//! What is taken from the world.
ghost use Rattle.std.specs.Prelude.{◌≡◌, IfOk, drop, pos, slice_index_or, true};
ghost use Rattle.cv_meaning.specs.Call as spec;
ghost use Rattle.cv_meaning.specs.State.{fresh as fresh_of, fresh_bytes as fresh_bytes_of};
ghost use Rattle.cv_interp.specs.Seen.{left};

use crate::store::Taken;
use cv_core::{List, low_byte};
use cv_meaning::World;
use std::alloc::{AllocError, Global};

/// The items of a list from a place on.
fn rest<T>(xs: &List<T>, at: usize) -> &[T]
    ensures { result.now ≡ drop at xs.now }
{
    let items = xs.as_slice();
    if at < items.len() { &items[at..] } else { &[] }
}

/// The place behind `count` more items of a list, at most its end.
#[tactic(auto, using(crate::proofs::Dropped::drop_past, crate::proofs::Dropped::drop_more))]
fn behind<T>(xs: &List<T>, at: usize, count: usize) -> usize
    ensures { drop result xs.now ≡ drop count (drop at xs.now) }
{
    let len = xs.len();
    if at >= len {
        return len;
    }
    if count >= len - at {
        return len;
    }
    at + count
}

/// The next fresh number; 0 where there is none.
pub(crate) fn fresh(w: &World, taken: Taken) -> i32
    ensures { result ≡ fresh_of (left w.now taken) }
{
    match rest(&w.fresh, taken.fresh) {
        [] => 0,
        [z, ..] => *z,
    }
}

/// What is taken after so many more fresh numbers.
pub(crate) fn spent(w: &World, taken: Taken, count: usize) -> Taken
    ensures { left w.now result ≡ record (left w.now taken) { fresh = drop count (left w.now taken).fresh } }
{
    let fresh = behind(&w.fresh, taken.fresh, count);
    Taken { fresh, ..taken }
}

/// The fresh number behind so many more; 0 where there is none.
#[tactic(auto, using(crate::proofs::Dropped::first_left))]
fn fresh_after(w: &World, taken: Taken, count: usize) -> i32
    ensures { result ≡ slice_index_or (left w.now taken).fresh count (pos 0) }
{
    fresh(w, spent(w, taken, count))
}

/// The next fresh numbers as bytes, so many as asked for.
#[tactic(auto, using(crate::proofs::Dropped::bytes_more))]
pub(crate) fn fresh_bytes(
    alloc: Global,
    w: &World,
    taken: Taken,
    count: usize,
) -> Result<Vec<u8>, AllocError>
    ensures { IfOk result (λ bytes. bytes.items ≡ fresh_bytes_of count (left w.now taken)) }
{
    let mut bytes = Vec::new(alloc);
    for i in 0..count {
        bytes.push(low_byte(fresh_after(w, taken, i)))?;
    }
    Ok(bytes)
}

/// The next allocation answer; 1 where there is none.
pub(crate) fn allocation(w: &World, taken: Taken) -> bool
    ensures { result ≡ slice_index_or (left w.now taken).allocations 0 true }
{
    match rest(&w.allocations, taken.allocations) {
        [] => true,
        [answer, ..] => *answer,
    }
}

/// What is taken after one more allocation answer.
pub(crate) fn after_allocation(w: &World, taken: Taken) -> Taken
    ensures { left w.now result ≡ record (left w.now taken) { allocations = drop 1 (left w.now taken).allocations } }
{
    let allocations = behind(&w.allocations, taken.allocations, 1);
    Taken {
        allocations,
        ..taken
    }
}

/// The next byte of the input; -1 at its end.
pub(crate) fn byte_read(w: &World, taken: Taken) -> i32
    ensures { result ≡ spec.byte_read (left w.now taken).input }
{
    match rest(&w.input, taken.input) {
        [] => -1,
        [b, ..] => i32::from(*b),
    }
}

/// What is taken after one more byte of the input.
pub(crate) fn after_byte(w: &World, taken: Taken) -> Taken
    ensures { left w.now result ≡ record (left w.now taken) { input = drop 1 (left w.now taken).input } }
{
    let input = behind(&w.input, taken.input, 1);
    Taken { input, ..taken }
}

/// The next extern answer where it is within a range, else the least of the range.
pub(crate) fn answer_in(least: i64, most: i64, w: &World, taken: Taken) -> i64
    ensures { result ≡ spec.answer_in least most (left w.now taken).answers }
{
    match rest(&w.answers, taken.answers) {
        [] => least,
        [z, ..] => {
            let z = i64::from(*z);
            if least <= z && z <= most { z } else { least }
        }
    }
}

/// What is taken after one more extern answer.
pub(crate) fn after_answer(w: &World, taken: Taken) -> Taken
    ensures { left w.now result ≡ record (left w.now taken) { answers = drop 1 (left w.now taken).answers } }
{
    let answers = behind(&w.answers, taken.answers, 1);
    Taken { answers, ..taken }
}
