//! Programs and families of the tables.

use cv_core::{List, Program, PtsTable, check_limits, check_shape};
use cv_text::read_core;
use std::alloc::{AllocError, Global};
use std::test::Fail;

fn read(alloc: Global, text: &str) -> Result<Program, Fail> {
    if text.len() > 65536 {
        return Err(Fail::from("a long text"));
    }
    match read_core(alloc, text.as_bytes()) {
        Ok(p) => Ok(p),
        Err(_) => Err(Fail::from("no program")),
    }
}

/// Whether a program is within the limits and well formed.
fn is_sound(alloc: Global, p: &Program) -> bool {
    let limits = check_limits(p).is_ok();
    let shape = check_shape(alloc, p).is_ok();
    limits && shape
}

/// The program of a CoreC text, which is within the limits and well formed.
pub(crate) fn program(alloc: Global, text: &str) -> Result<Program, Fail> {
    let p = read(alloc, text)?;
    if is_sound(alloc, &p) {
        Ok(p)
    } else {
        Err(Fail::from("a program that is not well formed"))
    }
}

/// The family of these sets.
pub(crate) fn family(alloc: Global, sets: &[&[u32]]) -> Result<PtsTable, AllocError> {
    let mut lists = List::new(alloc);
    for set in sets {
        lists.push(List::from_slice(alloc, set)?)?;
    }
    Ok(PtsTable { sets: lists })
}
