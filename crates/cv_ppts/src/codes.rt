//! Alias cases.
use cv_core::List;
use thiserror::Error;

/// A code for each entity of a procedure, in the order of the entities: the pointer formals, the listed globals, the
/// literals that its statements name, and the contents of the blocks of pointer cells. Code 0 is null, and code k
/// stands for the k-th block of entities that have one object, by the first entity of each.
#[derive(Debug, Drop)]
pub struct Case {
    pub codes: List<u32>,
}

/// Why there is no list of cases.
#[derive(Debug, Drop, Error)]
pub enum CaseError {
    #[error("more than 64 alias cases")]
    Limit,
    #[error("out of memory")]
    Memory,
}

/// The codes that pointers can have inside a procedure: one ascending set for each pointer variable, the formals before
/// the locals, and then for what each target that is a pointer cell holds. Code 0 is null, -1 that nothing is known, and
/// t from 1 on the target t: first the blocks of the case, then the local objects, then what the statements allocate.
#[derive(Debug, Drop)]
pub struct Targets {
    pub sets: List<List<i32>>,
}
