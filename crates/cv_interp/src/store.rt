//! What a machine works on.
use cv_core::{List, Proc, VarKind};
use cv_meaning::{Mem, NamedValue, Permit, Value, World};

/// Where the variable of a name is held, and its kind; no place for a name that is no variable.
#[derive(Clone, Copy, Debug, PartialEq, Eq)]
pub(crate) struct Slot {
    pub(crate) place: Option<usize>,
    pub(crate) kind: VarKind,
}

/// Where the object of a name is.
#[derive(Clone, Copy, Debug, PartialEq, Eq)]
pub(crate) enum Home {
    /// Its place among the local objects of the procedure, from 0.
    Own(usize),
    /// Its number, the same in each run.
    Shared(u64),
}

/// What the names of a statement stand for. The slots of its variables stand in the order in which its form has them.
#[derive(Drop)]
pub(crate) struct Line {
    pub(crate) first: Slot,
    pub(crate) second: Slot,
    pub(crate) third: Slot,
    pub(crate) home: Home,
    /// The slots of a call's arguments.
    pub(crate) args: List<Slot>,
    /// The number of the procedure that is called; none for a procedure that the program hasn't.
    pub(crate) callee: Option<u32>,
}

/// What the names of a procedure stand for: a line for each statement, and a slot for each local; and its sites.
#[derive(Drop)]
pub(crate) struct Plan {
    pub(crate) lines: List<Line>,
    pub(crate) locals: List<Slot>,
    /// The site of its first local object.
    pub(crate) site: u32,
    /// The site of its first call of malloc.
    pub(crate) mallocs: u32,
}

/// What stays the same while a procedure runs.
#[derive(Drop)]
pub(crate) struct Activation<'a> {
    pub(crate) number: u32,
    pub(crate) proc: &'a Proc,
    pub(crate) formals: List<NamedValue>,
    /// The memory at entry.
    pub(crate) entry: Mem,
    pub(crate) permit: Permit,
}

/// A procedure that waits for the return of the call at a statement.
#[derive(Drop)]
pub(crate) struct Waiting<'a> {
    pub(crate) activation: Activation<'a>,
    pub(crate) at: usize,
    pub(crate) vars: Vec<Value>,
}

/// How many items of each list of the world are used up.
#[derive(Clone, Copy, Debug, PartialEq, Eq)]
pub(crate) struct Taken {
    pub(crate) input: usize,
    pub(crate) fresh: usize,
    pub(crate) allocations: usize,
    pub(crate) answers: usize,
}

/// The variables of the procedure that runs, by slot; the memory and the number of its objects.
#[derive(Drop)]
pub(crate) struct Room {
    pub(crate) vars: Vec<Value>,
    pub(crate) memory: Mem,
    pub(crate) made: u64,
    pub(crate) taken: Taken,
}

/// All that a statement may change; the lists of the world stay, and what is used up of them counts.
#[derive(Drop)]
pub(crate) struct Store {
    pub(crate) room: Room,
    pub(crate) world: World,
    pub(crate) output: Vec<u8>,
}
