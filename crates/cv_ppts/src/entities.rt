//! Entities and blocks.
use cv_core::List;

/// The class of an object.
#[derive(Clone, Copy, PartialEq, Eq, Debug)]
pub enum Class {
    Buffer,
    PointerCell,
    IntCell,
}

/// What an alias case gives a code: a pointer formal, a listed global, a named literal or what a block of pointer
/// cells holds.
#[derive(Debug, Drop)]
pub(crate) struct Entity {
    /// Whether it may have the code 0, null.
    pub nullable: bool,
    /// The class of the objects to which it points.
    pub class: Class,
    /// The sites of these objects.
    pub sites: List<u32>,
}

/// The entities that have one object.
#[derive(Debug, Drop)]
pub(crate) struct Block {
    pub class: Class,
    /// The sites that are in the set of each of the entities.
    pub sites: List<u32>,
}
