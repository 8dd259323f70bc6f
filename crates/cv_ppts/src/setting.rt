//! A case as a procedure's statements see it.
ghost use Rattle.cv_ppts.specs.Setting.{IsKnown};

use cv_core::{Proc, Program};

/// A case as a procedure's statements see it.
#[derive(Drop)]
pub(crate) struct Scope<'a> {
    pub p: &'a Program,
    pub f: &'a Proc,
    /// The codes of the entities.
    pub codes: &'a [u32],
    /// How many literals the statements name, where it is known.
    pub literal_count: Option<usize>,
    /// The places of the sets of what the first targets hold, as far as they are known.
    pub contents: &'a [Option<u128>],
    ghost known: { IsKnown (record { program = p.now; proc = f.now; codes = codes.now }) literal_count contents.now },
}
