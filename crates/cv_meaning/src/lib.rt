//! What a program means: memory, contract values, steps, runs and clean programs, as definitions, and
//! the types of which they speak.
#![tactic(auto)]

mod access;
mod clauses;
mod contract;
mod ends;
mod laws;
mod memory;
mod objects;

pub use access::{first_zero, load, shift, store};
pub use clauses::{Part, holds};
pub use contract::term_value;
pub use ends::{Arg, RunEnd};
pub use laws::{bound_law, end_law, step_by_step_law, unclean_law, worked_runs};
pub use memory::{Body, NamedValue, Object, Permit, Ptr, Value, View, World};
pub use objects::Mem;
