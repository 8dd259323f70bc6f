//! Integer programs: what a procedure becomes under an alias case.
#![tactic(auto)]

mod guard;
mod program;

pub use guard::meets;
pub use program::{CodeSet, Group, IntProgram, IpPlace, Transition};
