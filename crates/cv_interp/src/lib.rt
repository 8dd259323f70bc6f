//! Runs a program step by step: a machine with an explicit stack, which ends where the run of the meaning ends.
#![tactic(auto)]

mod begin;
mod calls;
mod cells;
mod entering;
mod items;
mod laws;
mod leaving;
mod machine;
mod objects;
mod plan;
mod sites;
mod slots;
mod steps;
mod store;
mod world;

pub use begin::StartError;
pub use cv_meaning::{Arg, RunEnd};
pub use laws::start_law;
pub use machine::{Machine, Turn};
