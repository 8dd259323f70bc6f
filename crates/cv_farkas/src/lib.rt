//! Steps of proof over whole numbers.
#![tactic(auto)]

mod directly;
mod order;
mod parts;
mod search;
mod steps;

pub use directly::{direct, direct_law};
pub use steps::{Step, prove, step_holds, step_law};
