//! A list that contracts see as the list of its elements: the public types of all layers are made of it.
#![tactic(auto)]

mod laws;
mod list;

pub use laws::first_seen_law;
pub use list::{Bytes, List};
