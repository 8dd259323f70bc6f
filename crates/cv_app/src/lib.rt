//! The commands of the program over its devices.
#![tactic(auto)]

mod answer;
mod app;
mod args;
mod check;
mod ended;
mod fault;
mod input;
mod numbers;
mod print_command;
mod program;
mod reads;
mod request;
mod run;
mod served;
mod unbuilt;

pub use app::{cssv, serve_words};
pub use fault::Fault;
pub use served::Served;
pub use unbuilt::built;
