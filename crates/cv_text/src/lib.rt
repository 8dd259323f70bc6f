//! CoreC text: its tokens, its grammar and its readers.
#![tactic(auto)]

mod atoms;
mod contract;
mod cursor;
mod declarations;
mod faults;
mod laws;
mod lexer;
mod names;
mod narrow;
mod nesting;
mod operands;
mod print;
mod print_contract;
mod print_statement;
mod programs;
mod statements;
mod sums;
mod terms;
mod token;

pub use contract::read_contract;
pub use faults::{TextError, TextFault};
pub use laws::printed_law;
pub use narrow::read_narrow;
pub use print::print_core;
pub use programs::read_core;
pub use token::{Key, Sign};
