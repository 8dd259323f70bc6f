//! The checker of certificates of straight-line programs: whether a text is a certificate that is valid
//! for a program, which then is clean.
#![tactic(auto)]

mod check;
mod place;
mod program;
mod rows;
mod shown;
mod walk;

pub use check::check_narrow;
