//! Points-to families after Andersen: whether a family of site sets is closed under the rules of a program's
//! statements, and the least family that is.
#![tactic(auto)]

mod agenda;
mod check;
mod collect;
mod cursor;
mod distinct;
mod fixpoint;
mod groups;
mod growth;
mod holders;
mod merge;
mod missing;
mod place;
mod places;
mod readers;
mod rules;
mod statements;
mod walk;

pub use check::closed;
pub use fixpoint::least;
pub use holders::first_holder;
pub use place::Place;
pub use places::cell_places;
