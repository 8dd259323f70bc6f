//! Tests of rows, steps of proof, certificate texts and the checker, by tables of known results.
#![tactic(auto)]

#[cfg(test)]
mod certificates;
#[cfg(test)]
mod checker;
#[cfg(test)]
mod rows;
#[cfg(test)]
mod steps;
