//! Tests of memory, contract values and runs, by tables of known results.
#![tactic(auto)]

#[cfg(test)]
mod clauses;
#[cfg(test)]
mod memory;
#[cfg(test)]
mod runs;
#[cfg(test)]
mod small;
