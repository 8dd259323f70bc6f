//! Tests of points-to families, alias cases and the codes inside a procedure, by tables of known results.
#![tactic(auto)]

#[cfg(test)]
mod cases;
#[cfg(test)]
mod codes;
#[cfg(test)]
mod families;
#[cfg(test)]
mod programs;
