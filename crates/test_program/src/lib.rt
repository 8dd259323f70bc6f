//! Tests of the whole program, over the public calls of cv_app alone: words and files go in, a
//! status and two texts come out.
#![tactic(auto)]

#[cfg(test)]
mod checks;
#[cfg(test)]
mod cores;
#[cfg(test)]
mod limits;
#[cfg(test)]
mod programs;
#[cfg(test)]
mod runs;
#[cfg(test)]
mod serving;
