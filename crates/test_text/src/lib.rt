//! Tests of the texts that are read and printed, over the public calls of cv_lex, cv_core and
//! cv_text alone.
#![tactic(auto)]

#[cfg(test)]
mod contracts;
#[cfg(test)]
mod narrow;
#[cfg(test)]
mod programs;
#[cfg(test)]
mod reading;
#[cfg(test)]
mod shapes;
#[cfg(test)]
mod tokens;
