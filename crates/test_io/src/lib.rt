//! Tests of cv_io, over its public calls alone: devices in memory and the host's.
#![tactic(auto)]

#[cfg(test)]
mod host;
#[cfg(test)]
mod loads;
#[cfg(test)]
mod memory;
