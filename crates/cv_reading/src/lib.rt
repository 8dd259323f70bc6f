//! Reading from left to right: what a grammar's reader keeps, whatever the grammar is.
#![tactic(auto)]
