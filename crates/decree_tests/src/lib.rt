//! Tests of `decrees`, `view_change` and `keeper`: votes, logs, what a new leader may propose, and where records are kept.
//!
//! They call what is public, and are in a crate of their own: a crate that has tests is proved once
//! more with them. Each call that asks for memory is made once with ample memory, which no contract can promise.
#![tactic(auto)]

#[cfg(test)]
mod of_decrees;
#[cfg(test)]
mod of_keeper;
#[cfg(test)]
mod of_view_change;
