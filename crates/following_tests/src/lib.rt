//! Tests of `following` by its public calls: each rule by a row, and a model of three executors in simulated time, one of
//! which is slower than the others, or was away.
#![tactic(auto)]

#[cfg(test)]
mod executor;
#[cfg(test)]
mod holding;
#[cfg(test)]
mod model;
#[cfg(test)]
mod plays;
#[cfg(test)]
mod rows;
#[cfg(test)]
mod verifier;
