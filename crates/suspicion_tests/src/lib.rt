//! Tests of `suspicion` by its public calls: at which ticks a member suspects the leader.
#![tactic(auto)]

#[cfg(test)]
mod rows;
