//! Tests of `verifier` by its public calls: schedules, which are played line by line.
#![tactic(auto)]

#[cfg(test)]
mod tests;
