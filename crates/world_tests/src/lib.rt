//! Tests of `world` by its public calls: rows of what happens, and what the client is given.
#![tactic(auto)]

#[cfg(test)]
mod clients;
#[cfg(test)]
mod failures;
#[cfg(test)]
mod random;
#[cfg(test)]
mod refusals;
#[cfg(test)]
mod stage;
