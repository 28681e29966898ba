//! Tests of `session` by its public calls, with ample memory: what a client is given in each of the two grammars.
#![tactic(auto)]

#[cfg(test)]
mod grammars;
#[cfg(test)]
mod limits;
#[cfg(test)]
mod stats;
#[cfg(test)]
mod told;
