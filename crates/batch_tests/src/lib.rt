//! Tests of `sessions`, `batches`, `mixer` and `token`: requests, the batches that are cut of them, the replies that are kept, and digests.
//!
//! They call what is public, and are in a crate of their own: a crate that has tests is proved once
//! more with them. Each call that asks for memory is made once with ample memory, which no contract can promise.
#![tactic(auto)]

#[cfg(test)]
mod of_batches;
#[cfg(test)]
mod of_mixer;
#[cfg(test)]
mod of_sessions;
#[cfg(test)]
mod of_token;
#[cfg(test)]
mod of_told;
#[cfg(test)]
mod requests;
