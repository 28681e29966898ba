//! Tests of `base`, `link` and `proto`: maps, lists and texts, queues between threads, and what a reader makes of bytes.
//!
//! They call what is public, and are in a crate of their own: a crate that has tests is proved once
//! more with them. Each call that asks for memory is made once with ample memory, which no contract can promise.
#![tactic(auto)]

#[cfg(test)]
mod of_base;
#[cfg(test)]
mod of_link;
#[cfg(test)]
mod of_proto;
