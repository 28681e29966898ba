//! The groups in which the requests of a batch run.
//!
//! Requests that run at once should not touch one key, unless they only read it. The mixer
//! predicts this from the first two keys of each request: a conflict on a later key is overlooked
//! on purpose, since the replicas find out by comparing what they made of the batch.
//!
//! It is built on `sessions` (requests) and `item_steps` (groups and their steps). The layer above uses
//! `group_numbers`: the group of each request is the one that `numbers_of` says. `mix` gives the groups
//! themselves, as `groups_of` says: each position of the batch is in one of them. Only tests call it.
#![tactic(auto)]

mod conflict;
mod groups;

pub use groups::{group_numbers, mix};
