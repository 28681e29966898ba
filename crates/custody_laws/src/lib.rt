//! Laws of what executors keep: each chosen Commit is of a state that some executor made, what an
//! executor has committed was chosen, and the state of the last Commit is not lost.
//!
//! They speak of a machine: executors 0 to `2u` by what they have saved, all letters ever sent, and
//! the decrees that are chosen. What may happen there in any order and number is in
//! `specs/Machine.antt`.
//!
//! It is built on `agreement_laws` (what a chosen decree rests on) and `run_laws` (states that are known by
//! their tokens). The layers above use all three laws. It has no code: each law is the contract of
//! a function that does nothing.
#![tactic(auto)]

mod laws;

pub use laws::{chosen_is_made, committed_is_chosen, last_commit_is_kept};
