//! What a verifier that comes to lead a view has to propose.
//!
//! It is built on `decrees`. The layer above uses `Promises::choice`: what was accepted before, by as
//! many as a decision needs, is proposed again, and anything may be proposed only if nothing was.
#![tactic(auto)]

mod promises;

pub use promises::{Choice, Promise, Promises};
