//! What the service of a server decides, as values: no thread, no socket and no clock is here.
//!
//! It is built on `decrees`. The layers above use: `Patience`, when a client proxy asks again and when it
//! suspects the leader; `due_trim`, which decrees a verifier forgets. Each is its definition.
#![tactic(auto)]

mod patience;
mod trimming;

pub use patience::{Patience, Seen, Urge};
pub use trimming::{LEFT_DECREES, MOST_DECREES, due_trim};
