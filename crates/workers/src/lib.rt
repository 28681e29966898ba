//! Several threads that work at once: on the steps of one group, or on the digests of pages and sessions.
//!
//! It is built on `round`, whose steps may be made by any threads in any order, on `pages` and `token`,
//! and starts the threads. The layer above uses `run`: an Ok gives pages and answers that some
//! interleaving of the group's steps leads to, whatever the schedule; and `digest_all`, which leaves
//! each page with its digest, and gives that of the sessions.
#![tactic(auto)]

mod digests;
mod rounds;
mod workers;

pub use digests::digest_all;
pub use rounds::run;
pub use workers::{MOST_WORKERS, Workers};
