//! Batches of requests, and the requests that wait for one.
//!
//! A `Gather` holds at most one request a client, in the order of arrival. A cut takes the first
//! `MOST_REQUESTS` of them that are the next of their clients into a batch, and drops those that ran
//! already.
//!
//! It is built on `base` (lists with limits), `sessions` (which request is next) and `indexmap` (look-up
//! by client, in order of arrival). The layer above uses `Gather::cut`: the batch is exactly what `taken` says of the
//! requests that wait, and what waits on is exactly what `left` says.
#![tactic(auto)]

mod batch;
mod gather;
mod held;
mod laws;

pub use batch::{Batch, GREATEST_NUMBER, MOST_REQUESTS, Requests};
pub use gather::Gather;
pub use laws::stamps_are_below_2_to_64;
