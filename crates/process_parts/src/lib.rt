//! What is stored of a process, and the process that goes on from it.
//!
//! It is built on `ensemble`, whose `ProcessRecord` is what the replicas keep and what the proxies asked, and on
//! `process_text`, which writes and reads the text of it. The layer above uses `stored_of`, which makes of a record the
//! text and the state whose items are stored apart, and `record_of`, which makes the record again.
//!
//! The executors of a process at rest have equal states, and one of them is stored. An executor of a state with the same
//! head (number, token and so on), without tentative states, is stored by some small fields. Every other one is stored by
//! its whole record, so that takes as long as the items are many. Items are never compared: two states of one head are one
//! state if digests are distinct, and then what is restored is what was stored (`what_is_stored_is_restored`).
//!
//! `data_folder` uses both calls. No code calls the three laws.
#![tactic(auto)]

mod executor_rows;
mod laws;
mod proxy_rows;
mod reference;
mod restoring;
mod storing;
mod verifier_rows;

pub use laws::{stored_records_are_one, what_is_restored_is_stored, what_is_stored_is_restored};
pub use restoring::record_of;
pub use storing::{StoredProcess, stored_of};
