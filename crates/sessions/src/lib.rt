//! Requests of clients, and the last reply of each client.
//!
//! A client numbers its requests from 1 and asks one after the other. What is kept of each client
//! is the number of its last request that ran, and the reply: so a request that comes twice runs
//! once, and is answered as before.
//!
//! It is built on `base` (a map in one sorted vector of shared entries) and on `proto` (commands and
//! replies). The layers above use `Sessions::fresh`: true exactly if the request is the next of its
//! client. A clone of `Sessions` is one pointer, and what is kept is shared until a reply is kept.
#![tactic(auto)]

mod entries;
mod laws;
mod request;
mod sessions;

pub use laws::kept_request_is_not_fresh;
pub use request::Request;
pub use sessions::{LastReply, MOST_CLIENTS, Sessions};
