//! The status port's thread: one loop over its listener and at most 32 connections.
//!
//! It is built on `status`, which answers, and on `mio`. It shares nothing with the cache but a copy of the figures.
//! A connection has five seconds for all it does, and makes room for a newer one if 32 are open. A pass answers at
//! most 16 and is followed by a pause, so a flood of requests takes a small part of one core. What sockets give and
//! take no contract says; the clauses here are of `Exchange`: what is left to be written is the end of the answer
//! to the bytes that were read.
#![tactic(auto)]

mod exchange;
mod peer;
mod server;

pub use exchange::Exchange;
pub use server::{MOST_PEERS, StatusServer, Watch, serve_status};
