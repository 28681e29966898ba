//! How large a world is, and what may happen in it.
//!
//! It is built on `proto`, for `Fault` alone. The layers above are the reader of a schedule, which gives
//! events in the order in which its lines name them, and the worlds, in which they happen.
#![tactic(auto)]

mod config;
mod event;

pub use config::{Config, MOST_CLIENTS};
pub use event::{Event, Replica};
