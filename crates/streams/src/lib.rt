//! The two ways of a connection: what is read is handed on piece by piece, and a text is written.
//!
//! It is built on `std` alone. The layer above uses `read_session`: what was handed on is what was read, in
//! order, and then one hangup, or nothing more if the listener said so; and `write_session`: what went out
//! is the text, or on an error just the beginning of it that the error tells. `ReadOnce` and `WriteOnce`
//! make each single read and write visible to these contracts: none comes after the one that ended it.
#![tactic(auto)]

mod reading;
mod writing;

pub use reading::{Ending, Listener, MOST_PIECE_BYTES, ReadOnce, read_session};
pub use writing::{WriteOnce, write_session};
