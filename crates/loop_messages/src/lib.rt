//! What an event loop and the service behind it tell each other of connections, as values.
//!
//! It is built on nothing. `event_loop` reads and writes the sockets, and tells what it `Heard`; `connections` and the
//! layers above make what is `Said`, which goes through them unchanged.
#![tactic(auto)]

mod message;

pub use message::{Heard, MOST_UNWRITTEN, Said};
