//! Connections: a session for each, whose command is handed on.
//!
//! It is built on `session`, which reads the bytes, keeps one command outstanding and writes the replies in order, and on
//! `grammar`: all of them are read in one grammar.
//! The command is taken (`take`), is asked of a client proxy by the layer above, and the reply comes back
//! (`answer`). The layer above uses `Connections`: the connections that are here, by the event loop's keys, and
//! what all that ever came were given.
#![tactic(auto)]

mod connection;
mod connections;
mod history;
mod slots;
mod table;

pub use connection::Connection;
pub use connections::{CommandNumber, Connections};
pub use grammar::Dialect;
pub use history::{History, Passing};
pub use session::Ready;
pub use slots::ConnectionId;
pub use table::MOST_SLOTS;
