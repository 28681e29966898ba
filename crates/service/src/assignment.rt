//! Which command is which request.

use crate::note::Note;
use connections::ConnectionId;
use housekeeping::Patience;

/// A command of a connection, as a request of a client proxy.
#[derive(Clone, Copy)]
pub struct Assignment {
    /// The number of the connection.
    pub connection: u64,
    /// The how manyth command of the connection it is, from 1.
    pub turn: u64,
    /// The number of the proxy, from 1.
    pub proxy: u16,
    /// The how manyth request of the proxy it is, from 1.
    pub number: u64,
}

/// A request that was not answered yet.
#[derive(Clone, Copy)]
pub struct Outstanding {
    /// Where its connection was when it was asked.
    pub key: usize,
    pub assignment: Assignment,
    pub patience: Patience,
    pub note: Note,
}

impl Outstanding {
    /// The connection that asked.
    pub fn connection_id(&self) -> ConnectionId
        ensures key { result.key ≡ self.now.key }
        ensures number { result.number ≡ self.now.assignment.connection }
    {
        ConnectionId {
            key: self.key,
            number: self.assignment.connection,
        }
    }
}

ghost use Rattle.std.specs.Prelude.{◌≡◌};
