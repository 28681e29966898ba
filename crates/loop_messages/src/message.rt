//! What the event loop and the service tell each other of one connection.

ghost use Rattle.std.specs.Prelude.{◌≡◌, [], true, false};

use std::alloc::Global;

/// Once so many bytes have been said to a connection and not been written, the service asks no more for it.
pub const MOST_UNWRITTEN: usize = 262144;

/// What the event loop tells the service of one connection.
///
/// `key` names the connection while it is there and is used again afterwards. `number` counts the
/// connections and is never used again, so whoever gets a message compares it.
#[derive(Drop)]
pub enum Heard {
    /// A connection was accepted. Nothing has been read of it.
    Came {
        key: usize,
        number: u64,
    },
    /// The next bytes of a connection, at least one. Until they are done with no more of it is read.
    Bytes {
        key: usize,
        number: u64,
        bytes: Vec<u8>,
    },
    /// All that was said to the connection is written: so many bytes since this was last said, which is
    /// at least `MOST_UNWRITTEN`.
    Written {
        key: usize,
        number: u64,
        count: usize,
    },
    /// The connection has ended. What is said to it from now on is dropped.
    Left {
        key: usize,
        number: u64,
    },
}

/// What the service says to one connection.
#[derive(Drop)]
pub struct Said {
    /// Where the event loop keeps the connection. It is used again after the connection left.
    pub key: usize,
    /// The number of the connection, which no other one ever has.
    pub number: u64,
    /// To be written after all that was said to the connection before. May be empty.
    pub bytes: Vec<u8>,
    /// The connection is closed once all is written. Neither side speaks of it again.
    pub closes: bool,
    /// A command of the connection is outstanding: nothing more is to be read of it until it is told something without
    /// this.
    pub waits: bool,
}

impl Said {
    /// No bytes, to a connection that is to be closed.
    pub fn last(alloc: Global, key: usize, number: u64) -> Said
        ensures key { result.key ≡ key }
        ensures number { result.number ≡ number }
        ensures bytes { result.bytes.items ≡ [] }
        ensures closes { result.closes ≡ true }
        ensures waits { result.waits ≡ false }
    {
        Said {
            key,
            number,
            bytes: Vec::new(alloc),
            closes: true,
            waits: false,
        }
    }
}
