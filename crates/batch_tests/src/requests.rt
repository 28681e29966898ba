//! Requests of clients, each to delete `k`, and the replies to them.

use proto::{Command, Key, Reply, Update};
use sessions::{Request, Sessions};
use std::alloc::{AllocError, Global};

/// The client's request of this number. Both begin at 1, so a 0 is taken as 1.
pub fn ask(alloc: Global, client: u16, number: u64) -> Result<Request, AllocError> {
    let key = Key::from_slice(alloc, &[b'k'])?;
    Ok(Request {
        client: client.max(1),
        number: number.max(1),
        command: Command::Update(Update::Delete { key }),
    })
}

/// A reply that a table can hold.
#[derive(Clone, Copy)]
pub enum Says {
    Stored,
    Deleted,
    NotFound,
    Number(u64),
}

/// Keeps this reply to the client's request of this number.
pub fn keep(
    alloc: Global,
    sessions: &mut Sessions,
    client: u16,
    number: u64,
    says: Says,
) -> Result<(), AllocError> {
    let request = ask(alloc, client, number)?;
    let reply = match says {
        Says::Stored => Reply::Stored,
        Says::Deleted => Reply::Deleted,
        Says::NotFound => Reply::NotFound,
        Says::Number(number) => Reply::Number(number),
    };
    sessions.keep(&request, reply)
}
