//! The listeners, and what waits to be accepted at each.

use crate::stream::{Listener, Stream};
use mio::{Poll, Token};
use std::alloc::Global;
use std::io;
use std::io::ErrorKind;

/// The token of the first listener. The others count down from it, and the keys of sockets are far below.
const FIRST: usize = usize::MAX - 1;

/// Whether connections wait to be accepted.
#[derive(Clone, Copy, PartialEq, Eq)]
enum Backlog {
    /// None waits. The next one gives an event.
    Empty,
    /// Some may wait.
    Due,
    /// One waits, but there is no descriptor or no memory for it. It is tried again at the next tick, or
    /// when a socket is closed. No event tells of it.
    Stuck,
}

/// A listener, and what waits there.
#[derive(Drop)]
struct Port {
    listener: Listener,
    backlog: Backlog,
}

/// What came of an attempt to accept.
#[derive(Drop)]
pub enum Accepted {
    /// A connection.
    Stream(Stream),
    /// None, and another attempt may give one.
    Again,
    /// None waits.
    Nothing,
    /// The system has no descriptor or no memory for the connection that waits.
    Failed,
}

/// All listeners of an event loop.
pub struct Listeners {
    ports: Vec<Port>,
}

impl Drop for Listeners {
    fn drop(self) {
        let Listeners { ports: _ } = self;
    }
}

impl Listeners {
    /// The listeners, known to the poll. It fails if the system does not take one of them, or memory runs out.
    pub fn new(alloc: Global, poll: &Poll, all: Vec<Listener>) -> io::Result<Listeners> {
        let mut ports = Vec::with_capacity(alloc, all.len())?;
        for listener in all {
            let mut listener = listener;
            let token = Token(FIRST.saturating_sub(ports.len()));
            listener.register(poll, token)?;
            let backlog = Backlog::Due;
            ports.push(Port { listener, backlog })?;
        }
        Ok(Listeners { ports })
    }

    /// How many there are.
    pub fn len(&self) -> usize {
        self.ports.len()
    }

    /// Connections may wait at the listener of this token. Whether there is one.
    pub fn note(&mut self, token: Token) -> bool {
        if FIRST < token.0 {
            return false;
        }
        match self.ports.get_mut(FIRST - token.0) {
            Some(port) => {
                port.backlog = Backlog::Due;
                true
            }
            None => false,
        }
    }

    /// Accepts one connection of the listener at this index.
    pub fn accept(&mut self, at: usize) -> Accepted {
        let Some(port) = self.ports.get_mut(at) else {
            return Accepted::Nothing;
        };
        if port.backlog != Backlog::Due {
            return Accepted::Nothing;
        }
        match port.listener.accept() {
            Ok(stream) => Accepted::Stream(stream),
            Err(e) => match e.kind() {
                ErrorKind::Interrupted | ErrorKind::ConnectionAborted => Accepted::Again,
                ErrorKind::WouldBlock => {
                    port.backlog = Backlog::Empty;
                    Accepted::Nothing
                }
                _ => {
                    port.backlog = Backlog::Stuck;
                    Accepted::Failed
                }
            },
        }
    }

    /// Connections that are stuck are tried again.
    pub fn try_again(&mut self) {
        for port in self.ports.iter_mut() {
            if port.backlog == Backlog::Stuck {
                port.backlog = Backlog::Due;
            }
        }
    }

    /// Whether a connection may wait to be accepted.
    pub fn is_any_due(&self) -> bool {
        self.ports.iter().any(|port| port.backlog == Backlog::Due)
    }

    /// Whether a connection waits for a descriptor or for memory.
    pub fn is_any_stuck(&self) -> bool {
        self.ports.iter().any(|port| port.backlog == Backlog::Stuck)
    }
}
