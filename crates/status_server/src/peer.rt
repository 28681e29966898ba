//! One connection to the status port.

ghost use Rattle.std.specs.Prelude.{◌≡◌, []};

use crate::exchange::Exchange;
use mio::net::TcpStream;
use status::Seen;
use std::alloc::Global;
use std::io::{ErrorKind, Read, Write};
use std::net::Shutdown;
use std::time::{Duration, Instant};

/// All that a connection does has to be done in so many seconds.
const LIMIT: u64 = 5;

/// So many steps are made in one visit, at most.
const MOST_STEPS: usize = 8;

/// What follows a step.
#[derive(Clone, Copy, Debug, PartialEq, Eq)]
pub enum After {
    /// Nothing more can be done until an event comes.
    Rest,
    /// More can be done at once.
    Again,
    /// It is to be closed.
    Close,
}

/// A connection, and how far its exchange has come.
#[derive(Drop)]
pub struct Peer {
    stream: TcpStream,
    exchange: Exchange,
    since: Instant,
    /// The response is written. What else comes is let go until the other side closes: if it were closed before,
    /// the response could be lost.
    is_done: bool,
}

impl Peer {
    /// A connection that came at this moment.
    pub fn new(alloc: Global, stream: TcpStream, now: Instant) -> Peer {
        Peer {
            stream,
            exchange: Exchange::new(alloc),
            since: now,
            is_done: false,
        }
    }

    /// Whether its time is over.
    pub fn is_late(&self, now: Instant) -> bool {
        Duration::from_secs(LIMIT) <= now.duration_since(self.since)
    }

    /// Reads and writes as far as the socket goes, but a few steps at most.
    pub fn visit(&mut self, alloc: Global, seen: &Seen, buffer: &mut [u8]) -> After {
        for _ in 0..MOST_STEPS {
            let after = self.step(alloc, seen, buffer);
            if after != After::Again {
                return after;
            }
        }
        After::Again
    }

    /// One read or one write.
    fn step(&mut self, alloc: Global, seen: &Seen, buffer: &mut [u8]) -> After {
        if self.exchange.is_waiting() {
            self.read(alloc, seen, buffer)
        } else if self.is_done {
            self.let_go(buffer)
        } else {
            self.write()
        }
    }

    /// Reads once, and hears what came.
    fn read(&mut self, alloc: Global, seen: &Seen, buffer: &mut [u8]) -> After
        requires { self.old.exchange.response ≡ [] }
    {
        match self.stream.read(buffer) {
            Ok(0) => After::Close,
            Ok(count) => {
                let (piece, _) = buffer.split_at(count);
                match self.exchange.hear(alloc, piece, seen) {
                    Ok(()) => After::Again,
                    Err(_) => After::Close,
                }
            }
            Err(e) => after_failure(e.kind()),
        }
    }

    /// Writes once. After the last byte the other side is told that no more comes.
    fn write(&mut self) -> After {
        match self.stream.write(self.exchange.rest()) {
            Ok(0) => After::Close,
            Ok(count) => {
                self.exchange.write(count);
                self.end_if_written()
            }
            Err(e) => after_failure(e.kind()),
        }
    }

    /// Ends the response if all of it is written.
    fn end_if_written(&mut self) -> After {
        if !self.exchange.rest().is_empty() {
            return After::Again;
        }
        self.is_done = true;
        match self.stream.shutdown(Shutdown::Write) {
            Ok(()) => After::Again,
            Err(_) => After::Close,
        }
    }

    /// Reads once, and lets go what came.
    fn let_go(&mut self, buffer: &mut [u8]) -> After {
        match self.stream.read(buffer) {
            Ok(0) => After::Close,
            Ok(_) => After::Again,
            Err(e) => after_failure(e.kind()),
        }
    }
}

/// What follows a read or a write that failed.
fn after_failure(kind: ErrorKind) -> After {
    match kind {
        ErrorKind::WouldBlock => After::Rest,
        ErrorKind::Interrupted => After::Again,
        _ => After::Close,
    }
}
