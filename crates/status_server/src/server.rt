//! The loop over the listener and its connections.

use crate::peer::{After, Peer};
use mio::net::{TcpListener, TcpStream};
use mio::{Events, Interest, Poll, Token};
use status::Seen;
use std::alloc::Global;
use std::io::ErrorKind;
use std::net::Net;
use std::rt::Clock;
use std::sync::{MutexGuard, Wait};
use std::time::{Duration, Instant};
use std::{io, thread};

/// The most connections at once. The oldest makes room for a new one.
pub const MOST_PEERS: usize = 32;

/// So many connections are accepted in one pass, at most.
const MOST_ACCEPTS: usize = 16;

/// So long it rests after each pass, in milliseconds.
const PAUSE: u64 = 5;

/// So long it waits for an event at most while a connection is open, in milliseconds.
const TICK: u64 = 100;

/// The bytes of one read at most.
const MOST_PIECE_BYTES: usize = 4096;

const LISTENER: Token = Token(usize::MAX);

/// Whoever has what is shown. It has a copy of the figures, and must not wait for a client of the cache.
pub trait Watch {
    /// What is shown. Whoever renews it waits meanwhile.
    fn seen<R: Wait>(&self, rt: &R) -> MutexGuard<'_, Seen>;
}

/// The status port: its listener and its connections, the oldest first.
#[derive(Drop)]
pub struct StatusServer {
    alloc: Global,
    poll: Poll,
    events: Events,
    listener: TcpListener,
    peers: Vec<Peer>,
    buffer: Vec<u8>,
    /// Something can be done although nothing more becomes ready.
    has_more: bool,
}

impl StatusServer {
    /// A server with no connection. It fails if the system gives no descriptor for it, or memory runs out.
    pub fn new<R: Net>(
        rt: &R,
        alloc: Global,
        mut listener: TcpListener,
    ) -> io::Result<StatusServer> {
        let poll = Poll::new(rt)?;
        poll.registry()
            .register(&mut listener, LISTENER, Interest::READABLE)?;
        Ok(StatusServer {
            alloc,
            poll,
            events: Events::with_capacity(alloc, MOST_PEERS + 1)?,
            listener,
            peers: Vec::with_capacity(alloc, MOST_PEERS)?,
            buffer: vec![in alloc; 0u8; MOST_PIECE_BYTES]?,
            has_more: true,
        })
    }

    /// How many connections are open.
    pub fn peer_count(&self) -> usize {
        self.peers.len()
    }

    /// Waits until something can be done, does it, and rests for a few milliseconds. With no connection it waits
    /// for the next one at most so long.
    pub fn pass<R: Wait + Clock, W: Watch>(
        &mut self,
        rt: &R,
        watch: &W,
        most: Option<Duration>,
    ) -> io::Result<()> {
        let limit = self.limit(most);
        self.poll.poll(&mut self.events, limit)?;
        let now = Instant::now(rt)?;
        self.accept(now);
        self.close_late(now);
        if !self.peers.is_empty() {
            self.visit_all(&*watch.seen(rt));
        }
        thread::sleep(rt, Duration::from_millis(PAUSE));
        Ok(())
    }

    /// How long to wait for an event.
    fn limit(&self, most: Option<Duration>) -> Option<Duration> {
        if self.has_more {
            Some(Duration::from_millis(0))
        } else if self.peers.is_empty() {
            most
        } else {
            Some(Duration::from_millis(TICK))
        }
    }

    /// Accepts the connections that wait, a few at most.
    fn accept(&mut self, now: Instant) {
        self.has_more = true;
        for _ in 0..MOST_ACCEPTS {
            match self.listener.accept() {
                Ok((stream, _)) => self.admit(stream, now),
                Err(e) => {
                    if e.kind() == ErrorKind::WouldBlock {
                        self.has_more = false;
                        return;
                    }
                }
            }
        }
    }

    /// Takes the connection in place of the oldest, if there is no room for one more. If memory runs out it is closed.
    fn admit(&mut self, mut stream: TcpStream, now: Instant) {
        let _ = stream.set_nodelay(true);
        let both = Interest::READABLE | Interest::WRITABLE;
        let token = Token(0);
        if self
            .poll
            .registry()
            .register(&mut stream, token, both)
            .is_err()
        {
            return;
        }
        if MOST_PEERS <= self.peers.len() && !self.peers.is_empty() {
            self.peers.remove(0);
        }
        let _ = self.peers.push(Peer::new(self.alloc, stream, now));
    }

    /// Closes those whose time is over.
    fn close_late(&mut self, now: Instant) {
        self.peers.retain(|peer| !peer.is_late(now));
    }

    /// Visits each connection.
    fn visit_all(&mut self, seen: &Seen) {
        let mut at = 0;
        for _ in 0..MOST_PEERS {
            if self.peers.len() <= at {
                return;
            }
            match self.visit_at(at, seen) {
                After::Rest => at += 1,
                After::Again => {
                    self.has_more = true;
                    at += 1;
                }
                After::Close => self.close(at),
            }
        }
    }

    /// Closes one connection.
    fn close(&mut self, at: usize) {
        if at < self.peers.len() {
            self.peers.remove(at);
        }
    }

    /// The visit of one connection.
    fn visit_at(&mut self, at: usize, seen: &Seen) -> After {
        match self.peers.get_mut(at) {
            Some(peer) => peer.visit(self.alloc, seen, self.buffer.as_mut_slice()),
            None => After::Rest,
        }
    }
}

/// Serves the status port on the caller's thread, for ever. After a pass that failed, as at the limit on
/// descriptors, it rests for a second.
///
/// It returns only an error at the start: the system gives no descriptor, or memory runs out.
pub fn serve_status<R: Net + Wait + Clock, W: Watch>(
    rt: &R,
    alloc: Global,
    listener: TcpListener,
    watch: &W,
) -> io::Result<()> {
    let mut server = StatusServer::new(rt, alloc, listener)?;
    for _ in rt.forever() {
        if server.pass(rt, watch, None).is_err() {
            thread::sleep(rt, Duration::from_secs(1));
        }
    }
    Ok(())
}
