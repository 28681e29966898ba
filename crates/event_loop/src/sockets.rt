//! The sockets of an event loop, and those of them that are to be visited.

ghost use Rattle.std.specs.Prelude.{◌≡◌, ◌≢◌, ◌+◌, ℕ, [], true, false, Some, None, IfSome, IfNone, length};
ghost use Rattle.slab.specs.Slab.{get, slab_len, Updates};
ghost use Rattle.event_loop.specs.Socket.{IsQuiet, SocketView, new_socket};
ghost use Rattle.event_loop.specs.Sockets.{IsGiven, AreAllGiven, NotesListed, IsSameButListed, IsVisitOfFirst};

use crate::socket::{After, Moved, Readiness, Socket};
use crate::visits::Visits;
use loop_messages::{Heard, Said};
use slab::Slab;
use std::alloc::{AllocError, Global};
use std::io::{Read, Write};
use std::marker::Model;

/// What came of the visit of a socket.
#[derive(Clone, Copy)]
pub struct Visited {
    pub key: usize,
    pub after: After,
    pub moved: Moved,
    /// Its number, if the other side sends no more.
    pub leaver: Option<u64>,
}

/// Sockets, each under its key. A key is used again once its socket is gone, a number never.
pub struct Sockets<S: Read + Write> {
    all: Slab<Socket<S>>,
    /// There is room for all.
    visits: Visits,
    /// The number of the next one.
    next: u64,
}

impl<S: Read + Write + Drop> Drop for Sockets<S> {
    fn drop(self) {
        let Sockets {
            all: _,
            visits: _,
            next: _,
        } = self;
    }
}

impl<S: Read + Write> Model for Sockets<S> {
    ghost use Rattle.event_loop.specs.Sockets.{SocketsView, IsSockets};

    ghost Value = { SocketsView };

    ghost view = { λ s. record { all = s.all; visits = s.visits; next = s.next } };

    ghost invariant = { λ s. IsSockets (record { all = s.all; visits = s.visits; next = s.next }) };
}

impl<S: Read + Write + Drop> Sockets<S> {
    /// There is none. The first one is to have this number.
    pub fn new(alloc: Global, first: u64) -> Sockets<S>
        ensures none { (key : ℕ) → get result.all key ≡ None }
        ensures visits { result.visits ≡ record { keys = []; has_lost = false } }
        ensures next { result.next ≡ first }
    {
        Sockets {
            all: Slab::new(alloc),
            visits: Visits::new(alloc),
            next: first,
        }
    }

    /// How many there are.
    pub fn len(&self) -> usize
        ensures { result ≡ slab_len self.now.all }
    {
        self.all.len()
    }

    /// The key of the next one.
    pub fn next_key(&self) -> usize
        ensures { result ≡ self.now.all.vacant_key }
    {
        self.all.vacant_key()
    }

    /// How many visits there are to be.
    pub fn listed_count(&self) -> usize
        ensures { result ≡ length self.now.visits.keys }
    {
        self.visits.len()
    }

    /// Makes room for one more. The only error is a failed allocation.
    pub fn reserve(&mut self) -> Result<(), AllocError>
        ensures all { self.new.all ≡ record self.old.all { capacity = self.new.all.capacity } }
        ensures visits { self.new.visits ≡ self.old.visits }
        ensures next { self.new.next ≡ self.old.next }
    {
        self.all.reserve(1)?;
        self.visits.reserve(self.all.len().saturating_add(1))
    }

    /// One more, under the next key and number: its number. None if memory runs out.
    pub fn insert(&mut self, alloc: Global, stream: S) -> Option<u64>
        ensures here { IfSome result (λ number. (number ≡ self.old.next) × Updates self.old.all self.new.all self.old.all.vacant_key (Some (new_socket number (record { remaining = S.remaining stream; contents = S.contents stream; reads = []; got = []; writes = []; said = []; waits = [] })))) }
        ensures next { IfSome result (λ number. self.new.next ≡ self.old.next + 1) }
        ensures none { IfNone result ((key : ℕ) → get self.new.all key ≡ get self.old.all key) }
        ensures same_next { IfNone result (self.new.next ≡ self.old.next) }
    {
        let number = self.next;
        if number == u64::MAX {
            return None;
        }
        if self.all.reserve(1).is_err() {
            return None;
        }
        self.all.insert_reserved(Socket::new(alloc, stream, number));
        self.next += 1;
        Some(number)
    }

    /// Gives what the service says to the socket of this key and number, if it is here. It is to be visited then.
    pub fn give(&mut self, said: Said)
        ensures { IsGiven self.old said self.new }
    {
        let key = said.key;
        if let Some(socket) = self.all.get_mut(key) {
            let is_meant = socket.number() == said.number;
            if is_meant {
                socket.hear(said);
                self.visits.list(key, socket);
            }
        }
    }

    /// Gives all that the service says, in order.
    pub fn give_all(&mut self, all: Vec<Said>)
        ensures { AreAllGiven self.old all.items self.new }
    {
        for said in all {
            self.give(said);
        }
    }

    /// Notes what an event tells of the socket of this key, and lists it for a visit. Its number, if the other side
    /// sends no more and no event said so before.
    pub fn note(&mut self, key: usize, ready: Readiness) -> Option<u64>
        ensures others { (other : ℕ) → other ≢ key → get self.new.all other ≡ get self.old.all other }
        ensures notes { (s : SocketView) → get self.old.all key ≡ Some s → (t : SocketView) × (get self.new.all key ≡ Some t) × NotesListed s ready t }
        ensures number { IfSome result (λ number. (s : SocketView) × (get self.old.all key ≡ Some s) × (s.number ≡ number)) }
        ensures next { self.new.next ≡ self.old.next }
    {
        let socket = self.all.get_mut(key)?;
        let leaver = socket.note(ready);
        self.visits.list(key, socket);
        leaver
    }

    /// Whether the connection of this key and number is here, and nothing is owed to either side of it.
    pub fn is_quiet(&self, key: usize, number: u64) -> bool
        ensures quiet { result ≡ true → (s : SocketView) × (get self.now.all key ≡ Some s) × (s.number ≡ number) × IsQuiet s }
    {
        match self.all.get(key) {
            Some(socket) => socket.number() == number && socket.is_quiet(),
            None => false,
        }
    }

    /// Ends the connection of this key and number, if it is here. It is to be visited then, and tells so.
    pub fn end(&mut self, key: usize, number: u64)
        ensures others { (other : ℕ) → other ≢ key → get self.new.all other ≡ get self.old.all other }
        ensures unknown { ((s : SocketView) → get self.old.all key ≡ Some s → s.number ≢ number) → get self.new.all key ≡ get self.old.all key }
        ensures ends { (s : SocketView) → get self.old.all key ≡ Some s → s.number ≡ number → (t : SocketView) × (get self.new.all key ≡ Some t) × IsSameButListed (record s { has_ended = true }) t }
        ensures next { self.new.next ≡ self.old.next }
    {
        if let Some(socket) = self.all.get_mut(key) {
            let is_meant = socket.number() == number;
            if is_meant {
                socket.end();
                self.visits.list(key, socket);
            }
        }
    }

    /// The visit of the socket that was listed first: it writes what waits, reads once if `reads`, and tells what happened.
    /// None if none is listed, or the socket is gone. It is so late in microseconds of the caller's clock.
    pub fn visit_first(
        &mut self,
        alloc: Global,
        micros: u64,
        reads: bool,
        buffer: &mut [u8],
        heard: &mut Vec<Heard>,
    ) -> Option<Visited>
        ensures { IsVisitOfFirst reads self.old self.new heard.old.items heard.new.items }
    {
        let key = self.visits.take_first()?;
        let socket = self.all.get_mut(key)?;
        socket.set_listed(false);
        let after = socket.visit(alloc, key, reads, buffer, heard);
        let visited = Visited {
            key,
            after,
            moved: socket.take_moved(micros),
            leaver: socket.leaver(),
        };
        match after {
            After::Gone => drop(self.all.try_remove(key)),
            After::Rest => {}
            _ => self.visits.list(key, socket),
        }
        Some(visited)
    }
}
