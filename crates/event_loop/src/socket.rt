//! One socket, and what waits to be written to it.

ghost use Rattle.std.specs.Prelude.{◌≡◌, ◌++◌, ◌∷◌, ◌⊎◌, ◌+◌, [], true, false, ◌<◌, ◌≤◌, ◌↔◌, length, IfSome, IsSome, IsTrue, Ok, OnOk, OnErr};
ghost use Rattle.event_loop.specs.Socket.{SocketWrites, SocketReads, Tells, Leaves, SocketVisits, HasToTell, IsSocketOver, MayBeWritten, MayBeRead, IsQuiet, SocketRests, new_socket, last_told};
ghost use Rattle.event_loop.specs.Sockets.{SocketHears, Notes};
ghost use Rattle.loop_messages.specs.declared.message.Heard.TheVariants.{Bytes, Written, Left};
ghost use Rattle.loop_messages.specs.declared.message.TheConstants.{MOST_UNWRITTEN};
ghost use Rattle.event_loop.specs.declared.socket.After;

use crate::buffered::Buffered;
use crate::input::Piece;
use ghost_log::GhostLog;
use loop_messages::{Heard, MOST_UNWRITTEN, Said};
use std::alloc::{AllocError, Global};
use std::io::{ErrorKind, Read, Write};
use std::marker::Model;
use std::mem;

/// So many writes are made in one visit, at most.
const MOST_WRITES: usize = 16;

/// What follows a visit.
#[derive(Clone, Copy, PartialEq, Eq)]
pub enum After {
    /// The next visit is when an event or the service asks for it.
    Rest,
    /// More can be written at once.
    Writes,
    /// It can be read at once.
    Reads,
    /// There is more to do, once there is memory.
    NoMemory,
    /// The connection has ended, and this was reported.
    Gone,
}

/// What an event tells of a socket.
#[derive(Clone, Copy)]
pub struct Readiness {
    pub is_readable: bool,
    pub is_writable: bool,
    /// The other side sends no more. What it sent before may still be there.
    pub is_read_closed: bool,
    /// The connection has failed, or was reset.
    pub is_broken: bool,
}

/// What went through a socket.
#[derive(Clone, Copy, Default)]
pub struct Moved {
    /// How many bytes.
    pub read: usize,
    pub written: usize,
    /// When the bytes were read to which all that answers them is written now, in microseconds of the caller's clock.
    pub answered: Option<u64>,
}

/// Tells bytes of the connection of this key and number. Whether there was memory for that.
fn tell_bytes(heard: &mut Vec<Heard>, key: usize, number: u64, bytes: Vec<u8>) -> bool
    ensures told { IsTrue result → heard.new.items ≡ heard.old.items ++ Bytes key number bytes ∷ [] }
    ensures lost { result ≡ false → heard.new.items ≡ heard.old.items }
{
    heard.push(Heard::Bytes { key, number, bytes }).is_ok()
}

/// A socket and its state. It is read only when its last bytes are done with and all that was said to it
/// is written, so what waits for a connection that never reads is bounded.
#[derive(Drop)]
pub struct Socket<S: Read + Write> {
    traffic: Buffered<S>,
    number: u64,
    /// The bytes that were reported to the service. Only contracts read them.
    told: GhostLog<(), Vec<u8>>,
    /// The bytes said and not reported as written.
    untold: usize,
    /// What was read and written since this was last asked.
    moved: Moved,
    /// When it was last read, in microseconds of the caller's clock.
    read_at: u64,
    /// Something was said to it that answers what was read then.
    is_answered: bool,
    /// A read may give something. Events come only at changes, so this stays until a read finds nothing.
    is_readable: bool,
    is_writable: bool,
    /// The other side sends no more. What it sent before may still be there, and no event tells of the end.
    is_read_closed: bool,
    /// Bytes of it were reported, and the service is not done with them.
    is_outstanding: bool,
    /// It is closed once all is written.
    closes: bool,
    /// It has failed, or the other side has closed it.
    has_ended: bool,
    /// It is listed for a visit.
    is_listed: bool,
}

impl<S: Read + Write> Model for Socket<S> {
    ghost use Rattle.event_loop.specs.Traffic.{bytes_in_log};
    ghost use Rattle.event_loop.specs.Socket.{SocketView, IsSocket};

    ghost Value = { SocketView };

    ghost view = { λ s. record { number = s.number; traffic = s.traffic; told = bytes_in_log s.told.items; untold = s.untold; is_readable = s.is_readable; is_writable = s.is_writable; is_read_closed = s.is_read_closed; is_outstanding = s.is_outstanding; closes = s.closes; has_ended = s.has_ended; is_listed = s.is_listed } };

    ghost invariant = { λ s. IsSocket (record { number = s.number; traffic = s.traffic; told = bytes_in_log s.told.items; untold = s.untold; is_readable = s.is_readable; is_writable = s.is_writable; is_read_closed = s.is_read_closed; is_outstanding = s.is_outstanding; closes = s.closes; has_ended = s.has_ended; is_listed = s.is_listed }) };
}

impl<S: Read + Write> Socket<S> {
    /// A connection of which nothing was read.
    pub fn new(alloc: Global, stream: S, number: u64) -> Socket<S>
        ensures { result ≡ new_socket number (record { remaining = S.remaining stream; contents = S.contents stream; reads = []; got = []; writes = []; said = []; waits = [] }) }
    {
        Socket {
            traffic: Buffered::new(alloc, stream),
            number,
            told: GhostLog::new(),
            untold: 0,
            moved: Moved::default(),
            read_at: 0,
            is_answered: false,
            is_readable: false,
            is_writable: true,
            is_read_closed: false,
            is_outstanding: false,
            closes: false,
            has_ended: false,
            is_listed: false,
        }
    }

    /// Its number among all connections.
    pub fn number(&self) -> u64
        ensures { result ≡ self.now.number }
    {
        self.number
    }

    /// What was read and written since this was last called, up to this moment in microseconds of the caller's clock.
    pub fn take_moved(&mut self, micros: u64) -> Moved
        ensures { self.new ≡ self.old }
    {
        let mut moved = mem::take(&mut self.moved);
        // It is read only when all that answers its last bytes is written.
        let is_written = 0 < moved.read || !self.is_outstanding && !self.is_behind();
        if self.is_answered && is_written {
            moved.answered = Some(self.read_at);
            self.is_answered = false;
        }
        if 0 < moved.read {
            self.read_at = micros;
        }
        moved
    }

    /// Whether it is listed for a visit.
    pub fn is_listed(&self) -> bool
        ensures { result ≡ self.now.is_listed }
    {
        self.is_listed
    }

    /// It is listed for a visit, or no longer.
    pub fn set_listed(&mut self, is_listed: bool)
        ensures { self.new ≡ record self.old { is_listed = is_listed } }
    {
        self.is_listed = is_listed;
    }

    /// Notes what an event tells. Its number, if the other side sends no more and no event said so before.
    pub fn note(&mut self, ready: Readiness) -> Option<u64>
        ensures notes { Notes self.old ready self.new }
        ensures number { IfSome result (λ number. number ≡ self.old.number) }
        ensures first { IsSome result ↔ (ready.is_read_closed ≡ true) × (self.old.is_read_closed ≡ false) }
    {
        let leaves = ready.is_read_closed && !self.is_read_closed;
        self.is_readable = self.is_readable || ready.is_readable || ready.is_read_closed;
        self.is_writable = self.is_writable || ready.is_writable;
        self.is_read_closed = self.is_read_closed || ready.is_read_closed;
        self.has_ended = self.has_ended || ready.is_broken;
        if leaves { Some(self.number) } else { None }
    }

    /// Its number, if an event said that the other side sends no more.
    pub fn leaver(&self) -> Option<u64>
        ensures number { IfSome result (λ number. number ≡ self.now.number) }
        ensures leaves { IsSome result ↔ (self.now.is_read_closed ≡ true) }
    {
        if self.is_read_closed {
            Some(self.number)
        } else {
            None
        }
    }

    /// Ends the connection: its next visit tells so, and nothing more is written.
    pub fn end(&mut self)
        ensures { self.new ≡ record self.old { has_ended = true } }
    {
        self.has_ended = true;
    }

    /// Takes what the service says. If memory for it runs out the connection ends.
    pub fn hear(&mut self, said: Said)
        ensures { SocketHears self.old said self.new }
    {
        let Said {
            bytes,
            closes,
            waits,
            ..
        } = said;
        self.closes = self.closes || closes;
        self.is_outstanding = self.is_outstanding && waits;
        self.untold = self.untold.saturating_add(bytes.len());
        self.is_answered = self.is_answered || !bytes.is_empty();
        if self.traffic.push(bytes).is_err() {
            self.has_ended = true;
        }
    }

    /// Whether something is left to be written.
    fn is_behind(&self) -> bool
        ensures { IsTrue result ↔ 0 < length self.now.traffic.waits }
    {
        0 < self.traffic.len()
    }

    /// Whether it can be written at once.
    fn may_be_written(&self) -> bool
        ensures { IsTrue result ↔ MayBeWritten self.now }
    {
        self.is_behind() && self.is_writable && !self.has_ended
    }

    /// Whether it can be read at once.
    fn may_be_read(&self) -> bool
        ensures { IsTrue result ↔ MayBeRead self.now }
    {
        self.is_readable
            && !self.is_outstanding
            && !self.is_behind()
            && !self.closes
            && !self.has_ended
    }

    /// Whether nothing more is to be done for it.
    fn is_over(&self) -> bool
        ensures { IsTrue result ↔ IsSocketOver self.now }
    {
        self.has_ended || self.closes && !self.is_behind()
    }

    /// Whether nothing is owed to either side: it has no visit to come, no bytes of it are outstanding, all that was said
    /// to it is written, and it is not to be closed.
    pub fn is_quiet(&self) -> bool
        ensures { IsTrue result ↔ IsQuiet self.now }
    {
        let is_owed = self.is_listed || self.is_outstanding || self.is_behind();
        !is_owed && !self.closes && !self.has_ended
    }

    /// One visit: writes what waits, reads once if `reads`, and tells what happened.
    pub fn visit(
        &mut self,
        alloc: Global,
        key: usize,
        reads: bool,
        buffer: &mut [u8],
        heard: &mut Vec<Heard>,
    ) -> After
        ensures gone { result ≡ After.Gone → Leaves key self.old self.new heard.old.items heard.new.items × IsSocketOver self.new }
        ensures stays { (result ≡ After.Gone → ⊥) → Tells key self.old self.new heard.old.items heard.new.items }
        ensures rests { result ≡ After.Rest → SocketRests self.new }
        ensures writes { result ≡ After.Writes → MayBeWritten self.new }
        ensures reads { result ≡ After.Reads → MayBeRead self.new }
        ensures no_memory { result ≡ After.NoMemory → HasToTell self.new }
        ensures visit { SocketVisits reads self.old self.new }
        ensures listed { self.new.is_listed ≡ self.old.is_listed }
    {
        if self.advance(alloc, key, reads, buffer, heard).is_err() {
            return After::NoMemory;
        }
        if !self.is_over() {
            return self.next();
        }
        match self.tell_end(key, heard) {
            Ok(()) => After::Gone,
            Err(_) => After::NoMemory,
        }
    }

    /// Writes what waits, reads once if `reads`, and tells of both. The only error is a failed allocation.
    fn advance(
        &mut self,
        alloc: Global,
        key: usize,
        reads: bool,
        buffer: &mut [u8],
        heard: &mut Vec<Heard>,
    ) -> Result<(), AllocError>
        ensures tells { Tells key self.old self.new heard.old.items heard.new.items }
        ensures told { OnOk result (length self.new.traffic.waits ≡ 0 → self.new.untold < MOST_UNWRITTEN) }
        ensures untold { OnErr result ((length self.new.traffic.waits ≡ 0) × (MOST_UNWRITTEN ≤ self.new.untold)) }
        ensures visit { SocketVisits reads self.old self.new }
        ensures listed { self.new.is_listed ≡ self.old.is_listed }
    {
        self.write();
        self.tell_written(key, heard)?;
        if reads && self.may_be_read() {
            self.read(alloc, key, buffer, heard);
        }
        Ok(())
    }

    /// What is to be done next for a socket that is here.
    fn next(&self) -> After
        requires here { IsSocketOver self.now → ⊥ }
        requires told { length self.now.traffic.waits ≡ 0 → self.now.untold < MOST_UNWRITTEN }
        ensures rests { result ≡ After.Rest → SocketRests self.now }
        ensures writes { result ≡ After.Writes → MayBeWritten self.now }
        ensures reads { result ≡ After.Reads → MayBeRead self.now }
        ensures only { (result ≡ After.Rest) ⊎ ((result ≡ After.Writes) ⊎ (result ≡ After.Reads)) }
    {
        if self.may_be_written() {
            After::Writes
        } else if self.may_be_read() {
            After::Reads
        } else {
            After::Rest
        }
    }

    /// Writes what waits, until all is written, the socket takes no more or it is time to visit the others.
    fn write(&mut self)
        ensures writes { SocketWrites self.old self.new }
        ensures one { MayBeWritten self.old → length self.old.traffic.writes < length self.new.traffic.writes }
        ensures none { (MayBeWritten self.old → ⊥) → self.new ≡ self.old }
    {
        if self.may_be_written() {
            self.write_once();
            self.write_on();
        }
    }

    /// Writes what still waits in so many writes.
    fn write_on(&mut self)
        ensures { SocketWrites self.old self.new }
    {
        for _ in 1..MOST_WRITES {
            if !self.may_be_written() {
                break;
            }
            self.write_once();
        }
        self.traffic.tidy();
    }

    /// One write.
    fn write_once(&mut self)
        ensures writes { SocketWrites self.old self.new }
        ensures one { length self.new.traffic.writes ≡ length self.old.traffic.writes + 1 }
    {
        match self.traffic.write() {
            Ok(0) => self.has_ended = true,
            Ok(count) => self.moved.written = self.moved.written.saturating_add(count),
            Err(e) => match e.kind() {
                ErrorKind::WouldBlock => self.is_writable = false,
                ErrorKind::Interrupted => {}
                _ => self.has_ended = true,
            },
        }
    }

    /// Tells that all is written, if the service may wait for it. The only error is a failed allocation.
    fn tell_written(&mut self, key: usize, heard: &mut Vec<Heard>) -> Result<(), AllocError>
        ensures tells { Tells key self.old self.new heard.old.items heard.new.items }
        ensures listed { self.new.is_listed ≡ self.old.is_listed }
        ensures behind { 0 < length self.old.traffic.waits → (result ≡ Ok tt) × (self.new ≡ self.old) × (heard.new.items ≡ heard.old.items) }
        ensures little { self.old.untold < MOST_UNWRITTEN → (result ≡ Ok tt) × (self.new ≡ self.old) × (heard.new.items ≡ heard.old.items) }
        ensures told { OnOk result (length self.old.traffic.waits ≡ 0 → MOST_UNWRITTEN ≤ self.old.untold → (self.new ≡ record self.old { untold = 0 }) × (heard.new.items ≡ heard.old.items ++ Written key self.old.number self.old.untold ∷ [])) }
        ensures err { OnErr result ((self.new ≡ self.old) × (heard.new.items ≡ heard.old.items)) }
        ensures same { self.new ≡ record self.old { untold = self.new.untold } }
    {
        if self.is_behind() || self.untold < MOST_UNWRITTEN {
            return Ok(());
        }
        heard.push(Heard::Written {
            key,
            number: self.number,
            count: self.untold,
        })?;
        self.untold = 0;
        Ok(())
    }

    /// Reads once, and tells the bytes. If memory for them runs out the connection ends.
    fn read(&mut self, alloc: Global, key: usize, buffer: &mut [u8], heard: &mut Vec<Heard>)
        requires { MayBeRead self.old }
        ensures tells { Tells key self.old self.new heard.old.items heard.new.items }
        ensures outstanding { heard.new.items ≡ heard.old.items ⊎ self.new.is_outstanding ≡ true }
        ensures end { self.old.is_read_closed ≡ true → (heard.new.items ≡ heard.old.items) ⊎ (self.new.is_readable ≡ true) }
        ensures waits { self.new.traffic.waits ≡ self.old.traffic.waits }
        ensures untold { self.new.untold ≡ self.old.untold }
        ensures reads { SocketReads self.old self.new }
        ensures listed { self.new.is_listed ≡ self.old.is_listed }
    {
        match self.traffic.read(alloc, buffer) {
            Piece::Bytes { bytes, has_more } => {
                // A read that leaves room has emptied the socket: what comes next gives an event. But the end may have
                // come already, and gives none.
                self.is_readable = has_more | self.is_read_closed;
                self.moved.read = self.moved.read.saturating_add(bytes.len());
                let told = self.told.and(&(), &bytes);
                if tell_bytes(heard, key, self.number, bytes) {
                    self.told = told;
                    self.is_outstanding = true;
                } else {
                    self.has_ended = true;
                }
            }
            Piece::Nothing => self.is_readable = false,
            Piece::Interrupted => {}
            Piece::End => self.has_ended = true,
        }
    }

    /// Tells that the connection has ended, unless the service has said so.
    fn tell_end(&self, key: usize, heard: &mut Vec<Heard>) -> Result<(), AllocError>
        ensures told { OnOk result (heard.new.items ≡ heard.old.items ++ last_told key self.now) }
        ensures err { OnErr result (heard.new.items ≡ heard.old.items) }
        ensures closed { OnErr result (self.now.closes ≡ false) }
    {
        if !self.closes {
            heard.push(Heard::Left {
                key,
                number: self.number,
            })?;
        }
        Ok(())
    }
}
