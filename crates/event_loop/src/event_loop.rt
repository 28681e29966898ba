//! The listeners, the sockets, and the visits of these.

ghost use Rattle.std.specs.Prelude.{◌≡◌, ◌≤◌, ◌↔◌, ◌-◌, ◌+◌, ◌⊎◌, ◌++◌, ◌∷◌, [], ◌<◌, true, length, IsTrue};
ghost use Rattle.slab.specs.Slab.{slab_len};
ghost use Rattle.event_loop.specs.Sockets.{AreAllGiven, EndsIdle, IsVisitOfFirst};
ghost use Rattle.loop_messages.specs.declared.message.Heard.TheVariants.{Came};

use crate::counts::{Counts, Shared, plus};
use crate::idle::Idle;
use crate::leavers::{Leaver, Leavers};
use crate::listeners::{Accepted, Listeners};
use crate::refused::RefusedConnections;
use crate::socket::{After, Readiness};
use crate::sockets::Sockets;
use crate::stream::{Listener, Stream};
use loop_messages::{Heard, Said};
use mio::event::Event;
use mio::{Events, Poll, Token, Waker};
use std::alloc::{AllocError, Global};
use std::io::Write;
use std::net::Net;
use std::time::Duration;
use std::{io, mem};

/// Those of the listeners are below it.
const WAKER: Token = Token(usize::MAX);

/// So many events are taken in one wait, at most.
const MOST_EVENTS: usize = 1024;

/// So many may always be taken in one wait.
const LEAST_EVENTS: usize = 16;

/// One wait takes the events of one of so many parts of the sockets, so that the service works on what was read of one part
/// while the next is read.
const PARTS: usize = 4;

/// So many connections of each listener are accepted before the sockets are visited.
const MOST_ACCEPTS: usize = 64;

/// The most bytes of one read. Each connection has one in each pass of the service, so a large block that comes while
/// others are carried out must not take many.
const MOST_PIECE_BYTES: usize = 262144;

/// Which connections are let in, and how long they stay.
#[derive(Clone, Copy)]
pub struct Admission {
    /// So many at once. Those whose other side sends no more do not count. When a connection is to be accepted and
    /// more than `most` of these are here, those that were found so first are ended.
    pub most: usize,
    /// What any other one is given before it is closed.
    pub refusal: &'static [u8],
    /// One on which nothing happens for so many seconds is closed, if nothing is owed to it. 0: none is.
    pub idle_seconds: u32,
    /// The number of the first one; each later one has the next number. 0, unless the service goes on from a
    /// process before this one, whose connections had the numbers below.
    pub first_number: u64,
}

impl Admission {
    /// So many sockets are here at once, at most: those that count, as many whose other side sends no more, and as many
    /// of which this was found since connections were last accepted. Their keys are below it.
    pub fn most_sockets(&self) -> usize {
        self.most.saturating_mul(3)
    }

    /// How long nothing may happen on a connection, in microseconds.
    fn idle_micros(&self) -> u64 {
        u64::from(self.idle_seconds).saturating_mul(1_000_000)
    }
}

/// The listeners, the sockets, and what is to be reported of them.
pub struct EventLoop {
    alloc: Global,
    poll: Poll,
    listeners: Listeners,
    admission: Admission,
    counts: Counts,
    /// The counts that other threads see.
    shown: Counts,
    /// When the bytes were read to which all that answers them was written since times were last counted.
    answered: Vec<u64>,
    sockets: Sockets<Stream>,
    leavers: Leavers,
    idle: Idle,
    refused: RefusedConnections<Stream>,
    /// What is to be reported to the service.
    heard: Vec<Heard>,
    buffer: Vec<u8>,
    /// A socket had more to write after its last visit.
    is_writing: bool,
    /// Memory ran out in the last visits, so the next are at the next tick.
    is_short: bool,
    /// The last wait gave as many events as it may, so there may be others.
    has_more_events: bool,
    /// The next wait takes as many events as any may, so that connections on which nothing happens are found.
    takes_all: bool,
}

impl Drop for EventLoop {
    fn drop(self) {
        let EventLoop {
            alloc: _,
            poll: _,
            listeners: _,
            admission: _,
            counts: _,
            shown: _,
            answered: _,
            sockets: _,
            leavers: _,
            idle: _,
            refused: _,
            heard: _,
            buffer: _,
            is_writing: _,
            is_short: _,
            has_more_events: _,
            takes_all: _,
        } = self;
    }
}

/// What a wait gave.
pub struct Ready {
    events: Events,
}

impl Drop for Ready {
    fn drop(self) {
        let Ready { events: _ } = self;
    }
}

/// How many events one wait takes, if there are so many sockets.
fn events_of(sockets: usize) -> usize
    ensures least { 16 ≤ result }
    ensures most { result ≤ 1024 }
{
    let part = (sockets / PARTS).min(MOST_EVENTS).max(LEAST_EVENTS);
    part / LEAST_EVENTS * LEAST_EVENTS
}

impl Ready {
    /// Nothing is ready.
    pub fn new(alloc: Global) -> Result<Ready, AllocError> {
        Ok(Ready {
            events: Events::with_capacity(alloc, LEAST_EVENTS)?,
        })
    }

    /// Makes room for the events of a part of so many sockets. If there is no memory it has as much as before.
    fn fit(&mut self, alloc: Global, sockets: usize) {
        let most = events_of(sockets);
        if most != self.events.capacity() {
            if let Ok(events) = Events::with_capacity(alloc, most) {
                self.events = events;
            }
        }
    }
}

impl EventLoop {
    /// A loop with no socket. It fails if the system gives no descriptor for it, or memory runs out.
    pub fn new<R: Net>(
        rt: &R,
        alloc: Global,
        listeners: Vec<Listener>,
        admission: Admission,
    ) -> io::Result<EventLoop> {
        let poll = Poll::new(rt)?;
        let listeners = Listeners::new(alloc, &poll, listeners)?;
        Ok(EventLoop {
            alloc,
            poll,
            listeners,
            admission,
            counts: Counts::NONE,
            shown: Counts::NONE,
            answered: Vec::new(alloc),
            sockets: Sockets::new(alloc, admission.first_number),
            leavers: Leavers::new(alloc),
            idle: Idle::new(alloc, admission.idle_micros()),
            refused: RefusedConnections::new(alloc),
            heard: Vec::new(alloc),
            buffer: vec![in alloc; 0u8; MOST_PIECE_BYTES]?,
            is_writing: false,
            is_short: false,
            has_more_events: false,
            takes_all: false,
        })
    }

    /// By this another thread ends a wait. There is one for each loop.
    pub fn waker(&self) -> io::Result<Waker> {
        Waker::new(self.poll.registry(), WAKER)
    }

    /// Waits until a socket is ready, a connection comes, another thread wakes it or the time is up. The
    /// sockets that are ready are listed for a visit.
    pub fn wait(&mut self, ready: &mut Ready, limit: Option<Duration>) -> io::Result<()> {
        let takes_all = mem::replace(&mut self.takes_all, false);
        ready.fit(
            self.alloc,
            if takes_all {
                usize::MAX
            } else {
                self.sockets.len()
            },
        );
        self.poll.poll(&mut ready.events, limit)?;
        self.has_more_events = ready.events.capacity() <= ready.events.iter().count();
        for event in &ready.events {
            let token = event.token();
            if self.listeners.note(token) {
                continue;
            }
            self.note(token.0, readiness(event));
        }
        Ok(())
    }

    /// Notes what an event tells of the socket of this key. If its other side sends no more, it makes room for another.
    fn note(&mut self, key: usize, ready: Readiness)
        ensures few { length self.new.leavers ≤ length self.old.leavers + 1 }
        ensures heard { self.new.heard.items ≡ self.old.heard.items }
    {
        if let Some(number) = self.sockets.note(key, ready) {
            // There is room for all sockets.
            let _ = self.leavers.add(Leaver { key, number });
        }
    }

    /// Whether something is to be done although nothing more becomes ready: a socket takes more, or, if more may be
    /// reported to the service, something was heard or a socket or a listener has more.
    pub fn has_more(&self, may_tell: bool) -> bool
        ensures owed { may_tell ≡ true → 0 < length self.now.heard.items → result ≡ true }
    {
        let has_visits = self.is_writing || may_tell && 0 < self.sockets.listed_count();
        may_tell && !self.heard.is_empty()
            || !self.is_short && (has_visits || may_tell && self.listeners.is_any_due())
    }

    /// Whether something waits for a tick.
    pub fn is_stuck(&self) -> bool {
        self.is_short
            || self.listeners.is_any_stuck()
            || self.refused.is_any()
            || self.idle.is_any()
    }

    /// A tenth of a second has passed.
    pub fn tick(&mut self) {
        self.is_short = false;
        self.takes_all = true;
        self.refused.tick(self.buffer.as_mut_slice());
        self.listeners.try_again();
    }

    /// Whether connections are closed on which nothing happens, and one is here.
    pub fn closes_idle(&self) -> bool {
        self.idle.is_any()
    }

    /// Ends those on which nothing has happened for as long as is allowed, as far as they are to be looked at. It comes
    /// right after a wait: whatever has come by then is noted, so nobody is ended whose bytes wait to be read.
    pub fn end_idle(&mut self, micros: u64)
        ensures heard { self.new.heard.items ≡ self.old.heard.items }
    {
        if self.has_more_events {
            return;
        }
        for _ in 0..self.idle.len() {
            if !self.idle.is_due(micros) {
                return;
            }
            self.look_at_next(micros);
        }
    }

    /// Looks at one connection, and ends it if nothing has happened on it for as long as is allowed. If something is owed
    /// to it, this counts as if something happened.
    fn look_at_next(&mut self, micros: u64)
        ensures ends { (self.new.sockets ≡ self.old.sockets) ⊎ EndsIdle self.old.sockets self.old.idle micros self.new.sockets }
        ensures heard { self.new.heard.items ≡ self.old.heard.items }
    {
        let Some(one) = self.idle.look(micros) else {
            return;
        };
        if self.sockets.is_quiet(one.key, one.number) {
            self.sockets.end(one.key, one.number);
            self.counts.idle = plus(self.counts.idle, 1);
        } else {
            self.idle.note(one.key, micros);
        }
    }

    /// Accepts the connections that wait. It comes after the visits: of those whose other side sends no more, who is
    /// owed nothing is gone by then. It is so late in microseconds of the caller's clock.
    pub fn accept(&mut self, micros: u64) {
        self.end_leavers();
        for at in 0..self.listeners.len() {
            self.accept_at(at, micros);
        }
    }

    /// Ends the first of those whose other side sends no more, as far as there are too many.
    fn end_leavers(&mut self)
        ensures few { length self.new.leavers ≤ self.new.admission.most }
        ensures heard { self.new.heard.items ≡ self.old.heard.items }
    {
        for _ in 0..self.leavers.len() {
            let Some(first) = self.leavers.take_beyond(self.admission.most) else {
                return;
            };
            self.sockets.end(first.key, first.number);
        }
    }

    /// Accepts connections that wait at one listener.
    fn accept_at(&mut self, at: usize, micros: u64) {
        for _ in 0..MOST_ACCEPTS {
            match self.listeners.accept(at) {
                Accepted::Stream(stream) => self.admit(stream, micros),
                Accepted::Again => {}
                Accepted::Nothing => return,
                Accepted::Failed => {
                    self.counts.failed = plus(self.counts.failed, 1);
                    return;
                }
            }
        }
    }

    /// Lets the connection in, or tells it that there is no room for it. If memory runs out it is closed.
    fn admit(&mut self, mut stream: Stream, micros: u64) {
        if self.is_full() {
            self.refuse(stream);
            return;
        }
        stream.send_at_once();
        let key = self.sockets.next_key();
        if self.make_room().is_ok() && stream.register(&self.poll, Token(key)).is_ok() {
            self.insert(key, stream, micros);
        }
    }

    /// Whether there is no room for one more connection.
    fn is_full(&self) -> bool
        ensures { IsTrue result ↔ self.now.admission.most ≤ slab_len self.now.sockets.all - length self.now.leavers }
    {
        self.admission.most <= self.sockets.len().saturating_sub(self.leavers.len())
    }

    /// Tells the connection that there is no room for it.
    fn refuse(&mut self, mut stream: Stream) {
        // What does not go out at once is lost: nothing waits for a connection that is not let in.
        let _ = stream.write(self.admission.refusal);
        if stream.end_writing().is_ok() {
            self.refused.keep(stream);
        }
        self.counts.refused = plus(self.counts.refused, 1);
    }

    /// Makes room for one more socket.
    fn make_room(&mut self) -> Result<(), AllocError> {
        self.sockets.reserve()?;
        self.leavers.reserve(self.sockets.len().saturating_add(1))?;
        self.heard.reserve(1)
    }

    /// Puts the connection under the key, which is the next one.
    fn insert(&mut self, key: usize, stream: Stream, micros: u64)
        ensures { (self.new.heard.items ≡ self.old.heard.items) ⊎ (self.new.heard.items ≡ self.old.heard.items ++ Came key self.old.sockets.next ∷ []) }
    {
        if let Some(number) = self.sockets.insert(self.alloc, stream) {
            let _ = self.heard.push(Heard::Came { key, number });
            self.idle.come(key, number, micros);
            self.counts.accepted = plus(self.counts.accepted, 1);
        }
    }

    /// Takes what the service says. The sockets that it is for are listed for a visit.
    pub fn give(&mut self, said: Vec<Said>)
        ensures given { AreAllGiven self.old.sockets said.items self.new.sockets }
        ensures heard { self.new.heard.items ≡ self.old.heard.items }
    {
        self.sockets.give_all(said);
    }

    /// Visits each listed socket: what waits is written and, if `reads`, the next bytes are read. It is so late in
    /// microseconds of the caller's clock.
    pub fn visit(&mut self, micros: u64, reads: bool) {
        self.is_writing = false;
        let count = self.sockets.listed_count();
        let has_room = self.heard.reserve(count).is_ok();
        if !has_room {
            self.is_short = true;
        }
        for _ in 0..count {
            self.visit_first(micros, reads && has_room);
        }
    }

    /// The visit of the socket that was listed first.
    fn visit_first(&mut self, micros: u64, reads: bool)
        ensures { IsVisitOfFirst reads self.old.sockets self.new.sockets self.old.heard.items self.new.heard.items }
    {
        let buffer = self.buffer.as_mut_slice();
        let Some(visited) = self
            .sockets
            .visit_first(self.alloc, micros, reads, buffer, &mut self.heard)
        else {
            return;
        };
        self.counts.bytes_read = plus(self.counts.bytes_read, visited.moved.read);
        self.counts.bytes_written = plus(self.counts.bytes_written, visited.moved.written);
        if let Some(since) = visited.moved.answered {
            // If there is no memory for it the time is not counted.
            let _ = self.answered.push(since);
        }
        self.idle.note(visited.key, micros);
        match visited.after {
            After::Rest | After::Reads => {}
            After::Writes => self.is_writing = true,
            After::NoMemory => self.is_short = true,
            After::Gone => {
                if let Some(number) = visited.leaver {
                    self.leavers.remove(number);
                }
                self.idle.leave(visited.key);
                self.listeners.try_again();
            }
        }
    }

    /// Whether something was answered in full whose time is not counted.
    pub fn has_answered(&self) -> bool {
        !self.answered.is_empty()
    }

    /// It is so late now: the times of what was answered in full are counted.
    pub fn count_times(&mut self, micros: u64) {
        for since in self.answered.iter() {
            self.counts
                .reply_times
                .observe(micros.saturating_sub(*since));
        }
        self.answered.clear();
    }

    /// Shows the counts to other threads. Whether they see those of now.
    pub fn publish(&mut self, shared: &Shared) -> bool {
        self.counts.open = plus(0, self.sockets.len());
        if self.counts != self.shown && shared.publish(self.counts) {
            self.shown = self.counts;
        }
        self.counts == self.shown
    }

    /// How much there is to be reported to the service.
    pub fn heard_count(&self) -> usize
        ensures { result ≡ length self.now.heard.items }
    {
        self.heard.len()
    }

    /// What happened since this was last called, in order.
    pub fn take_heard(&mut self) -> Vec<Heard>
        ensures all { result.items ≡ self.old.heard.items }
        ensures none { self.new.heard.items ≡ [] }
        ensures sockets { self.new.sockets ≡ self.old.sockets }
    {
        mem::replace(&mut self.heard, Vec::new(self.alloc))
    }
}

/// What the event tells.
fn readiness(event: &Event) -> Readiness {
    Readiness {
        is_readable: event.is_readable(),
        is_writable: event.is_writable(),
        is_read_closed: event.is_read_closed(),
        is_broken: event.is_error() || event.is_write_closed(),
    }
}
