//! The connections that were refused, until they are closed.

ghost use Rattle.std.specs.Prelude.{◌≡◌, ◌<◌, ◌+◌, IsTrue};
ghost use Rattle.event_loop.specs.declared.refused.TheConstants.{MOST_TICKS};

use std::alloc::Global;
use std::collections::VecDeque;
use std::io::{ErrorKind, Read};
use std::marker::Model;

/// So many are kept at once, at most.
const MOST_REFUSED: usize = 256;

/// Each is kept for so many ticks, at most.
const MOST_TICKS: u8 = 10;

/// So many reads of each are made at a tick, at most.
const MOST_READS: usize = 4;

/// A connection that was refused, and for how many ticks it has been kept.
#[derive(Drop)]
struct Leftover<S> {
    stream: S,
    ticks: u8,
}

/// Reads and drops what has come. Whether the end may still come.
fn is_open<S: Read>(stream: &mut S, buffer: &mut [u8]) -> bool {
    for _ in 0..MOST_READS {
        match stream.read(buffer) {
            Ok(0) => return false,
            Ok(_) => {}
            Err(e) => match e.kind() {
                ErrorKind::WouldBlock => return true,
                ErrorKind::Interrupted => {}
                _ => return false,
            },
        }
    }
    true
}

impl<S: Read> Leftover<S> {
    /// A tick has passed. Whether it is to be kept until the next.
    fn tick(&mut self, buffer: &mut [u8]) -> bool
        ensures { IsTrue result → (self.new.ticks ≡ self.old.ticks + 1) × (self.new.ticks < MOST_TICKS) }
    {
        if MOST_TICKS - 1 <= self.ticks {
            return false;
        }
        self.ticks += 1;
        is_open(&mut self.stream, buffer)
    }
}

/// The connections that were refused, the oldest first. To close one while bytes that it sent are unread would reset
/// it, and its other side might not see why. So each is kept until its other side closes it, it has been kept for
/// `MOST_TICKS` ticks, or `MOST_REFUSED` newer ones are kept.
pub struct RefusedConnections<S> {
    all: VecDeque<Leftover<S>>,
}

impl<S: Drop> Drop for RefusedConnections<S> {
    fn drop(self) {
        let RefusedConnections { all: _ } = self;
    }
}

impl<S> Model for RefusedConnections<S> {
    ghost use Rattle.std.specs.Prelude.{List, ◌≤◌, length};
    ghost use Rattle.event_loop.specs.declared.refused.Leftover.{Leftover};
    ghost use Rattle.event_loop.specs.declared.refused.TheConstants.{MOST_REFUSED};

    ghost Value = { List (Leftover S) };

    ghost view = { λ refused. refused.all.items };

    ghost invariant = { λ refused. length refused.all.items ≤ MOST_REFUSED };
}

impl<S: Read + Drop> RefusedConnections<S> {
    /// There is none.
    pub fn new(alloc: Global) -> RefusedConnections<S> {
        RefusedConnections {
            all: VecDeque::new(alloc),
        }
    }

    /// Whether some wait for ticks.
    pub fn is_any(&self) -> bool {
        !self.all.is_empty()
    }

    /// Keeps one that was refused. If there are `MOST_REFUSED` the oldest is closed; if memory runs out this one is.
    pub fn keep(&mut self, stream: S) {
        if MOST_REFUSED <= self.all.len() {
            drop(self.all.pop_front());
        }
        let _ = self.all.push_back(Leftover { stream, ticks: 0 });
    }

    /// A tick has passed: what has come is read and dropped, and those that are over are closed.
    pub fn tick(&mut self, buffer: &mut [u8]) {
        for _ in 0..self.all.len() {
            self.tick_first(buffer);
        }
    }

    /// The tick of the first one, which becomes the last if it is kept.
    fn tick_first(&mut self, buffer: &mut [u8]) {
        if let Some(mut one) = self.all.pop_front() {
            if one.tick(buffer) {
                let _ = self.all.push_back(one);
            }
        }
    }
}
