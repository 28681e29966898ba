//! The connections on which nothing happens.

ghost use Rattle.std.specs.Prelude.{◌≡◌};
ghost use Rattle.event_loop.specs.declared.idle.TheConstants.{MOST_BETWEEN};

use crate::leavers::Leaver;
use std::alloc::Global;
use std::collections::VecDeque;
use std::marker::Model;

/// A connection is looked at so many times, at least, while nothing happens on it for as long as is allowed. So it is
/// closed a sixteenth later at most.
const LOOKS: u64 = 16;

/// At most so many microseconds are between two looks at a connection.
const MOST_BETWEEN: u64 = 10_000_000;

/// When something happened on a connection last.
#[derive(Clone, Copy, Debug, PartialEq, Eq)]
pub struct Active {
    pub number: u64,
    /// In microseconds of the caller's clock.
    pub micros: u64,
}

/// A key whose connection is to be looked at.
#[derive(Clone, Copy)]
struct Look {
    key: usize,
    /// Not before this moment.
    due: u64,
}

/// When something happened on each connection last, and which of them is to be looked at next. A moment is in
/// microseconds of the caller's clock.
pub struct Idle {
    /// How long nothing may happen on a connection. 0: for ever.
    limit: u64,
    /// For each key, if a connection is there.
    active: Vec<Option<Active>>,
    /// The keys, in the order in which they are looked at. Each is looked at again and again.
    looks: VecDeque<Look>,
}

impl Drop for Idle {
    fn drop(self) {
        let Idle {
            limit: _,
            active: _,
            looks: _,
        } = self;
    }
}

impl Model for Idle {
    ghost use Rattle.std.specs.Prelude.{◌≡◌, []};
    ghost use Rattle.event_loop.specs.Idle.{IdleView};

    ghost Value = { IdleView };

    ghost view = { λ i. record { limit = i.limit; active = i.active.items } };

    ghost invariant = { λ i. i.limit ≡ 0 → i.looks.items ≡ [] };
}

impl Idle {
    ghost use Rattle.std.specs.Prelude.{ℕ, ◌≡◌, ◌≢◌, ◌⊎◌, ◌<◌, [], Some, None, IfSome, slice_get, slice_set};
    ghost use Rattle.event_loop.specs.Idle.{HasBeenIdle, IsNoted, IsThereSince};

    /// No connection is there. Nothing may happen on one for so long, or for ever if it is 0.
    pub fn new(alloc: Global, limit: u64) -> Idle
        ensures { result ≡ record { limit = limit; active = [] } }
    {
        Idle {
            limit,
            active: Vec::new(alloc),
            looks: VecDeque::new(alloc),
        }
    }

    /// Whether there is a connection to be looked at some time.
    pub fn is_any(&self) -> bool {
        !self.looks.is_empty()
    }

    /// How many looks are made before a connection is looked at again.
    pub fn len(&self) -> usize {
        self.looks.len()
    }

    /// How long it is from one look at a connection to the next.
    fn between(&self) -> u64 {
        (self.limit / LOOKS).min(MOST_BETWEEN)
    }

    /// A connection comes. Without memory for it, it is never found idle.
    pub fn come(&mut self, key: usize, number: u64, micros: u64)
        ensures limit { self.new.limit ≡ self.old.limit }
        ensures others { (other : ℕ) → other ≢ key → slice_get self.new.active other ≡ slice_get self.old.active other }
        ensures there { (slice_get self.new.active key ≡ slice_get self.old.active key) ⊎ IsThereSince self.new key number micros }
    {
        if self.limit == 0 {
            return;
        }
        let active = Some(Active { number, micros });
        if key < self.active.len() {
            self.active[key] = active;
        } else if key == self.active.len() && self.active.push(active).is_ok() {
            let due = micros.saturating_add(self.between());
            let _ = self.looks.push_back(Look { key, due });
        }
    }

    /// Something happened on the connection of this key.
    pub fn note(&mut self, key: usize, micros: u64)
        ensures limit { self.new.limit ≡ self.old.limit }
        ensures noted { IsNoted self.old key micros self.new }
    {
        if key < self.active.len() {
            if let Some(active) = self.active[key] {
                self.active[key] = Some(Active {
                    number: active.number,
                    micros,
                });
            }
        }
    }

    /// The connection of this key is gone.
    pub fn leave(&mut self, key: usize)
        ensures limit { self.new.limit ≡ self.old.limit }
        ensures gone { self.new.active ≡ slice_set self.old.active key None }
    {
        if key < self.active.len() {
            self.active[key] = None;
        }
    }

    /// Whether a look is due.
    pub fn is_due(&self, micros: u64) -> bool {
        match self.looks.front() {
            Some(look) => look.due <= micros,
            None => false,
        }
    }

    /// Looks at the connection that was looked at the longest ago. It is given if nothing has happened on it for as long
    /// as is allowed.
    pub fn look(&mut self, micros: u64) -> Option<Leaver>
        ensures idle { IfSome result (λ one. HasBeenIdle self.old one micros) }
        ensures limited { IfSome result (λ one. 0 < self.old.limit) }
        ensures same { self.new ≡ self.old }
    {
        let look = self.looks.pop_front()?;
        let due = micros.saturating_add(self.between());
        // There is room, since one has just left.
        let _ = self.looks.push_back(Look { key: look.key, due });
        self.idle_at(look.key, micros)
    }

    /// The connection of this key, if it is there and nothing has happened on it for as long as is allowed.
    fn idle_at(&self, key: usize, micros: u64) -> Option<Leaver>
        ensures idle { IfSome result (λ one. HasBeenIdle self.now one micros) }
    {
        let active = (*self.active.get(key)?)?;
        if micros.saturating_sub(active.micros) < self.limit {
            return None;
        }
        Some(Leaver {
            key,
            number: active.number,
        })
    }
}
