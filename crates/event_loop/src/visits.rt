//! The sockets that are to be visited.

ghost use Rattle.std.specs.Prelude.{◌≡◌, ◌∷◌, [], false, length, MatchOption, IfNone};
ghost use Rattle.event_loop.specs.Sockets.{Lists};

use crate::socket::Socket;
use std::alloc::{AllocError, Global};
use std::collections::VecDeque;
use std::io::{Read, Write};
use std::marker::Model;

/// The keys of the sockets that are to be visited, in the order in which they were listed.
pub struct Visits {
    keys: VecDeque<usize>,
    /// Memory for one more ran out once, so a socket that is not here may have something to do.
    has_lost: bool,
}

impl Drop for Visits {
    fn drop(self) {
        let Visits {
            keys: _,
            has_lost: _,
        } = self;
    }
}

impl Model for Visits {
    ghost use Rattle.event_loop.specs.Sockets.{VisitsView};

    ghost Value = { VisitsView };

    ghost view = { λ t. record { keys = t.keys.items; has_lost = t.has_lost } };
}

impl Visits {
    /// There is none.
    pub fn new(alloc: Global) -> Visits
        ensures { result ≡ record { keys = []; has_lost = false } }
    {
        Visits {
            keys: VecDeque::new(alloc),
            has_lost: false,
        }
    }

    /// How many there are.
    pub fn len(&self) -> usize
        ensures { result ≡ length self.now.keys }
    {
        self.keys.len()
    }

    /// Makes room for so many more. The only error is a failed allocation.
    pub fn reserve(&mut self, more: usize) -> Result<(), AllocError>
        ensures { self.new ≡ self.old }
    {
        self.keys.reserve(more)
    }

    /// Takes out the first.
    pub fn take_first(&mut self) -> Option<usize>
        ensures first { MatchOption result (self.new ≡ self.old) (λ key. self.old ≡ record self.new { keys = key ∷ self.new.keys }) }
        ensures none { IfNone result (self.old.keys ≡ []) }
    {
        self.keys.pop_front()
    }

    /// Lists the socket of this key, once.
    pub fn list<S: Read + Write>(&mut self, key: usize, socket: &mut Socket<S>)
        ensures { Lists key self.old socket.old self.new socket.new }
    {
        if !socket.is_listed() {
            let is_listed = self.keys.push_back(key).is_ok();
            socket.set_listed(is_listed);
            self.has_lost = self.has_lost || !is_listed;
        }
    }
}
