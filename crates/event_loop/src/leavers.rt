//! The connections whose other side sends no more.

ghost use Rattle.std.specs.Prelude.{◌≡◌, ◌<◌, ◌++◌, ◌∷◌, ◌↔◌, [], None, not, nat_eq, filter, length, IfSome, IsSome, OnOk, OnErr};

use std::alloc::{AllocError, Global};
use std::marker::Model;

/// A connection, by its key and its number.
#[derive(Clone, Copy, PartialEq, Eq)]
pub struct Leaver {
    pub key: usize,
    pub number: u64,
}

/// The connections that are here although their other side sends no more, in the order in which this was found.
/// They get the replies that are owed to them. They do not count for the limit of those that come. Each is
/// here until its last reply is written, it fails, or too many others are here that were found later.
pub struct Leavers {
    all: Vec<Leaver>,
}

impl Drop for Leavers {
    fn drop(self) {
        let Leavers { all: _ } = self;
    }
}

impl Model for Leavers {
    ghost use Rattle.std.specs.Prelude.{List};
    ghost use Rattle.event_loop.specs.declared.leavers.Leaver.{Leaver};

    ghost Value = { List Leaver };

    ghost view = { λ leavers. leavers.all.items };
}

impl Leavers {
    /// There is none.
    pub fn new(alloc: Global) -> Leavers
        ensures { result ≡ [] }
    {
        Leavers {
            all: Vec::new(alloc),
        }
    }

    /// How many there are.
    pub fn len(&self) -> usize
        ensures { result ≡ length self.now }
    {
        self.all.len()
    }

    /// Makes room for so many more. The only error is a failed allocation.
    pub fn reserve(&mut self, more: usize) -> Result<(), AllocError>
        ensures { self.new ≡ self.old }
    {
        self.all.reserve(more)
    }

    /// One more, behind the others. If memory runs out nothing changes.
    pub fn add(&mut self, leaver: Leaver) -> Result<(), AllocError>
        ensures ok { OnOk result (self.new ≡ self.old ++ leaver ∷ []) }
        ensures err { OnErr result (self.new ≡ self.old) }
    {
        self.all.push(leaver)?;
        Ok(())
    }

    /// The connection of this number is gone.
    pub fn remove(&mut self, number: u64)
        ensures { self.new ≡ filter (λ leaver. not (nat_eq leaver.number number)) self.old }
    {
        self.all.retain(|leaver| leaver.number != number);
    }

    /// Takes out the first one if there are more than `most`.
    pub fn take_beyond(&mut self, most: usize) -> Option<Leaver>
        ensures first { IfSome result (λ first. self.old ≡ first ∷ self.new) }
        ensures beyond { IsSome result ↔ most < length self.old }
        ensures none { result ≡ None → self.new ≡ self.old }
    {
        if self.all.len() <= most {
            return None;
        }
        Some(self.all.remove(0))
    }
}
