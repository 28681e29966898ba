ghost use Rattle.std.specs.Prelude.{◌≡◌, ◌<◌, [], OnOk, OnErr};
ghost use Rattle.verifier.specs.Tally.{tally_with, is_tallied as tallied, has_accepted as accepted, is_accepted as accepted_by};

use decrees::Decree;
use std::alloc::{AllocError, Global};
use std::marker::Model;

/// An acceptance, of the next place, that was heard.
#[derive(Clone, Copy, PartialEq, Eq)]
pub struct Tallied {
    pub from: u8,
    pub view: u64,
    pub decree: Decree,
}

/// The acceptances of the next place, at most one of a sender in a view: the first one stays.
pub struct Tally {
    heard: Vec<Tallied>,
}

impl Drop for Tally {
    fn drop(self) {
        let Tally { heard: _ } = self;
    }
}

impl Model for Tally {
    ghost use Rattle.std.specs.Prelude.{List};
    ghost use Rattle.verifier.specs.declared.tally.Tallied.{Tallied};

    ghost Value = { List Tallied };

    ghost view = { λ a. a.heard.items };
}

impl Tally {
    pub fn new(alloc: Global) -> Tally
        ensures { result ≡ [] }
    {
        Tally {
            heard: Vec::new(alloc),
        }
    }

    /// Forgets them all, and takes no memory.
    pub fn clear(&mut self)
        ensures { self.new ≡ [] }
    {
        self.heard.clear();
    }

    fn is_tallied(&self, view: u64, sender: u8) -> bool
        ensures { result ≡ tallied self.now view sender }
    {
        self.heard
            .iter()
            .any(|t| t.from == sender && t.view == view)
    }

    /// Keeps the acceptance if there is none of its sender in its view yet.
    pub fn add(&mut self, tallied: Tallied) -> Result<(), AllocError>
        ensures ok { OnOk result (self.new ≡ tally_with self.old tallied) }
        ensures err { OnErr result (self.new ≡ self.old) }
    {
        if self.is_tallied(tallied.view, tallied.from) {
            return Ok(());
        }
        self.heard.push(tallied)?;
        Ok(())
    }

    fn has_accepted(&self, view: u64, decree: &Decree, sender: u8) -> bool
        ensures { result ≡ accepted self.now view decree.now sender }
    {
        self.heard.iter().any(|t| t.from == sender && t.view == view && t.decree == *decree)
    }

    /// Whether more than `u` verifiers have accepted the decree in the view.
    pub fn is_accepted(&self, u: u8, view: u64, decree: &Decree) -> bool
        requires { u < 4 }
        ensures { result ≡ accepted_by u self.now view decree.now }
    {
        let mut senders = 0;
        for sender in 0..2 * u + 1 {
            if self.has_accepted(view, decree, sender) {
                senders += 1;
            }
        }
        u < senders
    }
}
