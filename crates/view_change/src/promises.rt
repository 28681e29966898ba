ghost use Rattle.std.specs.Prelude.{◌≡◌, ◌<◌, [], IsTrue, IsOk, OnOk, OnErr, nat_le};
ghost use Rattle.std.specs.List.{list_all};
ghost use Rattle.std.specs.Option.{option_and_then};
ghost use Rattle.decrees.specs.Count.{member_count, is_quorum};
ghost use Rattle.view_change.specs.Promises.{promise_of, promises_with, has_promised as has, accepted_at as accepted, best_below, choice as choice_by, higher as higher_of};

use decrees::Decree;
use std::alloc::{AllocError, Global};
use std::marker::Model;

/// What a verifier has promised to a leader: how many decrees it knows, and what it has accepted,
/// and in which view, for the place after them.
#[derive(Clone, Copy, PartialEq, Eq)]
pub struct Promise {
    pub from: u8,
    pub known: u64,
    pub accepted: Option<(u64, Decree)>,
}

/// What a leader may propose for the next place.
#[derive(Clone, Copy, Debug, PartialEq, Eq)]
pub enum Choice {
    /// Nothing yet.
    Wait,
    /// Only this decree: it may be decided already.
    Must(Decree),
    /// Any decree.
    Free,
}

/// The promises that a leader has in its view, at most one of a sender: the first one stays.
pub struct Promises {
    promises: Vec<Promise>,
}

impl Drop for Promises {
    fn drop(self) {
        let Promises { promises: _ } = self;
    }
}

impl Model for Promises {
    ghost use Rattle.std.specs.Prelude.{List};
    ghost use Rattle.view_change.specs.declared.promises.Promise.{Promise};

    ghost Value = { List Promise };

    ghost view = { λ a. a.promises.items };
}

impl Promises {
    /// No promises.
    pub fn new(alloc: Global) -> Promises
        ensures { result ≡ [] }
    {
        Promises {
            promises: Vec::new(alloc),
        }
    }

    fn of(&self, sender: u8) -> Option<Promise>
        ensures { result ≡ promise_of self.now sender }
    {
        self.promises.iter().copied().find(|p| p.from == sender)
    }

    /// Whether there is a promise of the sender.
    pub fn has(&self, sender: u8) -> bool
        ensures { result ≡ has self.now sender }
    {
        self.of(sender).is_some()
    }

    /// Keeps the promise if there is none of its sender yet.
    pub fn add(&mut self, promise: Promise) -> Result<(), AllocError>
        ensures ok { OnOk result (self.new ≡ promises_with self.old promise) }
        ensures there { IsTrue (has self.old promise.from) → IsOk result }
        ensures err { OnErr result (self.new ≡ self.old) }
    {
        if self.has(promise.from) {
            return Ok(());
        }
        self.promises.push(promise)?;
        Ok(())
    }

    fn is_quorum(&self, u: u8) -> bool
        requires { u < 4 }
        ensures { result ≡ is_quorum u (has self.now) }
    {
        let mut senders = 0;
        for sender in 0..2 * u + 1 {
            if self.has(sender) {
                senders += 1;
            }
        }
        u < senders
    }

    fn none_ahead(&self, known: u64) -> bool
        ensures { result ≡ list_all (λ p. nat_le p.known known) self.now }
    {
        self.promises.iter().all(|p| p.known <= known)
    }

    fn best(&self, u: u8, known: u64) -> Option<(u64, Decree)>
        requires { u < 4 }
        ensures { result ≡ best_below known self.now (member_count u) }
    {
        let mut best = None;
        for sender in 0..2 * u + 1 {
            best = higher(best, self.accepted(sender, known));
        }
        best
    }

    fn accepted(&self, sender: u8, known: u64) -> Option<(u64, Decree)>
        ensures { result ≡ option_and_then (accepted known) (promise_of self.now sender) }
    {
        match self.of(sender) {
            Some(promise) if promise.known == known => promise.accepted,
            _ => None,
        }
    }

    /// What may be proposed for the place after this many known decrees: nothing before more than
    /// `u` have promised, nor while one of them knows more decrees. If promises hold an accepted
    /// decree for that place, only the one of the highest view; of several, that of the lowest
    /// sender.
    pub fn choice(&self, u: u8, known: u64) -> Choice
        requires { u < 4 }
        ensures { result ≡ choice_by u known self.now }
    {
        if !self.is_quorum(u) || !self.none_ahead(known) {
            return Choice::Wait;
        }
        match self.best(u, known) {
            Some((_, decree)) => Choice::Must(decree),
            None => Choice::Free,
        }
    }
}

fn higher(first: Option<(u64, Decree)>, second: Option<(u64, Decree)>) -> Option<(u64, Decree)>
    ensures { result ≡ higher_of first second }
{
    match (first, second) {
        (Some(a), Some(b)) => { if b.0 <= a.0 { Some(a) } else { Some(b) } }
        (None, second) => second,
        (first, None) => first,
    }
}
