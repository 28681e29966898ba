//! The ends of a link.

ghost use Rattle.std.specs.Prelude.{◌≡◌, [], IfOk, MatchResult, MatchOption};
ghost use Rattle.crossbeam_channel.specs.Claims.{IsSeatAt};
ghost use Rattle.crossbeam_channel.specs.Ends.{sends_on, receives_on, ruled_capacity};
ghost use Rattle.link.specs.Lines.{fresh, known_to, IsPutIn, IsTakenOut};
ghost use Rattle.link.specs.declared.line.View.{View};
ghost use Rattle.link.specs.declared.line.TheConstants.{MOST_ITEMS};

use crate::line::{Line, MOST_ITEMS, Putting, Taking, Telling, View};
use crossbeam_channel::{Pass, RuledReceiver, RuledSender, bounded_with};
use std::alloc::{AllocError, Global};
use std::marker::Model;
use std::sync::Wait;

/// One end of a link, by which items are put and taken. Contracts see what it knows.
#[derive(Drop)]
pub struct Link<T: Drop> {
    sender: RuledSender<T, View<T>, Line, Global>,
    receiver: RuledReceiver<T, View<T>, Line, Global>,
    pass: Pass<T, View<T>>,
}

impl<T: Drop> Model for Link<T> {
    ghost Value = { View T };

    ghost view = { λ s. known_to s.pass };

    ghost invariant = { λ s. (receives_on s.receiver ≡ sends_on s.sender) × IsSeatAt (sends_on s.sender) s.pass × (ruled_capacity (sends_on s.sender) ≡ MOST_ITEMS) };
}

impl<T: Drop> Link<T> {
    /// The first end of a link that nothing was put into. The only error is a failed allocation.
    pub fn new(alloc: Global) -> Result<Link<T>, AllocError>
        ensures { IfOk result (λ end. end ≡ fresh [] []) }
    {
        let (sender, receiver, pass) = bounded_with(alloc, MOST_ITEMS)?;
        Ok(Link {
            sender,
            receiver,
            pass,
        })
    }

    /// One more end of the link, for another thread. It has put and taken nothing, and knows of the
    /// other ends what this one knows.
    pub fn another(&mut self) -> Result<Link<T>, AllocError>
        ensures same { self.new ≡ self.old }
        ensures end { IfOk result (λ end. end ≡ fresh self.old.puts self.old.takes) }
    {
        let sender = self.sender.try_clone()?;
        let receiver = self.receiver.try_clone()?;
        let pass = self.sender.another::<Telling>(&mut self.pass);
        Ok(Link {
            sender,
            receiver,
            pass,
        })
    }

    /// Puts the item in at the back. If the link holds `MOST_ITEMS` items it waits until some end takes
    /// one. An item that comes back was not put.
    pub fn put<R: Wait>(&mut self, rt: &R, item: T) -> Result<(), T>
        ensures { MatchResult result (λ _. IsPutIn self.old item self.new) (λ back. (back ≡ item) × (self.new ≡ self.old)) }
    {
        match self.sender.send_as::<Putting, R>(rt, &mut self.pass, item) {
            Ok(()) => Ok(()),
            Err(error) => Err(error.into_inner()),
        }
    }

    /// Takes the item at the front. If the link is empty it waits until some end puts one; each
    /// end may put, so what ends a loop of takes is an item that says so.
    pub fn take<R: Wait>(&mut self, rt: &R) -> Option<T>
        ensures { MatchOption result (self.new ≡ self.old) (λ item. IsTakenOut self.old item self.new) }
    {
        match self.receiver.recv_as::<Taking, R>(rt, &mut self.pass) {
            Ok(item) => Some(item),
            Err(_) => None,
        }
    }

    /// Puts the item in at the back, or hands it back if it finds `MOST_ITEMS` there. It does not wait for
    /// another end to take. An item that comes back was not put.
    pub fn try_put<R: Wait>(&mut self, rt: &R, item: T) -> Result<(), T>
        ensures { MatchResult result (λ _. IsPutIn self.old item self.new) (λ back. (back ≡ item) × (self.new ≡ self.old)) }
    {
        match self
            .sender
            .try_send_as::<Putting, R>(rt, &mut self.pass, item)
        {
            Ok(()) => Ok(()),
            Err(failed) => Err(failed.into_inner()),
        }
    }

    /// Takes the item at the front, if it finds one. It does not wait for another end to put. If it
    /// gives none there may be one: a caller that has to see the last one takes again.
    pub fn try_take<R: Wait>(&mut self, rt: &R) -> Option<T>
        ensures { MatchOption result (self.new ≡ self.old) (λ item. IsTakenOut self.old item self.new) }
    {
        match self.receiver.try_recv_as::<Taking, R>(rt, &mut self.pass) {
            Ok(found) => Some(found),
            Err(_) => None,
        }
    }
}
