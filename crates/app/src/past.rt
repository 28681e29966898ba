//! What happened in a world so far.

ghost use Rattle.std.specs.Prelude.{◌≡◌, ◌<◌, [], Some, OnOk, length, false, slice_get};
ghost use Rattle.app.specs.Past as spec;

use events::Event;
use std::alloc::{AllocError, Global};
use std::marker::Model;

/// Which of the letters that were sent some event delivered.
#[derive(Drop)]
pub struct Delivered {
    /// A mark for each letter that was sent.
    marks: Vec<bool>,
    /// All letters before this place were delivered.
    start: usize,
}

impl Model for Delivered {
    ghost use Rattle.std.specs.Prelude.{List, Bool};
    ghost use Rattle.app.specs.Past.{AllMarkedBelow};

    ghost Value = { List Bool };

    ghost view = { λ d. d.marks.items };

    ghost invariant = { λ d. AllMarkedBelow d.start d.marks.items };
}

impl Delivered {
    /// No letter was sent yet.
    pub fn new(alloc: Global) -> Delivered
        ensures { result ≡ [] }
    {
        Delivered {
            marks: Vec::new(alloc),
            start: 0,
        }
    }

    /// The letter of this number, if it was sent, is delivered.
    #[tactic(auto, using(crate::proofs::PastLemmas::set_all, crate::proofs::PastLemmas::marked_there, crate::proofs::PastLemmas::marked_not))]
    fn mark(&mut self, letter: u64)
        ensures { self.new ≡ spec.marked_at self.old letter }
    {
        if 1 <= letter && letter <= self.marks.len() as u64 {
            self.marks[(letter - 1) as usize] = true;
        }
    }

    /// The event happens.
    pub fn note(&mut self, event: &Event)
        ensures { self.new ≡ spec.marked_by self.old event.now }
    {
        if let Event::Deliver { letter } = event {
            self.mark(*letter);
        }
    }

    /// So many letters were sent by now.
    #[tactic(auto, using(std::proofs::lemmas::Grind::replicate_next, crate::proofs::PastLemmas::append_all))]
    pub fn extend(&mut self, sent: usize) -> Result<(), AllocError>
        ensures { OnOk result (self.new ≡ spec.extended self.old sent) }
    {
        for _ in 0..sent.saturating_sub(self.marks.len()) {
            self.marks.push(false)?;
        }
        Ok(())
    }

    /// The place of the first letter that no event delivered, or that behind the last one.
    fn first_left(&self) -> usize
        ensures below { spec.AllMarkedBelow result self.now }
        ensures left { result < length self.now → slice_get self.now result ≡ Some false }
    {
        let mut at = self.start;
        while at < self.marks.len() {
            if !self.marks[at] {
                return at;
            }
            at += 1;
        }
        at
    }

    /// The number of the lowest letter that was sent and that no event delivered. Letters that were
    /// delivered are passed by once, and never looked at again.
    pub fn next_letter(&mut self) -> Option<u64>
        ensures next { spec.IsNextLetter self.old result }
        ensures same { self.new ≡ self.old }
    {
        let at = self.first_left();
        self.start = at;
        if at < self.marks.len() {
            Some(at as u64 + 1)
        } else {
            None
        }
    }
}

/// What happened in a world so far.
#[derive(Drop)]
pub struct Past {
    events: Vec<Event>,
    delivered: Delivered,
}

impl Model for Past {
    ghost use Rattle.app.specs.Past.{PastView};

    ghost Value = { PastView };

    ghost view = { λ p. record { events = p.events.items; delivered = p.delivered } };
}

impl Past {
    ghost use Rattle.std.specs.Prelude.{◌≡◌, IfOk, OnOk};
    ghost use Rattle.app.specs.Past as spec;

    /// No event happened yet, and so many letters were sent.
    pub fn new(alloc: Global, sent: usize) -> Result<Past, AllocError>
        ensures { IfOk result (λ past. past ≡ spec.first_past sent) }
    {
        let mut delivered = Delivered::new(alloc);
        delivered.extend(sent)?;
        Ok(Past {
            events: Vec::new(alloc),
            delivered,
        })
    }

    /// How many events happened.
    pub fn count(&self) -> usize {
        self.events.len()
    }

    /// The event happened, and so many letters were sent by now.
    pub fn note(&mut self, event: Event, sent: usize) -> Result<(), AllocError>
        ensures { OnOk result (self.new ≡ spec.past_after self.old event sent) }
    {
        self.delivered.note(&event);
        self.delivered.extend(sent)?;
        self.events.push(event)?;
        Ok(())
    }

    /// The number of the lowest letter that was sent and that no event delivered.
    pub fn next_letter(&mut self) -> Option<u64>
        ensures next { spec.IsNextLetter self.old.delivered result }
        ensures same { self.new ≡ self.old }
    {
        self.delivered.next_letter()
    }

    /// The events, in their order.
    pub fn into_events(self) -> Vec<Event>
        ensures { result.items ≡ self.events }
    {
        let Past {
            events,
            delivered: _,
        } = self;
        events
    }
}
