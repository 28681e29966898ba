//! What identifies a state, at the head of its record.

ghost use Rattle.std.specs.Prelude.{◌≡◌, ◌↔◌, IsTrue, OnOk, ⊤};
ghost use Rattle.token.specs.declared.form.Form.TheVariants.{Old};
ghost use Rattle.wire.specs.Record.{Puts, Takes};
ghost use Rattle.states.specs.StateRecord.{head_of_state, head_text, old_head_text};
ghost use Rattle.states.specs.OldRecord.{IsOldHead};
ghost use Rattle.states.specs.HeadProofs.{head_prefix_free};

use crate::origin::{Origin, Told};
use crate::state::State;
use proto::Fault;
use std::alloc::Global;
use token::{Form, Token};
use wire::{Record, Sink};

/// All of a state but its sessions and its items.
#[derive(Clone, Copy, PartialEq, Eq)]
pub struct Head {
    pub origin: Origin,
    pub token: Token,
}

impl Head {
    /// The head of the old form that is told so.
    pub(crate) fn of_old(told: (Told, Token)) -> Head
        ensures { result ≡ record {
          origin = record {
            form = Old;
            number = told.0.0.0.0.0;
            previous = told.0.0.0.0.1;
            epoch = told.0.0.0.1;
            batch = told.0.0.1;
            moment = told.0.1;
          };
          token = told.1;
        } }
    {
        let (told, token) = told;
        Head {
            origin: Origin::of_told(Form::Old, told),
            token,
        }
    }

    /// Whether it is the same head.
    pub fn is_same(&self, other: &Head) -> bool
        ensures { IsTrue result ↔ (self.now ≡ other.now) }
    {
        self.origin.form == other.origin.form
            && self.origin.number == other.origin.number
            && self.origin.previous == other.origin.previous
            && self.origin.epoch == other.origin.epoch
            && self.origin.batch == other.origin.batch
            && self.origin.moment == other.origin.moment
            && self.token == other.token
    }

    /// The head whose record of version 1 is a prefix of the bytes, of the old form.
    pub(crate) fn take_old(alloc: Global, bytes: &[u8]) -> Result<(Head, &[u8]), Fault>
        ensures { Takes IsOldHead old_head_text bytes.now result }
    {
        let (told, rest) = <(Told, Token)>::take(alloc, bytes)?;
        Ok((Head::of_old(told), rest))
    }

    /// Writes all but its form.
    pub(crate) fn put_old<S: Sink>(&self, sink: &mut S) -> Result<(), S::Refusal>
        ensures { OnOk result (Puts S.holds (old_head_text self.now) sink.old sink.new) }
    {
        self.origin.put_told(sink)?;
        self.token.put(sink)
    }
}

impl Record for Head {
    ghost fits = { λ _. ⊤ };

    ghost encoding = { head_text };

    #[tactic(auto, unfolding(crate::specs::StateRecord::head_text))]
    fn put<S: Sink>(&self, sink: &mut S) -> Result<(), S::Refusal> {
        self.origin.put(sink)?;
        self.token.put(sink)
    }

    #[tactic(auto, unfolding(crate::specs::StateRecord::head_text))]
    fn take<'b>(alloc: Global, bytes: &'b [u8]) -> Result<(Head, &'b [u8]), Fault> {
        let ((origin, token), rest) = <(Origin, Token)>::take(alloc, bytes)?;
        Ok((Head { origin, token }, rest))
    }

    ghost prefix_free = { head_prefix_free };
}

impl State {
    /// All of it but its sessions and its items.
    pub fn head(&self) -> Head
        ensures { result ≡ head_of_state self.now }
    {
        Head {
            origin: self.origin(),
            token: self.token(),
        }
    }
}
