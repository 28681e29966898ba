//! The record of a state, by itself and over the state before it.

ghost use Rattle.std.specs.Prelude.{◌≡◌, ◌++◌, ◌<◌, IfOk, OnOk};
ghost use Rattle.items.specs.Map.{Items};
ghost use Rattle.wire.specs.Record.{Puts, Takes};
ghost use Rattle.pages.specs.Others.{AreSameBeside, AreChanged};
ghost use Rattle.pages.specs.Form.{layout_of};
ghost use Rattle.states.specs.State.{IsState};
ghost use Rattle.states.specs.Followed.{IsSuccessor};
ghost use Rattle.states.specs.StateRecord.{head_of_state, IsFirstState, IsLaterState, MakesLater, MakesSuccessor, state_text, after_text};

use crate::changes::{changed_pages, put_changes, take_changes};
use crate::form::{fits_form, layout_of};
use crate::head::Head;
use crate::page_texts::{put_pages, take_pages};
use crate::state::{Parts, State};
use batches::{Batch, GREATEST_NUMBER};
use pages::{PageSet, Pages, Snapshot};
use proto::Fault;
use sessions::Sessions;
use std::alloc::{AllocError, Global};
use token::{Digested, HashedSessions};
use wire::{Record, Sink};

impl Head {
    /// The state that a batch led to, of this head, these sessions and items. `BadRecord`: there is
    /// none, as when the token is not the one that comes out.
    pub(crate) fn later(
        &self,
        alloc: Global,
        sessions: Sessions,
        pages: Snapshot,
    ) -> Result<State, Fault>
        requires { pages.layout ≡ layout_of self.now.origin.form }
        ensures { MakesLater self.now sessions pages.items result }
    {
        if self.origin.number == 0 {
            return Err(Fault::BadRecord);
        }
        if GREATEST_NUMBER < self.origin.number {
            return Err(Fault::BadRecord);
        }
        if !fits_form(self.origin.form, &pages) {
            return Err(Fault::BadRecord);
        }
        let parts = Parts {
            origin: self.origin,
            sessions: HashedSessions::new(sessions),
            pages,
        };
        let state = State::of_parts(alloc, parts);
        if state.token() != self.token {
            return Err(Fault::BadRecord);
        }
        state.is_state();
        Ok(state)
    }

    /// The first state, if it has this head and no sessions. `BadRecord`: it has not.
    fn first_state(&self, alloc: Global, sessions: &Sessions) -> Result<State, Fault>
        ensures state { IfOk result IsState }
        ensures head { IfOk result (λ state. head_of_state state ≡ self.now) }
        ensures sessions { IfOk result (λ state. state.sessions ≡ sessions.now) }
    {
        let first = State::first(alloc)?;
        first.is_state();
        if first.head().is_same(self) && sessions.entries().is_empty() {
            Ok(first)
        } else {
            Err(Fault::BadRecord)
        }
    }

    /// The state of this head, these sessions and items. `BadRecord`: there is none, as if an item was changed, since the
    /// token is not the one that comes out. `NoMemory` is the only other error.
    pub fn state(&self, alloc: Global, sessions: Sessions, pages: Pages) -> Result<State, Fault>
        ensures state { IfOk result IsState }
        ensures head { IfOk result (λ state. head_of_state state ≡ self.now) }
        ensures sessions { IfOk result (λ state. state.sessions ≡ sessions) }
        ensures items { IfOk result (λ state. 0 < self.now.origin.number → state.items ≡ pages) }
    {
        if self.origin.number == 0 {
            return self.first_state(alloc, &sessions);
        }
        let sealed = pages.seal(layout_of(self.origin.form))?;
        self.later(alloc, sessions, sealed)
    }

    /// The state that the batch made of the one before, of this head, these sessions and items.
    /// `BadRecord`: there is none.
    pub(crate) fn successor(
        &self,
        alloc: Global,
        before: &State,
        batch: &Batch,
        sessions: Sessions,
        pages: Snapshot,
    ) -> Result<State, Fault>
        requires { pages.layout ≡ layout_of self.now.origin.form }
        ensures { MakesSuccessor before.now batch.now self.now sessions pages.items result }
    {
        if !fits_form(self.origin.form, &pages) {
            return Err(Fault::BadRecord);
        }
        let sessions = HashedSessions::new(sessions);
        let digested = Digested::of_sessions(alloc, self.origin.form, &sessions);
        let state = before.followed_in(self.origin.form, batch, sessions, digested, pages);
        if !state.head().is_same(self) {
            return Err(Fault::BadRecord);
        }
        Ok(state)
    }
}

/// The first state, whose record is a prefix of the bytes.
fn take_first(alloc: Global, bytes: &[u8]) -> Result<(State, &[u8]), Fault>
    ensures { Takes IsFirstState state_text bytes.now result }
{
    let first = State::first(alloc)?;
    let mut text = Vec::new(alloc);
    first.put(&mut text)?;
    match bytes.strip_prefix(text.as_slice()) {
        Some(rest) => Ok((first, rest)),
        None => Err(Fault::BadRecord),
    }
}

/// A state that a batch led to, whose record is a prefix of the bytes.
fn take_later(alloc: Global, bytes: &[u8]) -> Result<(State, &[u8]), Fault>
    ensures { Takes IsLaterState state_text bytes.now result }
{
    let ((head, sessions), rest) = <(Head, Sessions)>::take(alloc, bytes)?;
    let layout = layout_of(head.origin.form);
    let (pages, rest) = take_pages(alloc, layout, rest)?;
    let sealed = pages.seal(layout)?;
    let state = head.later(alloc, sessions, sealed)?;
    Ok((state, rest))
}

impl State {
    /// Writes its record. The texts that are kept, of its pages and its sessions, are shared with a sink
    /// that takes shared pieces. The sink may refuse it, as when an allocation fails.
    #[tactic(auto, unfolding(crate::specs::StateRecord::state_text))]
    pub fn put<S: Sink>(&self, sink: &mut S) -> Result<(), S::Refusal>
        ensures { OnOk result (Puts S.holds (state_text self.now) sink.old sink.new) }
    {
        self.head().put(sink)?;
        self.put_sessions(sink)?;
        put_pages(self.pages(), sink)
    }

    /// `take` of a record of today.
    pub(crate) fn take_current(alloc: Global, bytes: &[u8]) -> Result<(State, &[u8]), Fault>
        ensures { Takes IsState state_text bytes.now result }
    {
        let (head, _) = Head::take(alloc, bytes)?;
        if head.origin.number == 0 {
            take_first(alloc, bytes)
        } else {
            take_later(alloc, bytes)
        }
    }

    /// The pages in which the items of this state are not those of the one before. Pages that are not in
    /// the set are the same in both, and no item of them is read. The only error is a failed allocation.
    pub fn changed_after(
        &self,
        alloc: Global,
        before: &State,
        may_differ: &PageSet,
    ) -> Result<PageSet, AllocError>
        requires { AreSameBeside may_differ.now before.now.items self.now.items }
        ensures { IfOk result (λ changed. AreChanged changed before.now.items self.now.items) }
    {
        changed_pages(alloc, before.pages(), self.pages(), may_differ)
    }

    /// Writes its record over a state before it: a page that is the same in both is one byte. The set has
    /// just those that are not the same. The texts that are kept are shared as by `put`.
    #[tactic(auto, unfolding(crate::specs::StateRecord::after_text))]
    pub fn put_after<S: Sink>(&self, changed: &PageSet, sink: &mut S) -> Result<(), S::Refusal>
        ensures { (before : Items) → AreChanged changed.now before self.now.items → OnOk result (Puts S.holds (after_text before self.now) sink.old sink.new) }
    {
        self.head().put(sink)?;
        self.put_sessions(sink)?;
        put_changes(self.pages(), changed, sink)
    }

    /// `take_after` of a record of today. Pages that are the same are shared.
    pub(crate) fn take_current_after<'b>(
        alloc: Global,
        before: &State,
        batch: &Batch,
        bytes: &'b [u8],
    ) -> Result<(State, &'b [u8]), Fault>
        ensures { Takes (IsSuccessor before.now batch.now) (after_text before.now.items) bytes.now result }
    {
        let ((head, sessions), rest) = <(Head, Sessions)>::take(alloc, bytes)?;
        let layout = layout_of(head.origin.form);
        let (pages, rest) = take_changes(alloc, layout, before.pages(), rest)?;
        let sealed = pages.seal(layout)?;
        let state = head.successor(alloc, before, batch, sessions, sealed)?;
        Ok((state, rest))
    }
}
