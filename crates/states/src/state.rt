ghost use Rattle.std.specs.Prelude.{◌≡◌, ◌<◌, ◌^◌, IfOk, OnOk};
ghost use Rattle.wire.specs.Record.{Puts};
ghost use Rattle.wire.specs.Session.{sessions_text, SessionsFit};
ghost use Rattle.token.specs.Digested.{AreDigested};
ghost use Rattle.states.specs.State.{IsState, initial_state, with_token};
ghost use Rattle.states.specs.Origin.{origin_of};
ghost use Rattle.states.specs.Parts.{parts_of};
ghost use Rattle.states.specs.Followed.{state_after, state_after_in, form_after};
ghost use Rattle.pages.specs.Form.{FitForm, layout_of};

use crate::form::root_of_form;
use crate::origin::Origin;
use batches::Batch;
use pages::{Layout, Pages, Snapshot};
use sessions::Sessions;
use std::alloc::{AllocError, Global};
use std::marker::Model;
use token::{Digested, Form, HashedSessions, Token, batch_digest};
use wire::Sink;

/// A state of the server: its items and sessions, and the token by which it is known. Beside the
/// sessions it keeps their digest and, if there is memory for it, their text.
pub struct State {
    origin: Origin,
    token: Token,
    sessions: HashedSessions,
    digested: Digested,
    pages: Snapshot,
}

impl Drop for State {
    fn drop(self) {
        let State {
            origin: _,
            token: _,
            sessions: _,
            digested: _,
            pages: _,
        } = self;
    }
}

/// What a state is made of, without its token.
#[derive(Drop)]
pub struct Parts {
    pub origin: Origin,
    pub sessions: HashedSessions,
    pub pages: Snapshot,
}

impl Model for State {
    ghost use Rattle.std.specs.Coded.{coded_list, coded_ℕ};
    ghost use Rattle.std.specs.FinMap as map;
    ghost use Rattle.items.specs.contracts.item.Item as item;
    ghost use Rattle.sessions.specs.contracts.sessions.LastReply as kept;
    ghost use Rattle.token.specs.contracts.form.Form as of_form;
    ghost use Rattle.token.specs.contracts.Token as known;
    ghost use Rattle.std.specs.Prelude.{◌≡◌};
    ghost use Rattle.pages.specs.Form.{layout_of};
    ghost use Rattle.states.specs.Origin.{state_from};
    ghost use Rattle.states.specs.State.{StateView, IsStateBeside, state_code};

    ghost Value = { StateView };

    ghost coded = { state_code of_form.the_row.coded known.the_row.coded (map.code coded_ℕ kept.the_row.coded) (map.code (coded_list coded_ℕ) item.the_row.coded) };

    ghost view = { λ s. state_from s.origin s.token s.sessions s.pages.items };

    ghost invariant = { λ s. IsStateBeside s.digested (state_from s.origin s.token s.sessions s.pages.items) × (s.pages.layout ≡ layout_of s.origin.form) };
}

impl State {
    /// The state of number 0: no items, no sessions.
    pub fn first(alloc: Global) -> Result<State, AllocError>
        ensures { IfOk result (λ state. state ≡ initial_state) }
    {
        let sessions = HashedSessions::new(Sessions::new(alloc)?);
        let digested = Digested::of_sessions(alloc, Form::Current, &sessions);
        let pages = Pages::new(alloc)?.seal(Layout::Sorted)?;
        Ok(State {
            origin: Origin {
                form: Form::Current,
                number: 0,
                previous: Token([0; 32]),
                epoch: 1,
                batch: [0; 32],
                moment: 0,
            },
            token: Token([0; 32]),
            sessions,
            digested,
            pages,
        })
    }

    /// All of it but its token, its sessions and its items.
    pub fn origin(&self) -> Origin
        ensures { result ≡ origin_of self.now }
    {
        self.origin
    }

    /// How the digests in its token are computed.
    pub fn form(&self) -> Form
        ensures { result ≡ self.now.form }
    {
        self.origin.form
    }

    /// How many batches led to the state.
    pub fn number(&self) -> u64
        ensures number { result ≡ self.now.number }
        ensures few { result < 2 ^ 58 }
    {
        self.origin.number
    }

    /// The token of the state before it.
    pub fn previous(&self) -> Token
        ensures { result ≡ self.now.previous }
    {
        self.origin.previous
    }

    /// The epoch of the batch that led to it.
    pub fn epoch(&self) -> u64
        ensures { result ≡ self.now.epoch }
    {
        self.origin.epoch
    }

    /// The digest of the batch that led to it.
    pub fn batch(&self) -> &[u8; 32]
        ensures { result.now ≡ self.now.batch }
    {
        &self.origin.batch
    }

    /// Its moment, in seconds.
    pub fn moment(&self) -> u32
        ensures { result ≡ self.now.moment }
    {
        self.origin.moment
    }

    /// The token by which it is known.
    pub fn token(&self) -> Token
        ensures { result ≡ self.now.token }
    {
        self.token
    }

    /// What is kept of each client.
    pub fn sessions(&self) -> &Sessions
        ensures sessions { result.now ≡ self.now.sessions }
        ensures fit { SessionsFit self.now.sessions }
    {
        self.sessions.sessions()
    }

    /// The same, with the digests of long replies that are beside them.
    pub fn hashed_sessions(&self) -> &HashedSessions
        ensures { result.now ≡ self.now.sessions }
    {
        &self.sessions
    }

    /// Writes the text of what is kept of each client: shared if it is kept.
    pub(crate) fn put_sessions<S: Sink>(&self, sink: &mut S) -> Result<(), S::Refusal>
        ensures { OnOk result (Puts S.holds (sessions_text self.now.sessions) sink.old sink.new) }
    {
        self.digested.put_sessions(self.sessions.sessions(), sink)
    }

    /// Its items.
    pub fn pages(&self) -> &Snapshot
        ensures items { result.now.items ≡ self.now.items }
        ensures laid { result.now.layout ≡ layout_of self.now.form }
    {
        &self.pages
    }

    /// What is true of every state: see `IsState`. It does nothing.
    pub fn is_state(&self)
        ensures { IsState self.now }
    {
        let _origin = &self.origin;
    }

    /// The same state. Its pages, its sessions and their text are shared, and not copied.
    pub fn share(&self) -> Result<State, AllocError>
        ensures { IfOk result (λ state. state ≡ self.now) }
    {
        Ok(State {
            origin: self.origin,
            token: self.token,
            sessions: self.sessions.clone()?,
            digested: self.digested.clone()?,
            pages: self.pages.share()?,
        })
    }

    /// The state of these parts, with its token computed from them by their form. Its number is from 1
    /// to 2^58 - 1.
    /// The text of its sessions is kept if there is memory for it; there is no error.
    pub fn of_parts(alloc: Global, parts: Parts) -> State
        requires number { (0 < parts.origin.number) × (parts.origin.number < 2 ^ 58) }
        requires form { FitForm parts.origin.form parts.pages.items }
        requires laid { parts.pages.layout ≡ layout_of parts.origin.form }
        ensures { result ≡ with_token (parts_of parts) }
    {
        let digested = Digested::of_sessions(alloc, parts.origin.form, &parts.sessions);
        State::of_digested(parts, digested)
    }

    /// The same state as of `of_parts`, with the digest of its sessions that was made already. This takes
    /// no memory.
    pub fn of_digested(parts: Parts, digested: Digested) -> State
        requires number { (0 < parts.origin.number) × (parts.origin.number < 2 ^ 58) }
        requires form { FitForm parts.origin.form parts.pages.items }
        requires laid { parts.pages.layout ≡ layout_of parts.origin.form }
        requires digested { AreDigested parts.origin.form parts.sessions digested }
        ensures { result ≡ with_token (parts_of parts) }
    {
        let _entries = parts.sessions.sessions().entries();
        let token = Token::new(
            &parts.origin.previous,
            parts.origin.number,
            parts.origin.epoch,
            parts.origin.moment,
            &parts.origin.batch,
            &root_of_form(parts.origin.form, &parts.pages),
            digested.digest(),
        );
        let Parts {
            origin,
            sessions,
            pages,
        } = parts;
        State {
            origin,
            token,
            sessions,
            digested,
            pages,
        }
    }

    /// The state that a batch makes of this one, with its token. The digest is that of the sessions, and the
    /// form that of the items that are there when the batch begins. This takes no memory.
    pub fn followed_by(
        &self,
        form: Form,
        batch: &Batch,
        sessions: HashedSessions,
        digested: Digested,
        pages: Snapshot,
    ) -> State
        requires form { form ≡ form_after self.now batch.now }
        requires laid { pages.layout ≡ layout_of form }
        requires digested { AreDigested form sessions digested }
        ensures followed { result ≡ state_after self.now batch.now sessions pages.items }
        ensures fit { SessionsFit result.sessions }
    {
        self.followed_in(form, batch, sessions, digested, pages)
    }

    /// The same, of whatever form: that of a state that was read.
    pub(crate) fn followed_in(
        &self,
        form: Form,
        batch: &Batch,
        sessions: HashedSessions,
        digested: Digested,
        pages: Snapshot,
    ) -> State
        requires digested { AreDigested form sessions digested }
        requires form { FitForm form pages.items }
        requires laid { pages.layout ≡ layout_of form }
        ensures followed { result ≡ state_after_in form self.now batch.now sessions pages.items }
        ensures fit { SessionsFit result.sessions }
    {
        let origin = Origin {
            form,
            number: batch.n,
            previous: self.token,
            epoch: batch.epoch,
            batch: batch_digest(batch),
            moment: batch.moment.max(self.origin.moment),
        };
        let parts = Parts {
            origin,
            sessions,
            pages,
        };
        let state = State::of_digested(parts, digested);
        state.is_state();
        state
    }
}
