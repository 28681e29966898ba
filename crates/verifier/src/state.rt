//! What a verifier keeps, and its record.

ghost use Rattle.std.specs.Prelude.{◌≡◌, ◌+◌, ◌++◌, ◌^◌, ◌<◌, ◌≤◌, ◌⊎◌, IfOk, IfErr, OnOk, IsTrue, None, false, [], length};
ghost use Rattle.decrees.specs.Standing.{may_follow};
ghost use Rattle.decrees.specs.Start.{could_stand};
ghost use Rattle.decrees.specs.Count.{member_count};
ghost use Rattle.decrees.specs.Votes.{open_votes};
ghost use Rattle.verifier.specs.State.{in_view, known, stands, next_place, new_state, first_promises, down};
ghost use Rattle.verifier.specs.Record.{verifier_head_text, verifier_fields_text, record_text};
ghost use Rattle.verifier.specs.Lines.{learn, gone_to};

use crate::record::{KIND, TRIMMED, WHOLE};
use crate::tally::Tally;
use base::Text;
use decrees::{Decree, Log, Start, Votes};
use proto::Fault;
use std::alloc::{AllocError, Global};
use std::marker::Model;
use view_change::{Promise, Promises};
use wire::{Record, put_count};

/// What a verifier keeps. The first three are saved (the log with its start), the rest is lost at a
/// crash.
#[derive(Drop)]
pub struct State {
    pub(crate) view: u64,
    pub(crate) log: Log,
    pub(crate) accepted: Option<(u64, Decree)>,
    /// Whether it leads its view: only then do the next three count.
    pub(crate) leads: bool,
    pub(crate) proposed: bool,
    pub(crate) doubt: bool,
    pub(crate) promises: Promises,
    pub(crate) tally: Tally,
    pub(crate) votes: Votes,
}

impl Model for State {
    ghost use Rattle.verifier.specs.State.{VerifierState};

    ghost Value = { VerifierState };

    ghost view = { λ m. record { view = m.view; start = m.log.start; log = m.log.decrees; accepted = m.accepted; leads = m.leads; proposed = m.proposed; doubt = m.doubt; promises = m.promises; tally = m.tally; votes = m.votes } };
}

impl State {
    /// A new verifier. The first one leads view 0, with promises of all.
    pub fn first(alloc: Global, u: u8, id: u8) -> Result<State, AllocError>
        requires { u < 4 }
        ensures { IfOk result (λ state. state ≡ new_state u id) }
    {
        let leads = id == 0;
        let promises = if leads {
            first_promises_of(alloc, u)?
        } else {
            Promises::new(alloc)
        };
        Ok(State {
            leads,
            promises,
            ..State::restored(alloc, 0, None, Log::new(alloc))
        })
    }

    /// A verifier that goes on from its record.
    pub fn restored(alloc: Global, view: u64, accepted: Option<(u64, Decree)>, log: Log) -> State
        ensures fresh { result ≡ down result }
        ensures view { result.view ≡ view }
        ensures accepted { result.accepted ≡ accepted }
        ensures start { result.start ≡ log.start }
        ensures log { result.log ≡ log.decrees }
    {
        State {
            view,
            log,
            accepted,
            leads: false,
            proposed: false,
            doubt: false,
            promises: Promises::new(alloc),
            tally: Tally::new(alloc),
            votes: Votes::new(alloc),
        }
    }

    /// Writes the verifier's number and how many may fail, its view and what it has accepted.
    fn put_head(&self, u: u8, id: u8, whole: &mut Text) -> Result<(), AllocError>
        ensures { OnOk result (whole.new ≡ whole.old ++ verifier_head_text u id self.now) }
    {
        id.put(whole)?;
        u.put(whole)?;
        self.view.put(whole)?;
        self.accepted.put(whole)
    }

    /// Writes all of its record that is before the decrees.
    fn put_fields(&self, u: u8, id: u8, whole: &mut Text) -> Result<(), AllocError>
        ensures { OnOk result (whole.new ≡ whole.old ++ verifier_fields_text u id self.now) }
    {
        let start = self.log.start();
        if start.place == 0 {
            whole.put(&[WHOLE, KIND])?;
            return self.put_head(u, id, whole);
        }
        whole.put(&[TRIMMED, KIND])?;
        self.put_head(u, id, whole)?;
        start.put(whole)
    }

    /// The record. It shares the text of the decrees but for the tail, which is copied.
    pub fn record(&self, alloc: Global, u: u8, id: u8) -> Result<Text, AllocError>
        ensures { IfOk result (λ text. text ≡ record_text u id self.now) }
    {
        let mut whole = Text::new(alloc);
        self.put_fields(u, id, &mut whole)?;
        put_count(self.log.as_slice().len(), &mut whole)?;
        self.log.append_text(&mut whole)?;
        Ok(whole)
    }

    /// Its view.
    pub fn view(&self) -> u64
        ensures { result ≡ self.now.view }
    {
        self.view
    }

    /// How many decrees it knows, those that it has forgotten too.
    pub fn known(&self) -> u64
        ensures known { result ≡ known self.now }
        ensures few { known self.now + 1 < 2 ^ 64 }
    {
        self.log.known()
    }

    /// The place up to which it has forgotten decrees.
    pub fn start(&self) -> u64
        ensures { result ≡ self.now.start.place }
    {
        self.log.start().place
    }

    /// How many decrees it has.
    pub(crate) fn count(&self) -> usize
        ensures count { result ≡ length self.now.log }
        ensures few { length self.now.log < 2 ^ 32 }
    {
        self.log.as_slice().len()
    }

    /// The place after the decrees that it knows.
    pub(crate) fn next_place(&self) -> u64
        ensures { result ≡ next_place self.now }
    {
        self.log.known() + 1
    }

    /// The view is this one from now on.
    pub(crate) fn enter(&mut self, view: u64)
        ensures { self.new ≡ in_view self.old view }
    {
        self.leads = self.leads && view == self.view;
        self.view = view;
    }

    /// What was heard of the place after what it knew is forgotten.
    fn forget_heard(&mut self)
        ensures { self.new ≡ record self.old { accepted = None; proposed = false; tally = []; votes = open_votes (stands self.old) self.old.votes } }
    {
        self.accepted = None;
        self.proposed = false;
        self.tally.clear();
        self.votes.drop_old(&self.log.standing());
    }

    /// One decree more is known, and what was heard of its place is forgotten. Stopped: the place after
    /// it would have no number.
    pub(crate) fn learn(&mut self, decree: Decree) -> Result<(), Fault>
        requires { IsTrue (may_follow (stands self.old) decree) }
        ensures ok { OnOk result (self.new ≡ learn self.old decree) }
        ensures err { IfErr result (λ fault. (fault ≡ Fault.NoMemory) ⊎ ((fault ≡ Fault.Stopped) × (2 ^ 64 ≤ next_place (learn self.old decree)))) }
    {
        self.log.learn(decree)?;
        self.forget_heard();
        Ok(())
    }

    /// The log begins here from now on, and what was heard of an earlier place is forgotten.
    pub(crate) fn go_to(&mut self, start: Start)
        requires begins { IsTrue (could_stand start.place start.standing) }
        requires placed { start.place + 1 < 2 ^ 64 }
        ensures { self.new ≡ gone_to self.old start }
    {
        self.log.begin_at(start);
        self.forget_heard();
    }
}

/// Promises of all, that know nothing and have accepted nothing.
fn first_promises_of(alloc: Global, u: u8) -> Result<Promises, AllocError>
    requires { u < 4 }
    ensures { IfOk result (λ promises. promises ≡ first_promises (member_count u)) }
{
    let mut promises = Promises::new(alloc);
    for from in 0..2 * u + 1 {
        promises.add(Promise {
            from,
            known: 0,
            accepted: None,
        })?;
    }
    Ok(promises)
}
