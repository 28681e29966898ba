//! Leading: which view is its own, and what it proposes there.

ghost use Rattle.std.specs.Prelude.{◌≡◌, ◌+◌, ◌^◌, ◌<◌, ◌≤◌, ◌⊎◌, IfOk, IfErr, IfSome, IfNone};
ghost use Rattle.decrees.specs.Votes.{verdict};
ghost use Rattle.verifier.specs.State.{stands, is_led_by, next_led};
ghost use Rattle.verifier.specs.Lines.{by_verdict, proposal, try_to_propose, suspected};

use crate::letters::to_verifiers;
use crate::outcome::Outcome;
use crate::state::State;
use decrees::{Ballot, Decree, Letter, Verdict};
use proto::Fault;
use std::alloc::{AllocError, Global};
use view_change::{Choice, Promises};

impl State {
    ghost use Rattle.verifier.specs.State.{verifier_left};
    /// What it may propose for the next place.
    fn proposal(&self, u: u8) -> Option<Decree>
        requires { u < 4 }
        ensures { result ≡ proposal u self.now }
    {
        if !self.leads || self.proposed {
            return None;
        }
        match self.promises.choice(u, self.log.known()) {
            Choice::Wait => None,
            Choice::Must(decree) => Some(decree),
            Choice::Free => self.by_verdict(u),
        }
    }

    /// What the verdict leaves to a leader that is free to propose.
    fn by_verdict(&self, u: u8) -> Option<Decree>
        requires { u < 4 }
        ensures { result ≡ by_verdict ((stands self.now).n + 1) self.now.doubt (verdict u (stands self.now) self.now.votes) }
    {
        let standing = self.log.standing();
        match self.votes.verdict(u, &standing) {
            Verdict::Commit(token) => Some(Decree::Commit {
                n: standing.n + 1,
                token,
            }),
            Verdict::Hopeless => Some(Decree::Rollback),
            Verdict::Wait => self.doubt.then_some(Decree::Rollback),
        }
    }

    /// Proposes for the next place, if it may, after these letters.
    pub(crate) fn try_to_propose(
        &mut self,
        alloc: Global,
        u: u8,
        id: u8,
        saves: bool,
        first: Vec<Letter<Ballot>>,
    ) -> Result<Outcome, AllocError>
        requires { u < 4 }
        ensures { IfOk result (λ outcome. verifier_left self.new outcome ≡ try_to_propose u id self.old saves first.items) }
    {
        let mut letters = first;
        if let Some(decree) = self.proposal(u) {
            let view = self.view;
            let place = self.next_place();
            let body = Ballot::Accept {
                view,
                place,
                decree,
            };
            let proposals = to_verifiers(alloc, u, id, body)?;
            letters.extend_from_slice(&proposals)?;
            self.proposed = true;
            self.doubt = false;
        }
        Ok(Outcome { saves, letters })
    }

    /// The view becomes one of its own.
    pub fn suspected(&mut self, alloc: Global, u: u8, id: u8) -> Result<Outcome, Fault>
        requires { u < 4 }
        ensures done { IfOk result (λ outcome. verifier_left self.new outcome ≡ suspected u id self.old) }
        ensures err { IfErr result (λ fault. (fault ≡ Fault.NoMemory) ⊎ ((fault ≡ Fault.Stopped) × (2 ^ 64 ≤ next_led u id self.old.view))) }
    {
        let Some(view) = next_view(u, id, self.view) else {
            return Err(Fault::Stopped);
        };
        let letters = to_verifiers(alloc, u, id, Ballot::Change { view })?;
        self.view = view;
        self.leads = is_led(u, id, view);
        self.proposed = false;
        self.doubt = true;
        self.promises = Promises::new(alloc);
        Ok(Outcome {
            saves: true,
            letters,
        })
    }
}

/// Whether the verifier leads the view.
fn is_led(u: u8, id: u8, view: u64) -> bool
    requires { u < 4 }
    ensures { result ≡ is_led_by u id view }
{
    view % (2 * u64::from(u) + 1) == u64::from(id)
}

/// The least view above this one that the verifier leads; none if it is above the greatest number.
fn next_view(u: u8, id: u8, view: u64) -> Option<u64>
    requires { u < 4 }
    ensures some { IfSome result (λ next. next ≡ next_led u id view) }
    ensures none { IfNone result (2 ^ 64 ≤ next_led u id view) }
{
    let mut next = view.checked_add(1)?;
    for _ in 0..2 * u {
        if is_led(u, id, next) {
            return Some(next);
        }
        next = next.checked_add(1)?;
    }
    Some(next)
}
