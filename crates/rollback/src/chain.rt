ghost use Rattle.std.specs.Prelude.{◌≡◌, ◌↔◌, ◌⊎◌, ◌<◌, ◌≤◌, [], length, IsTrue, IsOk, IfOk, IfErr, OnOk, OnErr, option_map};
ghost use Rattle.rollback.specs.Chain.{ChainView, chain_tip, is_over, pushed, commits_state, commits_first, first_replies, without_first, given_by, after_decree, undone};

use decrees::Decree;
use executor::{Answered, Base, Committed, Tentative};
use proto::Fault;
use states::State;
use std::alloc::{AllocError, Global};
use std::marker::Model;

/// How many members a chain has at most.
pub const MOST_MEMBERS: usize = 4;

/// A committed state, and at most `MOST_MEMBERS` tentative ones, each over the one before it. It
/// cannot be dropped: `end` undoes its members.
pub struct Chain {
    committed: Committed,
    members: Vec<Tentative>,
}

impl Model for Chain {
    ghost use Rattle.std.specs.Prelude.{◌≡◌, ◌≤◌, [], vec_capacity};
    ghost use Rattle.states.specs.contracts.state.State as state;
    ghost use Rattle.executor.specs.contracts.tentative.Tentative as tentative;
    ghost use Rattle.rollback.specs.declared.chain.TheConstants.{MOST_MEMBERS};
    ghost use Rattle.rollback.specs.Chain.{ChainView, IsChain, chain_code};

    ghost Value = { ChainView };

    ghost coded = { chain_code state.the_row.coded tentative.the_row.coded };

    ghost view = { λ c. record { have = c.committed.state; members = c.members.items } };

    ghost invariant = { λ c. (c.committed.replies ≡ []) × (MOST_MEMBERS ≤ vec_capacity c.members)
        × IsChain (record { have = c.committed.state; members = c.members.items }) };
}

/// Commits the tentative state by its own decree.
#[tactic(auto, using(crate::proofs::ChainLemmas::commit_is))]
fn commit(tentative: Tentative, decree: &Decree) -> Committed
    requires { IsTrue (commits_state decree.now tentative.after) }
    ensures { result ≡ record { state = tentative.after; replies = tentative.replies } }
{
    match tentative.commit(decree) {
        Ok(committed) => committed,
        Err(back) => {
            back.undo();
            // The decree is its own.
            unreachable!()
        }
    }
}

impl Chain {
    ghost use Rattle.rollback.specs.declared.chain.TheConstants.{MOST_MEMBERS};

    /// A chain without members, over the committed state, and the replies that came with that. Room for
    /// the members is made at once, so no later call but `saved` takes memory.
    pub fn new(alloc: Global, committed: Committed) -> Result<(Chain, Vec<Answered>), AllocError>
        ensures chain { IfOk result (λ made. made.0 ≡ record { have = committed.state; members = [] }) }
        ensures replies { IfOk result (λ made. made.1.items ≡ committed.replies) }
    {
        let members = Vec::with_capacity(alloc, MOST_MEMBERS)?;
        let (committed, replies) = committed.take_replies();
        Ok((Chain { committed, members }, replies))
    }

    /// The committed state.
    pub fn committed(&self) -> &State
        ensures { result.now ≡ self.now.have }
    {
        self.committed.state()
    }

    /// How many members it has.
    pub fn len(&self) -> usize
        ensures len { result ≡ length self.now.members }
        ensures few { result ≤ MOST_MEMBERS }
    {
        self.members.len()
    }

    /// Whether it has no member.
    pub fn is_empty(&self) -> bool
        ensures { IsTrue result ↔ (self.now.members ≡ []) }
    {
        self.members.is_empty()
    }

    /// The members, in order.
    pub fn members(&self) -> &[Tentative]
        ensures { result.now ≡ self.now.members }
    {
        self.members.as_slice()
    }

    /// The state after the members, as a base for the batch after it.
    pub fn tip(&self) -> &Base
        ensures { result.now.state ≡ chain_tip self.now }
    {
        match self.members.last() {
            Some(last) => last.as_base(),
            None => self.committed.as_base(),
        }
    }

    /// Whether the tentative state is over the state after the members, as number and token tell.
    pub fn takes(&self, tentative: &Tentative) -> bool
        ensures { result ≡ is_over (chain_tip self.now) tentative.now }
    {
        let tip = self.tip();
        let before = tentative.before();
        before.number() == tip.number() && before.token() == tip.token()
    }

    /// Adds the tentative state, which is over the state after the members, as the last one.
    pub(crate) fn add(&mut self, tentative: Tentative)
        requires room { length self.old.members < MOST_MEMBERS }
        requires over { IsTrue (is_over (chain_tip self.old) tentative) }
        ensures { self.new ≡ pushed self.old tentative }
    {
        self.members.push_reserved(tentative);
    }

    /// Adds the tentative state as the last member. `Full`: there are `MOST_MEMBERS`. `Unfit`: it is
    /// not over the state after the members. Then nothing changes, and it comes back.
    pub fn push(&mut self, tentative: Tentative) -> Result<(), (Fault, Tentative)>
        ensures ok { OnOk result (self.new ≡ pushed self.old tentative) }
        ensures done { IsOk result ↔ ((length self.old.members < MOST_MEMBERS) × IsTrue (is_over (chain_tip self.old) tentative)) }
        ensures full { IfErr result (λ refused. (refused.0 ≡ Fault.Full) ↔ (length self.old.members ≡ MOST_MEMBERS)) }
        ensures only { IfErr result (λ refused. (refused.0 ≡ Fault.Full) ⊎ (refused.0 ≡ Fault.Unfit)) }
        ensures back { IfErr result (λ refused. refused.1 ≡ tentative) }
        ensures err { OnErr result (self.new ≡ self.old) }
    {
        if self.members.len() == MOST_MEMBERS {
            return Err((Fault::Full, tentative));
        }
        if !self.takes(&tentative) {
            return Err((Fault::Unfit, tentative));
        }
        self.add(tentative);
        Ok(())
    }

    /// Whether the decree commits the first member.
    pub fn commits_first(&self, decree: &Decree) -> bool
        ensures { result ≡ commits_first decree.now self.now.members }
    {
        match (self.members.first(), decree) {
            (Some(first), Decree::Commit { n, token }) => {
                first.number() == *n && first.token() == *token
            }
            _ => false,
        }
    }

    /// Commits the first member by the decree of its number and token, and gives its replies.
    pub(crate) fn commit_member(&mut self, decree: &Decree) -> Vec<Answered>
        requires { IsTrue (commits_first decree.now self.old.members) }
        ensures replies { result.items ≡ first_replies self.old.members }
        ensures chain { self.new ≡ without_first self.old.have self.old.members }
    {
        let first = self.members.remove(0);
        let (committed, replies) = commit(first, decree).take_replies();
        self.committed = committed;
        replies
    }

    /// Commits the first member by the decree of its number and token, and gives its replies. By any
    /// other decree nothing changes.
    pub fn commit_first(&mut self, decree: &Decree) -> Option<Vec<Answered>>
        ensures given { option_map (λ replies. replies.items) result ≡ given_by decree.now self.old }
        ensures chain { self.new ≡ after_decree decree.now self.old }
    {
        if !self.commits_first(decree) {
            return None;
        }
        Some(self.commit_member(decree))
    }

    /// Undoes all members.
    pub fn undo_all(&mut self)
        ensures { self.new ≡ undone self.old }
    {
        while let Some(last) = self.members.pop() {
            last.undo();
        }
    }

    /// Undoes all members, and gives the committed state. No reply comes with it.
    pub fn end(self) -> Committed
        ensures { result ≡ record { state = self.have; replies = [] } }
    {
        let Chain {
            committed,
            mut members,
        } = self;
        while let Some(last) = members.pop() {
            last.undo();
        }
        members.destroy_empty();
        committed
    }
}
