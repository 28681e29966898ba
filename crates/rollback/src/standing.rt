//! A chain over the state that stands.

ghost use Rattle.std.specs.Prelude.{◌≡◌, ◌<◌, ◌++◌, length, is_some, IsTrue, OnOk, Some};
ghost use Rattle.std.specs.List.{list_any};
ghost use Rattle.rollback.specs.Chain.{without_first, first_replies, is_standing as stands, chain_from, replies_on_commit};

use crate::chain::Chain;
use decrees::{Decree, Standing};
use executor::{Answered, Tentative};
use states::State;
use std::alloc::AllocError;

/// Whether it has the number and the token that stand.
fn is_standing(standing: &Standing, state: &State) -> bool
    ensures { result ≡ stands standing.now state.now }
{
    state.number() == standing.n && state.token() == standing.token
}

/// Whether what it leads to has the number and the token that stand.
fn leads_there(standing: &Standing, member: &Tentative) -> bool
    ensures { result ≡ stands standing.now member.now.after }
{
    member.number() == standing.n && member.token() == standing.token
}

impl Chain {
    /// Whether a member leads to the state that stands.
    fn has_member(&self, standing: &Standing) -> bool
        ensures { result ≡ list_any (λ t. stands standing.now t.after) self.now.members }
    {
        self.members()
            .iter()
            .any(|member| leads_there(standing, member))
    }

    /// Whether it has the state that stands, as the committed one or as that of a member.
    pub fn has(&self, standing: &Standing) -> bool
        ensures { result ≡ is_some (chain_from standing.now self.now.have self.now.members) }
    {
        is_standing(standing, self.committed()) || self.has_member(standing)
    }

    /// Commits the first member, and gives its replies after the others. NoMemory: they are not given.
    fn commit_next(&mut self, replies: &mut Vec<Answered>) -> Result<(), AllocError>
        requires { 0 < length self.old.members }
        ensures chain { self.new ≡ without_first self.old.have self.old.members }
        ensures replies { OnOk result (replies.new.items ≡ replies.old.items ++ first_replies self.old.members) }
    {
        let first = &self.members()[0];
        let decree = Decree::Commit {
            n: first.number(),
            token: first.token(),
        };
        let mut given = self.commit_member(&decree);
        replies.append(&mut given)
    }

    /// Commits the members up to the one that stands, and gives their replies, member after member,
    /// after the others. NoMemory: a part of the replies is lost, though their members are committed.
    pub fn commit_to(
        &mut self,
        standing: &Standing,
        replies: &mut Vec<Answered>,
    ) -> Result<(), AllocError>
        requires { IsTrue (is_some (chain_from standing.now self.old.have self.old.members)) }
        ensures chain { OnOk result (chain_from standing.now self.old.have self.old.members ≡ Some self.new) }
        ensures replies { OnOk result (replies.new.items ≡ replies.old.items ++ replies_on_commit standing.now self.old.have self.old.members) }
    {
        while !is_standing(standing, self.committed()) {
            self.commit_next(replies)?;
        }
        Ok(())
    }
}
