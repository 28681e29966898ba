ghost use Rattle.std.specs.Prelude.{◌≡◌, ◌<◌, ◌^◌, ◌-◌, [], IsTrue, IsOk, OnOk, OnErr, is_some};
ghost use Rattle.decrees.specs.Votes.{votes_with, vote_of, open_votes, heard as heard_from, verdict as verdict_by};

use crate::heard::{Heard, MOST_EXECUTORS};
use crate::standing::Standing;
use indexmap::IndexMap;
use std::alloc::{AllocError, Global};
use std::marker::Model;
use token::Token;

/// What names a vote: at most one is kept for each executor, number and epoch over each token (its bytes).
#[derive(Clone, Copy, PartialEq, Eq, Hash)]
pub struct VoteKey {
    pub epoch: u64,
    pub n: u64,
    pub executor: u8,
    pub previous: [u8; 32],
}

/// What the votes say of the next number.
#[derive(Clone, Copy, Debug, PartialEq, Eq)]
pub enum Verdict {
    /// More votes are needed.
    Wait,
    /// More than `u` executors have this token.
    Commit(Token),
    /// No token can come to more than `u` executors any more.
    Hopeless,
}

/// Votes in the order of their arrival, at most one of a name: the first one stays.
pub struct Votes {
    votes: IndexMap<VoteKey, Token>,
}

impl Drop for Votes {
    fn drop(self) {
        let Votes { votes: _ } = self;
    }
}

impl Model for Votes {
    ghost use Rattle.std.specs.Prelude.{List};
    ghost use Rattle.decrees.specs.Votes.{Vote};

    ghost Value = { List Vote };

    ghost view = { λ a. a.votes.entries };
}

impl Votes {
    /// No votes.
    pub fn new(alloc: Global) -> Votes
        ensures { result ≡ [] }
    {
        Votes {
            votes: IndexMap::new(alloc),
        }
    }

    /// Keeps the vote if there is none of its name yet.
    pub fn add(&mut self, key: VoteKey, token: Token) -> Result<(), AllocError>
        ensures ok { OnOk result (self.new ≡ votes_with self.old key token) }
        ensures there { IsTrue (is_some (vote_of self.old key)) → IsOk result }
        ensures err { OnErr result (self.new ≡ self.old) }
    {
        if self.votes.contains_key(&key) {
            return Ok(());
        }
        self.votes.insert(key, token)?;
        Ok(())
    }

    /// Drops the votes of lower epochs than the standing one, and those for numbers at or below the
    /// standing one.
    pub fn drop_old(&mut self, standing: &Standing)
        ensures { self.new ≡ open_votes standing.now self.old }
    {
        self.votes
            .retain(|key, _| standing.epoch <= key.epoch && standing.n < key.n);
    }

    /// The executor's token for the number after the standing one.
    fn token_of(&self, standing: &Standing, executor: u8) -> Option<Token>
        requires { standing.now.n < 2 ^ 64 - 1 }
        ensures { result ≡ heard_from standing.now self.now executor }
    {
        let key = VoteKey {
            epoch: standing.epoch,
            n: standing.n + 1,
            executor,
            previous: standing.token.0,
        };
        self.votes.get(&key).copied()
    }

    /// Reads the vote of each executor for the number after the standing one.
    fn heard<'v>(&'v self, standing: &'v Standing) -> Heard<'v>
        requires { standing.now.n < 2 ^ 64 - 1 }
        ensures votes { result.votes.now ≡ self.now }
        ensures standing { result.standing.now ≡ standing.now }
    {
        let mut tokens = [None; MOST_EXECUTORS];
        for executor in 0..MOST_EXECUTORS {
            tokens[executor] = self.token_of(standing, executor as u8);
        }
        Heard {
            votes: self,
            standing,
            tokens,
        }
    }

    /// What the votes say of the number after the standing one: of the executors 0 to `2u`, those
    /// count that were heard of it, in the standing epoch and over the standing token. A vote over
    /// another token counts as not heard.
    pub fn verdict(&self, u: u8, standing: &Standing) -> Verdict
        requires few { u < 4 }
        requires numbered { standing.now.n < 2 ^ 64 - 1 }
        ensures { result ≡ verdict_by u standing.now self.now }
    {
        let heard = self.heard(standing);
        if let Some(token) = heard.backed(u) {
            return Verdict::Commit(token);
        }
        if heard.greatest(u) + heard.silent(u) <= usize::from(u) {
            Verdict::Hopeless
        } else {
            Verdict::Wait
        }
    }
}
