//! The votes for the next number, counted.

ghost use Rattle.std.specs.Prelude.{◌≡◌, ◌<◌, ◌≤◌, ℕ, Option, slice_index_or};
ghost use Rattle.token.specs.declared.Token.{Token};
ghost use Rattle.decrees.specs.Votes.{heard as heard_from, has_token as has, support as support_for, support_of as support_as, silent as silent_of, greatest_below, backed as backed_by};
ghost use Rattle.decrees.specs.Count.{member_count};

use crate::standing::Standing;
use crate::votes::Votes;
use token::Token;

/// At most so many executors there are: `2u + 1`, if at most 3 may fail.
pub const MOST_EXECUTORS: usize = 7;

/// The vote of each executor for the number after the standing one, read once.
#[derive(Drop)]
pub struct Heard<'v> {
    pub votes: &'v Votes,
    pub standing: &'v Standing,
    pub tokens: [Option<Token>; MOST_EXECUTORS],
    ghost read: { (e : ℕ) (d : Option Token) → e < 7 → slice_index_or tokens e d ≡ heard_from standing.now votes.now e },
}

impl<'v> Heard<'v> {
    fn has_token(&self, token: &Token, executor: u8) -> bool
        requires { executor < 7 }
        ensures { result ≡ has self.now.standing.now self.now.votes.now token.now executor }
    {
        match self.tokens[usize::from(executor)] {
            Some(other) => other == *token,
            None => false,
        }
    }

    fn support(&self, u: u8, token: &Token) -> usize
        requires few { u < 4 }
        ensures value { result ≡ support_for u self.now.standing.now self.now.votes.now token.now }
        ensures bound { result ≤ 7 }
    {
        let mut count = 0;
        for executor in 0..2 * u + 1 {
            if self.has_token(token, executor) {
                count += 1;
            }
        }
        count
    }

    fn support_of(&self, u: u8, executor: u8) -> usize
        requires few { u < 4 }
        requires member { executor < 7 }
        ensures value { result ≡ support_as u self.now.standing.now self.now.votes.now executor }
        ensures bound { result ≤ 7 }
    {
        match self.tokens[usize::from(executor)] {
            Some(token) => self.support(u, &token),
            None => 0,
        }
    }

    /// How many executors were not heard.
    pub fn silent(&self, u: u8) -> usize
        requires few { u < 4 }
        ensures value { result ≡ silent_of u self.now.standing.now self.now.votes.now }
        ensures bound { result ≤ 7 }
    {
        let mut count = 0;
        for executor in 0..2 * u + 1 {
            let token = self.tokens[usize::from(executor)];
            if token.is_none() {
                count += 1;
            }
        }
        count
    }

    /// The greatest number of executors that have one token.
    pub fn greatest(&self, u: u8) -> usize
        requires few { u < 4 }
        ensures value { result ≡ greatest_below u self.now.standing.now self.now.votes.now (member_count u) }
        ensures bound { result ≤ 7 }
    {
        let mut greatest = 0;
        for executor in 0..2 * u + 1 {
            greatest = greatest.max(self.support_of(u, executor));
        }
        greatest
    }

    /// The token that more than `u` executors have, if there is one.
    pub fn backed(&self, u: u8) -> Option<Token>
        requires few { u < 4 }
        ensures { result ≡ backed_by u self.now.standing.now self.now.votes.now }
    {
        let mut backed = None;
        for executor in 0..2 * u + 1 {
            if backed.is_none() && usize::from(u) < self.support_of(u, executor) {
                backed = self.tokens[usize::from(executor)];
            }
        }
        backed
    }
}
