ghost use Rattle.std.specs.Prelude.{◌≡◌, ◌<◌, ◌^◌, ◌-◌, ◌+◌, ◌==◌, ◌&&◌, nat_le};
ghost use Rattle.decrees.specs.Standing.{first_standing, standing_after as after, may_follow as next};
ghost use Rattle.decrees.specs.Start.{could_stand as could, has_no_token, began_first};

use crate::decree::Decree;
use token::Token;

/// What the decrees so far stand for: the number and token of the last Commit, the epoch, and the
/// number of the epoch's first batch.
#[derive(Clone, Copy, Debug, PartialEq, Eq)]
pub struct Standing {
    pub n: u64,
    pub token: Token,
    pub epoch: u64,
    pub start: u64,
}

impl Standing {
    /// What stands before any decree.
    pub fn first() -> Standing
        ensures { result ≡ first_standing }
    {
        Standing {
            n: 0,
            token: Token([0; 32]),
            epoch: 1,
            start: 1,
        }
    }

    /// Whether the decree may come next: a Commit has to be of the number after the standing one.
    pub fn may_follow(&self, decree: &Decree) -> bool
        ensures { result ≡ next self.now decree.now }
    {
        match decree {
            Decree::Commit { n, .. } => 0 < *n && *n - 1 == self.n,
            Decree::Rollback => true,
        }
    }

    /// What stands after one decree more.
    pub fn after(&self, decree: &Decree) -> Standing
        requires numbered { self.now.n < 2 ^ 64 - 1 }
        requires epochs { self.now.epoch < 2 ^ 64 - 1 }
        ensures { result ≡ after self.now decree.now }
    {
        match decree {
            Decree::Commit { n, token } => Standing {
                n: *n,
                token: *token,
                epoch: self.epoch,
                start: self.start,
            },
            Decree::Rollback => Standing {
                n: self.n,
                token: self.token,
                epoch: self.epoch + 1,
                start: self.n + 1,
            },
        }
    }

    /// Whether its numbers count as many decrees: each is a Commit or a Rollback.
    fn counts(&self, place: u64) -> bool
        ensures { result ≡ (((self.now.n + self.now.epoch) == (place + 1)) && nat_le 1 self.now.epoch) }
    {
        1 <= self.epoch && self.n <= place && self.epoch - 1 == place - self.n
    }

    /// Whether the epoch begins with a number from 1 to the next one.
    fn begins_at_a_number(&self) -> bool
        ensures { result ≡ (nat_le 1 self.now.start && nat_le self.now.start (self.now.n + 1)) }
    {
        1 <= self.start && self.start - 1 <= self.n
    }

    /// Number 0 has the token of zero bytes.
    fn has_its_token(&self) -> bool
        ensures { result ≡ has_no_token self.now }
    {
        self.n != 0 || self.token == Token([0; 32])
    }

    /// Epoch 1 begins with number 1.
    fn began_first(&self) -> bool
        ensures { result ≡ began_first self.now }
    {
        self.epoch != 1 || self.start == 1
    }

    /// Whether this could stand after so many decrees.
    pub fn could_stand(&self, place: u64) -> bool
        ensures { result ≡ could place self.now }
    {
        self.counts(place)
            && self.begins_at_a_number()
            && self.has_its_token()
            && self.began_first()
    }
}
