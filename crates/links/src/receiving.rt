//! The letters of a lane that come from one peer.

ghost use Rattle.std.specs.Prelude.{◌≡◌, ◌<◌, ◌+◌, ◌↔◌, true, false, Err, IfOk, OnErr, IfErr, MatchOption};
ghost use Rattle.links.specs.Receiving.{Receives, on_accepted_connection, from_new_life};

use crate::fault::LinkFault;
use crate::message::Message;

/// What came on a lane from one peer, over all connections. It holds no letter.
pub struct Receiving {
    /// The highest life of the peer that was seen.
    life: u64,
    /// The number of the last letter of that life that was given. 0: none was.
    last: u64,
    /// Whether an acknowledgement is due.
    is_due: bool,
}

impl Drop for Receiving {
    fn drop(self) {
        let Receiving {
            life: _,
            last: _,
            is_due: _,
        } = self;
    }
}

impl Receiving {
    /// Nothing came to this process yet. `life` is the highest life of the peer that was seen by it or by processes before
    /// it, and 0 if none was.
    pub fn new(life: u64) -> Receiving
        ensures { result ≡ record { life = life; last = 0; is_due = false } }
    {
        Receiving {
            life,
            last: 0,
            is_due: false,
        }
    }

    /// The highest life of the peer that was seen. It is to be saved before anything is done that depends on it.
    pub fn life(&self) -> u64
        ensures { result ≡ self.now.life }
    {
        self.life
    }

    /// The peer has made a connection, in this life of its. The letters of a higher life begin at number 1. An
    /// acknowledgement is due, so that the peer does not send again what came.
    ///
    /// OldLife: a higher life of the peer was seen. Nothing has changed, and the connection is to be closed.
    pub fn connect(&mut self, life: u64) -> Result<(), LinkFault>
        ensures again { life ≡ self.old.life → self.new ≡ on_accepted_connection self.old }
        ensures anew { self.old.life < life → self.new ≡ from_new_life life self.old }
        ensures old_life { (result ≡ Err LinkFault.OldLife) ↔ (life < self.old.life) }
        ensures only { IfErr result (λ fault. fault ≡ LinkFault.OldLife) }
        ensures err { OnErr result (self.new ≡ self.old) }
    {
        if life < self.life {
            return Err(LinkFault::OldLife);
        }
        if self.life < life {
            self.life = life;
            self.last = 0;
        }
        self.is_due = true;
        Ok(())
    }

    /// A letter has come, on a connection of the highest life. It is given back if it is the next one, and let go if it came
    /// before. After either an acknowledgement is due.
    ///
    /// Missing: letters between the last one that was given and this one did not come. Nothing has changed, and the
    /// connection is to be closed.
    pub fn receive(&mut self, letter: Message) -> Result<Option<Message>, LinkFault>
        ensures ok { IfOk result (λ given. Receives self.old letter given self.new) }
        ensures missing { (result ≡ Err LinkFault.Missing) ↔ (self.old.last + 1 < letter.0) }
        ensures only { IfErr result (λ fault. fault ≡ LinkFault.Missing) }
        ensures err { OnErr result (self.new ≡ self.old) }
    {
        let number = letter.number();
        if number <= self.last {
            self.is_due = true;
            return Ok(None);
        }
        if number - self.last != 1 {
            return Err(LinkFault::Missing);
        }
        self.last = number;
        self.is_due = true;
        Ok(Some(letter))
    }

    /// The acknowledgement that is due, if one is: all letters up to this number came. It is due no longer.
    pub fn acknowledgement(&mut self) -> Option<u64>
        ensures said { MatchOption result (self.old.is_due ≡ false) (λ number. (self.old.is_due ≡ true) × (number ≡ self.old.last)) }
        ensures done { self.new ≡ record self.old { is_due = false } }
    {
        if !self.is_due {
            return None;
        }
        self.is_due = false;
        Some(self.last)
    }
}
