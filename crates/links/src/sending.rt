//! The letters of a lane to one peer.

ghost use Rattle.std.specs.Prelude.{◌≡◌, ◌≤◌, ◌<◌, ◌+◌, ◌-◌, ◌^◌, ◌↔◌, length, min, Err, IsTrue, IfOk, OnOk, OnErr, IfErr};
ghost use Rattle.links.specs.Sending.{IsSending, HasRoomFor, HandsOutNext, last_number, with_letter, with_acknowledged, on_new_connection, for_new_life, new_sending};

use crate::bounds::LaneBounds;
use crate::fault::LinkFault;
use crate::held_letters::HeldLetters;
use base::Text;
use std::alloc::{AllocError, Global};
use std::marker::Model;

/// The letters of one lane to one peer, in this life of the process. They are numbered from 1 for each life of the peer, and
/// held until the peer acknowledges them.
pub struct Sending {
    bounds: LaneBounds,
    /// The life of the peer that the numbers are for.
    peer_life: u64,
    /// The number of the last letter that was acknowledged. 0: none was.
    acknowledged: u64,
    /// The number of the last letter that was handed out on this connection, or acknowledged.
    said: u64,
    /// The highest number under which a letter was handed out on any connection, or `acknowledged`.
    reached: u64,
    held: HeldLetters,
    /// How many letters were refused.
    lost: u64,
}

impl Drop for Sending {
    fn drop(self) {
        let Sending {
            bounds: _,
            peer_life: _,
            acknowledged: _,
            said: _,
            reached: _,
            held: _,
            lost: _,
        } = self;
    }
}

impl Model for Sending {
    ghost use Rattle.links.specs.Sending.{SendingView, IsSending};

    ghost Value = { SendingView };

    ghost view = { λ s. record { bounds = s.bounds; peer_life = s.peer_life; acknowledged = s.acknowledged; said = s.said; reached = s.reached; held = s.held; lost = s.lost } };

    ghost invariant = { λ s. IsSending (record { bounds = s.bounds; peer_life = s.peer_life; acknowledged = s.acknowledged; said = s.said; reached = s.reached; held = s.held; lost = s.lost }) };
}

impl Sending {
    /// No letter was pushed, and no life of the peer was seen.
    pub fn new(alloc: Global, bounds: LaneBounds) -> Sending
        ensures { result ≡ new_sending bounds }
    {
        Sending {
            bounds,
            peer_life: 0,
            acknowledged: 0,
            said: 0,
            reached: 0,
            held: HeldLetters::new(alloc),
            lost: 0,
        }
    }

    /// What always holds of it: it holds no more than its bounds say, and each letter that it holds has a number. The call
    /// does nothing.
    pub fn shows(&self)
        ensures { IsSending self.now }
    {
        let _ = &self.lost;
    }

    /// How many letters are held, since they are not acknowledged.
    pub fn len(&self) -> usize
        ensures { result ≡ length self.now.held }
    {
        self.held.len()
    }

    /// How many letters were refused. It stays at 2^64 - 1.
    pub fn lost(&self) -> u64
        ensures { result ≡ self.now.lost }
    {
        self.lost
    }

    /// The number of the last letter that is held, or was acknowledged.
    fn last_number(&self) -> u64
        ensures { result ≡ last_number self.now }
    {
        self.acknowledged + self.held.len() as u64
    }

    /// Whether one more letter of so many bytes may be held.
    fn has_room(&self, size: usize) -> bool
        ensures yes { IsTrue result → HasRoomFor self.now size }
        ensures no { HasRoomFor self.now size → IsTrue result }
    {
        self.held.len() < self.bounds.most_letters
            && size <= self.bounds.most_bytes - self.held.bytes()
    }

    /// Holds one more letter. An error changes nothing.
    fn hold(&mut self, letter: Text) -> Result<(), LinkFault>
        ensures ok { OnOk result (self.new ≡ with_letter letter self.old) }
        ensures too_long { (result ≡ Err LinkFault.TooLong) ↔ (self.old.bounds.most_letter_bytes < length letter) }
        ensures full { result ≡ Err LinkFault.Full → ¬ (HasRoomFor self.old (length letter)) }
        ensures room { OnOk result (HasRoomFor self.old (length letter)) }
        ensures stopped { result ≡ Err LinkFault.Stopped → 2 ^ 64 ≤ last_number self.old + 1 }
        ensures err { OnErr result (self.new ≡ self.old) }
    {
        let size = letter.len();
        if self.bounds.most_letter_bytes < size {
            return Err(LinkFault::TooLong);
        }
        if !self.has_room(size) {
            return Err(LinkFault::Full);
        }
        if self.last_number() == u64::MAX {
            return Err(LinkFault::Stopped);
        }
        self.held.push(letter)?;
        Ok(())
    }

    /// Takes one more letter, behind the others. It is held until it is acknowledged. If it is refused it is lost, and
    /// counted as lost; nothing else changes.
    ///
    /// TooLong: it has more bytes than a letter of the lane may have; Full: the lane holds as many letters, or as many bytes,
    /// as it may; Stopped: no number is left; NoMemory.
    pub fn push(&mut self, letter: Text) -> Result<(), LinkFault>
        ensures ok { OnOk result (self.new ≡ with_letter letter self.old) }
        ensures too_long { (result ≡ Err LinkFault.TooLong) ↔ (self.old.bounds.most_letter_bytes < length letter) }
        ensures full { result ≡ Err LinkFault.Full → ¬ (HasRoomFor self.old (length letter)) }
        ensures room { OnOk result (HasRoomFor self.old (length letter)) }
        ensures stopped { result ≡ Err LinkFault.Stopped → 2 ^ 64 ≤ last_number self.old + 1 }
        ensures lost { OnErr result (self.new ≡ record self.old { lost = min (self.old.lost + 1) (2 ^ 64 - 1) }) }
    {
        match self.hold(letter) {
            Ok(()) => Ok(()),
            Err(fault) => {
                self.lost = self.lost.saturating_add(1);
                Err(fault)
            }
        }
    }

    /// The next letter that was not handed out on this connection, with its number. `None`: all that are held were handed
    /// out. The letter stays held. The only error is a failed allocation, which changes nothing.
    pub fn hand_out(&mut self) -> Result<Option<(u64, Text)>, AllocError>
        ensures next { IfOk result (λ found. HandsOutNext self.old found self.new) }
        ensures err { OnErr result (self.new ≡ self.old) }
    {
        let at = self.said - self.acknowledged;
        let Some(letter) = self.held.get(at as usize) else {
            return Ok(None);
        };
        let letter = letter.clone()?;
        let number = self.said + 1;
        self.said = number;
        self.reached = self.reached.max(number);
        Ok(Some((number, letter)))
    }

    /// The peer has acknowledged all letters up to this number: they are let go. They are handed out no more, even if they
    /// were not handed out on this connection yet. One that was acknowledged before changes nothing.
    ///
    /// NotSent: no letter of this number was handed out, on any connection, in this life of the peer. Nothing has changed,
    /// and the connection is to be closed.
    pub fn acknowledge(&mut self, number: u64) -> Result<(), LinkFault>
        ensures ok { OnOk result (self.new ≡ with_acknowledged number self.old) }
        ensures not_sent { (result ≡ Err LinkFault.NotSent) ↔ (self.old.reached < number) }
        ensures only { IfErr result (λ fault. fault ≡ LinkFault.NotSent) }
        ensures err { OnErr result (self.new ≡ self.old) }
    {
        if self.reached < number {
            return Err(LinkFault::NotSent);
        }
        let count = number.saturating_sub(self.acknowledged);
        self.held.let_go(count as usize);
        self.acknowledged = self.acknowledged.max(number);
        self.said = self.said.max(number);
        Ok(())
    }

    /// The peer's process is a new one, which knows nothing of what was sent: the letters that are held are numbered from 1.
    fn begin_anew(&mut self, peer_life: u64)
        ensures { self.new ≡ for_new_life peer_life self.old }
    {
        self.peer_life = peer_life;
        self.acknowledged = 0;
        self.said = 0;
        self.reached = 0;
    }

    /// A connection to the peer was made, in this life of the peer. All letters that are held are handed out again on it, in
    /// order. If the life is a new one they are numbered from 1: what the peer's process before has acknowledged is not sent
    /// again.
    ///
    /// OldLife: a higher life of the peer was seen. Nothing has changed, and the connection is to be closed.
    pub fn connect(&mut self, peer_life: u64) -> Result<(), LinkFault>
        ensures again { peer_life ≡ self.old.peer_life → self.new ≡ on_new_connection self.old }
        ensures anew { self.old.peer_life < peer_life → self.new ≡ for_new_life peer_life self.old }
        ensures old_life { (result ≡ Err LinkFault.OldLife) ↔ (peer_life < self.old.peer_life) }
        ensures only { IfErr result (λ fault. fault ≡ LinkFault.OldLife) }
        ensures err { OnErr result (self.new ≡ self.old) }
    {
        if peer_life < self.peer_life {
            return Err(LinkFault::OldLife);
        }
        if self.peer_life < peer_life {
            self.begin_anew(peer_life);
            return Ok(());
        }
        self.said = self.acknowledged;
        Ok(())
    }
}
