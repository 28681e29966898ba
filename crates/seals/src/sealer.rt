//! Pieces that are sent.

ghost use Rattle.std.specs.Prelude.{◌≡◌, ◌+◌, ◌^◌, ◌<◌, ◌↔◌, length, Err, IfOk, OnOk, OnErr};
ghost use Rattle.seals.specs.Frame.{frame};

use crate::fault::SealFault;
use crate::frame::{MOST_PIECE_BYTES, frame_of};
use std::alloc::Global;

/// Seals what one end sends, under a key that it has for nothing else.
pub struct Sealer {
    key: [u8; 32],
    /// The number of the next piece.
    number: u64,
}

impl Drop for Sealer {
    fn drop(self) {
        let Sealer { key: _, number: _ } = self;
    }
}

impl Sealer {
    /// Nothing was sent yet: the first piece has number 0.
    pub fn new(key: [u8; 32]) -> Sealer
        ensures { result ≡ record { key = key; number = 0 } }
    {
        Sealer { key, number: 0 }
    }

    /// The bytes to send of the next piece. An error changes nothing.
    ///
    /// TooLong: it has more than 65,536 bytes; Stopped: no number is left after its own; NoMemory.
    pub fn seal(&mut self, alloc: Global, piece: &[u8]) -> Result<Vec<u8>, SealFault>
        ensures ok { IfOk result (λ bytes. bytes.items ≡ frame self.old.key self.old.number piece.now) }
        ensures next { OnOk result (self.new ≡ record self.old { number = self.old.number + 1 }) }
        ensures too_long { (result ≡ Err SealFault.TooLong) ↔ (MOST_PIECE_BYTES < length piece.now) }
        ensures stopped { result ≡ Err SealFault.Stopped → self.old.number + 1 ≡ 2 ^ 64 }
        ensures never { result ≡ Err SealFault.WrongTag → ⊥ }
        ensures err { OnErr result (self.new ≡ self.old) }
    {
        if piece.len() > MOST_PIECE_BYTES {
            return Err(SealFault::TooLong);
        }
        let next = self.number.checked_add(1).ok_or(SealFault::Stopped)?;
        let bytes = frame_of(alloc, &self.key, self.number, piece)?;
        self.number = next;
        Ok(bytes)
    }
}
