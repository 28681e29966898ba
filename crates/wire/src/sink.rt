ghost use Rattle.std.specs.Prelude.{◌≡◌, ◌++◌, List, ℕ, OnOk};
ghost use Rattle.base.specs.Pieces.{piece_bytes};
ghost use Rattle.sha2.specs.Hashers.{Holds256};
ghost use Rattle.wire.specs.Record.{Puts};

use base::{Piece, Text};
use sha2::{Digest, Sha256};
use std::alloc::AllocError;
use std::convert::Infallible;

/// A place that bytes go to: a hasher, a vector, or a text in pieces.
pub trait Sink {
    /// The bytes that went there so far.
    ghost holds: { Self → List ℕ → Type 0 };

    /// Why bytes cannot go there.
    type Refusal: Drop;

    /// Appends a copy of the bytes.
    fn put(&mut self, bytes: &[u8]) -> Result<(), Self::Refusal>
        ensures { OnOk result (Puts holds bytes.now self.old self.new) };

    /// Appends the bytes of the piece. A text has the piece itself from then on, and copies nothing.
    fn share(&mut self, piece: &Piece) -> Result<(), Self::Refusal>
        ensures { OnOk result (Puts holds (piece_bytes piece.now) self.old self.new) };
}

impl Sink for Sha256 {
    type Refusal = Infallible;

    ghost holds = { Holds256 };

    fn put(&mut self, bytes: &[u8]) -> Result<(), Infallible> {
        self.update(bytes);
        Ok(())
    }

    fn share(&mut self, piece: &Piece) -> Result<(), Infallible> {
        self.update(piece.as_slice());
        Ok(())
    }
}

impl Sink for Vec<u8> {
    type Refusal = AllocError;

    ghost holds = { λ v bytes. v.items ≡ bytes };

    fn put(&mut self, bytes: &[u8]) -> Result<(), AllocError> {
        self.extend_from_slice(bytes)
    }

    fn share(&mut self, piece: &Piece) -> Result<(), AllocError> {
        self.extend_from_slice(piece.as_slice())
    }
}

impl Sink for Text {
    type Refusal = AllocError;

    ghost holds = { λ text bytes. text ≡ bytes };

    fn put(&mut self, bytes: &[u8]) -> Result<(), AllocError> {
        Text::put(self, bytes)
    }

    fn share(&mut self, piece: &Piece) -> Result<(), AllocError> {
        Text::share(self, piece)
    }
}
