//! How long a text is.

ghost use Rattle.std.specs.Prelude.{◌≡◌, ◌-◌, ◌^◌, length, min};

use crate::sink::Sink;
use base::Piece;
use std::convert::Infallible;
use std::marker::Model;

/// A sink that counts the bytes, up to `usize::MAX`, and keeps none of them.
pub struct Counter {
    count: usize,
}

impl Drop for Counter {
    fn drop(self) {
        let Counter { count: _ } = self;
    }
}

impl Model for Counter {
    ghost use Rattle.std.specs.Prelude.{ℕ};

    ghost Value = { ℕ };

    ghost view = { λ counter. counter.count };
}

impl Counter {
    /// Nothing is counted yet.
    pub fn new() -> Counter
        ensures { result ≡ 0 }
    {
        Counter { count: 0 }
    }

    /// How many bytes were put into it.
    pub fn count(&self) -> usize
        ensures { result ≡ self.now }
    {
        self.count
    }
}

impl Sink for Counter {
    type Refusal = Infallible;

    ghost holds = { λ counter bytes. counter ≡ min (length bytes) (2 ^ 64 - 1) };

    fn put(&mut self, bytes: &[u8]) -> Result<(), Infallible> {
        self.count = self.count.saturating_add(bytes.len());
        Ok(())
    }

    fn share(&mut self, piece: &Piece) -> Result<(), Infallible> {
        self.count = self.count.saturating_add(piece.as_slice().len());
        Ok(())
    }
}
