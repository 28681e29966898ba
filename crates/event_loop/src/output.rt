//! The bytes that wait to be written to one connection.

ghost use Rattle.std.specs.Prelude.{ℕ, List, ◌≡◌, ◌≤◌, ◌==◌, ◌++◌, [], drop, take, length, IfOk, OnOk, OnErr, MatchResult};
ghost use Rattle.std.specs.Io.KnownBytes.{Appends, Keeps};

use std::alloc::{AllocError, Global};
use std::io::Write;
use std::marker::Model;
use std::{io, mem};

/// The most bytes of one write.
const MOST_WRITE_BYTES: usize = 65536;

/// Bytes in their order, the first of which are written. Contracts see those that wait.
#[derive(Drop)]
pub struct Output {
    bytes: Vec<u8>,
    written: usize,
}

impl Model for Output {
    ghost use Rattle.std.specs.Prelude.{ℕ, List, ◌≤◌, drop, length};

    ghost Value = { List ℕ };

    ghost view = { λ output. drop output.written output.bytes.items };

    ghost invariant = { λ output. output.written ≤ length output.bytes.items };
}

impl Output {
    /// Nothing waits.
    pub fn new(alloc: Global) -> Output
        ensures { result ≡ [] }
    {
        Output {
            bytes: Vec::new(alloc),
            written: 0,
        }
    }

    /// How many bytes wait.
    pub fn len(&self) -> usize
        ensures { result ≡ length self.now }
    {
        self.bytes.len() - self.written
    }

    /// These wait too, after the others. If memory runs out nothing changes.
    pub fn push(&mut self, bytes: Vec<u8>) -> Result<(), AllocError>
        ensures ok { OnOk result (self.new ≡ self.old ++ bytes.items) }
        ensures err { OnErr result (self.new ≡ self.old) }
    {
        if self.written == self.bytes.len() {
            self.written = 0;
            self.bytes = bytes;
            return Ok(());
        }
        self.bytes.extend_from_slice(bytes.as_slice())
    }

    /// One write of the first bytes that wait, at most 65,536 of them. Those that were taken wait no longer.
    pub fn write<W: Write>(&mut self, to: &mut W) -> io::Result<usize>
        ensures count { IfOk result (λ n. n ≤ length self.old) }
        ensures ok { IfOk result (λ n. self.new ≡ drop n self.old) }
        ensures err { OnErr result (self.new ≡ self.old) }
        ensures bytes { MatchResult result (λ n. Appends (W.contents to.old) (W.contents to.new) (take n self.old)) (λ _. Keeps (W.contents to.old) (W.contents to.new)) }
    {
        let (_, rest) = self.bytes.split_at(self.written);
        let (piece, _) = rest.split_at(rest.len().min(MOST_WRITE_BYTES));
        let count = to.write(piece)?;
        self.written += count;
        Ok(count)
    }

    /// Gives back the memory of bytes that are written, if none waits.
    pub fn tidy(&mut self)
        ensures { self.new ≡ self.old }
    {
        if self.written == self.bytes.len() {
            let alloc = *self.bytes.allocator();
            self.written = 0;
            drop(mem::replace(&mut self.bytes, Vec::new(alloc)));
        }
    }
}
