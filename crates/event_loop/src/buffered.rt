//! A stream, and the bytes that wait to be written to it.

ghost use Rattle.std.specs.Prelude.{◌≡◌, ◌≤◌, ◌++◌, ◌∷◌, [], length, take, IfOk, OnOk, OnErr};
ghost use Rattle.event_loop.specs.Input.{IsPieceRead, bytes_of_piece};
ghost use Rattle.event_loop.specs.Traffic.{IsWritten};

use crate::input::{Piece, read_once};
use crate::output::Output;
use ghost_log::GhostLog;
use std::alloc::{AllocError, Global};
use std::io;
use std::io::{Read, Write};
use std::marker::Model;

/// A stream, and the bytes that wait to be written to it. Contracts see all that went through it since it was new.
#[derive(Drop)]
pub struct Buffered<S: Read + Write> {
    stream: S,
    output: Output,
    /// What each read gave, what came of each write, and what is written or waits. Only contracts read these: a log
    /// has no bytes.
    reads: GhostLog<(), Piece>,
    writes: GhostLog<(), io::Result<usize>>,
    said: GhostLog<(), Vec<u8>>,
}

impl<S: Read + Write> Model for Buffered<S> {
    ghost use Rattle.event_loop.specs.Traffic.{Traffic, IsTraffic, bytes_in_log, pieces_in_log, bytes_read_in, results_in_log};

    ghost Value = { Traffic };

    ghost view = { λ b. record { remaining = S.remaining b.stream; contents = S.contents b.stream; reads = pieces_in_log b.reads.items; got = bytes_read_in b.reads.items; writes = results_in_log b.writes.items; said = bytes_in_log b.said.items; waits = b.output } };

    ghost invariant = { λ b. IsTraffic (record { remaining = S.remaining b.stream; contents = S.contents b.stream; reads = pieces_in_log b.reads.items; got = bytes_read_in b.reads.items; writes = results_in_log b.writes.items; said = bytes_in_log b.said.items; waits = b.output }) };
}

impl<S: Read + Write> Buffered<S> {
    /// A stream through which nothing went.
    pub fn new(alloc: Global, stream: S) -> Buffered<S>
        ensures { result ≡ record { remaining = S.remaining stream; contents = S.contents stream; reads = []; got = []; writes = []; said = []; waits = [] } }
    {
        Buffered {
            stream,
            output: Output::new(alloc),
            reads: GhostLog::new(),
            writes: GhostLog::new(),
            said: GhostLog::new(),
        }
    }

    /// How many bytes wait to be written.
    pub fn len(&self) -> usize
        ensures { result ≡ length self.now.waits }
    {
        self.output.len()
    }

    /// These are to be written too, after the others. If memory runs out nothing changes.
    pub fn push(&mut self, bytes: Vec<u8>) -> Result<(), AllocError>
        ensures ok { OnOk result (self.new ≡ record self.old { said = self.old.said ++ bytes.items; waits = self.old.waits ++ bytes.items }) }
        ensures err { OnErr result (self.new ≡ self.old) }
    {
        let said = self.said.and(&(), &bytes);
        self.output.push(bytes)?;
        self.said = said;
        Ok(())
    }

    /// One write of the first bytes that wait, at most 65,536 of them. Those that were taken wait no longer.
    pub fn write(&mut self) -> io::Result<usize>
        ensures count { IfOk result (λ n. n ≤ length self.old.waits) }
        ensures ok { IfOk result (λ n. IsWritten self.old (take n self.old.waits) self.new) }
        ensures err { OnErr result (IsWritten self.old [] self.new) }
        ensures log { self.new.writes ≡ self.old.writes ++ result ∷ [] }
    {
        let result = self.output.write(&mut self.stream);
        self.writes = self.writes.and(&(), &result);
        result
    }

    /// Reads once, as much as the buffer holds.
    pub fn read(&mut self, alloc: Global, buffer: &mut [u8]) -> Piece
        ensures piece { IsPieceRead self.old.remaining self.new.remaining result }
        ensures log { self.new.reads ≡ self.old.reads ++ result ∷ [] }
        ensures got { self.new.got ≡ self.old.got ++ bytes_of_piece result }
        ensures writes { self.new.writes ≡ self.old.writes }
        ensures said { self.new.said ≡ self.old.said }
        ensures waits { self.new.waits ≡ self.old.waits }
    {
        let piece = read_once(&mut self.stream, alloc, buffer);
        self.reads = self.reads.and(&(), &piece);
        piece
    }

    /// Gives back the memory of bytes that are written, if none waits.
    pub fn tidy(&mut self)
        ensures { self.new ≡ self.old }
    {
        self.output.tidy();
    }
}
