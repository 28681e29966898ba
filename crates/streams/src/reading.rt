//! What is read of a connection.

ghost use Rattle.std.specs.Prelude.{ℕ, List, Bool, MatchResult};
ghost use Rattle.std.specs.Io.{ReadsAtMost};
ghost use Rattle.std.specs.Io.KnownBytes.{Consumes, Keeps, ReadConsumes};
ghost use Rattle.streams.specs.Session.{Read, read_of, IsSession};

use std::io;
use std::io::{ErrorKind, Read};

/// The most bytes of one piece.
pub const MOST_PIECE_BYTES: usize = 16384;

/// A reader whose reads a contract can count. Each reader is one.
pub trait ReadOnce: Read {
    /// What it is after a read that gave this.
    ghost gives: { Self → Read → Self → Type 0 };

    /// One read, as that of `Read`.
    fn read_once(&mut self, buffer: &mut [u8]) -> io::Result<usize>
        ensures bound { ReadsAtMost result buffer.new }
        ensures bytes { ReadConsumes (Self.remaining self.old) (Self.remaining self.new) result buffer.new }
        ensures step { gives self.old (read_of result buffer.new) self.new };
}

impl<R: Read> ReadOnce for R {
    ghost gives = { λ s read t. MatchResult read
        (λ bytes. Consumes (R.remaining s) (R.remaining t) bytes)
        (λ _. Keeps (R.remaining s) (R.remaining t)) };

    fn read_once(&mut self, buffer: &mut [u8]) -> io::Result<usize> {
        self.read(buffer)
    }
}

/// What takes what is read. Its contracts are its own: they say what a piece, and what a hangup, does to it.
pub trait Listener {
    /// What it is after a piece, and whether it wants more.
    ghost hears: { Self → List ℕ → Bool → Self → Type 0 };

    /// What it is after a hangup.
    ghost leaves: { Self → Self → Type 0 };

    /// Takes the next piece, of at least one byte: whether it wants more.
    fn hear(&mut self, piece: &[u8]) -> bool
        ensures { hears self.old piece.now result self.new };

    /// Nothing more comes.
    fn hang_up(&mut self)
        ensures { leaves self.old self.new };
}

/// Why nothing more was read.
#[derive(Clone, Copy, Debug, PartialEq, Eq)]
pub enum Ending {
    /// The reader was at its end.
    AtEnd,
    /// A read failed.
    Failed,
    /// The listener wanted no more.
    Enough,
}

/// Hands on what is read, in pieces of 1 to 16,384 bytes, and then one hangup, at the end or at the first
/// read that fails. If the listener wants no more, nothing more is handed on. A read that is interrupted is
/// made again. No read is made after the one that ended it.
pub fn read_session<R: ReadOnce, L: Listener>(input: &mut R, listener: &mut L) -> Ending
    ensures { IsSession R.gives R.remaining L.hears L.leaves input.old input.new listener.old listener.new result }
{
    let mut buffer = [0u8; MOST_PIECE_BYTES];
    for _ in 0..u64::MAX {
        match input.read_once(&mut buffer) {
            Ok(0) => {
                listener.hang_up();
                return Ending::AtEnd;
            }
            Ok(n) => {
                let (piece, _) = buffer.split_at(n);
                if !listener.hear(piece) {
                    return Ending::Enough;
                }
            }
            Err(e) => {
                if e.kind() != ErrorKind::Interrupted {
                    listener.hang_up();
                    return Ending::Failed;
                }
            }
        }
    }
    listener.hang_up();
    Ending::Failed
}
