//! What is written to a connection.

ghost use Rattle.std.specs.Prelude.{ℕ, List, ◌≤◌, length, take, MatchResult};
ghost use Rattle.std.specs.Io.{WritesAtMost};
ghost use Rattle.std.specs.Io.KnownBytes.{Appends, Keeps, WriteAppends};
ghost use Rattle.streams.specs.Writes.{Taken, taken_by, IsWrittenOut};

use std::io;
use std::io::{ErrorKind, Write};

/// A writer whose writes a contract can count. Each writer is one.
pub trait WriteOnce: Write {
    /// What it is after a write of this text, of which it took so much.
    ghost takes: { Self → List ℕ → Taken → Self → Type 0 };

    /// One write, as that of `Write`.
    fn write_once(&mut self, text: &[u8]) -> io::Result<usize>
        ensures bound { WritesAtMost result text.now }
        ensures bytes { WriteAppends (Self.contents self.old) (Self.contents self.new) result text.now }
        ensures step { takes self.old text.now (taken_by result) self.new };
}

impl<W: Write> WriteOnce for W {
    ghost takes = { λ s text took t. MatchResult took
        (λ n. Appends (W.contents s) (W.contents t) (take n text))
        (λ _. Keeps (W.contents s) (W.contents t)) };

    fn write_once(&mut self, text: &[u8]) -> io::Result<usize> {
        self.write(text)
    }
}

/// Writes all of the text. A write that is interrupted is made again; if another one fails, or takes
/// nothing, none is made after it, and the error is how many bytes went out.
pub fn write_session<W: WriteOnce>(output: &mut W, text: &[u8]) -> Result<(), usize>
    ensures bytes { MatchResult result
        (λ _. Appends (W.contents output.old) (W.contents output.new) text.now)
        (λ sent. (sent ≤ length text.now) × Appends (W.contents output.old) (W.contents output.new) (take sent text.now)) }
    ensures writes { IsWrittenOut W.takes output.old output.new text.now result }
{
    let mut sent = 0;
    for _ in 0..u64::MAX {
        if sent == text.len() {
            return Ok(());
        }
        let (_, rest) = text.split_at(sent);
        match output.write_once(rest) {
            Ok(0) => return Err(sent),
            Ok(n) => sent += n,
            Err(e) => {
                if e.kind() != ErrorKind::Interrupted {
                    return Err(sent);
                }
            }
        }
    }
    Err(sent)
}
