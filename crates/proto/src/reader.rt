//! A client's stream, piece by piece.

ghost use Rattle.std.specs.Prelude.{◌≡◌, ◌≤◌, ◌+◌, ◌++◌, [], true, false, IfOk, OnOk, OnErr};
ghost use Rattle.proto.specs.Reader.{ReadsTurns, Reading};
ghost use Rattle.proto.specs.declared.block.TheConstants.{MOST_BLOCK_BYTES};
ghost use Rattle.proto.specs.declared.line.TheConstants.{MOST_LINE_BYTES};
ghost use Rattle.proto.specs.Stage.{IsStage, staged, reading};

use crate::stage::Stage;
use crate::turn::Turn;
use std::alloc::{AllocError, Global};
use std::marker::Model;

/// Reads a client's stream. It keeps what came of the next turn: at most `MOST_BLOCK_BYTES`,
/// `MOST_LINE_BYTES` and two more. The bytes of a block above the limit are only counted.
pub struct Reader {
    stage: Stage,
    closed: bool,
}

impl Drop for Reader {
    fn drop(self) {
        let Reader {
            stage: _,
            closed: _,
        } = self;
    }
}

impl Model for Reader {
    ghost use Rattle.proto.specs.Reader.{Reading};

    ghost Value = { Reading };

    ghost use Rattle.proto.specs.Stage.{reading};
    ghost use Rattle.proto.specs.Inside.{IsReader};

    ghost view = { λ a. reading a.stage a.closed };

    ghost invariant = { IsReader };
}

/// Reads all of the piece, or up to a Close: the turns, and whether the last one closes.
fn read_piece(
    alloc: Global,
    stage: &mut Stage,
    piece: &[u8],
) -> Result<(Vec<Turn>, bool), AllocError>
    requires { IsStage stage.old }
    ensures reads { IfOk result (λ r. ReadsTurns (staged stage.old ++ piece.now) r.0.items (reading stage.new r.1)) }
    ensures stage { OnOk result (IsStage stage.new) }
{
    let mut turns = Vec::new(alloc);
    let mut unread = piece;
    while !unread.is_empty() {
        let (turn, n) = stage.step(alloc, unread)?;
        let (_, after) = unread.split_at(n);
        unread = after;
        if let Some(turn) = turn {
            let last = turn.is_close();
            turns.push(turn)?;
            if last {
                return Ok((turns, true));
            }
        }
    }
    Ok((turns, false))
}

impl Reader {
    /// Of a stream of which nothing came yet.
    pub fn new(alloc: Global) -> Reader
        ensures kept { result.kept ≡ [] }
        ensures open { result.closed ≡ false }
        ensures none_held { result.held ≡ 0 }
    {
        Reader {
            stage: Stage::new(alloc),
            closed: false,
        }
    }

    /// The turns that the next piece of the stream ends, in order. After a Close there are none,
    /// whatever comes. The only error is a failed allocation, and it changes nothing.
    ///
    /// A piece in which no turn ends is added in place, and what was kept is copied only if one
    /// does, so the cost is linear in the bytes, however they are cut.
    pub fn feed(&mut self, alloc: Global, piece: &[u8]) -> Result<Vec<Turn>, AllocError>
        ensures turns { IfOk result (λ turns. self.old.closed ≡ false → ReadsTurns (self.old.kept ++ piece.now) turns.items self.new) }
        ensures closed { IfOk result (λ turns. self.old.closed ≡ true → (turns.items ≡ []) × (self.new ≡ self.old)) }
        ensures held { self.new.held ≤ MOST_BLOCK_BYTES + (MOST_LINE_BYTES + 2) }
        ensures err { OnErr result (self.new ≡ self.old) }
    {
        if self.closed {
            return Ok(Vec::new(alloc));
        }
        if self.stage.goes_on(piece) {
            self.stage.extend(piece)?;
            return Ok(Vec::new(alloc));
        }
        let mut stage = self.stage.copy(alloc)?;
        let (turns, closed) = read_piece(alloc, &mut stage, piece)?;
        self.stage = stage;
        self.closed = closed;
        Ok(turns)
    }
}
