//! A client's stream, piece by piece.

ghost use Rattle.std.specs.Prelude.{◌≡◌, ◌≤◌, ◌+◌, ◌++◌, [], List, ℕ, length, IfOk, OnOk, OnErr};
ghost use Rattle.dialect.specs.State.{Runs, IsReaderState, start, read_bytes};
ghost use Rattle.dialect.specs.Grammar.{HasRead};
ghost use Rattle.dialect.specs.Stage.{stage_state};
ghost use Rattle.dialect.specs.declared.turn.Turn.{Turn as TurnValue};
ghost use Rattle.proto.specs.declared.block.TheConstants.{MOST_BLOCK_BYTES};

use crate::stage::Stage;
use crate::turn::Turn;
use std::alloc::{AllocError, Global};
use std::marker::Model;

/// Reads a client's stream. It holds what came of the next line, or of its block and the two bytes
/// after it: at most `MOST_BLOCK_BYTES` and two more. The bytes of a block that is not stored are only
/// counted.
pub struct Reader {
    stage: Stage,
}

impl Drop for Reader {
    fn drop(self) {
        let Reader { stage: _ } = self;
    }
}

impl Model for Reader {
    ghost use Rattle.dialect.specs.State.{State, IsReaderState};
    ghost use Rattle.dialect.specs.Stage.{stage_state};

    ghost Value = { State };

    ghost view = { λ a. stage_state a.stage };

    ghost invariant = { λ a. IsReaderState (stage_state a.stage) };
}

/// Reads all of the piece, and adds the turns that end in it.
fn read_piece(alloc: Global, stage: &mut Stage, piece: &[u8]) -> Result<Vec<Turn>, AllocError>
    requires { IsReaderState (stage_state stage.old) }
    ensures runs { IfOk result (λ turns. Runs (stage_state stage.old) piece.now [] turns.items (stage_state stage.new)) }
    ensures state { OnOk result (IsReaderState (stage_state stage.new)) }
{
    let mut turns = Vec::new(alloc);
    let mut unread = piece;
    while !unread.is_empty() {
        let n = stage.step(alloc, unread, &mut turns)?;
        let (_, after) = unread.split_at(n);
        unread = after;
    }
    Ok(turns)
}

impl Reader {
    /// Of a stream of which nothing came yet.
    pub fn new(alloc: Global) -> Reader
        ensures start { result ≡ start }
        ensures spells { HasRead [] [] result }
    {
        Reader {
            stage: Stage::new(alloc),
        }
    }

    /// The turns that the next piece of the stream ends, in order: those that all bytes so far spell are
    /// those that were given before, and then these, however the bytes were cut. After a Close there are
    /// none, whatever comes. The only error is a failed allocation, and it changes nothing.
    ///
    /// A piece in which nothing ends is added in place, and what was held is copied only if something
    /// does, so the cost is linear in the bytes, however they are cut.
    pub fn feed(&mut self, alloc: Global, piece: &[u8]) -> Result<Vec<Turn>, AllocError>
        ensures runs { IfOk result (λ turns. Runs self.old piece.now [] turns.items self.new) }
        ensures spells { IfOk result (λ turns. (fed : List ℕ) (before : List TurnValue) → HasRead fed before self.old
            → HasRead (fed ++ piece.now) (before ++ turns.items) self.new) }
        ensures held { length self.new.held ≤ MOST_BLOCK_BYTES + 2 }
        ensures err { OnErr result (self.new ≡ self.old) }
    {
        if self.stage.goes_on(piece) {
            self.stage.extend(piece)?;
            return Ok(Vec::new(alloc));
        }
        let mut stage = self.stage.copy(alloc)?;
        let turns = read_piece(alloc, &mut stage, piece)?;
        self.stage = stage;
        Ok(turns)
    }
}
