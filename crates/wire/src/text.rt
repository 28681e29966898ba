ghost use Rattle.std.specs.Prelude.{OnOk};
ghost use Rattle.base.specs.Pieces.{bytes_of};
ghost use Rattle.wire.specs.Record.{Puts};

use crate::sink::Sink;
use base::{Piece, Text};

fn share_pieces<S: Sink>(pieces: &[Piece], sink: &mut S) -> Result<(), S::Refusal>
    ensures { OnOk result (Puts S.holds (bytes_of pieces.now) sink.old sink.new) }
{
    for piece in pieces {
        sink.share(piece)?;
    }
    Ok(())
}

/// Writes the bytes of the text: each of its pieces is shared, and the open tail is copied.
pub fn share_text<S: Sink>(text: &Text, sink: &mut S) -> Result<(), S::Refusal>
    ensures { OnOk result (Puts S.holds text.now sink.old sink.new) }
{
    let (pieces, tail) = text.parts();
    share_pieces(pieces, sink)?;
    sink.put(tail)
}
