//! Laws of pieces that come. The calls do nothing: what each says is its contract.

ghost use Rattle.seals.specs.Laws.{TakenIsTold, TakenIsSent, SentIsTaken, PieceIsTold, HandshakeIsTold};

/// What an opener takes. The bytes that came decide it, however they were cut. If no tag is forged, it is a beginning of
/// what was sent, which is what was sealed under the key. If just the bytes of what was sent came, it is all of that.
///
/// No code calls it: it is for readers.
pub fn what_is_taken_was_sent()
    ensures told { TakenIsTold }
    ensures sent { TakenIsSent }
    ensures all { SentIsTaken }
{}

/// No two texts that a tag is of are alike: not those of different pieces or numbers, and not those of different words
/// or hellos.
///
/// No code calls it: it is for readers.
pub fn texts_tell_what_is_tagged()
    ensures piece { PieceIsTold }
    ensures handshake { HandshakeIsTold }
{}
