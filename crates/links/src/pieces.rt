//! Bytes are sealed in pieces.

ghost use Rattle.std.specs.Prelude.{◌≡◌, ◌+◌, ◌^◌, Err, OnOk};
ghost use Rattle.links.specs.Pieces.{AreSealedInPieces};

use seals::{MOST_PIECE_BYTES, SealFault, Sealer};
use std::alloc::Global;

/// Seals the bytes of a message in pieces, each but the last one at the limit. The bytes to send go behind those that are
/// `sealed` already. After an error the connection is to be closed: a part of the message may be sealed.
///
/// Stopped: no number is left for a piece; NoMemory.
pub fn seal_in_pieces(
    alloc: Global,
    sealer: &mut Sealer,
    bytes: &[u8],
    sealed: &mut Vec<u8>,
) -> Result<(), SealFault>
    ensures ok { OnOk result (AreSealedInPieces sealer.old bytes.now sealed.old.items sealed.new.items sealer.new) }
    ensures stopped { result ≡ Err SealFault.Stopped → sealer.new.number + 1 ≡ 2 ^ 64 }
    ensures short { result ≡ Err SealFault.TooLong → ⊥ }
{
    let mut left = bytes;
    while !left.is_empty() {
        let (piece, behind) = left.split_at(left.len().min(MOST_PIECE_BYTES));
        let frame = sealer.seal(alloc, piece)?;
        sealed.extend_from_slice(frame.as_slice())?;
        left = behind;
    }
    Ok(())
}
