//! The bytes that one read gives.

ghost use Rattle.std.specs.Prelude.{◌≡◌, IfOk};
ghost use Rattle.event_loop.specs.Input.{IsPieceRead};

use std::alloc::{AllocError, Global};
use std::io::{ErrorKind, Read};

/// What one read gives.
#[derive(Drop)]
pub enum Piece {
    /// These bytes, at least one. `has_more` if there was no room for more.
    Bytes { bytes: Vec<u8>, has_more: bool },
    /// Nothing for now.
    Nothing,
    /// Nothing, and the same read may be made again.
    Interrupted,
    /// The end, a failure, or bytes that are lost since memory for them ran out.
    End,
}

/// A vector of the same bytes.
fn copied(alloc: Global, piece: &[u8]) -> Result<Vec<u8>, AllocError>
    ensures { IfOk result (λ bytes. bytes.items ≡ piece.now) }
{
    let mut bytes = Vec::with_capacity(alloc, piece.len())?;
    bytes.extend_from_slice(piece)?;
    Ok(bytes)
}

/// Reads once, as much as the buffer holds.
pub fn read_once<I: Read>(input: &mut I, alloc: Global, buffer: &mut [u8]) -> Piece
    ensures { IsPieceRead (I.remaining input.old) (I.remaining input.new) result }
{
    match input.read(buffer) {
        Ok(0) => Piece::End,
        Ok(count) => {
            let has_more = count == buffer.len();
            let (piece, _) = buffer.split_at(count);
            match copied(alloc, piece) {
                Ok(bytes) => Piece::Bytes { bytes, has_more },
                Err(_) => Piece::End,
            }
        }
        Err(e) => match e.kind() {
            ErrorKind::WouldBlock => Piece::Nothing,
            ErrorKind::Interrupted => Piece::Interrupted,
            _ => Piece::End,
        },
    }
}
