//! A piece as it is sent: its frame.

ghost use Rattle.std.specs.Prelude.{◌≡◌, ◌≤◌, ◌++◌, length, IfOk};
ghost use Rattle.std.specs.Int.{w64, to_be_bytes};
ghost use Rattle.mac.specs.Hmac.{hmac_sha256};
ghost use Rattle.seals.specs.Frame.{frame, tag_behind};

use base::Listed;
use mac::Mac;
use std::alloc::{AllocError, Global};

/// The most bytes that a piece has.
pub const MOST_PIECE_BYTES: usize = 65_536;

/// The bytes of a piece's length.
pub const LENGTH_BYTES: usize = 4;

/// The bytes of a tag.
pub const TAG_BYTES: usize = 16;

/// A piece that came with its tag.
pub type TakenPiece = Listed<u8, 0, MOST_PIECE_BYTES>;

/// The HMAC of a number and of what is sent before the tag.
fn mac_of(key: &[u8], number: u64, counted: &[u8]) -> [u8; 32]
    ensures { result ≡ hmac_sha256 key.now (to_be_bytes w64 number ++ counted.now) }
{
    let mut mac = Mac::new(key);
    mac.update(&number.to_be_bytes());
    mac.update(counted);
    mac.finalize()
}

/// The tag behind a piece with its length, under its number.
pub fn tag_of(key: &[u8], number: u64, counted: &[u8]) -> [u8; TAG_BYTES]
    ensures { result ≡ tag_behind key.now number counted.now }
{
    let mac = mac_of(key, number, counted);
    let (front, _) = mac.split_at(TAG_BYTES);
    let mut tag = [0; TAG_BYTES];
    tag.copy_from_slice(front);
    tag
}

/// The bytes that are sent of a piece.
pub fn frame_of(alloc: Global, key: &[u8], number: u64, piece: &[u8]) -> Result<Vec<u8>, AllocError>
    requires { length piece.now ≤ MOST_PIECE_BYTES }
    ensures { IfOk result (λ bytes. bytes.items ≡ frame key.now number piece.now) }
{
    let size = piece.len() as u32;
    let mut bytes = Vec::with_capacity(alloc, LENGTH_BYTES + piece.len() + TAG_BYTES)?;
    bytes.extend_from_slice(&size.to_be_bytes())?;
    bytes.extend_from_slice(piece)?;
    let tag = tag_of(key, number, bytes.as_slice());
    bytes.extend_from_slice(&tag)?;
    Ok(bytes)
}
