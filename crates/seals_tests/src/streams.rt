//! What is taken of bytes that come.

use crate::rows::{FRAMES, KEY, PIECES};
use seals::{MOST_PIECE_BYTES, Opener, SealFault, Sealer, TAG_BYTES, TakenPiece};
use std::alloc::{AllocError, Global};
use std::test::Fail;

/// What came of bytes: the pieces that were taken, and why no more were.
#[derive(Drop)]
struct Came {
    pieces: Vec<TakenPiece>,
    end: Option<SealFault>,
}

/// These bytes come, in parts of so many. What is behind an error comes, too.
fn come(alloc: Global, key: [u8; 32], bytes: &[u8], part: usize) -> Came {
    let mut opener = Opener::new(alloc, key);
    let mut pieces = Vec::new(alloc);
    for some in bytes.chunks(part.max(1)) {
        let _ = opener.feed(alloc, some, &mut pieces);
    }
    Came {
        pieces,
        end: opener.end(),
    }
}

/// Whether just these pieces were taken.
fn are_taken(came: &Came, pieces: &[&[u8]]) -> bool {
    for (taken, piece) in came.pieces.iter().zip(pieces) {
        if taken.as_slice() != *piece {
            return false;
        }
    }
    came.pieces.len() == pieces.len()
}

/// Frames that come in this order, how many of the pieces are taken, and why no more are.
struct Row {
    name: &'static str,
    order: &'static [usize],
    taken: usize,
    end: Option<SealFault>,
}

const ROWS: [Row; 6] = [
    Row {
        name: "all",
        order: &[0, 1, 2],
        taken: 3,
        end: None,
    },
    Row {
        name: "the last one is late",
        order: &[0, 1],
        taken: 2,
        end: None,
    },
    Row {
        name: "one comes twice",
        order: &[0, 0, 1, 2],
        taken: 1,
        end: Some(SealFault::WrongTag),
    },
    Row {
        name: "two are swapped",
        order: &[1, 0, 2],
        taken: 0,
        end: Some(SealFault::WrongTag),
    },
    Row {
        name: "one is left out",
        order: &[0, 2],
        taken: 1,
        end: Some(SealFault::WrongTag),
    },
    Row {
        name: "the right ones come behind a wrong one",
        order: &[2, 0, 1, 2],
        taken: 0,
        end: Some(SealFault::WrongTag),
    },
];

/// The bytes of the frames in this order.
fn bytes_of(alloc: Global, order: &[usize]) -> Result<Vec<u8>, AllocError> {
    let mut bytes = Vec::new(alloc);
    for at in order {
        if let Some(frame) = FRAMES.get(*at) {
            bytes.extend_from_slice(*frame)?;
        }
    }
    Ok(bytes)
}

/// Whether of the row's frames is taken what it says, in parts of so many bytes.
fn holds(alloc: Global, row: &Row, part: usize) -> Result<bool, AllocError> {
    let bytes = bytes_of(alloc, row.order)?;
    let came = come(alloc, KEY, bytes.as_slice(), part);
    let (taken, _) = PIECES.split_at(row.taken.min(PIECES.len()));
    Ok(came.end == row.end && are_taken(&came, taken))
}

#[test]
fn what_is_in_order_is_taken(rt: HostRuntime) -> Result<(), Fail> {
    for row in &ROWS {
        for part in [1, 5, 1000] {
            assert!(rt; holds(rt.alloc(), row, part)?, "{}", row.name);
        }
    }
    Ok(())
}

/// Whether nothing is taken of the first frame with a bit of this byte changed, and zeros behind it.
fn is_refused(alloc: Global, at: usize, bit: u8) -> Result<bool, AllocError> {
    let mut bytes = bytes_of(alloc, &[0])?;
    if at < bytes.len() {
        bytes[at] ^= bit;
    }
    let zeros: Vec<u8> = vec![in alloc; 0; MOST_PIECE_BYTES + TAG_BYTES]?;
    bytes.extend_from_slice(zeros.as_slice())?;
    let came = come(alloc, KEY, bytes.as_slice(), 50_000);
    Ok(came.end.is_some() && are_taken(&came, &[]))
}

#[test]
fn a_changed_byte_is_refused(rt: HostRuntime) -> Result<(), Fail> {
    for at in 0..24usize {
        assert!(rt;
            is_refused(rt.alloc(), at, 1)? && is_refused(rt.alloc(), at, 0x80)?,
            "{at}"
        );
    }
    Ok(())
}

#[test]
fn another_key_is_refused(rt: HostRuntime) -> Result<(), Fail> {
    let bytes = bytes_of(rt.alloc(), &[0, 1, 2])?;
    let came = come(rt.alloc(), [1; 32], bytes.as_slice(), 1000);
    assert!(rt; came.end == Some(SealFault::WrongTag) && are_taken(&came, &[]));
    Ok(())
}

/// Whether a piece at the limit is taken, and one above it is sealed by none, and taken by none.
fn is_limited(alloc: Global) -> Result<bool, SealFault> {
    let mut piece: Vec<u8> = vec![in alloc; b'x'; MOST_PIECE_BYTES]?;
    let mut sealer = Sealer::new(KEY);
    let bytes = sealer.seal(alloc, piece.as_slice())?;
    piece.push(b'x')?;
    let refused = sealer.seal(alloc, piece.as_slice()) == Err(SealFault::TooLong);
    let (at_limit, _) = piece.as_slice().split_at(MOST_PIECE_BYTES);
    Ok(
        refused
            && are_taken(&come(alloc, KEY, bytes.as_slice(), 1), &[at_limit])
            && are_taken(&come(alloc, KEY, bytes.as_slice(), 70_000), &[at_limit]),
    )
}

#[test]
fn a_piece_has_a_limit(rt: HostRuntime) -> Result<(), Fail> {
    assert!(rt; is_limited(rt.alloc())?);
    let came = come(rt.alloc(), KEY, &[0, 1, 0, 1], 1);
    assert!(rt; came.end == Some(SealFault::TooLong) && are_taken(&came, &[]));
    Ok(())
}

/// Whether all is taken, or an opener that was refused memory has taken a beginning.
fn is_taken_or_refused(alloc: Global) -> bool {
    let Ok(bytes) = bytes_of(alloc, &[0, 1, 2]) else {
        return true;
    };
    let came = come(alloc, KEY, bytes.as_slice(), 7);
    let (taken, _) = PIECES.split_at(came.pieces.len().min(PIECES.len()));
    let is_right = match came.end {
        None => came.pieces.len() == PIECES.len(),
        Some(fault) => fault == SealFault::NoMemory,
    };
    is_right && are_taken(&came, taken)
}

/// `scripts/refusals` has each of its allocations fail in turn.
#[test]
fn a_refused_growth_ends_an_opener(rt: HostRuntime) {
    assert!(rt; is_taken_or_refused(rt.alloc()));
}
