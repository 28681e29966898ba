//! Records of executors, piece by piece: of version 1, as an older program wrote them, and of version 2,
//! as they are kept today. Digests and tokens are those of another program.

use crate::tests::FIRST_BATCH;
use std::alloc::{AllocError, Global};

/// Whose record it is, the executor `id` of `2u + 1`, and of which version.
#[derive(Clone, Copy)]
pub struct Written {
    pub version: u8,
    pub u: u8,
    pub id: u8,
}

/// That of the only executor of its cell, of version 1.
pub const OLD: Written = Written {
    version: 1,
    u: 0,
    id: 0,
};

/// And of today.
pub const NOW: Written = Written {
    version: 2,
    u: 0,
    id: 0,
};

/// The digest of batch 1: `FIRST_BATCH`.
const BATCH: [u8; 32] = [
    0x15, 0x66, 0x0c, 0x78, 0xa1, 0xb9, 0x7a, 0x4f, 0xa9, 0x3b, 0x8a, 0xd5, 0x7f, 0x94, 0x7b, 0xf2,
    0x5d, 0xe4, 0x9c, 0x34, 0x91, 0xe3, 0x92, 0x68, 0x4c, 0xd5, 0xec, 0x5d, 0xbe, 0xf1, 0xbc, 0xda,
];

/// The token of the state after it, whose root is over 64 pages.
pub const TOKEN: [u8; 32] = [
    0x57, 0x8d, 0xed, 0xef, 0x41, 0x41, 0x3b, 0xe9, 0x90, 0xea, 0x66, 0x65, 0x15, 0xa1, 0x95, 0x47,
    0x84, 0x93, 0x21, 0xb4, 0x09, 0x9e, 0x34, 0xd9, 0x2e, 0x8b, 0x19, 0xea, 0x0d, 0x26, 0x2f, 0x4e,
];

/// The token that the same state has if the root is over 256 pages.
pub const TOKEN_OF_TODAY: [u8; 32] = [
    0xd6, 0xfa, 0xbc, 0x9b, 0x91, 0x08, 0xa6, 0xbc, 0x5a, 0x18, 0xa7, 0x6b, 0x45, 0x60, 0x68, 0x87,
    0x8a, 0x9a, 0xa2, 0xff, 0x34, 0xd7, 0xe9, 0x24, 0xa3, 0x27, 0x59, 0x8c, 0xf0, 0xcd, 0xd3, 0x9b,
];

/// The digest of batch 2: `SECOND_BATCH`.
const NEXT_BATCH: [u8; 32] = [
    0x0a, 0x0a, 0x42, 0xa1, 0x36, 0x92, 0xb1, 0x23, 0x7a, 0x6d, 0xa2, 0x9a, 0xa5, 0xed, 0x53, 0xec,
    0x6e, 0x12, 0xdc, 0x6e, 0x8f, 0x04, 0x67, 0x2c, 0x65, 0xe5, 0x3d, 0x51, 0xcb, 0x73, 0x21, 0x8c,
];

/// The token of the state after it, over the old state of batch 1. Its root is over 256 pages.
pub const NEXT_TOKEN: [u8; 32] = [
    0xf5, 0x44, 0x8e, 0x31, 0xc1, 0x94, 0x02, 0x36, 0x9f, 0x20, 0x83, 0xb2, 0x06, 0x21, 0x6d, 0x2c,
    0xa3, 0x09, 0x1d, 0x8f, 0xca, 0x52, 0x7d, 0x4c, 0x25, 0xd2, 0xcd, 0xf7, 0x0f, 0x46, 0xe7, 0x5f,
];

/// Batch 2 of epoch 1: request 2 of client 1, which sets `a`.
const SECOND_BATCH: [u8; 51] = [
    4, 0, 0, 0, 0, 0, 0, 0, 1, 0, 0, 0, 0, 0, 0, 0, 2, 0, 0, 3, 232, 0, 0, 0, 1, 0, 1, 0, 0, 0, 0,
    0, 0, 0, 2, 2, 1, b'a', 0, 0, 0, 0, 0, 0, 0, 0, 0, 0, 0, 1, b'5',
];

/// A piece of a record.
#[derive(Clone, Copy)]
pub enum Piece {
    /// The version, and whose record it is.
    Head,
    Bytes(&'static [u8]),
    /// A number of eight bytes.
    Number(u8),
    /// The form of a state, which version 1 has not.
    Form(u8),
    /// So many zeros in version 1, and so many today.
    Zeros(usize, usize),
}

use Piece::{Bytes, Form, Head, Number, Zeros};

/// A record, in parts that several records share.
pub type Record = &'static [&'static [Piece]];

/// Up to the chain: no decree is known, and the first epoch begins. Then the first state: 40 bytes of number and
/// token before, its epoch, 68 bytes of batch, moment and token, no sessions, and 64 or 256 pages without items.
const FIRST: &[Piece] = &[
    Head,
    Zeros(48, 48),
    Number(1),
    Number(1),
    Form(2),
    Zeros(40, 40),
    Number(1),
    Zeros(68, 68),
    Bytes(&[3, 0, 0, 0, 0]),
    Zeros(320, 1280),
];

/// Up to the chain: one Commit is known.
const ONE_COMMIT: &[Piece] = &[
    Head,
    Number(1),
    Number(1),
    Bytes(&TOKEN),
    Number(1),
    Number(1),
];

/// The head and the sessions of the state that batch 1 led to, of the old form: client 1 was answered STORED.
const OLD_HEAD: &[Piece] = &[
    Form(1),
    Number(1),
    Zeros(32, 32),
    Number(1),
    Bytes(&BATCH),
    Bytes(&[0, 0, 3, 232]),
    Bytes(&TOKEN),
    Bytes(&[3, 0, 0, 0, 1, 0, 1, 0, 0, 0, 0, 0, 0, 0, 1, 0]),
];

/// Those of the state that batch 2 led to, of today's form.
const NEXT_HEAD: &[Piece] = &[
    Form(2),
    Number(2),
    Bytes(&TOKEN),
    Number(1),
    Bytes(&NEXT_BATCH),
    Bytes(&[0, 0, 3, 232]),
    Bytes(&NEXT_TOKEN),
    Bytes(&[3, 0, 0, 0, 1, 0, 1, 0, 0, 0, 0, 0, 0, 0, 2, 0]),
];

/// The page of `a`, whose unique is 64. It is page 33 of 64, or 97 of 256.
const PAGE: &[Piece] = &[Bytes(BEFORE_UNIQUE), Number(64), Bytes(AFTER_UNIQUE)];

/// The same after the next batch, whose unique is 128.
const NEXT_PAGE: &[Piece] = &[Bytes(BEFORE_UNIQUE), Number(128), Bytes(AFTER_UNIQUE)];

const BEFORE_UNIQUE: &[u8] = &[0, 0, 0, 0, 1, 1, b'a', 0, 0, 0, 0, 0];

const AFTER_UNIQUE: &[u8] = &[0, 0, 0, 1, b'5'];

/// The pages of a state before that of `a`, and after it: five bytes each.
const BEFORE: &[Piece] = &[Zeros(165, 485)];

const AFTER: &[Piece] = &[Zeros(150, 790)];

/// Those of a member: a byte says of each whether it differs from that of the state before, and only that of `a` does.
const SAME_BEFORE: &[Piece] = &[Zeros(33, 97), Bytes(&[1])];

const SAME_AFTER: &[Piece] = &[Zeros(30, 158)];

/// A chain of no members, or of one, which begins with its batch.
const NO_MEMBER: &[Piece] = &[Bytes(&[0])];

const FIRST_MEMBER: &[Piece] = &[Bytes(&[1]), Bytes(&FIRST_BATCH)];

const SECOND_MEMBER: &[Piece] = &[Bytes(&[1]), Bytes(&SECOND_BATCH)];

/// Of a new executor.
pub const NEW: Record = &[FIRST, NO_MEMBER];

/// Of one that was stopped when its batch 1 was complete, and of which nothing is decided.
pub const STOPPED: Record = &[FIRST, FIRST_MEMBER, OLD_HEAD, SAME_BEFORE, PAGE, SAME_AFTER];

/// Of one for which batch 1 was committed.
pub const COMMITTED: Record = &[ONE_COMMIT, OLD_HEAD, BEFORE, PAGE, AFTER, NO_MEMBER];

/// Of one that then executed batch 2.
pub const NEXT: Record = &[
    ONE_COMMIT,
    OLD_HEAD,
    BEFORE,
    PAGE,
    AFTER,
    SECOND_MEMBER,
    NEXT_HEAD,
    SAME_BEFORE,
    NEXT_PAGE,
    SAME_AFTER,
];

static NOTHING: [u8; 1280] = [0; 1280];

fn put(bytes: &mut Vec<u8>, of: Written, piece: Piece) -> Result<(), AllocError> {
    match piece {
        Head => bytes.extend_from_slice(&[of.version, b'E', of.id, of.u]),
        Bytes(text) => bytes.extend_from_slice(text),
        Number(number) => bytes.extend_from_slice(&[0, 0, 0, 0, 0, 0, 0, number]),
        Form(_) if of.version == 1 => Ok(()),
        Form(form) => bytes.extend_from_slice(&[form]),
        Zeros(old, now) => {
            let count = if of.version == 1 { old } else { now };
            bytes.extend_from_slice(NOTHING.get(..count).unwrap_or(&[]))
        }
    }
}

fn put_part(bytes: &mut Vec<u8>, of: Written, part: &[Piece]) -> Result<(), AllocError> {
    for piece in part {
        put(bytes, of, *piece)?;
    }
    Ok(())
}

/// The bytes of a record.
pub fn spelled(alloc: Global, of: Written, record: Record) -> Result<Vec<u8>, AllocError> {
    let mut bytes = Vec::new(alloc);
    for part in record {
        put_part(&mut bytes, of, part)?;
    }
    Ok(bytes)
}
