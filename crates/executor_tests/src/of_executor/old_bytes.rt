//! The bytes of two members over the first state, of version 1 and of version 2: batch 1 sets `a`, and
//! batch 2, of client 2, sets `!`. Both are on page 33 of 64, and on pages 97 and 33 of 256. Their
//! states have the old form. Digests and tokens are those of another program.

use super::*;

/// The digest of batch 1.
pub const BATCH: [u8; 32] = [
    0x15, 0x66, 0x0c, 0x78, 0xa1, 0xb9, 0x7a, 0x4f, 0xa9, 0x3b, 0x8a, 0xd5, 0x7f, 0x94, 0x7b, 0xf2,
    0x5d, 0xe4, 0x9c, 0x34, 0x91, 0xe3, 0x92, 0x68, 0x4c, 0xd5, 0xec, 0x5d, 0xbe, 0xf1, 0xbc, 0xda,
];

/// The token of the state after it, whose root is over 64 pages.
pub const TOKEN: [u8; 32] = [
    0x57, 0x8d, 0xed, 0xef, 0x41, 0x41, 0x3b, 0xe9, 0x90, 0xea, 0x66, 0x65, 0x15, 0xa1, 0x95, 0x47,
    0x84, 0x93, 0x21, 0xb4, 0x09, 0x9e, 0x34, 0xd9, 0x2e, 0x8b, 0x19, 0xea, 0x0d, 0x26, 0x2f, 0x4e,
];

/// The digest of batch 2.
const NEXT_BATCH: [u8; 32] = [
    0x3f, 0xc0, 0x68, 0x32, 0x23, 0xc3, 0xe0, 0xc1, 0x96, 0xea, 0x60, 0x14, 0x19, 0x65, 0xfe, 0x0b,
    0xfe, 0x0d, 0xc3, 0x08, 0xa0, 0xbe, 0x09, 0x5c, 0xfd, 0x71, 0x70, 0x8a, 0x57, 0x12, 0x44, 0x87,
];

/// The token of the state after it.
const NEXT_TOKEN: [u8; 32] = [
    0x8b, 0x11, 0x8f, 0x9d, 0x02, 0xba, 0xf4, 0x14, 0x21, 0x94, 0x88, 0xf6, 0x4e, 0xa4, 0x03, 0xe1,
    0xae, 0x52, 0x23, 0xaa, 0x43, 0x35, 0xb6, 0x58, 0x1b, 0xd1, 0xeb, 0xb3, 0xa9, 0x09, 0x43, 0x96,
];

/// A part of a record.
pub enum Part {
    Bytes(&'static [u8]),
    Zeros(usize),
    /// So many letters `x`.
    Xs(usize),
}

fn add_same(bytes: &mut Vec<u8>, byte: u8, count: usize) -> Result<(), AllocError> {
    for _ in 0..count {
        bytes.push(byte)?;
    }
    Ok(())
}

pub fn add_parts(bytes: &mut Vec<u8>, parts: &[Part]) -> Result<(), AllocError> {
    for part in parts {
        match part {
            Part::Bytes(text) => bytes.extend_from_slice(*text)?,
            Part::Zeros(count) => add_same(bytes, 0, *count)?,
            Part::Xs(count) => add_same(bytes, b'x', *count)?,
        }
    }
    Ok(())
}

/// The record of these parts, one list after the other.
pub fn bytes_of(alloc: Global, record: &[&[Part]]) -> Result<Vec<u8>, AllocError> {
    let mut bytes = Vec::new(alloc);
    for parts in record {
        add_parts(&mut bytes, parts)?;
    }
    Ok(bytes)
}

/// The member of batch 1 is in three lists. Up to the number of its state: version 1 has no form, and in
/// version 2 it is the old one.
pub const OLD_MEMBER: &[Part] = &[Part::Bytes(ONE_SET), Part::Bytes(&[0, 0, 0, 0, 0, 0, 0, 1])];

const MEMBER: &[Part] = &[
    Part::Bytes(ONE_SET),
    Part::Bytes(&[1, 0, 0, 0, 0, 0, 0, 0, 1]),
];

/// The rest of the head, and the sessions: client 1 was answered `STORED`.
pub const AFTER_1: &[Part] = &[
    Part::Zeros(32),
    Part::Bytes(&[0, 0, 0, 0, 0, 0, 0, 1]),
    Part::Bytes(&BATCH),
    Part::Bytes(&[0, 0, 3, 232]),
    Part::Bytes(&TOKEN),
    Part::Bytes(&[3, 0, 0, 0, 1, 0, 1, 0, 0, 0, 0, 0, 0, 0, 1, 0]),
];

/// The one of 64 or 256 pages that is not the same, the mark before it, and the marks around it.
pub const OLD_PAGES: &[Part] = &[
    Part::Zeros(33),
    Part::Bytes(&[1, 0, 0, 0, 0, 1]),
    ITEM_A,
    Part::Zeros(30),
];

const PAGES: &[Part] = &[
    Part::Zeros(97),
    Part::Bytes(&[1, 0, 0, 0, 0, 1]),
    ITEM_A,
    Part::Zeros(158),
];

/// The item of `a`, whose unique is 64.
const ITEM_A: Part = Part::Bytes(&[
    1, b'a', 0, 0, 0, 0, 0, 0, 0, 0, 0, 0, 0, 0, 64, 0, 0, 0, 1, b'5',
]);

/// The item of `!`, whose unique is 128.
const NEXT_ITEM: Part = Part::Bytes(&[
    1, b'!', 0, 0, 0, 0, 0, 0, 0, 0, 0, 0, 0, 0, 128, 0, 0, 0, 1, b'5',
]);

/// Batch 2 at moment 1000, of one request: client 2 sets `!`.
const BATCH_2: Part = Part::Bytes(&[
    4, 0, 0, 0, 0, 0, 0, 0, 1, 0, 0, 0, 0, 0, 0, 0, 2, 0, 0, 3, 232, 0, 0, 0, 1, 0, 2, 0, 0, 0, 0,
    0, 0, 0, 1, 2, 1, b'!', 0, 0, 0, 0, 0, 0, 0, 0, 0, 0, 0, 1, b'5',
]);

/// The same three of the member of batch 2.
const OLD_NEXT: &[Part] = &[BATCH_2, Part::Bytes(&[0, 0, 0, 0, 0, 0, 0, 2])];

const NEXT: &[Part] = &[BATCH_2, Part::Bytes(&[1, 0, 0, 0, 0, 0, 0, 0, 2])];

/// Two clients were answered `STORED`.
const AFTER_2: &[Part] = &[
    Part::Bytes(&TOKEN),
    Part::Bytes(&[0, 0, 0, 0, 0, 0, 0, 1]),
    Part::Bytes(&NEXT_BATCH),
    Part::Bytes(&[0, 0, 3, 232]),
    Part::Bytes(&NEXT_TOKEN),
    Part::Bytes(&[
        3, 0, 0, 0, 2, 0, 1, 0, 0, 0, 0, 0, 0, 0, 1, 0, 0, 2, 0, 0, 0, 0, 0, 0, 0, 1, 0,
    ]),
];

/// The one of 64 pages has both keys.
const OLD_NEXT_PAGES: &[Part] = &[
    Part::Zeros(33),
    Part::Bytes(&[1, 0, 0, 0, 0, 2]),
    NEXT_ITEM,
    ITEM_A,
    Part::Zeros(30),
];

const NEXT_PAGES: &[Part] = &[
    Part::Zeros(33),
    Part::Bytes(&[1, 0, 0, 0, 0, 1]),
    NEXT_ITEM,
    Part::Zeros(222),
];

/// The first state: its number and token before, its epoch, 68 bytes of batch, moment and token, and no
/// sessions.
const FIRST: &[Part] = &[
    Part::Zeros(40),
    Part::Bytes(&[0, 0, 0, 0, 0, 0, 0, 1]),
    Part::Zeros(68),
    Part::Bytes(&[3, 0, 0, 0, 0]),
];

/// The chain of both members over the first state, in version 1 and in version 2. Behind the 64 or 256
/// pages of the first state is the number of members.
pub const OLD_CHAIN: [&[Part]; 8] = [
    FIRST,
    &[Part::Zeros(320), Part::Bytes(&[2])],
    OLD_MEMBER,
    AFTER_1,
    OLD_PAGES,
    OLD_NEXT,
    AFTER_2,
    OLD_NEXT_PAGES,
];

/// The first state has the form of today.
pub const CHAIN: [&[Part]; 9] = [
    &[Part::Bytes(&[2])],
    FIRST,
    &[Part::Zeros(1280), Part::Bytes(&[2])],
    MEMBER,
    AFTER_1,
    PAGES,
    NEXT,
    AFTER_2,
    NEXT_PAGES,
];
