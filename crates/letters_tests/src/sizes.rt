//! Which letters are bulk, and the longest letters that are no parcels.

use crate::rows::{Part, bytes_of};
use letters::{MOST_BULK_BYTES, MOST_QUICK_BYTES, is_bulk, read};
use proto::Fault;
use std::alloc::{AllocError, Global};
use std::test::Fail;

const ONE: &[u8] = &[0, 0, 0, 0, 0, 0, 0, 1];

/// From client 1 to executor 0: its request 1, a `set` of `a` up to the length of the data. It has 27 bytes.
const SET: &[Part<'static>] = &[
    (&[0, 0, 1, 1, 0, 0, 0, 1], 1),
    (ONE, 1),
    (&[2, 1, b'a', 0, 0, 0, 0, 0, 0, 0, 0], 1),
];

/// The text of this `set` with so many bytes of data.
fn set_of(alloc: Global, size: u32) -> Result<Vec<u8>, AllocError> {
    let mut bytes = bytes_of(alloc, SET)?;
    bytes.extend_from_slice(&size.to_be_bytes())?;
    for _ in 0..size {
        bytes.push(b'x')?;
    }
    Ok(bytes)
}

/// Whether the letter of these bytes is bulk.
fn is_bulk_text(alloc: Global, bytes: &[u8]) -> Result<bool, Fault> {
    match read(alloc, bytes) {
        Ok(letter) => Ok(is_bulk(&letter)),
        Err(fault) => Err(fault),
    }
}

/// How long the text of a `set` is, and whether it is bulk.
fn told_of_set(alloc: Global, size: u32) -> Result<(usize, bool), Fault> {
    let bytes = set_of(alloc, size)?;
    Ok((bytes.len(), is_bulk_text(alloc, bytes.as_slice())?))
}

#[test]
fn letters_are_bulk_by_their_length(rt: HostRuntime) -> Result<(), Fail> {
    assert!(rt; told_of_set(rt.alloc(), 0) == Ok((31, false)));
    assert!(rt; told_of_set(rt.alloc(), 65505) == Ok((65536, false)));
    assert!(rt; told_of_set(rt.alloc(), 65506) == Ok((65537, true)));
    assert!(rt; told_of_set(rt.alloc(), 1_048_576) == Ok((1_048_607, true)));
    Ok(())
}

/// The shortest parcel: of a state with no sessions, and no page.
const PARCEL: &[Part<'static>] = &[
    (&[1, 0, 1, 2, 4, 2], 1),
    (ONE, 1),
    (&[7], 32),
    (ONE, 1),
    (&[9], 32),
    (&[0, 0, 3, 232], 1),
    (&[3, 0, 0, 0, 0, 0, 0, 0, 0], 1),
];

/// How long the text is, and whether its letter is bulk.
fn told_of(alloc: Global, parts: &[Part]) -> Result<(usize, bool), Fault> {
    let bytes = bytes_of(alloc, parts)?;
    Ok((bytes.len(), is_bulk_text(alloc, bytes.as_slice())?))
}

#[test]
fn parcels_are_bulk_and_needs_are_not(rt: HostRuntime) -> Result<(), Fail> {
    let need: [Part; 3] = [
        (&[1, 2, 1, 0, 3], 1),
        (&[0, 0, 0, 0, 0, 0, 0, 1, 0, 0, 1, 0], 1),
        (&[6], 32 * 256),
    ];
    assert!(rt; told_of(rt.alloc(), PARCEL) == Ok((99, true)));
    assert!(rt; told_of(rt.alloc(), &need) == Ok((8209, false)));
    Ok(())
}

/// Some of the data of the longest items: 256 times as many bytes are 1 MiB.
const DATA: &[u8] = &[b'd'; 4096];

/// The longest request: a `cas` of a key of 250 bytes, with 1 MiB of data.
const LONGEST_REQUEST: &[Part<'static>] = &[
    (&[0, 1], 1),
    (ONE, 1),
    (&[7, 250], 1),
    (&[b'k'], 250),
    (&[0], 8),
    (&[0, 16, 0, 0], 1),
    (DATA, 256),
    (ONE, 1),
];

/// The longest item that a `gets` finds.
const LONGEST_FOUND: &[Part<'static>] = &[
    (&[250], 1),
    (&[b'k'], 250),
    (&[0], 4),
    (&[0, 16, 0, 0], 1),
    (DATA, 256),
    (&[1], 1),
    (ONE, 1),
];

/// An order up to its requests: there are 64.
const ORDER: &[Part<'static>] = &[
    (&[1, 0, 1, 2, 1, 4], 1),
    (ONE, 2),
    (&[0, 0, 3, 232, 0, 0, 0, 64], 1),
];

/// A reply up to its items: there are 64.
const REPLY: &[Part<'static>] = &[(&[1, 1, 0, 0, 1, 2], 1), (ONE, 1), (&[7, 0, 0, 0, 64], 1)];

/// A letter with 64 of these.
fn longest(alloc: Global, head: &[Part], each: &[Part]) -> Result<Vec<u8>, AllocError> {
    let one = bytes_of(alloc, each)?;
    let mut bytes = bytes_of(alloc, head)?;
    for _ in 0..64u32 {
        bytes.extend_from_slice(one.as_slice())?;
    }
    Ok(bytes)
}

/// Whether the letter with 64 of these is bulk, and has no more bytes than such a letter may have.
fn is_within(alloc: Global, head: &[Part], each: &[Part]) -> Result<bool, Fault> {
    let bytes = longest(alloc, head, each)?;
    let is_long = MOST_QUICK_BYTES < bytes.len() && bytes.len() <= MOST_BULK_BYTES;
    Ok(is_long && is_bulk_text(alloc, bytes.as_slice())?)
}

#[test]
fn the_longest_letters_are_within_the_limit(rt: HostRuntime) -> Result<(), Fail> {
    assert!(rt; is_within(rt.alloc(), ORDER, LONGEST_REQUEST) == Ok(true));
    assert!(rt; is_within(rt.alloc(), REPLY, LONGEST_FOUND) == Ok(true));
    Ok(())
}
