//! Records of `wire`, and of the small values of the crates above it.

use crate::rows::{Row, first_wrong};
use batches::Batch;
use decrees::Decree;
use proto::{Command, Fault, Reply};
use sessions::{Request, Sessions};
use states::{Head, Origin, Version};
use std::alloc::{AllocError, Global};
use std::test::Fail;
use token::{Form, Token};
use wire::{Entries, InnerText, TokenText};

const PAGES: [Row<'static>; 8] = [
    (
        b"\x00\x00\x00\x00\x01\x01\x61\x00\x00\x00\x00\x00\x00\x00\x00\x00\x00\x00\x00\x40\x00\x00\x00\x01\x35",
        true,
    ),
    (b"\x00\x00\x00\x00\x00", true),
    (
        b"\x00\x00\x00\x00\x02\x01\x61\x00\x00\x00\x00\x00\x00\x00\x00\x00\x00\x00\x00\x40\x00\x00\x00\x01\x35\x01\x62\x00\x00\x00\x00\x00\x00\x00\x00\x00\x00\x00\x00\x40\x00\x00\x00\x01\x35",
        true,
    ),
    (
        b"\x00\x00\x00\x00\x02\x01\x62\x00\x00\x00\x00\x00\x00\x00\x00\x00\x00\x00\x00\x40\x00\x00\x00\x01\x35\x01\x61\x00\x00\x00\x00\x00\x00\x00\x00\x00\x00\x00\x00\x40\x00\x00\x00\x01\x35",
        false,
    ),
    (
        b"\x00\x00\x00\x00\x02\x01\x61\x00\x00\x00\x00\x00\x00\x00\x00\x00\x00\x00\x00\x40\x00\x00\x00\x01\x35\x01\x61\x00\x00\x00\x00\x00\x00\x00\x00\x00\x00\x00\x00\x40\x00\x00\x00\x01\x35",
        false,
    ),
    (
        b"\x00\x00\x00\x00\x01\x01\x61\x00\x00\x00\x00\x00\x00\x00\x00\x00\x00\x00\x00\x40\x00\x00\x00\x01\x35\x00",
        false,
    ),
    (
        b"\x00\x00\x00\x00\x01\x01\x61\x00\x00\x00\x00\x00\x00\x00\x00\x00\x00\x00\x00\x40\x00\x00\x00\x01",
        false,
    ),
    (b"\x01\x00\x00\x00\x00", false),
];

/// The numbers of clients rise.
const SESSIONS: [Row<'static>; 4] = [
    (
        b"\x03\x00\x00\x00\x02\x00\x01\x00\x00\x00\x00\x00\x00\x00\x03\x00\x00\x02\x00\x00\x00\x00\x00\x00\x00\x01\x06\x00\x00\x00\x00\x00\x00\x00\x07",
        true,
    ),
    (b"\x03\x00\x00\x00\x00", true),
    (
        b"\x03\x00\x00\x00\x02\x00\x02\x00\x00\x00\x00\x00\x00\x00\x03\x00\x00\x01\x00\x00\x00\x00\x00\x00\x00\x01\x00",
        false,
    ),
    (
        b"\x03\x00\x00\x00\x01\x00\x00\x00\x00\x00\x00\x00\x00\x00\x03\x00",
        false,
    ),
];

const COMMANDS: [Row<'static>; 23] = [
    (b"\x00\x00\x00\x00\x01\x01\x61", true),
    (b"\x01\x00\x00\x00\x02\x01\x61\x01\x62", true),
    (
        b"\x02\x01\x61\x00\x00\x00\x07\xff\xff\xff\xff\x00\x00\x00\x01\x35",
        true,
    ),
    (
        b"\x03\x01\x61\x00\x00\x00\x07\xff\xff\xff\xff\x00\x00\x00\x01\x35",
        true,
    ),
    (
        b"\x04\x01\x61\x00\x00\x00\x07\xff\xff\xff\xff\x00\x00\x00\x01\x35",
        true,
    ),
    (
        b"\x05\x01\x61\x00\x00\x00\x07\xff\xff\xff\xff\x00\x00\x00\x01\x35",
        true,
    ),
    (
        b"\x06\x01\x61\x00\x00\x00\x07\xff\xff\xff\xff\x00\x00\x00\x01\x35",
        true,
    ),
    (
        b"\x07\x01\x61\x00\x00\x00\x07\x80\x00\x00\x00\x00\x00\x00\x00\x00\x00\x00\x00\x00\x00\x00\x40",
        true,
    ),
    (b"\x08\x01\x61", true),
    (b"\x09\x01\x61\x7f\xff\xff\xff", true),
    (b"\x0a\x01\x61\x00\x00\x00\x00\x00\x00\x00\xff", true),
    (b"\x0b\x01\x61\x00\x00\x00\x00\x00\x00\x00\xff", true),
    (
        b"\x0c\x00\x00\x00\x0a\x00\x00\x00\x02\x01\x61\x01\x62",
        true,
    ),
    (b"\x0d\xff\xff\xff\xff\x00\x00\x00\x01\x01\x61", true),
    (b"\x0c\x00\x00\x00\x0a\x00\x00\x00\x00", false),
    (b"\x0c\x00\x00\x00\x01\x01\x61\x00\x00\x00\x0a", false),
    (b"\x0c\x01\x61", false),
    (b"\x0e\x00\x00\x00\x0a\x00\x00\x00\x01\x01\x61", false),
    (b"\x00\x00\x00\x00\x00", false),
    (
        b"\x02\x01\x61\x00\x00\x00\x07\xff\xff\xff\xff\x00\x00\x00\x01",
        false,
    ),
    (b"\x08\x00", false),
    (b"\x08\x01\x20", false),
    (
        b"\x02\x01\x61\x00\x00\x00\x07\xff\xff\xff\xff\x00\x01\x00\x01",
        false,
    ),
];

const REPLIES: [Row<'static>; 15] = [
    (b"\x00", true),
    (b"\x01", true),
    (b"\x02", true),
    (b"\x03", true),
    (b"\x04", true),
    (b"\x05", true),
    (b"\x08", true),
    (b"\x09", true),
    (b"\x06\xff\xff\xff\xff\xff\xff\xff\xff", true),
    (
        b"\x07\x00\x00\x00\x01\x01\x61\x00\x00\x00\x00\x00\x00\x00\x01\x35\x01\x00\x00\x00\x00\x00\x00\x00\x40",
        true,
    ),
    (
        b"\x07\x00\x00\x00\x01\x01\x61\x00\x00\x00\x00\x00\x00\x00\x01\x35\x00",
        true,
    ),
    (b"\x0a", false),
    (b"", false),
    (b"\x06\x00", false),
    (
        b"\x07\x00\x00\x00\x01\x01\x61\x00\x00\x00\x00\x00\x00\x00\x01\x35\x02\x00\x00\x00\x00\x00\x00\x00\x40",
        false,
    ),
];

/// Batch 1 of epoch 1 at moment 1000: client 1's request 1 is `set a`.
const BATCH: &[u8] =
    b"\x04\x00\x00\x00\x00\x00\x00\x00\x01\x00\x00\x00\x00\x00\x00\x00\x01\x00\x00\x03\xe8\x00\x00\x00\x01\x00\x01\x00\x00\x00\x00\x00\x00\x00\x01\x02\x01\x61\x00\x00\x00\x00\x00\x00\x00\x00\x00\x00\x00\x01\x35";

/// The same with a byte more.
const LONGER_BATCH: &[u8] =
    b"\x04\x00\x00\x00\x00\x00\x00\x00\x01\x00\x00\x00\x00\x00\x00\x00\x01\x00\x00\x03\xe8\x00\x00\x00\x01\x00\x01\x00\x00\x00\x00\x00\x00\x00\x01\x02\x01\x61\x00\x00\x00\x00\x00\x00\x00\x00\x00\x00\x00\x01\x35\x00";

/// Those, and batches without requests of the numbers 1, 2^58 - 1, 0 and 2^58.
const BATCHES: [Row<'static>; 6] = [
    (BATCH, true),
    (LONGER_BATCH, false),
    (
        b"\x04\x00\x00\x00\x00\x00\x00\x00\x01\x00\x00\x00\x00\x00\x00\x00\x01\x00\x00\x03\xe8\x00\x00\x00\x00",
        true,
    ),
    (
        b"\x04\x00\x00\x00\x00\x00\x00\x00\x01\x03\xff\xff\xff\xff\xff\xff\xff\x00\x00\x03\xe8\x00\x00\x00\x00",
        true,
    ),
    (
        b"\x04\x00\x00\x00\x00\x00\x00\x00\x01\x00\x00\x00\x00\x00\x00\x00\x00\x00\x00\x03\xe8\x00\x00\x00\x00",
        false,
    ),
    (
        b"\x04\x00\x00\x00\x00\x00\x00\x00\x01\x04\x00\x00\x00\x00\x00\x00\x00\x00\x00\x03\xe8\x00\x00\x00\x00",
        false,
    ),
];

/// `delete k`, as the first request of client 1 and of client 0, and as request 0 of client 1.
const REQUESTS: [Row<'static>; 3] = [
    (
        b"\x00\x01\x00\x00\x00\x00\x00\x00\x00\x01\x08\x01\x6b",
        true,
    ),
    (
        b"\x00\x00\x00\x00\x00\x00\x00\x00\x00\x01\x08\x01\x6b",
        false,
    ),
    (
        b"\x00\x01\x00\x00\x00\x00\x00\x00\x00\x00\x08\x01\x6b",
        false,
    ),
];

const DECREES: [Row<'static>; 5] = [
    (&[0], true),
    (&[1; 41], true),
    (&[1; 42], false),
    (&[2; 41], false),
    (&[0; 41], false),
];

/// What digests of inner nodes and tokens are made of: a mark, and fields of fixed lengths.
const INNER_TEXTS: [Row<'static>; 2] = [(&[1; 65], true), (&[2; 65], false)];

const TOKEN_TEXTS: [Row<'static>; 2] = [(&[2; 149], true), (&[1; 149], false)];

/// How a state's record begins: form 1, 2 or 3, and fields of fixed lengths.
const HEADS: [Row<'static>; 5] = [
    (&[1; 117], true),
    (&[2; 117], true),
    (&[3; 117], true),
    (&[4; 117], false),
    (&[0; 117], false),
];

const ORIGINS: [Row<'static>; 2] = [(&[1; 85], true), (&[4; 85], false)];

const FORMS: [Row<'static>; 5] = [
    (&[1], true),
    (&[2], true),
    (&[3], true),
    (&[4], false),
    (&[0], false),
];

const VERSIONS: [Row<'static>; 4] = [(&[1], true), (&[2], true), (&[3], false), (&[0], false)];

const TOKENS: [Row<'static>; 2] = [(&[7; 32], true), (&[7; 33], false)];

#[test]
fn pages_sessions_commands_and_replies(rt: HostRuntime) -> Result<(), Fail> {
    let alloc = rt.alloc();
    let wrong = [
        ("pages", first_wrong::<Entries>(alloc, &PAGES)?),
        ("sessions", first_wrong::<Sessions>(alloc, &SESSIONS)?),
        ("commands", first_wrong::<Command>(alloc, &COMMANDS)?),
        ("replies", first_wrong::<Reply>(alloc, &REPLIES)?),
        ("requests", first_wrong::<Request>(alloc, &REQUESTS)?),
        ("batches", first_wrong::<Batch>(alloc, &BATCHES)?),
    ];
    for (name, row) in &wrong {
        assert_eq!(rt; *row, None, "{name}");
    }
    assert!(rt; BATCH.len() == 51);
    Ok(())
}

/// Appends a batch in which so many clients ask for `delete k`.
fn add_batch(count: u8, bytes: &mut Vec<u8>) -> Result<(), AllocError> {
    bytes.extend_from_slice(
        b"\x04\x00\x00\x00\x00\x00\x00\x00\x01\x00\x00\x00\x00\x00\x00\x00\x01\x00\x00\x03\xe8".as_slice(),
    )?;
    bytes.extend_from_slice([0u8, 0, 0, count].as_slice())?;
    for below in 0..count {
        let client = below.saturating_add(1);
        bytes.extend_from_slice([0u8, client, 0, 0, 0, 0, 0, 0, 0, 1, 8, 1, b'k'].as_slice())?;
    }
    Ok(())
}

/// Whether a batch of so many requests has a record, or has none.
fn is_so_of_batch(alloc: Global, count: u8, has_record: bool) -> Result<bool, Fault> {
    let mut bytes = Vec::new(alloc);
    add_batch(count, &mut bytes)?;
    Ok(first_wrong::<Batch>(alloc, &[(bytes.as_slice(), has_record)])?.is_none())
}

#[test]
fn a_batch_has_64_requests_at_most(rt: HostRuntime) -> Result<(), Fail> {
    assert!(rt; is_so_of_batch(rt.alloc(), 64, true)?);
    assert!(rt; is_so_of_batch(rt.alloc(), 65, false)?);
    Ok(())
}

#[test]
fn decrees_heads_marks_and_tokens(rt: HostRuntime) -> Result<(), Fail> {
    let alloc = rt.alloc();
    let wrong = [
        ("decrees", first_wrong::<Decree>(alloc, &DECREES)?),
        (
            "inner texts",
            first_wrong::<InnerText>(alloc, &INNER_TEXTS)?,
        ),
        (
            "token texts",
            first_wrong::<TokenText>(alloc, &TOKEN_TEXTS)?,
        ),
        ("heads", first_wrong::<Head>(alloc, &HEADS)?),
        ("origins", first_wrong::<Origin>(alloc, &ORIGINS)?),
        ("forms", first_wrong::<Form>(alloc, &FORMS)?),
        ("versions", first_wrong::<Version>(alloc, &VERSIONS)?),
        ("tokens", first_wrong::<Token>(alloc, &TOKENS)?),
    ];
    for (name, row) in &wrong {
        assert_eq!(rt; *row, None, "{name}");
    }
    Ok(())
}
