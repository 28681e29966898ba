//! States that are read from records of both versions, their bytes by hand. Expected values are those of
//! other programs.

use crate::rows::{Part, bytes_of, turn};
use proto::Fault;
use states::{State, Version};
use std::alloc::{AllocError, Global};
use std::test::Fail;
use token::{Form, Token};

mod old_limits;

/// The digest of the batch of one `set`.
const BATCH: [u8; 32] = [
    0x15, 0x66, 0x0c, 0x78, 0xa1, 0xb9, 0x7a, 0x4f, 0xa9, 0x3b, 0x8a, 0xd5, 0x7f, 0x94, 0x7b, 0xf2,
    0x5d, 0xe4, 0x9c, 0x34, 0x91, 0xe3, 0x92, 0x68, 0x4c, 0xd5, 0xec, 0x5d, 0xbe, 0xf1, 0xbc, 0xda,
];

/// The token of the state after it, whose root is over 64 pages.
const TOKEN: [u8; 32] = [
    0x57, 0x8d, 0xed, 0xef, 0x41, 0x41, 0x3b, 0xe9, 0x90, 0xea, 0x66, 0x65, 0x15, 0xa1, 0x95, 0x47,
    0x84, 0x93, 0x21, 0xb4, 0x09, 0x9e, 0x34, 0xd9, 0x2e, 0x8b, 0x19, 0xea, 0x0d, 0x26, 0x2f, 0x4e,
];

/// The token that it has if the root is over 256 pages.
const TOKEN_OF_TODAY: [u8; 32] = [
    0xd6, 0xfa, 0xbc, 0x9b, 0x91, 0x08, 0xa6, 0xbc, 0x5a, 0x18, 0xa7, 0x6b, 0x45, 0x60, 0x68, 0x87,
    0x8a, 0x9a, 0xa2, 0xff, 0x34, 0xd7, 0xe9, 0x24, 0xa3, 0x27, 0x59, 0x8c, 0xf0, 0xcd, 0xd3, 0x9b,
];

/// The token that it has if the pages are kept as trees: `scripts/state_tokens` prints it.
const TOKEN_OF_TREES: [u8; 32] = [
    0xdd, 0xa8, 0x90, 0x10, 0xad, 0x50, 0x54, 0x9b, 0x64, 0xd6, 0xd5, 0x53, 0x6b, 0xe1, 0x65, 0xfd,
    0xd8, 0xea, 0xc0, 0xe8, 0xf5, 0xcf, 0x6c, 0x7f, 0x1b, 0x44, 0xae, 0xc6, 0x7e, 0x3f, 0x7e, 0xfd,
];

/// The number and the token before of the state after batch 1, and its epoch.
const AFTER_1: &[Part<'static>] = &[
    (&[0, 0, 0, 0, 0, 0, 0, 1], 1),
    (&[0], 32),
    (&[0, 0, 0, 0, 0, 0, 0, 1], 1),
];

/// The batch of one `set` of `a` by client 1, and its moment.
const OF_SET: &[Part<'static>] = &[(&BATCH, 1), (&[0, 0, 3, 232], 1)];

/// Sessions: client 1 was answered `STORED`.
const STORED: Part<'static> = (&[3, 0, 0, 0, 1, 0, 1, 0, 0, 0, 0, 0, 0, 0, 1, 0], 1);

/// The page with `a`, behind its mark.
const PAGE: Part<'static> = (
    &[
        0, 0, 0, 1, 1, b'a', 0, 0, 0, 0, 0, 0, 0, 0, 0, 0, 0, 0, 64, 0, 0, 0, 1, b'5',
    ],
    1,
);

/// Pages of today: `a` is on page 97 of 256.
const PAGES: &[Part<'static>] = &[(&[0; 5], 97), (&[0], 1), PAGE, (&[0; 5], 158)];

/// The same pages of trees.
const TREES: &[Part<'static>] = &[
    (&[6, 0, 0, 0, 0], 97),
    (&[6], 1),
    PAGE,
    (&[6, 0, 0, 0, 0], 158),
];

/// Lists of parts.
type Record = &'static [&'static [Part<'static>]];

/// The record of the first state in version 1: 40 bytes of number and token before, its epoch, 68 bytes
/// of batch, moment and token, no sessions, and 64 pages without items.
const OLD_FIRST: Record = &[&[
    (&[0], 40),
    (&[0, 0, 0, 0, 0, 0, 0, 1], 1),
    (&[0], 68),
    (&[3, 0, 0, 0, 0], 1),
    (&[0; 5], 64),
]];

/// That of today.
const FIRST: Record = &[&[
    (&[2], 1),
    (&[0], 40),
    (&[0, 0, 0, 0, 0, 0, 0, 1], 1),
    (&[0], 68),
    (&[3, 0, 0, 0, 0], 1),
    (&[0; 5], 256),
]];

/// The record after the `set` in version 1: `a` is on page 33 of 64.
const OLD_SET: Record = &[
    AFTER_1,
    OF_SET,
    &[
        (&TOKEN, 1),
        STORED,
        (&[0; 5], 33),
        (&[0], 1),
        PAGE,
        (&[0; 5], 30),
    ],
];

/// Those of each form today.
const SET_OLD: Record = &[&[(&[1], 1)], AFTER_1, OF_SET, &[(&TOKEN, 1), STORED], PAGES];

const SET_TODAY: Record = &[
    &[(&[2], 1)],
    AFTER_1,
    OF_SET,
    &[(&TOKEN_OF_TODAY, 1), STORED],
    PAGES,
];

const SET_TREES: Record = &[
    &[(&[3], 1)],
    AFTER_1,
    OF_SET,
    &[(&TOKEN_OF_TREES, 1), STORED],
    TREES,
];

/// What identifies a state here: its number, its token and its form.
type Told = (u64, [u8; 32], Form);

/// Bytes of a version; and what they are read as, and the record that is written of it then, if they are
/// a record.
#[derive(Clone, Copy)]
struct Row {
    name: &'static str,
    version: Version,
    record: Record,
    read: Option<(Told, Record)>,
}

const ROWS: [Row; 5] = [
    Row {
        name: "the_first_state_of_version_1",
        version: Version::First,
        record: OLD_FIRST,
        read: Some(((0, [0; 32], Form::Current), FIRST)),
    },
    Row {
        name: "a_later_state_of_version_1_keeps_its_token",
        version: Version::First,
        record: OLD_SET,
        read: Some(((1, TOKEN, Form::Old), SET_OLD)),
    },
    Row {
        name: "a_state_of_the_old_form",
        version: Version::Second,
        record: SET_OLD,
        read: Some(((1, TOKEN, Form::Old), SET_OLD)),
    },
    Row {
        name: "a_state_of_todays_form",
        version: Version::Second,
        record: SET_TODAY,
        read: Some(((1, TOKEN_OF_TODAY, Form::Current), SET_TODAY)),
    },
    Row {
        name: "a_state_of_trees",
        version: Version::Second,
        record: SET_TREES,
        read: Some(((1, TOKEN_OF_TREES, Form::Tree), SET_TREES)),
    },
];

/// Forms with the token or the pages of another one, and no form.
const UNFIT: [Row; 3] = [
    Row {
        name: "todays_form_with_a_token_of_trees",
        version: Version::Second,
        record: &[
            &[(&[2], 1)],
            AFTER_1,
            OF_SET,
            &[(&TOKEN_OF_TREES, 1), STORED],
            PAGES,
        ],
        read: None,
    },
    Row {
        name: "trees_with_the_token_of_todays_form",
        version: Version::Second,
        record: &[
            &[(&[3], 1)],
            AFTER_1,
            OF_SET,
            &[(&TOKEN_OF_TODAY, 1), STORED],
            TREES,
        ],
        read: None,
    },
    Row {
        name: "no_form",
        version: Version::Second,
        record: &[
            &[(&[4], 1)],
            AFTER_1,
            OF_SET,
            &[(&TOKEN_OF_TREES, 1), STORED],
            PAGES,
        ],
        read: None,
    },
];

/// What identifies a state, and its record of today.
fn told_of(alloc: Global, state: &State) -> Result<(Told, Vec<u8>), AllocError> {
    let mut record = Vec::new(alloc);
    state.put(&mut record)?;
    let Token(token) = state.token();
    Ok(((state.number(), token, state.form()), record))
}

/// What the bytes are read as, all of them; nothing if they are no record.
fn read(alloc: Global, version: Version, bytes: &[u8]) -> Result<Option<(Told, Vec<u8>)>, Fault> {
    match State::take(alloc, version, bytes) {
        Ok((state, [])) => Ok(Some(told_of(alloc, &state)?)),
        Ok(_) => Err(Fault::Unfit),
        Err(Fault::BadRecord) => Ok(None),
        Err(fault) => Err(fault),
    }
}

/// Whether the bytes are read as the row says.
fn is_read_as(alloc: Global, row: &Row, bytes: &[u8]) -> Result<bool, Fault> {
    match (read(alloc, row.version, bytes)?, &row.read) {
        (None, None) => Ok(true),
        (Some((told, written)), Some((expected, record))) => {
            Ok(told == *expected && written == bytes_of(alloc, *record)?)
        }
        _ => Ok(false),
    }
}

fn is_so(alloc: Global, row: &Row) -> Result<bool, Fault> {
    let bytes = bytes_of(alloc, row.record)?;
    is_read_as(alloc, row, bytes.as_slice())
}

/// Whether the bytes are no record if they are cut here, and if this one of them is changed.
fn is_sealed_at(
    alloc: Global,
    version: Version,
    bytes: &mut [u8],
    at: usize,
) -> Result<bool, Fault> {
    turn(bytes, at, 2);
    let changed = read(alloc, version, bytes)?.is_none();
    turn(bytes, at, 2);
    Ok(changed && read(alloc, version, bytes.get(..at).unwrap_or(&[]))?.is_none())
}

/// Whether they are none if they are cut at each byte, and if each is changed.
fn is_sealed(alloc: Global, version: Version, bytes: &mut [u8]) -> Result<bool, Fault> {
    for at in 0..bytes.len() {
        if !is_sealed_at(alloc, version, bytes, at)? {
            return Ok(false);
        }
    }
    Ok(true)
}

#[test]
fn states_are_read_so(rt: HostRuntime) -> Result<(), Fail> {
    for row in &ROWS {
        let mut bytes = bytes_of(rt.alloc(), row.record)?;
        let is_read = is_read_as(rt.alloc(), row, bytes.as_slice());
        let is_sealed = is_sealed(rt.alloc(), row.version, bytes.as_mut_slice());
        assert!(rt;
            (is_read, is_sealed) == (Ok(true), Ok(true)),
            "{}",
            row.name
        );
    }
    Ok(())
}

#[test]
fn each_form_has_its_records(rt: HostRuntime) -> Result<(), Fail> {
    for row in &UNFIT {
        assert!(rt; is_so(rt.alloc(), row) == Ok(true), "{}", row.name);
    }
    Ok(())
}
