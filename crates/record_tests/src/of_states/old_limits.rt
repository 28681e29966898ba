//! How long the blocks of a state of version 1 may be, which are those of its items and those that it
//! keeps for clients: 65,536 bytes. Tokens are those of another program.

use super::*;

/// A batch whose digest is 32 nines, and its moment.
const OF_NINES: &[Part<'static>] = &[(&[9], 32), (&[0, 0, 3, 232], 1)];

/// A block of 65,536 bytes, and one that is a byte longer.
const AT_LIMIT: &[Part<'static>] = &[(&[0, 1, 0, 0], 1), (&[b'x'], 65_536)];

const LONGER: &[Part<'static>] = &[(&[0, 1, 0, 1], 1), (&[b'x'], 65_537)];

/// Sessions in which client 1 found a block at `a`.
const FOUND: Part<'static> = (
    &[
        3, 0, 0, 0, 1, 0, 1, 0, 0, 0, 0, 0, 0, 0, 1, 7, 0, 0, 0, 1, 1, b'a', 0, 0, 0, 0,
    ],
    1,
);

/// An item at `a` with a block, and no sessions. It is on page 33 of 64, and on page 97 of 256.
const ITEM: Part<'static> = (
    &[
        0, 0, 0, 0, 1, 1, b'a', 0, 0, 0, 0, 0, 0, 0, 0, 0, 0, 0, 0, 64,
    ],
    1,
);

const NO_SESSIONS: Part<'static> = (&[3, 0, 0, 0, 0], 1);

/// After a block that was found: it has no unique. No page has an item.
const OLD_NONE: &[Part<'static>] = &[(&[0], 1), (&[0; 5], 64)];

const NONE: &[Part<'static>] = &[(&[0], 1), (&[0; 5], 256)];

/// The pages after a block that is stored.
const OLD_OTHERS: &[Part<'static>] = &[(&[0; 5], 30)];

const OTHERS: &[Part<'static>] = &[(&[0; 5], 158)];

const KEPT_AT_LIMIT: [u8; 32] = [
    0x27, 0xf6, 0xf4, 0x8e, 0x74, 0x41, 0x00, 0x9a, 0x24, 0xdb, 0x86, 0x79, 0x3a, 0x05, 0x9a, 0xdf,
    0x37, 0xd2, 0x89, 0x76, 0x00, 0xa6, 0xec, 0xb4, 0x1b, 0xdd, 0x99, 0x6d, 0x9c, 0x07, 0x8c, 0x5d,
];

const KEPT_LONGER: [u8; 32] = [
    0x06, 0xd6, 0xc8, 0x7f, 0x4a, 0xaa, 0x85, 0x1d, 0xe9, 0x37, 0xac, 0x18, 0x65, 0xa9, 0x95, 0xcd,
    0xea, 0x2f, 0x26, 0x7b, 0x26, 0x2d, 0x44, 0x31, 0xa8, 0x90, 0x1e, 0x7b, 0xe4, 0xa4, 0x7c, 0xb7,
];

const KEPT_TODAY: [u8; 32] = [
    0xb0, 0xd1, 0x7b, 0x4a, 0xc7, 0x18, 0x55, 0x39, 0x9a, 0x5c, 0x14, 0x85, 0xc6, 0x29, 0x6a, 0xf2,
    0xbd, 0x89, 0xe8, 0xf4, 0x21, 0x7f, 0x8f, 0xfd, 0x31, 0x52, 0xb7, 0x07, 0x51, 0x18, 0x82, 0x81,
];

const STORED_AT_LIMIT: [u8; 32] = [
    0x8d, 0x04, 0x01, 0xa5, 0x18, 0x39, 0xc2, 0xac, 0x0e, 0x35, 0x3c, 0xe9, 0x0a, 0x7b, 0xf0, 0xc3,
    0x91, 0xc4, 0xea, 0xc6, 0xfd, 0x6a, 0x26, 0x75, 0x28, 0xbe, 0xd9, 0x37, 0xf4, 0x1e, 0x74, 0x79,
];

const STORED_LONGER: [u8; 32] = [
    0x13, 0xbf, 0x41, 0x13, 0xad, 0x60, 0xea, 0x5b, 0x01, 0xe9, 0x65, 0xf4, 0x5c, 0xf3, 0x7e, 0x96,
    0x42, 0x2a, 0xe2, 0x24, 0xc4, 0x69, 0x65, 0xe8, 0x6d, 0x29, 0xbf, 0x78, 0x51, 0x07, 0x79, 0x10,
];

const STORED_TODAY: [u8; 32] = [
    0xc6, 0x47, 0x4a, 0x83, 0x2f, 0xcd, 0xe8, 0xbb, 0x09, 0x12, 0x72, 0xc0, 0x35, 0xac, 0x7b, 0x1e,
    0xbd, 0x75, 0x59, 0x2e, 0x69, 0x67, 0x96, 0x91, 0xf5, 0xa1, 0xa5, 0x0f, 0x19, 0x65, 0x35, 0x4b,
];

/// Records of today with the longer block.
const KEPT_NOW: Record = &[
    &[(&[2], 1)],
    AFTER_1,
    OF_NINES,
    &[(&KEPT_TODAY, 1), FOUND],
    LONGER,
    NONE,
];

const STORED_NOW: Record = &[
    &[(&[2], 1)],
    AFTER_1,
    OF_NINES,
    &[(&STORED_TODAY, 1), NO_SESSIONS, (&[0; 5], 97), ITEM],
    LONGER,
    OTHERS,
];

const ROWS: [Row; 6] = [
    Row {
        name: "what_an_old_state_keeps_for_clients_is_limited: 65,536",
        version: Version::First,
        record: &[
            AFTER_1,
            OF_NINES,
            &[(&KEPT_AT_LIMIT, 1), FOUND],
            AT_LIMIT,
            OLD_NONE,
        ],
        read: Some((
            (1, KEPT_AT_LIMIT, Form::Old),
            &[
                &[(&[1], 1)],
                AFTER_1,
                OF_NINES,
                &[(&KEPT_AT_LIMIT, 1), FOUND],
                AT_LIMIT,
                NONE,
            ],
        )),
    },
    Row {
        name: "what_an_old_state_keeps_for_clients_is_limited: 65,537",
        version: Version::First,
        record: &[
            AFTER_1,
            OF_NINES,
            &[(&KEPT_LONGER, 1), FOUND],
            LONGER,
            OLD_NONE,
        ],
        read: None,
    },
    Row {
        name: "what_an_old_state_keeps_for_clients_is_limited: 65,537 today",
        version: Version::Second,
        record: KEPT_NOW,
        read: Some(((1, KEPT_TODAY, Form::Current), KEPT_NOW)),
    },
    Row {
        name: "what_an_old_state_stores_is_limited: 65,536",
        version: Version::First,
        record: &[
            AFTER_1,
            OF_NINES,
            &[(&STORED_AT_LIMIT, 1), NO_SESSIONS, (&[0; 5], 33), ITEM],
            AT_LIMIT,
            OLD_OTHERS,
        ],
        read: Some((
            (1, STORED_AT_LIMIT, Form::Old),
            &[
                &[(&[1], 1)],
                AFTER_1,
                OF_NINES,
                &[(&STORED_AT_LIMIT, 1), NO_SESSIONS, (&[0; 5], 97), ITEM],
                AT_LIMIT,
                OTHERS,
            ],
        )),
    },
    Row {
        name: "what_an_old_state_stores_is_limited: 65,537",
        version: Version::First,
        record: &[
            AFTER_1,
            OF_NINES,
            &[(&STORED_LONGER, 1), NO_SESSIONS, (&[0; 5], 33), ITEM],
            LONGER,
            OLD_OTHERS,
        ],
        read: None,
    },
    Row {
        name: "what_an_old_state_stores_is_limited: 65,537 today",
        version: Version::Second,
        record: STORED_NOW,
        read: Some(((1, STORED_TODAY, Form::Current), STORED_NOW)),
    },
];

#[test]
fn old_states_have_blocks_of_65536_bytes_at_most(rt: HostRuntime) -> Result<(), Fail> {
    for row in &ROWS {
        assert!(rt; is_so(rt.alloc(), row) == Ok(true), "{}", row.name);
    }
    Ok(())
}
