//! Bytes that are the text of no letter.

use crate::rows::{Part, bytes_of, read_again};
use proto::Fault;
use std::alloc::Global;
use std::test::Fail;

/// From verifier 1 to verifier 0.
const NODES: &[u8] = &[2, 1, 2, 0];

/// Bytes by their parts, and why they are no letter.
type Row = (&'static str, &'static [Part<'static>]);

const ROWS: [Row; 17] = [
    ("no bytes", &[]),
    ("no receiver", &[(&[2, 1], 1)]),
    ("nothing that is said", &[(NODES, 1)]),
    (
        "a sender of no kind",
        &[(&[3, 1, 2, 0, 5, 4], 1), (&[0], 8)],
    ),
    (
        "a receiver of no kind",
        &[(&[2, 1, 3, 0, 5, 4], 1), (&[0], 8)],
    ),
    ("said in no way", &[(NODES, 1), (&[6, 4], 1), (&[0], 8)]),
    ("no kind of ballot", &[(NODES, 1), (&[5, 8], 1), (&[0], 8)]),
    (
        "no kind of decree",
        &[(NODES, 1), (&[5, 3], 1), (&[0], 8), (&[2], 1)],
    ),
    (
        "neither accepted nor not",
        &[(NODES, 1), (&[5, 6], 1), (&[0], 16), (&[2], 1), (&[0], 9)],
    ),
    (
        "a token of 31 bytes",
        &[(NODES, 1), (&[5, 0], 1), (&[0], 79)],
    ),
    (
        "a request of client 0",
        &[(NODES, 1), (&[0, 0, 0], 1), (&[1], 8), (&[8, 1, b'a'], 1)],
    ),
    (
        "a request without a number",
        &[(NODES, 1), (&[0, 0, 1], 1), (&[0], 8), (&[8, 1, b'a'], 1)],
    ),
    (
        "a batch that says it has all requests",
        &[(NODES, 1), (&[1, 4], 1), (&[1], 20), (&[255], 4)],
    ),
    (
        "a batch of number 0",
        &[
            (NODES, 1),
            (&[1, 4], 1),
            (&[1], 8),
            (&[0], 8),
            (&[1], 4),
            (&[0], 4),
        ],
    ),
    (
        "a need that says it has all digests",
        &[(NODES, 1), (&[3], 1), (&[0], 8), (&[255], 4), (&[1], 64)],
    ),
    (
        "a need of one digest",
        &[
            (NODES, 1),
            (&[3], 1),
            (&[0], 8),
            (&[0, 0, 0, 1], 1),
            (&[1], 32),
        ],
    ),
    (
        "a parcel that says it has all sessions",
        &[
            (NODES, 1),
            (&[4, 2], 1),
            (&[1], 84),
            (&[3, 255, 255, 255, 255], 1),
            (&[0], 99),
        ],
    ),
];

/// Whether the bytes are the text of no letter.
fn is_refused(alloc: Global, row: &Row) -> Result<bool, Fault> {
    let bytes = bytes_of(alloc, row.1)?;
    Ok(read_again(alloc, bytes.as_slice())?.is_none())
}

#[test]
fn what_is_no_letter_is_refused(rt: HostRuntime) -> Result<(), Fail> {
    for row in &ROWS {
        assert!(rt; is_refused(rt.alloc(), row) == Ok(true), "{}", row.0);
    }
    Ok(())
}
