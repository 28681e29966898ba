//! Requests that are asked once more.

use crate::handed::Handed::{Again, Deleted, Feed};
use crate::seen::Talk;

pub const TALKS: &[Talk] = &[
    Talk {
        name: "what_is_outstanding_is_asked_again",
        u: 1,
        closes: false,
        rows: &[
            (Feed(b"delete a\r\ndelete b\r\n"), b"", b"1 delete a"),
            (Again, b"", b"1 delete a"),
            (Deleted(1), b"DELETED\r\n", b"2 delete b"),
            (Again, b"", b"2 delete b"),
            (Again, b"", b"2 delete b"),
            (Deleted(2), b"DELETED\r\n", b""),
        ],
    },
    Talk {
        name: "where_all_is_answered_nothing_is_asked_again",
        u: 1,
        closes: false,
        rows: &[
            (Again, b"", b""),
            (Feed(b"delete a\r\n"), b"", b"1 delete a"),
            (Deleted(1), b"DELETED\r\n", b""),
            (Again, b"", b""),
        ],
    },
];
