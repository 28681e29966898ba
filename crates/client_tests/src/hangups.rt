//! Connections that end.

use crate::handed::Handed::{Again, Deleted, Feed, Hangup};
use crate::seen::Talk;

pub const TALKS: &[Talk] = &[
    Talk {
        name: "what_waits_at_a_hangup_is_let_go",
        u: 1,
        closes: true,
        rows: &[
            (
                Feed(b"delete a\r\nfrob\r\ndelete b\r\n"),
                b"",
                b"1 delete a",
            ),
            (Hangup, b"", b""),
            (Deleted(1), b"", b""),
            (Again, b"", b""),
        ],
    },
    Talk {
        name: "after_a_hangup_nothing_is_read",
        u: 1,
        closes: true,
        rows: &[
            (Feed(b"delete"), b"", b""),
            (Hangup, b"", b""),
            (Feed(b" a\r\ndelete b\r\nfrob\r\n"), b"", b""),
            (Hangup, b"", b""),
        ],
    },
];
