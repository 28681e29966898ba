//! Lines that are answered without an executor.

use crate::handed::Handed::{Deleted, Feed};
use crate::seen::Talk;

pub const TALKS: &[Talk] = &[
    Talk {
        name: "a_line_that_is_no_command_is_answered_at_once",
        u: 1,
        closes: false,
        rows: &[(
            Feed(b"frob\r\nversion\r\n"),
            b"ERROR\r\nVERSION eve-1\r\n",
            b"",
        )],
    },
    Talk {
        name: "a_line_that_is_no_command_takes_no_number",
        u: 1,
        closes: false,
        rows: &[(Feed(b"frob\r\ndelete a\r\n"), b"ERROR\r\n", b"1 delete a")],
    },
    Talk {
        name: "a_text_waits_for_the_replies_before_it",
        u: 1,
        closes: false,
        rows: &[
            (
                Feed(b"delete a\r\nfrob\r\ndelete b\r\n"),
                b"",
                b"1 delete a",
            ),
            (Feed(b"version\r\n"), b"", b""),
            (Deleted(1), b"DELETED\r\nERROR\r\n", b"2 delete b"),
            (Deleted(2), b"DELETED\r\nVERSION eve-1\r\n", b""),
        ],
    },
];
