//! Replies that come for the client.

use crate::handed::Handed::{Deleted, Feed, Stored};
use crate::seen::Talk;

pub const TALKS: &[Talk] = &[
    Talk {
        name: "a_reply_is_given_once",
        u: 1,
        closes: false,
        rows: &[
            (Feed(b"delete a\r\n"), b"", b"1 delete a"),
            (Deleted(1), b"DELETED\r\n", b""),
            (Deleted(1), b"", b""),
        ],
    },
    Talk {
        name: "a_reply_of_an_older_number_gives_nothing",
        u: 1,
        closes: false,
        rows: &[
            (Feed(b"delete a\r\ndelete b\r\n"), b"", b"1 delete a"),
            (Deleted(1), b"DELETED\r\n", b"2 delete b"),
            (Stored(1), b"", b""),
            (Deleted(2), b"DELETED\r\n", b""),
        ],
    },
    Talk {
        name: "a_reply_of_a_later_number_gives_nothing",
        u: 1,
        closes: false,
        rows: &[
            (Feed(b"delete a\r\ndelete b\r\n"), b"", b"1 delete a"),
            (Stored(2), b"", b""),
            (Deleted(1), b"DELETED\r\n", b"2 delete b"),
        ],
    },
    Talk {
        name: "a_reply_where_nothing_was_asked_gives_nothing",
        u: 1,
        closes: false,
        rows: &[
            (Stored(0), b"", b""),
            (Stored(1), b"", b""),
            (Feed(b"delete a\r\n"), b"", b"1 delete a"),
        ],
    },
    Talk {
        name: "a_reply_that_is_left_out_lets_the_next_turns_go",
        u: 1,
        closes: false,
        rows: &[
            (
                Feed(b"delete a noreply\r\nfrob\r\ndelete b\r\n"),
                b"",
                b"1 delete a",
            ),
            (Deleted(1), b"ERROR\r\n", b"2 delete b"),
            (Deleted(2), b"DELETED\r\n", b""),
        ],
    },
];
