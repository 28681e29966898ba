//! What closes by the client's own bytes.

use crate::handed::Handed::{Again, Deleted, Feed};
use crate::seen::Talk;

pub const TALKS: &[Talk] = &[
    Talk {
        name: "behind_a_quit_nothing_is_read",
        u: 1,
        closes: true,
        rows: &[
            (
                Feed(b"version\r\nquit\r\ndelete a\r\n"),
                b"VERSION eve-1\r\n",
                b"",
            ),
            (Feed(b"delete a\r\n"), b"", b""),
            (Again, b"", b""),
        ],
    },
    Talk {
        name: "a_bad_block_closes_with_its_text",
        u: 1,
        closes: true,
        rows: &[
            (
                Feed(b"set a 0 0 1\r\n55\r\ndelete a\r\n"),
                b"CLIENT_ERROR bad data chunk\r\n",
                b"",
            ),
            (Feed(b"delete a\r\n"), b"", b""),
        ],
    },
    Talk {
        name: "a_quit_waits_for_the_replies_before_it",
        u: 1,
        closes: false,
        rows: &[(Feed(b"delete a\r\nquit\r\n"), b"", b"1 delete a")],
    },
    Talk {
        name: "a_quit_closes_after_the_replies_before_it",
        u: 1,
        closes: true,
        rows: &[
            (Feed(b"delete a\r\nquit\r\n"), b"", b"1 delete a"),
            (Deleted(1), b"DELETED\r\n", b""),
            (Deleted(1), b"", b""),
        ],
    },
];
