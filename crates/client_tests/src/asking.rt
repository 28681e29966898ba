//! Commands of the client's bytes.

use crate::handed::Handed::{Deleted, Feed, Found, Stored};
use crate::seen::Talk;

pub const TALKS: &[Talk] = &[
    Talk {
        name: "a_command_is_asked_of_each_executor",
        u: 1,
        closes: false,
        rows: &[(Feed(b"get a b\r\n"), b"", b"1 get a b")],
    },
    Talk {
        name: "where_none_may_fail_there_is_one_executor",
        u: 0,
        closes: false,
        rows: &[(Feed(b"get a\r\n"), b"", b"1 get a")],
    },
    Talk {
        name: "where_three_may_fail_there_are_seven_executors",
        u: 3,
        closes: false,
        rows: &[(Feed(b"get a\r\n"), b"", b"1 get a")],
    },
    Talk {
        name: "half_a_command_is_asked_when_its_rest_comes",
        u: 1,
        closes: false,
        rows: &[
            (Feed(b"se"), b"", b""),
            (Feed(b"t a 0 0 1\r\n"), b"", b""),
            (Feed(b"5\r"), b"", b""),
            (Feed(b"\nge"), b"", b"1 set a 5"),
        ],
    },
    Talk {
        name: "commands_of_one_piece_are_asked_one_after_the_other",
        u: 1,
        closes: false,
        rows: &[
            (
                Feed(b"set a 0 0 1\r\n5\r\nget a\r\ndelete a\r\n"),
                b"",
                b"1 set a 5",
            ),
            (Stored(1), b"STORED\r\n", b"2 get a"),
            (Found(2), b"VALUE a 0 1\r\n5\r\nEND\r\n", b"3 delete a"),
            (Deleted(3), b"DELETED\r\n", b""),
        ],
    },
    Talk {
        name: "a_command_waits_while_one_is_outstanding",
        u: 1,
        closes: false,
        rows: &[
            (Feed(b"delete a\r\n"), b"", b"1 delete a"),
            (Feed(b"delete b\r\n"), b"", b""),
            (Feed(b"delete c\r\n"), b"", b""),
            (Deleted(1), b"DELETED\r\n", b"2 delete b"),
            (Deleted(2), b"DELETED\r\n", b"3 delete c"),
        ],
    },
];
