//! Each rule, if an allocation of `handle` fails: it is `NoMemory`, and the client's part is stopped and gives
//! nothing more. A row ends at the first allocation that failed. `scripts/refusals` has each fail in turn.

use crate::handed::Handed::{Again, Deleted, Feed, Found, Hangup, Stored};
use crate::seen::{Talk, is_held};
use proto::Fault;
use std::test::Fail;

const EACH_LINE: Talk = Talk {
    name: "each line",
    u: 1,
    closes: true,
    rows: &[
        (Feed(b"frob\r\nset a 0 0 1\r\n5"), b"ERROR\r\n", b""),
        (
            Feed(b"\r\nget a\r\ndelete a noreply\r\n"),
            b"",
            b"1 set a 5",
        ),
        (Again, b"", b"1 set a 5"),
        (Stored(1), b"STORED\r\n", b"2 get a"),
        (Found(2), b"VALUE a 0 1\r\n5\r\nEND\r\n", b"3 delete a"),
        (Deleted(3), b"", b""),
        (Hangup, b"", b""),
    ],
};

#[test]
fn each_line_answers_with_ample_memory(rt: HostRuntime) -> Result<(), Fail> {
    assert!(rt; is_held(rt.alloc(), &EACH_LINE) == Ok(()));
    Ok(())
}

#[test]
fn a_refused_growth_stops_it(rt: HostRuntime) -> Result<(), Fail> {
    let row = is_held(rt.alloc(), &EACH_LINE);
    assert!(rt; row == Ok(()) || row == Err(Fault::NoMemory));
    Ok(())
}
