//! Requests of a batch, and the groups in which they run.

use item_steps::Group;
use mixer::mix;
use proto::{Reader, Turn};
use sessions::Request;
use std::alloc::{AllocError, Global};
use std::test::Fail;

/// Adds a request for each of these commands.
fn add_requests(turns: &[Turn], requests: &mut Vec<Request>) -> Result<(), AllocError> {
    for turn in turns {
        if let Turn::Ask(command, _) = turn {
            requests.push(Request {
                client: 1,
                number: 1,
                command: command.clone()?,
            })?;
        }
    }
    Ok(())
}

/// Adds the places of each group, and a bar after each.
fn add_places(groups: &[Group], out: &mut Vec<u8>) -> Result<(), AllocError> {
    for group in groups {
        for task in group.as_slice() {
            out.push(b"0123456789"[(task.place % 10) as usize])?;
        }
        out.push(b'|')?;
    }
    Ok(())
}

/// Whether the requests, of which there are nine at most, are mixed into these groups, by their places.
fn mixes(alloc: Global, requests: &[Request], groups: &[u8]) -> Result<bool, AllocError> {
    if requests.len() > 9 {
        return Ok(false);
    }
    let mut out = Vec::new(alloc);
    add_places(mix(alloc, requests)?.as_slice(), &mut out)?;
    Ok(out.as_slice() == groups)
}

/// The same of requests that ask these lines.
fn is_mixed(alloc: Global, lines: &[u8], groups: &[u8]) -> Result<bool, AllocError> {
    let turns = Reader::new(alloc).feed(alloc, lines)?;
    let mut requests = Vec::new(alloc);
    add_requests(turns.as_slice(), &mut requests)?;
    mixes(alloc, requests.as_slice(), groups)
}

/// What the requests ask, and their groups.
const ROWS: [(&[u8], &[u8]); 9] = [
    // Each request comes after those that it conflicts with.
    (
        b"set a 0 0 0\r\n\r\nget a b\r\nset b 0 0 0\r\n\r\nget c\r\n",
        b"03|1|2|",
    ),
    // A conflict on a third key is overlooked.
    (b"get x y c\r\nset c 0 0 0\r\n\r\n", b"01|"),
    // A gat conflicts with what has its key.
    (b"gat 5 a b\r\nget b\r\n", b"0|1|"),
    (b"get a\r\ngats 5 a b\r\n", b"0|1|"),
    (b"gat 5 a\r\ngat 5 a\r\n", b"0|1|"),
    (b"gats 5 n\r\nincr n 1\r\n", b"0|1|"),
    (b"gat 5 x y c\r\nget c\r\n", b"01|"),
    (b"gat 5 a\r\ngats 5 b\r\n", b"01|"),
    // Two counts of one key are apart.
    (b"incr n 1\r\nincr n 1\r\n", b"0|1|"),
];

#[test]
fn groups_of_requests(rt: HostRuntime) -> Result<(), Fail> {
    for (place, (lines, groups)) in ROWS.iter().enumerate() {
        assert!(rt; is_mixed(rt.alloc(), *lines, *groups)?, "row {place}");
    }
    Ok(())
}
