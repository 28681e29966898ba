//! What the client of a meta command is given of a reply, by its line. The texts are those of memcached 1.6.18.

use crate::tell::Row;
use dialect::{Reader, Turn, write_shown};
use proto::{Block, Found, Key, Reply, Values};
use std::alloc::{AllocError, Global};
use std::test::Fail;

const OF_A_HIT: [Row; 5] = [
    (b"mg k\r\n", b"HD\r\n"),
    (b"mg k q c Ox k\r\n", b"HD c9 Ox kk\r\n"),
    (b"mg k v q\r\n", b"VA 5\r\nhello\r\n"),
    (
        b"mg k f v s k c O1\r\n",
        b"VA 5 f7 s5 kk c9 O1\r\nhello\r\n",
    ),
    (b"mg k T30 s v\r\n", b"VA 5 s5\r\nhello\r\n"),
];

const OF_A_MISS: [Row; 3] = [
    (b"mg k v f s c\r\n", b"EN\r\n"),
    (b"mg k O1 v k\r\n", b"EN O1 kk\r\n"),
    (b"mg k v q k\r\n", b""),
];

const OF_STORED: [Row; 4] = [
    (b"ms k 1 k c f O1\r\nx\r\n", b"HD kk c0 O1\r\n"),
    (b"ms k 1 q k\r\nx\r\n", b""),
    (b"md k C9 c\r\n", b"HD\r\n"),
    (b"md k C9 q\r\n", b""),
];

const OF_NOT_STORED: [Row; 2] = [
    (b"ms k 1 ME k c O1\r\nx\r\n", b"NS kk c0 O1\r\n"),
    (b"ms k 1 ME q\r\nx\r\n", b"NS\r\n"),
];

const OF_EXISTS: [Row; 3] = [
    (b"ms k 1 C7 q c\r\nx\r\n", b"EX c0\r\n"),
    (b"md k C7 k\r\n", b"EX kk\r\n"),
    (b"md k C7 q\r\n", b"EX\r\n"),
];

const OF_NOT_FOUND: [Row; 4] = [
    (b"ms k 1 C7 q c\r\nx\r\n", b"NF c0\r\n"),
    (b"md k k O1 c\r\n", b"NF kk O1\r\n"),
    (b"md k q\r\n", b"NF\r\n"),
    (b"ma k v q k\r\n", b"NF kk\r\n"),
];

const OF_DELETED: [Row; 2] = [(b"md k k O1\r\n", b"HD kk O1\r\n"), (b"md k q\r\n", b"")];

const OF_A_NUMBER: [Row; 3] = [
    (b"ma k\r\n", b"HD\r\n"),
    (b"ma k v k O1\r\n", b"VA 2 kk O1\r\n17\r\n"),
    (b"ma k v q\r\n", b""),
];

const OF_NO_NUMBER: [Row; 1] = [(
    b"ma k v q\r\n",
    b"CLIENT_ERROR cannot increment or decrement non-numeric value\r\n",
)];

const OF_TOO_LARGE: [Row; 1] = [(
    b"ms k 1 MA q\r\nx\r\n",
    b"SERVER_ERROR object too large for cache\r\n",
)];

/// Adds what is given of the reply to the one command that the line asks.
fn add_shown(
    alloc: Global,
    line: &[u8],
    reply: &Reply,
    out: &mut Vec<u8>,
) -> Result<(), AllocError> {
    for turn in &Reader::new(alloc).feed(alloc, line)? {
        if let Turn::Ask(_, show) = turn {
            write_shown(reply, show, out)?;
        }
    }
    Ok(())
}

/// Whether each line is given its text for the reply.
fn are_shown(alloc: Global, reply: &Reply, rows: &[Row]) -> Result<bool, AllocError> {
    let mut out = Vec::new(alloc);
    for (line, expected) in rows {
        out.clear();
        add_shown(alloc, *line, reply, &mut out)?;
        if out.as_slice() != *expected {
            return Ok(false);
        }
    }
    Ok(true)
}

fn hit(alloc: Global) -> Result<Reply, AllocError> {
    let mut found = Vec::new(alloc);
    found.push(Found {
        key: Key::from_slice(alloc, &[b'k'])?,
        flags: 7,
        block: Block::from_slice(alloc, b"hello")?,
        unique: Some(9),
    })?;
    Ok(Reply::Values(Values::new(found)))
}

fn miss(alloc: Global) -> Reply {
    Reply::Values(Values::new(Vec::new(alloc)))
}

fn reads(alloc: Global) -> Result<bool, AllocError> {
    Ok(
        are_shown(alloc, &hit(alloc)?, OF_A_HIT.as_slice())?
            && are_shown(alloc, &miss(alloc), OF_A_MISS.as_slice())?,
    )
}

fn stores(alloc: Global) -> Result<bool, AllocError> {
    Ok(
        are_shown(alloc, &Reply::Stored, OF_STORED.as_slice())?
            && are_shown(alloc, &Reply::NotStored, OF_NOT_STORED.as_slice())?
            && are_shown(alloc, &Reply::TooLarge, OF_TOO_LARGE.as_slice())?,
    )
}

fn removals(alloc: Global) -> Result<bool, AllocError> {
    Ok(
        are_shown(alloc, &Reply::Exists, OF_EXISTS.as_slice())?
            && are_shown(alloc, &Reply::NotFound, OF_NOT_FOUND.as_slice())?
            && are_shown(alloc, &Reply::Deleted, OF_DELETED.as_slice())?,
    )
}

fn counts(alloc: Global) -> Result<bool, AllocError> {
    Ok(
        are_shown(alloc, &Reply::Number(17), OF_A_NUMBER.as_slice())?
            && are_shown(alloc, &Reply::NotNumber, OF_NO_NUMBER.as_slice())?,
    )
}

#[test]
fn replies_are_shown_so(rt: HostRuntime) -> Result<(), Fail> {
    let alloc = rt.alloc();
    let shown = [
        ("reads", reads(alloc)?),
        ("stores", stores(alloc)?),
        ("removals", removals(alloc)?),
        ("counts", counts(alloc)?),
    ];
    for (name, is_so) in &shown {
        assert!(rt; *is_so, "{name}");
    }
    Ok(())
}
