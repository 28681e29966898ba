//! What a client is given of a reply.

use dialect::{Notice, Show, write_shown};
use proto::{Block, Found, Key, Reply, Values};
use std::alloc::{AllocError, Global};
use std::test::Fail;

fn one_found(alloc: Global) -> Result<Values, AllocError> {
    let mut found = Vec::new(alloc);
    found.push(Found {
        key: Key::from_slice(alloc, &[b'k'])?,
        flags: 7,
        block: Block::from_slice(alloc, b"hello")?,
        unique: None,
    })?;
    Ok(Values::new(found))
}

/// Whether the reply is shown so, behind what is there.
fn is_shown(
    alloc: Global,
    reply: &Reply,
    show: &Show,
    expected: &[u8],
) -> Result<bool, AllocError> {
    let mut out = b"> ".to_vec(alloc)?;
    if write_shown(reply, show, &mut out).is_err() {
        write_shown(reply, show, &mut out)?;
    }
    Ok(out.as_slice() == expected)
}

fn are_items_shown(alloc: Global, reply: &Reply) -> Result<bool, AllocError> {
    Ok(
        is_shown(
            alloc,
            reply,
            &Show::Whole,
            b"> VALUE k 7 5\r\nhello\r\nEND\r\n",
        )? && is_shown(alloc, reply, &Show::Items, b"> VALUE k 7 5\r\nhello\r\n")?
            && is_shown(alloc, reply, &Show::Quiet, b"> ")?,
    )
}

fn is_delete_shown(alloc: Global, reply: &Reply) -> Result<bool, AllocError> {
    Ok(
        is_shown(alloc, reply, &Show::Whole, b"> DELETED\r\n")?
            && is_shown(alloc, reply, &Show::Items, b"> DELETED\r\n")?
            && is_shown(
                alloc,
                reply,
                &Show::Instead(Notice::TooLarge),
                b"> SERVER_ERROR object too large for cache\r\n",
            )?,
    )
}

#[test]
fn shows(rt: HostRuntime) -> Result<(), Fail> {
    let alloc = rt.alloc();
    assert!(rt; are_items_shown(alloc, &Reply::Values(one_found(alloc)?))?);
    assert!(rt; is_delete_shown(alloc, &Reply::Deleted)?);
    Ok(())
}
