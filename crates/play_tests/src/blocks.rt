//! Blocks at their limit.

use crate::played::played;
use app::SHOWN;
use std::alloc::{AllocError, Global};
use std::test::Fail;

/// A block of 1 MiB is stored; one that has a byte more is not, and leaves what is there.
fn schedule(alloc: Global, block: &[u8]) -> Result<Vec<u8>, AllocError> {
    let mut text = Vec::new(alloc);
    text.extend_from_slice(b"u 0\nclients 1\nfeed 1 set a 0 0 1048576\\r\\n".as_slice())?;
    text.extend_from_slice(block)?;
    text.extend_from_slice(b"\\r\\nset a 0 0 1048577\\r\\n".as_slice())?;
    text.extend_from_slice(block)?;
    text.extend_from_slice(
        b"y\\r\\nget a\\r\\n\nsettle 100\ncut 0 1000\nsettle 100\ncut 0 1000\nsettle 100\n".as_slice(),
    )?;
    Ok(text)
}

fn lines(alloc: Global, block: &[u8]) -> Result<Vec<u8>, AllocError> {
    let mut text = Vec::new(alloc);
    text.extend_from_slice(
        b"client 1 open 1048651 STORED\\r\\nSERVER_ERROR object too large for cache\\r\\nVALUE a 0 1048576\\r\\n".as_slice(),
    )?;
    text.extend_from_slice(block)?;
    text.extend_from_slice(
        b"\\r\\nEND\\r\\n\nexecutor 0 up n 2 epoch 1 chain 0\nverifier 0 up decrees 2 view 0\n".as_slice(),
    )?;
    Ok(text)
}

#[test]
fn of_a_mebibyte(rt: HostRuntime) -> Result<(), Fail> {
    let block = vec![in rt.alloc(); b'x'; 1048576]?;
    let schedule = schedule(rt.alloc(), block.as_slice())?;
    let wanted = lines(rt.alloc(), block.as_slice())?;
    let end = played(rt.alloc(), schedule.as_slice());
    assert_eq!(rt; end.status, SHOWN);
    assert!(rt; end.out.as_slice() == wanted.as_slice());
    Ok(())
}
