//! Pages that are written in several orders.

use crate::entries::{put_long_numbered, put_numbered, remove_numbered};
use base::Entry;
use items::Item;
use merkle::MerkleMap;
use proto::Key;
use std::alloc::{AllocError, Global};
use std::test::Fail;

/// Of the entries 0 to 299, as `scripts/page_digests` works it.
pub const OF_ALL: [u8; 32] = [
    0x7e, 0x1e, 0x23, 0x8c, 0xec, 0x61, 0x6c, 0xcd, 0xf3, 0x5a, 0x2d, 0xa1, 0x66, 0x40, 0x85, 0x6a,
    0x48, 0xf4, 0xc4, 0xab, 0x93, 0x93, 0xfa, 0x6c, 0x2d, 0x1c, 0x70, 0x53, 0x08, 0x73, 0x59, 0x35,
];

/// Of those that are alive at the moment 50.
pub const OF_ALIVE: [u8; 32] = [
    0x14, 0x97, 0x9e, 0x3c, 0x85, 0x7f, 0x63, 0xdf, 0x3c, 0xb6, 0x54, 0xad, 0xba, 0x17, 0x94, 0x48,
    0xc9, 0xd6, 0x2a, 0xf7, 0xf7, 0x78, 0x83, 0x33, 0xdd, 0x2a, 0x89, 0x35, 0x66, 0xec, 0x36, 0xc6,
];

/// Of a million entries, `m000000` to `m999999`.
pub const OF_A_MILLION: [u8; 32] = [
    0x69, 0x04, 0xf9, 0x92, 0x90, 0xde, 0x05, 0x54, 0xe9, 0x09, 0x96, 0x3a, 0x65, 0xed, 0xad, 0xa8,
    0x44, 0x6c, 0x79, 0x3b, 0x3b, 0x5b, 0xc4, 0x27, 0xa7, 0x7c, 0xe3, 0x5f, 0x2e, 0x8d, 0xd1, 0x21,
];

/// Puts the entries 0 to 299, in steps of so many.
fn put_all(alloc: Global, page: &mut MerkleMap<Key, Item>, step: u32) -> Result<(), AllocError> {
    for n in 0..300u32 {
        put_numbered(alloc, page, n.wrapping_mul(step) % 300)?;
    }
    Ok(())
}

/// Removes the entries from 300 on.
fn remove_more(alloc: Global, page: &mut MerkleMap<Key, Item>) -> Result<(), AllocError> {
    for n in 300..400u32 {
        remove_numbered(alloc, page, n)?;
    }
    Ok(())
}

fn put_more(alloc: Global, page: &mut MerkleMap<Key, Item>) -> Result<(), AllocError> {
    for n in 300..400u32 {
        put_numbered(alloc, page, n)?;
    }
    Ok(())
}

/// Whether all entries have their digest, after puts in steps of so many.
fn has_all(alloc: Global, page: &mut MerkleMap<Key, Item>, step: u32) -> Result<bool, AllocError> {
    put_all(alloc, page, step)?;
    Ok(page.seal() == OF_ALL && page.len() == 300)
}

/// Puts and removes more entries: whether the others have the digest that they had.
fn has_all_after_more(alloc: Global, page: &mut MerkleMap<Key, Item>) -> Result<bool, AllocError> {
    put_more(alloc, page)?;
    page.seal();
    remove_more(alloc, page)?;
    Ok(page.seal() == OF_ALL && page.len() == 300)
}

/// Drops what is due at 50: whether a clone keeps it.
fn clone_keeps_all(page: &mut MerkleMap<Key, Item>) -> Result<bool, AllocError> {
    let before = page.clone()?;
    let dropped = page.drop_due(50)?;
    Ok(dropped == 17 && page.seal() == OF_ALIVE && before.digest() == OF_ALL)
}

/// Whether a million entries have their digest, after puts in steps of so many.
fn has_a_million(alloc: Global, step: u32) -> Result<bool, AllocError> {
    let mut page = MerkleMap::new();
    let mut number = 0u32;
    for _ in 0..1_000_000u32 {
        put_long_numbered(alloc, &mut page, number)?;
        number = number.wrapping_add(step) % 1_000_000;
    }
    Ok(page.seal() == OF_A_MILLION && page.len() == 1_000_000)
}

/// How many entries a walk shows.
fn count_shown(alloc: Global, page: &MerkleMap<Key, Item>) -> Result<usize, AllocError> {
    let mut entries: Vec<Entry<Key, Item>> = Vec::new(alloc);
    page.walk(&mut entries)?;
    Ok(entries.len())
}

/// Whether a page can be moved to threads and shared by them: this is compiled only then.
fn crosses<T: Send + Sync>(_value: &T) -> bool {
    true
}

#[test]
fn orders_have_one_digest(rt: HostRuntime) -> Result<(), Fail> {
    let mut page = MerkleMap::new();
    assert!(rt; has_all(rt.alloc(), &mut page, 7)?);
    assert!(rt; has_all(rt.alloc(), &mut page, 1)?);
    assert!(rt; crosses(&page));
    Ok(())
}

#[test]
fn what_is_gone_leaves_no_trace(rt: HostRuntime) -> Result<(), Fail> {
    let mut page = MerkleMap::new();
    assert!(rt; has_all(rt.alloc(), &mut page, 77)?);
    assert!(rt; has_all_after_more(rt.alloc(), &mut page)?);
    assert!(rt; count_shown(rt.alloc(), &page)? == 300);
    assert!(rt; clone_keeps_all(&mut page)?);
    Ok(())
}

#[test]
fn a_million_entries_have_one_digest(rt: HostRuntime) -> Result<(), Fail> {
    assert!(rt; has_a_million(rt.alloc(), 1)?);
    assert!(rt; has_a_million(rt.alloc(), 600_011)?);
    Ok(())
}
