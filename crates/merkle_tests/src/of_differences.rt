//! What differs between two maps, beside a plain comparison of all their entries.

use crate::entries::{item, numbered_key, put_numbered, remove_numbered};
use base::Entry;
use item_tree::are_same;
use items::Item;
use merkle::{MerkleMap, TreeKey};
use proto::Key;
use std::alloc::{AllocError, Global};
use std::test::Fail;

/// By so many first bits of paths entries come together.
const FRONT: u32 = 4;

/// So many items are in a map.
const ITEMS: u32 = 60;

/// The next number at random.
fn drawn(seed: &mut u32) -> u32 {
    *seed = seed.wrapping_mul(1_664_525).wrapping_add(1_013_904_223);
    *seed >> 16
}

/// The first items.
fn filled(alloc: Global) -> Result<MerkleMap<Key, Item>, AllocError> {
    let mut map = MerkleMap::new();
    for number in 0..ITEMS {
        put_numbered(alloc, &mut map, number)?;
    }
    Ok(map)
}

/// Removes an item, or puts another one in its place.
fn change(alloc: Global, map: &mut MerkleMap<Key, Item>, seed: &mut u32) -> Result<(), AllocError> {
    let number = drawn(seed) % ITEMS;
    let flags = drawn(seed);
    if flags % 3 == 0 {
        return remove_numbered(alloc, map, number);
    }
    let other = item(alloc, &[1, 2], flags, None, 7)?;
    map.put(alloc, numbered_key(alloc, number)?, other)
}

/// The map after so many changes. After an odd number of them its digest is not cached.
fn changed(
    alloc: Global,
    old: &MerkleMap<Key, Item>,
    seed: &mut u32,
    changes: u32,
) -> Result<MerkleMap<Key, Item>, AllocError> {
    let mut new = old.clone()?;
    for _ in 0..changes {
        change(alloc, &mut new, seed)?;
    }
    if changes % 2 == 0 {
        new.seal();
    }
    Ok(new)
}

/// The first bits of the path.
fn front_of(entry: &Entry<Key, Item>) -> u8 {
    entry.key().hash()[0] >> 4
}

/// Marks the first bits of the entries' paths.
fn mark(shown: &mut [bool; 256], entries: &[Entry<Key, Item>]) {
    for entry in entries {
        shown[front_of(entry) as usize] = true;
    }
}

/// The entries of the map whose first bits are marked, or the others.
fn marked(
    alloc: Global,
    map: &MerkleMap<Key, Item>,
    shown: &[bool; 256],
    is_shown: bool,
) -> Result<Vec<Entry<Key, Item>>, AllocError> {
    let mut entries = Vec::new(alloc);
    map.walk(&mut entries)?;
    let mut found = Vec::new(alloc);
    for entry in entries.as_slice() {
        if shown[front_of(entry) as usize] == is_shown {
            found.push(entry.clone()?)?;
        }
    }
    Ok(found)
}

/// Whether these are all entries of both maps with some first bits, so many at most, and those with others are the same
/// in both.
fn are_differences(
    alloc: Global,
    old: &MerkleMap<Key, Item>,
    new: &MerkleMap<Key, Item>,
    most: usize,
) -> Result<bool, AllocError> {
    let (before, now) = old.differences(alloc, new, FRONT)?;
    let mut shown = [false; 256];
    mark(&mut shown, before.as_slice());
    mark(&mut shown, now.as_slice());
    let old_shown = marked(alloc, old, &shown, true)?;
    let new_shown = marked(alloc, new, &shown, true)?;
    let old_rest = marked(alloc, old, &shown, false)?;
    let new_rest = marked(alloc, new, &shown, false)?;
    Ok(
        before.len().max(now.len()) <= most
            && are_same(before.as_slice(), old_shown.as_slice())
            && are_same(now.as_slice(), new_shown.as_slice())
            && are_same(old_rest.as_slice(), new_rest.as_slice()),
    )
}

/// Whether this is so of maps that are up to seven changes apart. Some four entries begin alike.
fn are_all_differences(alloc: Global) -> Result<bool, AllocError> {
    let mut old = filled(alloc)?;
    old.seal();
    let mut seed = 1;
    for round in 0..16u32 {
        let changes = round % 8;
        let new = changed(alloc, &old, &mut seed, changes)?;
        if !are_differences(alloc, &old, &new, 12 * changes as usize)? {
            return Ok(false);
        }
        old = new;
        old.seal();
    }
    Ok(true)
}

/// Whether all comes of a map beside one without keys.
fn are_all_of_one(alloc: Global) -> Result<bool, AllocError> {
    let (empty, all) = (MerkleMap::new(), filled(alloc)?);
    let (before, now) = empty.differences(alloc, &all, FRONT)?;
    let (now_before, nothing) = all.differences(alloc, &empty, FRONT)?;
    Ok(
        before.is_empty()
            && nothing.is_empty()
            && now.len() == ITEMS as usize
            && now_before.len() == ITEMS as usize,
    )
}

#[test]
fn what_differs_comes_with_all_that_begins_alike(rt: HostRuntime) -> Result<(), Fail> {
    assert!(rt; are_all_differences(rt.alloc())?);
    assert!(rt; are_all_of_one(rt.alloc())?);
    Ok(())
}
