//! Stores of items that keep a Merkle tree.

use crate::entries::put_into;
use crate::of_orders::{OF_ALIVE, OF_ALL};
use base::Entry;
use item_tree::ItemTree;
use items::{Item, PlainStore};
use proto::{Fault, Key};
use std::alloc::{AllocError, Global};
use std::test::Fail;
use wire::{Record, put_page, read};

/// More entries than these have no count in a text.
const MOST: usize = 1000;

/// The items 0 to 299.
fn filled(alloc: Global) -> Result<ItemTree, AllocError> {
    let mut store = ItemTree::new(alloc);
    for n in 0..300u32 {
        put_into(alloc, &mut store, n)?;
    }
    Ok(store)
}

/// The text of the page: empty for more entries than a test has.
fn text_of(alloc: Global, store: &ItemTree) -> Result<Vec<u8>, AllocError> {
    let mut text = Vec::new(alloc);
    if store.len() < MOST as u64 {
        store.put(&mut text)?;
    }
    Ok(text)
}

/// The text of a page of these entries.
fn text_of_entries(alloc: Global, entries: &[Entry<Key, Item>]) -> Result<Vec<u8>, AllocError> {
    let mut text = Vec::new(alloc);
    if entries.len() < MOST {
        put_page(entries, &mut text)?;
    }
    Ok(text)
}

/// Whether the text is that of the entries, in the order in which they are shown, behind a mark of its own.
fn has_its_text(alloc: Global, store: &ItemTree) -> Result<bool, AllocError> {
    let entries = store.entries(alloc)?;
    let text = text_of(alloc, store)?;
    let listed = text_of_entries(alloc, entries.as_slice())?;
    Ok(
        entries.len() == 300
            && text.len() > 300
            && text.as_slice().first() == Some(&6)
            && text.as_slice().get(1..) == listed.as_slice().get(1..),
    )
}

/// Whether the tree that the text is read as has the digest and the text.
fn is_read_back(alloc: Global, store: &ItemTree) -> Result<bool, Fault> {
    let text = text_of(alloc, store)?;
    let back: ItemTree = read(alloc, text.as_slice())?;
    let again = text_of(alloc, &back)?;
    Ok(back.digest() == OF_ALL && again.as_slice() == text.as_slice())
}

/// Whether the same entries in the order of their keys are no text of a tree.
fn is_refused_by_keys(alloc: Global, store: &ItemTree) -> Result<bool, AllocError> {
    let plain = store.to_plain(alloc)?;
    let mut text = text_of_entries(alloc, plain.as_slice())?;
    if let Some(mark) = text.as_mut_slice().first_mut() {
        *mark = 6;
    }
    let read: Result<ItemTree, Fault> = read(alloc, text.as_slice());
    Ok(read.is_err_and(|fault| fault == Fault::BadRecord))
}

/// The same items in another tree, by way of a sorted vector.
fn there_and_back(alloc: Global, store: &ItemTree) -> Result<ItemTree, AllocError> {
    let plain: PlainStore = store.to_plain(alloc)?;
    ItemTree::from_plain(alloc, &plain)
}

#[test]
fn a_text_has_the_entries_in_the_order_of_paths(rt: HostRuntime) -> Result<(), Fail> {
    let store = filled(rt.alloc())?;
    assert!(rt; has_its_text(rt.alloc(), &store)?);
    Ok(())
}

#[test]
fn a_text_is_read_as_the_tree(rt: HostRuntime) -> Result<(), Fail> {
    let store = filled(rt.alloc())?;
    assert!(rt; is_read_back(rt.alloc(), &store).is_ok_and(|same| same));
    assert!(rt; is_refused_by_keys(rt.alloc(), &store)?);
    Ok(())
}

#[test]
fn items_go_to_a_sorted_vector_and_back(rt: HostRuntime) -> Result<(), Fail> {
    let mut back = there_and_back(rt.alloc(), &filled(rt.alloc())?)?;
    assert!(rt; back.len() == 300);
    assert!(rt; back.digest() == OF_ALL);
    assert!(rt; back.seal() == OF_ALL);
    Ok(())
}

#[test]
fn what_is_due_is_dropped_and_counted(rt: HostRuntime) -> Result<(), Fail> {
    let mut store = filled(rt.alloc())?;
    assert!(rt; store.has_due(0));
    let dropped = store.drop_due_counted(50)?;
    assert!(rt; dropped == 17 && store.len() == 283);
    assert!(rt; !store.has_due(50) && store.has_due(51));
    assert!(rt; store.digest() == OF_ALIVE);
    Ok(())
}
