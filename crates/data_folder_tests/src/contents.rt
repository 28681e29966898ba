//! What items a state has.

use base::Entry;
use items::Item;
use proto::Key;
use states::State;
use std::alloc::{AllocError, Global};
use token::PAGES;

/// What items there are.
#[derive(Clone, Copy, Debug, PartialEq, Eq)]
pub struct Content {
    /// The items `a` to `e`: the first byte of each, or `-` if it is not there.
    pub first: [u8; 5],
    /// How many others there are.
    pub others: u64,
}

impl Content {
    /// No items.
    pub const NONE: Content = Content {
        first: *b"-----",
        others: 0,
    };
}

/// Which of the items `a` to `e` has this key. `None`: it is another one.
fn place_of(key: &Key) -> Option<usize> {
    if key.as_slice().len() != 1 {
        return None;
    }
    let name = *key.as_slice().first()?;
    Some(usize::from(name.checked_sub(b'a')?))
}

/// The first byte of an item. It is 0 if there is none.
fn first_of(item: &Item) -> u8 {
    item.block.as_slice().first().copied().unwrap_or(0)
}

/// Notes one item.
fn note(content: &mut Content, entry: &Entry<Key, Item>) {
    match place_of(entry.key()) {
        Some(place) if place < 5 => content.first[place] = first_of(entry.value()),
        _ => content.others = content.others.wrapping_add(1),
    }
}

/// Notes these items.
fn note_all(content: &mut Content, entries: &[Entry<Key, Item>]) {
    for entry in entries {
        note(content, entry);
    }
}

/// What items the state has.
pub fn content_of(alloc: Global, state: &State) -> Result<Content, AllocError> {
    let mut content = Content::NONE;
    for number in 0..PAGES {
        let entries = state.pages().entries(alloc, number)?;
        note_all(&mut content, &entries);
    }
    Ok(content)
}
