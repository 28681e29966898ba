//! Keys, items and random changes of stores.

use items::{Item, PlainStore, Store};
use pages::{Layout, Pages, Snapshot};
use proto::{Block, Key, is_key_text};
use rand_core::utils::NextWord;
use rand_pcg::Lcg64Xsh32;
use std::alloc::{AllocError, Global};

/// The key of these bytes, or else `k`.
pub fn key(alloc: Global, bytes: &[u8]) -> Result<Key, AllocError> {
    if is_key_text(bytes) {
        return Ok(Key::from_slice(alloc, bytes)?);
    }
    Ok(Key::from_slice(alloc, &[b'k'])?)
}

/// An item of these data, of which there are 16 bytes at most.
pub fn item(
    alloc: Global,
    data: &[u8],
    flags: u32,
    due: Option<u64>,
    unique: u64,
) -> Result<Item, AllocError> {
    let (data, _) = data.split_at(data.len().min(16));
    Ok(Item {
        block: Block::from_slice(alloc, data)?,
        flags,
        due,
        unique,
    })
}

/// Puts an item of the data `5` at the key of these bytes.
pub fn put_five<S: Store>(
    alloc: Global,
    store: &mut S,
    bytes: &[u8],
    flags: u32,
    due: Option<u64>,
) -> Result<(), AllocError> {
    store.put(key(alloc, bytes)?, item(alloc, b"5", flags, due, 64)?)
}

/// One of 192 keys of two bytes, which are on all pages.
fn any_key(alloc: Global, words: &mut Lcg64Xsh32) -> Result<Key, AllocError> {
    let word = words.next_word();
    key(
        alloc,
        &[b'a' + (word % 3) as u8, b'0' + (word / 8 % 64) as u8],
    )
}

pub fn any_item(alloc: Global, words: &mut Lcg64Xsh32) -> Result<Item, AllocError> {
    let word = words.next_word();
    let bytes = word.to_be_bytes();
    let flags = words.next_word();
    let due = if word % 3 == 0 {
        Some(u64::from(words.next_word() % 4000))
    } else {
        None
    };
    let unique = u64::from(words.next_word());
    item(alloc, &bytes[..(word % 5) as usize], flags, due, unique)
}

/// Makes a random change: puts an item, removes a key, or drops what is due.
fn change<S: Store>(
    alloc: Global,
    words: &mut Lcg64Xsh32,
    store: &mut S,
) -> Result<(), AllocError> {
    let word = words.next_word() % 20;
    if word < 14 {
        store.put(any_key(alloc, words)?, any_item(alloc, words)?)
    } else if word < 19 {
        store.remove(&any_key(alloc, words)?)
    } else {
        store.drop_due(words.next_word() % 1000)
    }
}

/// Pages that are kept, and a plain store of the same items.
pub type State = (Snapshot, PlainStore);

/// The plain store after the change that these words tell.
fn changed_plain(
    alloc: Global,
    words: &mut Lcg64Xsh32,
    plain: &PlainStore,
) -> Result<PlainStore, AllocError> {
    let mut after = plain.clone()?;
    change(alloc, words, &mut after)?;
    Ok(after)
}

/// The state after a random change, in this layout. The one before it is kept.
pub fn changed(
    alloc: Global,
    words: &mut Lcg64Xsh32,
    state: &State,
    layout: Layout,
) -> Result<State, AllocError> {
    let after = changed_plain(alloc, &mut words.clone()?, &state.1)?;
    let mut pages = state.0.open()?;
    change(alloc, words, &mut pages)?;
    Ok((pages.seal(layout)?, after))
}

/// The state without items, in this layout.
pub fn new_state(alloc: Global, layout: Layout) -> Result<State, AllocError> {
    Ok((Pages::new(alloc)?.seal(layout)?, PlainStore::new(alloc)))
}

/// One of 1,000 keys, each of the page 236.
pub fn nth_key(n: u32) -> [u8; 4] {
    let digits = [n / 100 % 10, n / 10 % 10, n % 10];
    let last = 92 - digits[0] - digits[1] - digits[2];
    [
        b'0' + digits[0] as u8,
        b'0' + digits[1] as u8,
        b'0' + digits[2] as u8,
        last as u8,
    ]
}

/// Puts the item of a number at the key of these bytes. Of the numbers that are multiples of 3 each has an
/// item that is due at it.
fn put_number<S: Store>(
    alloc: Global,
    store: &mut S,
    bytes: &[u8],
    n: u32,
) -> Result<(), AllocError> {
    let number = u64::from(n);
    let due = if n % 3 == 0 { Some(number) } else { None };
    let key = key(alloc, bytes)?;
    store.put(key, item(alloc, &n.to_be_bytes(), n, due, number)?)
}

/// Puts the item of a number at a key of page 236.
pub fn put_on_236<S: Store>(alloc: Global, store: &mut S, n: u32) -> Result<(), AllocError> {
    put_number(alloc, store, &nth_key(n), n)
}

/// Puts two items of a number: one on page 236, and one at one of 192 keys, which are on all pages.
pub fn put_numbered<S: Store>(alloc: Global, store: &mut S, n: u32) -> Result<(), AllocError> {
    put_on_236(alloc, store, n)?;
    let bytes = [b'a' + (n % 3) as u8, b'0' + (n / 3 % 64) as u8];
    put_number(alloc, store, &bytes, n)
}

/// Three items of page 97: their keys, data, flags, due times and uniques. In the order of their keys they
/// are the first, the third and the second; in the order of their paths the second, the third and the first.
const ROWS_OF_97: [(&[u8], &[u8], u32, Option<u64>, u64); 3] = [
    (b"a", b"x", 0, None, 1),
    (b"~~e", b"", 7, Some(2592000), 2),
    (b"x~k", b"\r\n", u32::MAX, Some(1), u64::MAX),
];

/// Puts so many of them, from this place on, which begins at 0.
pub fn put_rows<S: Store>(
    alloc: Global,
    store: &mut S,
    from: usize,
    count: usize,
) -> Result<(), AllocError> {
    for (bytes, data, flags, due, unique) in ROWS_OF_97.iter().skip(from).take(count) {
        let key = key(alloc, *bytes)?;
        store.put(key, item(alloc, *data, *flags, *due, *unique)?)?;
    }
    Ok(())
}
