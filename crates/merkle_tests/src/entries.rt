ghost use Rattle.std.specs.Prelude.{◌≤◌, length};

use items::{Item, Store};
use merkle::MerkleMap;
use proto::{Block, Key, is_key_text};
use std::alloc::{AllocError, Global};

/// The key of these bytes, or `k` if they are none.
pub fn key(alloc: Global, bytes: &[u8]) -> Result<Key, AllocError> {
    if is_key_text(bytes) {
        return Ok(Key::from_slice(alloc, bytes)?);
    }
    Ok(Key::from_slice(alloc, &[b'k'])?)
}

pub fn item(
    alloc: Global,
    bytes: &[u8],
    flags: u32,
    due: Option<u64>,
    unique: u64,
) -> Result<Item, AllocError>
    requires { length bytes.now ≤ 16 }
{
    Ok(Item {
        block: Block::from_slice(alloc, bytes)?,
        flags,
        due,
        unique,
    })
}

fn digit(number: u32) -> u8 {
    b'0' + (number % 10) as u8
}

/// The key of a number: `n000`, `n001` and so on.
pub fn numbered_key(alloc: Global, number: u32) -> Result<Key, AllocError> {
    let bytes = [b'n', digit(number / 100), digit(number / 10), digit(number)];
    key(alloc, bytes.as_slice())
}

/// The key of a number below 1,000,000: `m000000`, `m000001` and so on.
fn long_key(alloc: Global, number: u32) -> Result<Key, AllocError> {
    let high = [
        digit(number / 100_000),
        digit(number / 10_000),
        digit(number / 1_000),
    ];
    let low = [digit(number / 100), digit(number / 10), digit(number)];
    let bytes = [b'm', high[0], high[1], high[2], low[0], low[1], low[2]];
    key(alloc, bytes.as_slice())
}

/// The item of a number. Every third is due at the moment of its number.
fn numbered_item(alloc: Global, number: u32) -> Result<Item, AllocError> {
    let due = if number % 3 == 0 {
        Some(number as u64)
    } else {
        None
    };
    let data = number.to_be_bytes();
    item(alloc, data.as_slice(), number, due, number as u64)
}

pub fn put_numbered(
    alloc: Global,
    page: &mut MerkleMap<Key, Item>,
    number: u32,
) -> Result<(), AllocError> {
    let key = numbered_key(alloc, number)?;
    page.put(alloc, key, numbered_item(alloc, number)?)
}

/// Puts the item of a number below 1,000,000 under its long key.
pub fn put_long_numbered(
    alloc: Global,
    page: &mut MerkleMap<Key, Item>,
    number: u32,
) -> Result<(), AllocError> {
    let key = long_key(alloc, number)?;
    page.put(alloc, key, numbered_item(alloc, number)?)
}

/// Puts the item of a number into a store.
pub fn put_into<S: Store>(alloc: Global, store: &mut S, number: u32) -> Result<(), AllocError> {
    store.put(numbered_key(alloc, number)?, numbered_item(alloc, number)?)
}

pub fn remove_numbered(
    alloc: Global,
    page: &mut MerkleMap<Key, Item>,
    number: u32,
) -> Result<(), AllocError> {
    page.remove(&numbered_key(alloc, number)?)
}
