//! Commands over numbered items.

use crate::plan::KeyKind;
use proto::{Block, Command, Fault, Key, Keys, MOST_BLOCK_BYTES, StoreVerb, Update, is_key_text};
use rand_core::SeedableRng;
use rand_core::utils::NextWord;
use rand_pcg::Lcg64Xsh32;
use std::alloc::{AllocError, Global};

const HEX: &[u8; 16] = b"0123456789abcdef";

/// `key:` and the number, with seven digits.
fn numbered(alloc: Global, number: u32) -> Result<Vec<u8>, AllocError> {
    let mut bytes = Vec::from_slice(alloc, b"key:")?;
    for place in [1_000_000u32, 100_000, 10_000, 1_000, 100, 10, 1] {
        bytes.push(b'0' + (number / place % 10) as u8)?;
    }
    Ok(bytes)
}

/// `sess:` and 32 digits that the number determines.
fn session(alloc: Global, number: u32) -> Result<Vec<u8>, AllocError> {
    let mut bytes = Vec::from_slice(alloc, b"sess:")?;
    let mut words = Lcg64Xsh32::seed_from_u64(u64::from(number));
    let mut word = 0;
    for digit in 0..32u32 {
        if digit % 8 == 0 {
            word = words.next_word();
        }
        bytes.push(HEX[(word % 16) as usize])?;
        word /= 16;
    }
    Ok(bytes)
}

/// The key of an item.
pub fn key(alloc: Global, kind: KeyKind, number: u32) -> Result<Key, Fault> {
    let bytes = match kind {
        KeyKind::Numbered => numbered(alloc, number)?,
        KeyKind::Session => session(alloc, number)?,
    };
    if !is_key_text(bytes.as_slice()) {
        return Err(Fault::Unfit);
    }
    Ok(Key::from_slice(alloc, bytes.as_slice())?)
}

/// A block of so many bytes, which the number determines.
fn block(alloc: Global, bytes: u32, number: u32) -> Result<Block, AllocError> {
    let most = (bytes as usize).min(MOST_BLOCK_BYTES);
    let letter = [b'a' + (number % 26) as u8];
    Block::from_slice(alloc, letter.as_slice().repeat(alloc, most)?.as_slice())
}

/// Sets an item, for so many seconds: 0 for good.
pub fn set(
    alloc: Global,
    key: Key,
    bytes: u32,
    number: u32,
    exptime: i32,
) -> Result<Command, Fault> {
    Ok(Command::Update(Update::Store {
        verb: StoreVerb::Set,
        key,
        flags: 0,
        exptime,
        block: block(alloc, bytes, number)?,
    }))
}

pub fn get(alloc: Global, key: Key) -> Result<Command, Fault> {
    let mut keys = Vec::new(alloc);
    keys.push(key)?;
    Ok(Command::Get(Keys::new(keys)))
}

pub fn delete(key: Key) -> Command {
    Command::Update(Update::Delete { key })
}
