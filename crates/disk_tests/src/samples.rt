//! Keys, items and their rows.

ghost use Rattle.std.specs.Prelude.{IsTrue, IfOk};
ghost use Rattle.sqlite_trees.specs.Tree.{rowid};
ghost use Rattle.sqlite_trees.specs.View.{is_int};

use item_rows::row_of;
use items::Item;
use proto::{Block, Key, is_key_text};
use sqlite_value::row::Row;
use std::alloc::{AllocError, Global};

/// The key of these bytes, or `k` if they are none.
pub fn key_of(alloc: Global, bytes: &[u8]) -> Result<Key, AllocError> {
    if is_key_text(bytes) {
        return Ok(Key::from_slice(alloc, bytes)?);
    }
    Ok(Key::from_slice(alloc, &[b'k'])?)
}

/// The key of the item of this number: `a`, `b` and so on.
pub fn key(alloc: Global, number: u8) -> Result<Key, AllocError> {
    key_of(alloc, &[b'a' + number % 26])
}

/// An item that has this value in each of its parts.
pub fn item(alloc: Global, value: u8) -> Result<Item, AllocError> {
    Ok(Item {
        block: Block::new(vec![in alloc; value; 120]?)?,
        flags: u32::from(value),
        due: if value % 2 == 0 { None } else { Some(u64::MAX) },
        unique: u64::MAX - u64::from(value),
    })
}

/// The row of the item of this number, with this value.
pub fn item_row(alloc: Global, number: u8, value: u8) -> Result<Row, AllocError>
    ensures { IfOk result (λ row. IsTrue (is_int (rowid row))) }
{
    let key = key(alloc, number)?;
    let item = item(alloc, value)?;
    row_of(alloc, &key, &item)
}
