//! Rows of items: row numbers that another program worked out, rows that are read back, and rows that are none of an item.

use crate::samples::{item, item_row, key_of};
use item_rows::{item_of, row_number_of, row_of};
use items::Item;
use proto::{Block, Fault, MOST_BLOCK_BYTES};
use sqlite_value::row::Row;
use sqlite_value::value::ValueRef;
use std::alloc::Global;
use std::test::Fail;

/// Keys with their row numbers, by Python's `hashlib`.
const ROW_NUMBERS: [(&[u8], i64); 5] = [
    (b"a", 3_523_305_573_798_186_462),
    (b"key", 2_636_356_688_071_688_995),
    (b"session:17", 5_990_849_833_401_981_321),
    (b"~~~~~~~~", 8_679_047_791_832_833_608),
    (&[255; 250], 224_975_852_680_095_647),
];

#[test]
fn row_numbers_are_pages_and_paths(rt: HostRuntime) -> Result<(), Fail> {
    for (bytes, row_number) in ROW_NUMBERS {
        let key = key_of(rt.alloc(), bytes)?;
        assert_eq!(rt; row_number_of(&key), row_number);
    }
    Ok(())
}

/// Whether the item, under this key, is read back from its row.
fn is_read_back(alloc: Global, bytes: &[u8], item: Item) -> Result<bool, Fail> {
    let key = key_of(alloc, bytes)?;
    let row = row_of(alloc, &key, &item)?;
    let (again, same) = item_of(alloc, &row)?;
    Ok(
        again == key
            && same.block.as_slice() == item.block.as_slice()
            && same.flags == item.flags
            && same.due == item.due
            && same.unique == item.unique,
    )
}

/// An item of a block of so many bytes.
fn sized(alloc: Global, len: usize, due: Option<u64>, unique: u64) -> Result<Item, Fail> {
    Ok(Item {
        block: Block::new(vec![in alloc; 7; len.min(MOST_BLOCK_BYTES)]?)?,
        flags: u32::MAX,
        due,
        unique,
    })
}

#[test]
fn items_are_read_back(rt: HostRuntime) -> Result<(), Fail> {
    let alloc = rt.alloc();
    assert!(rt; is_read_back(alloc, b"k", item(alloc, 0)?)?);
    assert!(rt; is_read_back(alloc, &[255; 250], item(alloc, 255)?)?);
    assert!(rt; is_read_back(alloc, b"empty", sized(alloc, 0, None, 0)?)?);
    assert!(rt; is_read_back(alloc, b"due", sized(alloc, 1, Some(0), 1 << 63)?)?);
    let most = sized(alloc, MOST_BLOCK_BYTES, Some(1 << 63), u64::MAX)?;
    assert!(rt; is_read_back(alloc, b"large", most)?);
    Ok(())
}

/// The row with another value in one column, or one column more.
fn with_column(alloc: Global, row: &Row, column: usize, value: ValueRef<'_>) -> Result<Row, Fail> {
    let mut made = Row::new(alloc);
    for at in 0..row.len().max(column.saturating_add(1)) {
        made.push(if at == column { value } else { row.get(at) })?;
    }
    Ok(made)
}

/// What is in no column of an item's row of the key `a`.
const WRONG: [(usize, ValueRef<'static>); 15] = [
    (0, ValueRef::Null),
    (0, ValueRef::Int(0)),
    (1, ValueRef::Int(0)),
    (2, ValueRef::Null),
    (2, ValueRef::Text(b"a")),
    (2, ValueRef::Blob(b"")),
    (2, ValueRef::Blob(b"a b")),
    (2, ValueRef::Blob(b"b")),
    (3, ValueRef::Int(-1)),
    (3, ValueRef::Int(1 << 32)),
    (4, ValueRef::Blob(b"")),
    (5, ValueRef::Null),
    (6, ValueRef::Text(b"")),
    (7, ValueRef::Blob(b"")),
    (8, ValueRef::Null),
];

fn is_refused(alloc: Global, column: usize, value: ValueRef<'_>) -> Result<bool, Fail> {
    let row = item_row(alloc, 0, 1)?;
    let wrong = with_column(alloc, &row, column, value)?;
    match item_of(alloc, &wrong) {
        Err(Fault::BadRecord) => Ok(true),
        _ => Ok(false),
    }
}

/// Whether a row with a block of one byte too many is refused.
fn is_too_long_refused(alloc: Global) -> Result<bool, Fail> {
    let long = vec![in alloc; 7; MOST_BLOCK_BYTES + 1]?;
    is_refused(alloc, 6, ValueRef::Blob(&long))
}

#[test]
fn other_rows_are_refused(rt: HostRuntime) -> Result<(), Fail> {
    for (column, value) in WRONG {
        assert!(rt; is_refused(rt.alloc(), column, value)?);
    }
    assert!(rt; is_too_long_refused(rt.alloc())?);
    Ok(())
}
