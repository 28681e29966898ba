//! The row of several items: two keys may have one row number.

ghost use Rattle.std.specs.Prelude.{◌≡◌, ◌≢◌, ◌⊎◌, ◌↔◌, ◌<◌, ◌^◌, [], ◌∷◌, ◌++◌, ℕ, pos, length, List, Some, IsTrue, IfOk, IfErr};
ghost use Rattle.sqlite_value.specs.Order.{column};
ghost use Rattle.sqlite_value.specs.declared.value.Value.TheVariants as sql;
ghost use Rattle.wire.specs.Field.{list_text};
ghost use Rattle.wire.specs.Item.{entry_text};
ghost use Rattle.item_rows.specs.Row.{full_row};
ghost use Rattle.item_rows.specs.RowItems.{more_column, items_row, FitsItsRow};

use crate::row::{columns_in, row_with};
use base::Entry;
use items::Item;
use proto::{Fault, Key};
use sqlite_value::row::Row;
use sqlite_value::value::ValueRef;
use std::alloc::{AllocError, Global};
use wire::{Counted, put_list, read};

/// The number of a row, and the items in it. Mostly it is one: two items have one row if the first 55 bits of the paths
/// of their keys are the same. With no items it says that there is no such row.
pub type RowItems = (u64, Counted<Entry<Key, Item>>);

/// Whether there may be a row of this number, and these items can be counted in it.
pub fn fits_row(row_number: u64, items: &[Entry<Key, Item>]) -> bool
    ensures { IsTrue result ↔ FitsItsRow (row_number, items.now) }
{
    row_number < 1 << 63 && items.len() < 1 << 32
}

/// The text of items.
fn text_of(alloc: Global, items: &[Entry<Key, Item>]) -> Result<Vec<u8>, AllocError>
    requires { length items.now < 2 ^ 32 }
    ensures { IfOk result (λ text. text.items ≡ list_text entry_text items.now) }
{
    let mut text = Vec::new(alloc);
    put_list(items, &mut text)?;
    Ok(text)
}

/// The row that begins with the first item, with the others beside it.
fn row_of_all(
    alloc: Global,
    row_number: u64,
    first: &Entry<Key, Item>,
    more: &[Entry<Key, Item>],
) -> Result<Row, AllocError>
    requires row_number { row_number < 2 ^ 63 }
    requires more { length more.now < 2 ^ 32 }
    ensures { IfOk result (λ row. row ≡ full_row (pos row_number) first.now.0 first.now.1 (more_column more.now)) }
{
    match more {
        [] => row_with(
            alloc,
            row_number as i64,
            first.key(),
            first.value(),
            ValueRef::Null,
        ),
        [_, ..] => {
            let text = text_of(alloc, more)?;
            row_with(
                alloc,
                row_number as i64,
                first.key(),
                first.value(),
                ValueRef::Blob(&text),
            )
        }
    }
}

/// The row of these items, of this number. `None`: there are none, so no row. The only error is a failed allocation.
pub fn items_row(
    alloc: Global,
    row_number: u64,
    items: &[Entry<Key, Item>],
) -> Result<Option<Row>, AllocError>
    requires { FitsItsRow (row_number, items.now) }
    ensures { IfOk result (λ row. row ≡ items_row (row_number, items.now)) }
{
    match items {
        [] => Ok(None),
        [first, more @ ..] => Ok(Some(row_of_all(alloc, row_number, first, more)?)),
    }
}

fn row_number_in(row: &Row) -> Result<u64, Fault>
    ensures ok { IfOk result (λ row_number. column row.now 0 ≡ sql.Int (pos row_number)) }
    ensures bad { IfErr result (λ fault. (fault ≡ Fault.BadRecord) × ((row_number : ℕ) → column row.now 0 ≢ sql.Int (pos row_number))) }
{
    match row.get(0) {
        ValueRef::Int(row_number) if row_number >= 0 => Ok(row_number as u64),
        _ => Err(Fault::BadRecord),
    }
}

/// The items of a text that has some.
fn some_items(alloc: Global, text: &[u8]) -> Result<Counted<Entry<Key, Item>>, Fault>
    ensures ok { IfOk result (λ more. more_column more ≡ sql.Blob text.now) }
    ensures only { IfErr result (λ fault. (fault ≡ Fault.NoMemory) ⊎ (fault ≡ Fault.BadRecord)) }
{
    let more = read::<Counted<Entry<Key, Item>>>(alloc, text)?;
    if more.as_slice().is_empty() {
        return Err(Fault::BadRecord);
    }
    Ok(more)
}

/// The items beside the first.
fn more_in(alloc: Global, row: &Row) -> Result<Counted<Entry<Key, Item>>, Fault>
    ensures ok { IfOk result (λ more. more_column more ≡ column row.now 7) }
    ensures only { IfErr result (λ fault. (fault ≡ Fault.NoMemory) ⊎ (fault ≡ Fault.BadRecord)) }
{
    match row.get(7) {
        ValueRef::Null => Ok(Counted::new(Vec::new(alloc))),
        ValueRef::Blob(text) => some_items(alloc, text),
        _ => Err(Fault::BadRecord),
    }
}

/// The first item, and those beside it.
fn joined(
    alloc: Global,
    first: (Key, Item),
    more: Counted<Entry<Key, Item>>,
) -> Result<Vec<Entry<Key, Item>>, AllocError>
    ensures { IfOk result (λ items. items.items ≡ first ∷ more) }
{
    let (key, item) = first;
    let mut items = Vec::new(alloc);
    items.push(Entry::new(alloc, key, item)?)?;
    items.append(&mut more.into_vec())?;
    Ok(items)
}

/// The number and the items of a row, as `items_row` made it. Anything else is a BadRecord. The only other error is a
/// failed allocation, NoMemory.
pub fn items_of(alloc: Global, row: &Row) -> Result<RowItems, Fault>
    ensures ok { IfOk result (λ row_items. items_row row_items ≡ Some row.now) }
    ensures only { IfErr result (λ fault. (fault ≡ Fault.NoMemory) ⊎ (fault ≡ Fault.BadRecord)) }
{
    let row_number = row_number_in(row)?;
    let first = columns_in(alloc, row)?;
    let more = more_in(alloc, row)?;
    let items = joined(alloc, first, more)?;
    if !fits_row(row_number, &items) {
        return Err(Fault::BadRecord);
    }
    match items_row(alloc, row_number, &items)? {
        Some(again) if again.is_same(row) => Ok((row_number, Counted::new(items))),
        _ => Err(Fault::BadRecord),
    }
}
