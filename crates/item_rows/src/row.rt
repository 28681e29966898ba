//! The row of an item, and the item of a row.

ghost use Rattle.std.specs.Prelude.{◌≡◌, ◌≢◌, ◌⊎◌, ◌<◌, ◌≤◌, ◌^◌, ◌++◌, ◌∷◌, [], ℕ, pos, length, List, Option, IfOk, IfErr, OnOk};
ghost use Rattle.proto.specs.Key.{IsKey};
ghost use Rattle.proto.specs.declared.block.TheConstants.{MOST_BLOCK_BYTES};
ghost use Rattle.items.specs.declared.item.Item.{Item as AnItem};
ghost use Rattle.sqlite_value.specs.Order.{column};
ghost use Rattle.sqlite_value.specs.Value.{owned};
ghost use Rattle.sqlite_value.specs.declared.value.Value.TheVariants as sql;
ghost use Rattle.item_rows.specs.Row.{number_column, due_column, full_row, item_row, HasColumns, DueFits, ItemFits};

use crate::row_number::row_number_of;
use items::Item;
use proto::{Block, Fault, Key, MOST_BLOCK_BYTES, is_key_text};
use sqlite_value::row::Row;
use sqlite_value::value::ValueRef;
use std::alloc::{AllocError, Global};

fn due_value(due: Option<u64>) -> ValueRef<'static>
    ensures { owned result ≡ due_column due }
{
    match due {
        None => ValueRef::Null,
        Some(due) => ValueRef::Int(due.cast_signed()),
    }
}

/// Appends two columns.
fn push_two(row: &mut Row, first: ValueRef<'_>, second: ValueRef<'_>) -> Result<(), AllocError>
    ensures { OnOk result (row.new ≡ row.old ++ owned first.entry ∷ owned second.entry ∷ []) }
{
    row.push(first)?;
    row.push(second)
}

/// The row of this number, which has an item and, after its columns, what is beside it in the row.
pub(crate) fn row_with(
    alloc: Global,
    row_number: i64,
    key: &Key,
    item: &Item,
    more: ValueRef<'_>,
) -> Result<Row, AllocError>
    ensures { IfOk result (λ row. row ≡ full_row row_number key.now item.now (owned more.entry)) }
{
    let mut row = Row::new(alloc);
    push_two(&mut row, ValueRef::Int(row_number), ValueRef::Null)?;
    push_two(
        &mut row,
        ValueRef::Blob(key.as_slice()),
        ValueRef::Int(item.flags as i64),
    )?;
    push_two(
        &mut row,
        due_value(item.due),
        ValueRef::Int(item.unique.cast_signed()),
    )?;
    push_two(&mut row, ValueRef::Blob(item.block.as_slice()), more)?;
    Ok(row)
}

/// The row of an item that is alone in its row. The only error is a failed allocation.
pub fn row_of(alloc: Global, key: &Key, item: &Item) -> Result<Row, AllocError>
    ensures { IfOk result (λ row. row ≡ item_row key.now item.now) }
{
    row_with(alloc, row_number_of(key), key, item, ValueRef::Null)
}

fn key_in(alloc: Global, row: &Row) -> Result<Key, Fault>
    ensures ok { IfOk result (λ key. column row.now 2 ≡ sql.Blob key) }
    ensures bad { result ≡ Err Fault.BadRecord → (key : List ℕ) → IsKey key → column row.now 2 ≢ sql.Blob key }
    ensures only { IfErr result (λ fault. (fault ≡ Fault.NoMemory) ⊎ (fault ≡ Fault.BadRecord)) }
{
    match row.get(2) {
        ValueRef::Blob(bytes) if is_key_text(bytes) => Ok(Key::from_slice(alloc, bytes)?),
        _ => Err(Fault::BadRecord),
    }
}

fn flags_in(row: &Row) -> Result<u32, Fault>
    ensures ok { IfOk result (λ flags. column row.now 3 ≡ sql.Int (pos flags)) }
    ensures bad { IfErr result (λ fault. (fault ≡ Fault.BadRecord) × ((flags : ℕ) → flags < 2 ^ 32 → column row.now 3 ≢ sql.Int (pos flags))) }
{
    match row.get(3) {
        ValueRef::Int(flags) if 0 <= flags && flags < 1 << 32 => Ok(flags as u32),
        _ => Err(Fault::BadRecord),
    }
}

fn due_in(row: &Row) -> Result<Option<u64>, Fault>
    ensures ok { IfOk result (λ due. (column row.now 4 ≡ due_column due) × DueFits due) }
    ensures bad { IfErr result (λ fault. (fault ≡ Fault.BadRecord) × ((due : Option ℕ) → column row.now 4 ≢ due_column due)) }
{
    match row.get(4) {
        ValueRef::Null => Ok(None),
        ValueRef::Int(due) => Ok(Some(due.cast_unsigned())),
        _ => Err(Fault::BadRecord),
    }
}

fn unique_in(row: &Row) -> Result<u64, Fault>
    ensures ok { IfOk result (λ unique. column row.now 5 ≡ number_column unique) }
    ensures bad { IfErr result (λ fault. (fault ≡ Fault.BadRecord) × ((unique : ℕ) → column row.now 5 ≢ number_column unique)) }
{
    match row.get(5) {
        ValueRef::Int(unique) => Ok(unique.cast_unsigned()),
        _ => Err(Fault::BadRecord),
    }
}

fn block_in(alloc: Global, row: &Row) -> Result<Block, Fault>
    ensures ok { IfOk result (λ block. column row.now 6 ≡ sql.Blob block) }
    ensures bad { result ≡ Err Fault.BadRecord → (block : List ℕ) → length block ≤ MOST_BLOCK_BYTES → column row.now 6 ≢ sql.Blob block }
    ensures only { IfErr result (λ fault. (fault ≡ Fault.NoMemory) ⊎ (fault ≡ Fault.BadRecord)) }
{
    match row.get(6) {
        ValueRef::Blob(bytes) if bytes.len() <= MOST_BLOCK_BYTES => Ok(Block::from_slice(
            alloc, bytes,
        )?),
        _ => Err(Fault::BadRecord),
    }
}

/// The key and the item in the columns of a row.
pub(crate) fn columns_in(alloc: Global, row: &Row) -> Result<(Key, Item), Fault>
    ensures ok { IfOk result (λ read. HasColumns row.now read.0 read.1) }
    ensures bad { result ≡ Err Fault.BadRecord → (key : List ℕ) (item : AnItem) → IsKey key → ItemFits item → ¬ HasColumns row.now key item }
    ensures only { IfErr result (λ fault. (fault ≡ Fault.NoMemory) ⊎ (fault ≡ Fault.BadRecord)) }
{
    let key = key_in(alloc, row)?;
    let item = Item {
        block: block_in(alloc, row)?,
        flags: flags_in(row)?,
        due: due_in(row)?,
        unique: unique_in(row)?,
    };
    Ok((key, item))
}

/// The item of a row that is alone in it, as `row_of` made it. Anything else is a BadRecord. The only other error
/// is a failed allocation, NoMemory.
pub fn item_of(alloc: Global, row: &Row) -> Result<(Key, Item), Fault>
    ensures ok { IfOk result (λ read. row.now ≡ item_row read.0 read.1) }
    ensures bad { result ≡ Err Fault.BadRecord → (key : List ℕ) (item : AnItem) → IsKey key → ItemFits item → row.now ≢ item_row key item }
    ensures only { IfErr result (λ fault. (fault ≡ Fault.NoMemory) ⊎ (fault ≡ Fault.BadRecord)) }
{
    let (key, item) = columns_in(alloc, row)?;
    if row_of(alloc, &key, &item)?.is_same(row) {
        Ok((key, item))
    } else {
        Err(Fault::BadRecord)
    }
}
