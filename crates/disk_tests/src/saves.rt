//! What each save writes, and what has to be there after it.

ghost use Rattle.std.specs.Prelude.{◌≡◌, IfOk, IsTrue};
ghost use Rattle.sqlite_trees.specs.Tree.{rowid};
ghost use Rattle.sqlite_trees.specs.View.{is_int};
ghost use Rattle.row_store.specs.Saved.{ChangesFit};

use crate::samples::{item_row, key};
use item_rows::{item_of, row_number_of};
use row_store::{RowChange, RowStore};
use sqlite_trees::store::Store;
use sqlite_value::row::Row;
use sqlite_value::value::ValueRef;
use std::alloc::{AllocError, Global};

/// So many saves are made.
pub const SAVES: u8 = 3;

/// The value of each of five items, 0 if it is not there, and the last save.
pub type Content = [u8; 6];

/// What the first saves leave: each puts an item, removes another one, and has its number in the second table.
pub fn content_after(saves: u8) -> Content {
    let mut content = [0; 6];
    for number in 0..saves {
        content[(number % 5) as usize] = number + 1;
        content[(number as usize + 3) % 5] = 0;
        content[5] = number + 1;
    }
    content
}

/// The row of the second table.
fn save_row(alloc: Global, number: u8) -> Result<Row, AllocError>
    ensures { IfOk result (λ row. IsTrue (is_int (rowid row))) }
{
    let mut row = Row::new(alloc);
    row.push(ValueRef::Int(0))?;
    row.push(ValueRef::Null)?;
    row.push(ValueRef::Int(i64::from(number)))?;
    Ok(row)
}

/// What the save changes.
fn changes(alloc: Global, number: u8) -> Result<[RowChange; 3], AllocError>
    ensures { IfOk result (λ changes. ChangesFit 2 changes) }
{
    let now = number.wrapping_add(1);
    let gone = row_number_of(&key(alloc, (number % 5 + 3) % 5)?);
    let item = item_row(alloc, number % 5, now)?;
    let last = save_row(alloc, now)?;
    Ok([
        RowChange::Put {
            table: 0,
            row: item,
        },
        RowChange::Put {
            table: 1,
            row: last,
        },
        RowChange::Remove {
            table: 0,
            number: gone,
        },
    ])
}

/// Makes the save of this number, from 0: whether it succeeded. `None`: there was no memory for it.
fn save<S: Store>(alloc: Global, rows: &mut RowStore<S>, number: u8) -> Option<bool>
    requires { rows.old.tables ≡ 2 }
    ensures { rows.new.tables ≡ 2 }
{
    match changes(alloc, number) {
        Ok(changes) => Some(rows.save(&changes).is_ok()),
        Err(_) => None,
    }
}

/// Makes save after save, until one fails: how many succeeded. `None`: there was no memory for one.
pub fn save_all<S: Store>(alloc: Global, rows: &mut RowStore<S>) -> Option<u8>
    requires { rows.old.tables ≡ 2 }
    ensures { rows.new.tables ≡ 2 }
{
    for number in 0..SAVES {
        match save(alloc, rows, number) {
            Some(true) => {}
            Some(false) => return Some(number),
            None => return None,
        }
    }
    Some(SAVES)
}

/// The number of the item and its value, if the row has no other item.
fn read(alloc: Global, row: &Row) -> Option<(u8, u8)> {
    let Ok((key, item)) = item_of(alloc, row) else {
        return None;
    };
    let name = *key.as_slice().first()?;
    let number = name.checked_sub(b'a')?;
    let value = *item.block.as_slice().first()?;
    match item_row(alloc, number, value) {
        Ok(same) if same.is_same(row) => Some((number, value)),
        _ => None,
    }
}

/// Writes down the values of these items. False: a row has no such item.
fn note(alloc: Global, content: &mut Content, rows: &[Row]) -> bool {
    for row in rows {
        match read(alloc, row) {
            Some((number, value)) if number < 5 => content[number as usize] = value,
            _ => return false,
        }
    }
    true
}

/// The last save, if these are the rows of the second table.
fn save_in(rows: &[Row]) -> Option<u8> {
    if rows.len() > 1 {
        return None;
    }
    match rows.first() {
        Some(row) => match row.get(2) {
            ValueRef::Int(number) => u8::try_from(number).ok(),
            _ => None,
        },
        None => Some(0),
    }
}

/// What is there. `None`: it cannot be read, or is nothing that was saved.
pub fn content_of<S: Store>(alloc: Global, rows: &mut RowStore<S>) -> Option<Content>
    requires { rows.old.tables ≡ 2 }
{
    let items = rows.rows(alloc, 0).ok()?;
    let last = rows.rows(alloc, 1).ok()?;
    let mut content = [0; 6];
    content[5] = save_in(&last)?;
    if note(alloc, &mut content, &items) {
        Some(content)
    } else {
        None
    }
}

/// Whether this is what the first saves leave, for some number of them up to this one.
pub fn is_of_a_save(content: Content, most: u8) -> bool {
    for saves in 0..SAVES {
        if saves <= most && content_after(saves) == content {
            return true;
        }
    }
    content_after(most) == content
}
