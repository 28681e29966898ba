//! The rows of changes: what each save made of rows of items.

ghost use Rattle.std.specs.Prelude.{◌≡◌, ◌<◌, ◌+◌, ◌^◌, All, length, IsTrue, IfOk};
ghost use Rattle.sqlite_trees.specs.Tree.{Trees};
ghost use Rattle.wire.specs.Field.{list_text};
ghost use Rattle.item_rows.specs.RowItems.{FitsItsRow, row_items_text};
ghost use Rattle.shelf.specs.InMemory.{waiting_view};
ghost use Rattle.shelf.specs.Rows.{change_row};
ghost use Rattle.shelf.specs.WaitingView.{IsLog, HasWaiting};

use crate::waiting::WaitingChanges;
use item_rows::{RowItems, fits_row};
use proto::Fault;
use sqlite_value::row::Row;
use sqlite_value::value::ValueRef;
use std::alloc::{AllocError, Global};
use wire::{Counted, put_list, read};

/// Whether each of them is of a number that a row may have, with items that can be counted.
fn each_fits(changes: &[RowItems]) -> bool
    ensures { IsTrue result → All FitsItsRow changes.now }
{
    for row_items in changes {
        if !fits_row(row_items.0, row_items.1.as_slice()) {
            return false;
        }
    }
    true
}

/// Whether they can be a row: there are not too many, and each fits.
pub fn fit(changes: &[RowItems]) -> bool
    ensures each { IsTrue result → All FitsItsRow changes.now }
    ensures few { IsTrue result → length changes.now < 2 ^ 32 }
{
    changes.len() < 1 << 32 && each_fits(changes)
}

/// The text of changes.
fn text_of(alloc: Global, changes: &[RowItems]) -> Result<Vec<u8>, AllocError>
    requires each { All FitsItsRow changes.now }
    requires few { length changes.now < 2 ^ 32 }
    ensures { IfOk result (λ text. text.items ≡ list_text row_items_text changes.now) }
{
    let mut text = Vec::new(alloc);
    put_list(changes, &mut text)?;
    Ok(text)
}

/// The row of a save with this number. The only error is a failed allocation.
pub fn change_row(alloc: Global, number: u64, changes: &[RowItems]) -> Result<Row, AllocError>
    requires number { number < 2 ^ 63 }
    requires each { All FitsItsRow changes.now }
    requires few { length changes.now < 2 ^ 32 }
    ensures { IfOk result (λ row. row ≡ change_row number changes.now) }
{
    let text = text_of(alloc, changes)?;
    let mut row = Row::new(alloc);
    row.push(ValueRef::Int(number as i64))?;
    row.push(ValueRef::Null)?;
    row.push(ValueRef::Blob(&text))?;
    Ok(row)
}

/// The changes of the save with this number, as `change_row` made the row. Anything else is a BadRecord. The only other
/// error is a failed allocation, NoMemory.
fn changes_of(alloc: Global, number: u64, row: &Row) -> Result<Vec<RowItems>, Fault>
    ensures { IfOk result (λ changes. row.now ≡ change_row number changes.items) }
{
    let ValueRef::Blob(text) = row.get(2) else {
        return Err(Fault::BadRecord);
    };
    let changes = read::<Counted<RowItems>>(alloc, text)?.into_vec();
    if number < 1 << 63 && fit(&changes) && change_row(alloc, number, &changes)?.is_same(row) {
        Ok(changes)
    } else {
        Err(Fault::BadRecord)
    }
}

/// The number of the first save of which there is a row: 1 if there is none.
fn first_number(rows: &[Row]) -> Result<u64, Fault> {
    match rows {
        [] => Ok(1),
        [row, ..] => match row.get(0) {
            ValueRef::Int(number) if number >= 0 => Ok(number as u64),
            _ => Err(Fault::BadRecord),
        },
    }
}

/// The number of the row at this index.
fn number_at(first: u64, index: usize) -> Result<u64, Fault>
    ensures { IfOk result (λ number. number ≡ first + index) }
{
    match first.checked_add(index as u64) {
        Some(number) => Ok(number),
        None => Err(Fault::BadRecord),
    }
}

/// The changes of all rows, which have the numbers from `first` on. Anything else is a BadRecord. The only other error is
/// a failed allocation, NoMemory.
fn changes_in(alloc: Global, first: u64, rows: &[Row]) -> Result<Vec<RowItems>, Fault>
    ensures { IfOk result (λ all. ∥ IsLog first rows.now all.items ∥₁) }
{
    let mut all = Vec::new(alloc);
    for index in 0..rows.len() {
        let number = number_at(first, index)?;
        let mut changes = changes_of(alloc, number, &rows[index])?;
        all.append(&mut changes)?;
    }
    Ok(all)
}

/// What is in memory of a file with these rows of changes. The errors are those of `changes_in`.
pub fn waiting_of(alloc: Global, rows: &[Row]) -> Result<WaitingChanges, Fault>
    ensures { IfOk result (λ waiting. (db : Trees) → db 1 ≡ rows.now → ∥ HasWaiting db (waiting_view waiting) ∥₁) }
{
    let first = first_number(rows)?;
    let next = number_at(first, rows.len())?;
    let changes = changes_in(alloc, first, rows)?;
    let mut waiting = WaitingChanges::of_file(alloc, first, next, changes);
    waiting.rotate(alloc, true);
    Ok(waiting)
}
