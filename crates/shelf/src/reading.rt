//! The items that a file says.

ghost use Rattle.std.specs.Prelude.{◌≡◌, ℕ, pos, Some, None, if◌then◌else◌, IfOk, OnOk};
ghost use Rattle.sqlite_trees.specs.Tree.{has_rowid};
ghost use Rattle.item_rows.specs.Changes.{with_change};
ghost use Rattle.shelf.specs.Rows.{row_at, row_of_change};
ghost use Rattle.shelf.specs.InMemory.{waiting_view};
ghost use Rattle.shelf.specs.WaitingView.{changed_rows, items_at};
ghost use Rattle.shelf.specs.Found.{rows_found};

use crate::waiting::WaitingChanges;
use base::Entry;
use item_rows::{RowItems, items_of};
use items::Item;
use proto::{Fault, Key};
use sqlite_value::row::Row;
use std::alloc::{AllocError, Global};
use std::collections::BTreeMap;
use wire::Counted;

/// The items of rows. A row with none, or that is not here, has no items.
pub type FoundItems = BTreeMap<u64, Counted<Entry<Key, Item>>>;

/// The same items, shared.
fn shared(
    alloc: Global,
    items: &[Entry<Key, Item>],
) -> Result<Counted<Entry<Key, Item>>, AllocError>
    ensures { IfOk result (λ shared. shared ≡ items.now) }
{
    let mut shared = Vec::new(alloc);
    for item in items {
        shared.push(item.clone()?)?;
    }
    Ok(Counted::new(shared))
}

/// Notes what is in a row.
fn note(alloc: Global, found: &mut FoundItems, row_items: &RowItems) -> Result<(), AllocError>
    ensures { OnOk result ((p : ℕ) → rows_found found.new p ≡ with_change (rows_found found.old) (row_of_change row_items.now) p) }
{
    let items = shared(alloc, row_items.1.as_slice())?;
    found.insert(row_items.0, items)?;
    Ok(())
}

/// Notes what became of rows, in order.
fn note_changes(
    alloc: Global,
    found: &mut FoundItems,
    changes: &[RowItems],
) -> Result<(), AllocError>
    ensures { OnOk result ((p : ℕ) → rows_found found.new p ≡ changed_rows (rows_found found.old) changes.now p) }
{
    for row_items in changes {
        note(alloc, found, row_items)?;
    }
    Ok(())
}

/// Notes what a row has.
fn note_row(alloc: Global, found: &mut FoundItems, row: &Row) -> Result<(), Fault>
    ensures { OnOk result ((p : ℕ) → rows_found found.new p ≡ (if has_rowid (pos p) row.now then Some row.now else rows_found found.old p)) }
{
    let row_items = items_of(alloc, row)?;
    note(alloc, found, &row_items)?;
    Ok(())
}

/// Notes what all rows have.
fn note_rows(alloc: Global, found: &mut FoundItems, rows: &[Row]) -> Result<(), Fault>
    requires { (p : ℕ) → rows_found found.old p ≡ None }
    ensures { OnOk result ((p : ℕ) → rows_found found.new p ≡ row_at rows.now p) }
{
    for index in 0..rows.len() {
        note_row(alloc, found, &rows[rows.len() - 1 - index])?;
    }
    Ok(())
}

/// Notes rows, and over them changes.
fn note_all(
    alloc: Global,
    found: &mut FoundItems,
    rows: &[Row],
    waiting: &WaitingChanges,
) -> Result<(), Fault>
    requires { (p : ℕ) → rows_found found.old p ≡ None }
    ensures { OnOk result ((p : ℕ) → rows_found found.new p ≡ items_at (waiting_view waiting.now) (row_at rows.now) p) }
{
    note_rows(alloc, found, rows)?;
    note_changes(alloc, found, waiting.rest())?;
    note_changes(alloc, found, &waiting.gathered)?;
    Ok(())
}

/// The items that rows have with changes over them. A row that no save made is a BadRecord. The only other error is a
/// failed allocation, NoMemory.
pub fn read_items(
    alloc: Global,
    rows: &[Row],
    waiting: &WaitingChanges,
) -> Result<FoundItems, Fault>
    ensures { IfOk result (λ found. (p : ℕ) → rows_found found p ≡ items_at (waiting_view waiting.now) (row_at rows.now) p) }
{
    let mut found = BTreeMap::new(alloc);
    match note_all(alloc, &mut found, rows, waiting) {
        Ok(()) => Ok(found),
        Err(fault) => Err(fault),
    }
}
