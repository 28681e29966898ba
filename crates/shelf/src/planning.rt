//! What one save writes.

ghost use Rattle.std.specs.Prelude.{◌≡◌, ◌<◌, ◌≤◌, ◌-◌, ◌^◌, ◌∷◌, ◌++◌, [], pos, All, map, take, length, IfOk, OnOk};
ghost use Rattle.row_store.specs.Saved.{ChangesFit};
ghost use Rattle.item_rows.specs.RowItems.{FitsItsRow};
ghost use Rattle.shelf.specs.Rows.{change_row, change_in, row_of_change, row_of_reply};
ghost use Rattle.shelf.specs.InMemory.{waiting_view};
ghost use Rattle.shelf.specs.WaitingView.{removals, process_changes, planned};

use crate::changes::{change_row, fit};
use crate::process::{SavedProcess, process_row};
use crate::reply::{ReplyChange, reply_row};
use crate::waiting::WaitingChanges;
use item_rows::{RowItems, fits_row, items_row};
use row_store::RowChange;
use sqlite_trees::error::StoreError;
use std::alloc::Global;

/// Plans the row of what is changed.
fn plan_changes(
    alloc: Global,
    out: &mut Vec<RowChange>,
    number: u64,
    changes: &[RowItems],
) -> Result<(), StoreError>
    ensures planned { OnOk result (out.new.items ≡ out.old.items ++ RowChange.Put 1 (change_row number changes.now) ∷ []) }
    ensures small { OnOk result (number < 2 ^ 63) }
{
    if 1 << 63 <= number || !fit(changes) {
        return Err(StoreError::Full);
    }
    out.push(RowChange::Put {
        table: 1,
        row: change_row(alloc, number, changes)?,
    })?;
    Ok(())
}

/// The change of a row of items.
fn change_of(alloc: Global, row_items: &RowItems) -> Result<RowChange, StoreError>
    ensures { IfOk result (λ change. change ≡ change_in 0 (row_of_change row_items.now)) }
{
    let (row_number, items) = row_items;
    if !fits_row(*row_number, items.as_slice()) {
        return Err(StoreError::Full);
    }
    match items_row(alloc, *row_number, items.as_slice())? {
        None => Ok(RowChange::Remove {
            table: 0,
            number: *row_number as i64,
        }),
        Some(row) => Ok(RowChange::Put { table: 0, row }),
    }
}

/// Plans the rows of items.
fn plan_rows(
    alloc: Global,
    out: &mut Vec<RowChange>,
    row_items: &[RowItems],
) -> Result<(), StoreError>
    ensures { OnOk result (out.new.items ≡ out.old.items ++ map (λ c. change_in 0 (row_of_change c)) row_items.now) }
{
    for one in row_items {
        out.push(change_of(alloc, one)?)?;
    }
    Ok(())
}

/// Plans that the row of changes of this number goes.
fn plan_remove(out: &mut Vec<RowChange>, number: u64) -> Result<(), StoreError>
    ensures { OnOk result (out.new.items ≡ out.old.items ++ RowChange.Remove 1 (pos number) ∷ []) }
{
    if 1 << 63 <= number {
        return Err(StoreError::Full);
    }
    out.push(RowChange::Remove {
        table: 1,
        number: number as i64,
    })?;
    Ok(())
}

/// The end, if it is not before the first.
fn at_least(end: u64, first: u64) -> u64
    ensures low { first ≤ result }
    ensures same { result - first ≡ end - first }
{
    if end < first { first } else { end }
}

/// Plans that the rows of changes from `first` up to `end` go.
fn plan_removes(out: &mut Vec<RowChange>, first: u64, end: u64) -> Result<(), StoreError>
    ensures { OnOk result (out.new.items ≡ out.old.items ++ removals first (end - first)) }
{
    for number in first..at_least(end, first) {
        plan_remove(out, number)?;
    }
    Ok(())
}

/// Plans the row of the process.
fn plan_process(
    alloc: Global,
    out: &mut Vec<RowChange>,
    process: &Option<SavedProcess>,
) -> Result<(), StoreError>
    ensures { OnOk result (out.new.items ≡ out.old.items ++ process_changes process.now) }
{
    if let Some(process) = process {
        out.push(RowChange::Put {
            table: 2,
            row: process_row(alloc, process)?,
        })?;
    }
    Ok(())
}

/// The change of the row of a reply.
fn change_of_reply(alloc: Global, change: &ReplyChange) -> Result<RowChange, StoreError>
    ensures { IfOk result (λ planned. planned ≡ change_in 3 (row_of_reply change.now)) }
{
    match change {
        ReplyChange::Kept(reply) => Ok(RowChange::Put {
            table: 3,
            row: reply_row(alloc, reply)?,
        }),
        ReplyChange::Gone(client) => Ok(RowChange::Remove {
            table: 3,
            number: i64::from(*client),
        }),
    }
}

/// Plans the rows of replies.
fn plan_replies(
    alloc: Global,
    out: &mut Vec<RowChange>,
    replies: &[ReplyChange],
) -> Result<(), StoreError>
    ensures { OnOk result (out.new.items ≡ out.old.items ++ map (λ r. change_in 3 (row_of_reply r)) replies.now) }
{
    for one in replies {
        out.push(change_of_reply(alloc, one)?)?;
    }
    Ok(())
}

/// What is saved beside items.
#[derive(Drop)]
pub struct SavedExtras {
    /// What is known of the process. `None` leaves what the file has of it.
    pub process: Option<SavedProcess>,
    pub replies: Vec<ReplyChange>,
}

/// Plans all that a save writes.
fn plan_all(
    alloc: Global,
    out: &mut Vec<RowChange>,
    waiting: &WaitingChanges,
    count: usize,
    extras: &SavedExtras,
    changes: &[RowItems],
) -> Result<(), StoreError>
    requires none { out.old.items ≡ [] }
    requires count { count ≤ length (waiting_view waiting.now).pending }
    ensures planned { OnOk result (out.new.items ≡ planned (waiting_view waiting.now) count changes.now extras.now.process extras.now.replies.items) }
    ensures small { OnOk result (waiting.now.next < 2 ^ 63) }
{
    plan_changes(alloc, out, waiting.next, changes)?;
    plan_rows(alloc, out, waiting.front(count))?;
    plan_removes(out, waiting.first, waiting.first_after(count))?;
    plan_process(alloc, out, &extras.process)?;
    plan_replies(alloc, out, &extras.replies)
}

/// All that a save writes: the changes, the rows of so many pending ones, and the rest. The errors are OutOfMemory, and
/// Full if there is no number for the save, or a row number or the count of its items is out of range.
pub fn plan(
    alloc: Global,
    waiting: &WaitingChanges,
    count: usize,
    extras: &SavedExtras,
    changes: &[RowItems],
) -> Result<Vec<RowChange>, StoreError>
    requires count { count ≤ length (waiting_view waiting.now).pending }
    ensures planned { IfOk result (λ all. all.items ≡ planned (waiting_view waiting.now) count changes.now extras.now.process extras.now.replies.items) }
    ensures fit { IfOk result (λ all. ChangesFit 5 all.items) }
    ensures small { OnOk result (waiting.now.next < 2 ^ 63) }
{
    let mut out = Vec::new(alloc);
    match plan_all(alloc, &mut out, waiting, count, extras, changes) {
        Ok(()) => Ok(out),
        Err(error) => Err(error),
    }
}
