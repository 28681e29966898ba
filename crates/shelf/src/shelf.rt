//! All that a file has of a process.

ghost use Rattle.std.specs.Prelude.{◌≡◌, ◌≤◌, ℕ, IsTrue, IfOk};
ghost use Rattle.sqlite_trees.specs.View.{IsClean, IsQuiet};
ghost use Rattle.row_store.specs.Saved.{IsSame};
ghost use Rattle.shelf.specs.InMemory.{waiting_view};
ghost use Rattle.shelf.specs.Rows.{row_at};
ghost use Rattle.shelf.specs.Found.{rows_found};
ghost use Rattle.shelf.specs.WaitingView.{HasWaiting, items_at};

use crate::changes::waiting_of;
use crate::planning::{SavedExtras, plan};
use crate::process::{SavedProcess, process_in};
use crate::reading::{FoundItems, read_items};
use crate::reply::{LongReply, replies_in};
use crate::waiting::WaitingChanges;
use item_rows::RowItems;
use proto::Fault;
use row_store::RowStore;
use sqlite_trees::error::StoreError;
use sqlite_trees::store::Store;
use sqlite_value::row::Row;
use std::alloc::Global;

/// All that a file has of a process: its items, what is known of it, and its long replies. `save` alone changes them.
/// What clauses call `items_in` is what each row of items is.
pub struct Shelf<S: Store> {
    rows: RowStore<S>,
    waiting: WaitingChanges,
    ghost tabled: { rows.tables ≡ 5 },
    ghost stands: { IsClean (S.view rows.store) → IsTrue (S.view rows.store).is_open → ∥ HasWaiting (S.view rows.store).committed (waiting_view waiting) ∥₁ },
}

impl<S: Store + Drop> Drop for Shelf<S> {
    fn drop(self) {
        let Shelf {
            rows: _,
            waiting: _,
        } = self;
    }
}

/// How many rows of items a save writes that changes so many: some more than it changes, so that the pending ones end.
fn rows_beside(changes: usize, left: usize) -> usize
    ensures { result ≤ left }
{
    changes.saturating_mul(2).saturating_add(2).min(left)
}

/// Why a file cannot be read.
#[derive(Clone, Copy, Debug, PartialEq, Eq)]
pub enum ReadFault {
    /// The store failed, or memory ran out.
    Store(StoreError),
    /// A row is none that was saved.
    Damaged,
}

/// A row that is read wrongly is damage; memory may have run out.
fn read_fault(fault: Fault) -> ReadFault {
    match fault {
        Fault::NoMemory => ReadFault::Store(StoreError::OutOfMemory),
        _ => ReadFault::Damaged,
    }
}

/// The items that rows have with changes over them.
fn found_in(alloc: Global, rows: &[Row], waiting: &WaitingChanges) -> Result<FoundItems, ReadFault>
    ensures { IfOk result (λ found. (p : ℕ) → rows_found found p ≡ items_at (waiting_view waiting.now) (row_at rows.now) p) }
{
    match read_items(alloc, rows, waiting) {
        Ok(found) => Ok(found),
        Err(fault) => Err(read_fault(fault)),
    }
}

/// What is in memory of a file's changes.
fn waiting_in<S: Store>(alloc: Global, rows: &mut RowStore<S>) -> Result<WaitingChanges, ReadFault>
    requires { rows.old.tables ≡ 5 }
    ensures tables { rows.new.tables ≡ 5 }
    ensures stands { IfOk result (λ waiting. IsClean (S.view rows.new.store) → IsTrue (S.view rows.new.store).is_open × ∥ HasWaiting (S.view rows.new.store).committed (waiting_view waiting) ∥₁) }
    ensures same { IsClean (S.view rows.new.store) → IsSame (S.view rows.old.store) (S.view rows.new.store) }
    ensures quiet { IsQuiet S.view S.faults S.recovers S.is_shielded rows.old.store rows.new.store }
{
    let found = rows
        .rows(alloc, 1)
        .map_err(|error| ReadFault::Store(error))?;
    waiting_of(alloc, &found).map_err(|fault| read_fault(fault))
}

impl<S: Store> Shelf<S> {
    ghost use Rattle.std.specs.Prelude.{◌≡◌, ◌↔◌, ◌⊎◌, ◌≤◌, [], ℕ, map, false, IsTrue, IfOk, OnOk, OnErr};
    ghost use Rattle.sqlite_trees.specs.Tree.{Trees};
    ghost use Rattle.sqlite_trees.specs.View.{doubt, IsClean, IsQuiet};
    ghost use Rattle.row_store.specs.Saved.{IsSame};
    ghost use Rattle.shelf.specs.Rows.{process_rows, reply_row};
    ghost use Rattle.shelf.specs.Found.{rows_found};
    ghost use Rattle.shelf.specs.InMemory.{items_in, IsUnchanged};
    ghost use Rattle.shelf.specs.WaitingView.{changed_rows, IsAfterSave, SaysItems};

    /// What the rows say, or the rows and why they cannot be read.
    fn over(alloc: Global, rows: RowStore<S>) -> Result<Shelf<S>, (S, ReadFault)>
        requires { rows.tables ≡ 5 }
        ensures opened { IfOk result (λ shelf. IsClean (S.view shelf.rows.store) → IsTrue (S.view shelf.rows.store).is_open) }
        ensures same { IfOk result (λ shelf. IsClean (S.view shelf.rows.store) → IsSame (S.view rows.store) (S.view shelf.rows.store)) }
        ensures quiet { IfOk result (λ shelf. IsQuiet S.view S.faults S.recovers S.is_shielded rows.store shelf.rows.store) }
    {
        let mut rows = rows;
        match waiting_in(alloc, &mut rows) {
            Ok(waiting) => Ok(Shelf { rows, waiting }),
            Err(fault) => Err((rows.into_store(), fault)),
        }
    }

    /// What a file says, whose first five trees are the tables item, change, process, reply and parked. The store comes
    /// back if it cannot be read.
    pub fn open(alloc: Global, store: S) -> Result<Shelf<S>, (S, ReadFault)>
        ensures opened { IfOk result (λ shelf. IsClean (S.view shelf.rows.store) → IsTrue (S.view shelf.rows.store).is_open) }
        ensures same { IfOk result (λ shelf. IsClean (S.view shelf.rows.store) → IsSame (S.view store) (S.view shelf.rows.store)) }
        ensures quiet { IfOk result (λ shelf. IsQuiet S.view S.faults S.recovers S.is_shielded store shelf.rows.store) }
    {
        match RowStore::over(store, 5) {
            Ok(rows) => Shelf::over(alloc, rows),
            Err(store) => Err((store, ReadFault::Store(StoreError::Broken))),
        }
    }

    /// Whether the store is shut: a failure of the disk was met, and each call fails until the file is opened again.
    pub fn is_shut(&self) -> bool
        ensures { IsClean (S.view self.now.rows.store) → (IsTrue result ↔ ((S.view self.now.rows.store).is_open ≡ false)) }
    {
        self.rows.is_shut()
    }

    /// What the file says of rows of items: those that it has, with the changes over them that are in memory. It does nothing.
    pub fn says(&self)
        ensures { IsClean (S.view self.now.rows.store) → IsTrue (S.view self.now.rows.store).is_open → SaysItems (S.view self.now.rows.store).committed (items_in (S.view self.now.rows.store).committed self.now.waiting) }
    {}

    /// The store, as the last save left it.
    pub fn into_store(self) -> S
        ensures { result ≡ self.rows.store }
    {
        let Shelf { rows, waiting: _ } = self;
        rows.into_store()
    }

    /// What is known of the process, if a save told it. An error changes nothing; after one of the disk the store may be
    /// shut.
    pub fn process(&mut self, alloc: Global) -> Result<Option<SavedProcess>, ReadFault>
        ensures found { IfOk result (λ process. IsClean (S.view self.new.rows.store) → (S.view self.old.rows.store).committed 2 ≡ process_rows process) }
        ensures same { IsClean (S.view self.new.rows.store) → IsSame (S.view self.old.rows.store) (S.view self.new.rows.store) }
        ensures memory { self.new.waiting ≡ self.old.waiting }
        ensures quiet { IsQuiet S.view S.faults S.recovers S.is_shielded self.old.rows.store self.new.rows.store }
    {
        match self.rows.rows(alloc, 2) {
            Ok(rows) => process_in(alloc, &rows).map_err(|fault| read_fault(fault)),
            Err(error) => Err(ReadFault::Store(error)),
        }
    }

    /// The long replies, in the order of clients. An error changes nothing; after one of the disk the store may be shut.
    pub fn replies(&mut self, alloc: Global) -> Result<Vec<LongReply>, ReadFault>
        ensures found { IfOk result (λ replies. IsClean (S.view self.new.rows.store) → (S.view self.old.rows.store).committed 3 ≡ map reply_row replies.items) }
        ensures same { IsClean (S.view self.new.rows.store) → IsSame (S.view self.old.rows.store) (S.view self.new.rows.store) }
        ensures memory { self.new.waiting ≡ self.old.waiting }
        ensures quiet { IsQuiet S.view S.faults S.recovers S.is_shielded self.old.rows.store self.new.rows.store }
    {
        match self.rows.rows(alloc, 3) {
            Ok(rows) => replies_in(alloc, &rows).map_err(|fault| read_fault(fault)),
            Err(error) => Err(ReadFault::Store(error)),
        }
    }

    /// The items of each row, if all rows are as saves made them. An error changes nothing; after one of the disk the
    /// store may be shut.
    pub fn items(&mut self, alloc: Global) -> Result<FoundItems, ReadFault>
        ensures found { IfOk result (λ found. IsClean (S.view self.new.rows.store) → (p : ℕ) → rows_found found p ≡ items_in (S.view self.old.rows.store).committed self.old.waiting p) }
        ensures same { IsClean (S.view self.new.rows.store) → IsSame (S.view self.old.rows.store) (S.view self.new.rows.store) }
        ensures memory { self.new.waiting ≡ self.old.waiting }
        ensures quiet { IsQuiet S.view S.faults S.recovers S.is_shielded self.old.rows.store self.new.rows.store }
    {
        match self.rows.rows(alloc, 0) {
            Ok(rows) => found_in(alloc, &rows, &self.waiting),
            Err(error) => Err(ReadFault::Store(error)),
        }
    }

    /// Saves what became of rows, one change of each, and the rest: all of it or nothing. If it answers Ok it takes the changes.
    /// After an error they are as they were, and so is what the file says, unless the store is shut; then the file has to
    /// be opened again, and says what it said or what this save makes of it.
    ///
    /// At least so many changes, and 4 MiB, are gathered before their items are written to rows, or 64 MiB. Fewer make saves
    /// write more pages. More make the file larger and an open longer.
    ///
    /// A crash, also one during this call, leaves what it could leave before, or what this save makes of it.
    ///
    /// The error is Full also if a row number is from 2^63 on, and Unstorable if the changes are more than 10^9 bytes.
    pub fn save(
        &mut self,
        alloc: Global,
        extras: &SavedExtras,
        changes: &mut Vec<RowItems>,
        least: usize,
    ) -> Result<(), StoreError>
        ensures saved { OnOk result (IsClean (S.view self.new.rows.store) → IsTrue (S.view self.new.rows.store).is_open × IsAfterSave (S.view self.old.rows.store).committed (items_in (S.view self.old.rows.store).committed self.old.waiting) changes.old.items extras.now.process extras.now.replies.items (S.view self.new.rows.store).committed) }
        ensures items { OnOk result (IsClean (S.view self.new.rows.store) → (p : ℕ) → items_in (S.view self.new.rows.store).committed self.new.waiting p ≡ changed_rows (items_in (S.view self.old.rows.store).committed self.old.waiting) changes.old.items p) }
        ensures taken { OnOk result (changes.new.items ≡ []) }
        ensures same { OnErr result (IsClean (S.view self.new.rows.store) → IsTrue (S.view self.new.rows.store).is_open → IsUnchanged (S.view self.old.rows.store).committed self.old.waiting (S.view self.new.rows.store).committed self.new.waiting) }
        ensures kept { OnErr result (changes.new.items ≡ changes.old.items) }
        ensures crash { IsClean (S.view self.new.rows.store) → IsTrue (S.view self.old.rows.store).is_open → (db : Trees) → S.recovers self.new.rows.store db
            → S.recovers self.old.rows.store db ⊎ IsAfterSave (S.view self.old.rows.store).committed (items_in (S.view self.old.rows.store).committed self.old.waiting) changes.old.items extras.now.process extras.now.replies.items db }
        ensures clean { doubt (S.view self.old.rows.store).is_clean ≤ doubt (S.view self.new.rows.store).is_clean }
        ensures counts { S.faults self.old.rows.store ≤ S.faults self.new.rows.store }
        ensures shield { S.is_shielded self.old.rows.store → S.is_shielded self.new.rows.store }
    {
        let count = rows_beside(changes.len(), self.waiting.left());
        self.waiting.reserve(changes.len())?;
        let planned = plan(alloc, &self.waiting, count, extras, changes)?;
        self.rows.save(&planned)?;
        self.waiting.note(count, changes);
        let is_due = self.waiting.has_enough(least);
        self.waiting.rotate(alloc, is_due);
        Ok(())
    }
}
