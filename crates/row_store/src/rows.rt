//! The rows of a store's first tables, which a save alone writes.

ghost use Rattle.std.specs.Prelude.{◌≡◌, ◌↔◌, ◌⊎◌, ◌≤◌, IsTrue, IfOk};
ghost use Rattle.sqlite_trees.specs.View.{doubt, IsClean};
ghost use Rattle.row_store.specs.Saved.{ChangesFit, HasTables, StoreRests, after};

use crate::change::RowChange;
use crate::{reading, saving};
use sqlite_trees::error::StoreError;
use sqlite_trees::store::{Reopen, Shape, Store};
use sqlite_value::row::Row;
use std::alloc::Global;

/// The rows of the first tables of a store, which `save` alone changes. What clauses call `committed` is what a crash leaves.
pub struct RowStore<S: Store> {
    store: S,
    tables: u32,
    ghost tabled: { IsClean (S.view store) → HasTables tables (S.view store) },
    ghost at_rest: { IsClean (S.view store) → StoreRests (S.view store) },
}

impl<S: Store + Drop> Drop for RowStore<S> {
    fn drop(self) {
        let RowStore {
            store: _,
            tables: _,
        } = self;
    }
}

/// Whether the first trees are tables.
fn are_tables<S: Store>(store: &S, tables: u32) -> bool
    ensures { IsTrue result ↔ HasTables tables (S.view store.now) }
{
    for table in 0..tables {
        if store.shape(table) != Shape::Table {
            return false;
        }
    }
    true
}

impl<S: Store> RowStore<S> {
    ghost use Rattle.std.specs.Prelude.{◌≡◌, ◌↔◌, ◌⊎◌, ◌≤◌, ◌<◌, false, IsTrue, IfOk, IfErr, OnOk, OnErr};
    ghost use Rattle.sqlite_trees.specs.Tree.{Trees};
    ghost use Rattle.sqlite_trees.specs.View.{doubt, IsClean, IsQuiet};
    ghost use Rattle.row_store.specs.Saved.{ChangesFit, HasTables, after, IsSaved, IsSame, HasReason};

    /// The rows of the first `tables` tables of the store. What was not committed is undone. The store comes back if it
    /// is shut, or if one of these is no table.
    pub fn over(mut store: S, tables: u32) -> Result<RowStore<S>, S>
        ensures tables { IfOk result (λ rows. rows.tables ≡ tables) }
        ensures opened { IfOk result (λ rows. IsClean (S.view rows.store) → IsTrue (S.view rows.store).is_open) }
        ensures same { IfOk result (λ rows. IsClean (S.view rows.store) → IsSame (S.view store) (S.view rows.store)) }
        ensures quiet { IfOk result (λ rows. IsQuiet S.view S.faults S.recovers S.is_shielded store rows.store) }
        ensures refused { IfErr result (λ back. IsClean (S.view back) → IsTrue (S.view back).is_broken ⊎ ¬ HasTables tables (S.view back)) }
    {
        store.rollback();
        if !store.is_broken() && are_tables(&store, tables) {
            Ok(RowStore { store, tables })
        } else {
            Err(store)
        }
    }

    /// Whether the store is shut: a failure of the disk was met, and each call fails until the file is opened again.
    pub fn is_shut(&self) -> bool
        ensures { IsClean (S.view self.now.store) → (IsTrue result ↔ ((S.view self.now.store).is_open ≡ false)) }
    {
        self.store.is_broken()
    }

    /// All rows of a table, in the order of their numbers. An error changes no row; after one of the disk the store may
    /// be shut.
    pub fn rows(&mut self, alloc: Global, table: u32) -> Result<Vec<Row>, StoreError>
        requires { table < self.old.tables }
        ensures tables { self.new.tables ≡ self.old.tables }
        ensures found { IfOk result (λ rows. IsClean (S.view self.new.store) → IsTrue (S.view self.new.store).is_open × (rows.items ≡ (S.view self.old.store).committed table)) }
        ensures same { IsClean (S.view self.new.store) → IsSame (S.view self.old.store) (S.view self.new.store) }
        ensures quiet { IsQuiet S.view S.faults S.recovers S.is_shielded self.old.store self.new.store }
    {
        reading::read_table(alloc, &mut self.store, self.tables, table)
    }

    /// Makes all changes in order, and commits them. After an error none is made: the rows are as they were, unless
    /// the store is shut; then the file has to be opened again, and has the old rows or the new ones.
    ///
    /// A crash, also one during this call, leaves what it could leave before, or all of the changes and nothing else.
    pub fn save(&mut self, changes: &[RowChange]) -> Result<(), StoreError>
        requires { ChangesFit self.old.tables changes.now }
        ensures tables { self.new.tables ≡ self.old.tables }
        ensures saved { OnOk result (IsClean (S.view self.new.store) → IsSaved (S.view self.old.store) changes.now (S.view self.new.store)) }
        ensures same { OnErr result (IsClean (S.view self.new.store) → IsSame (S.view self.old.store) (S.view self.new.store)) }
        ensures reason { IsClean (S.view self.new.store) → IfErr result (HasReason (S.view self.old.store) (S.faults self.old.store) (S.faults self.new.store) changes.now) }
        ensures crash { IsClean (S.view self.new.store) → (db : Trees) → S.recovers self.new.store db → S.recovers self.old.store db ⊎ (db ≡ after changes.now (S.view self.old.store).committed) }
        ensures clean { doubt (S.view self.old.store).is_clean ≤ doubt (S.view self.new.store).is_clean }
        ensures counts { S.faults self.old.store ≤ S.faults self.new.store }
        ensures shield { S.is_shielded self.old.store → S.is_shielded self.new.store }
    {
        saving::save(&mut self.store, self.tables, changes)
    }

    /// The store, as the last save left it.
    pub fn into_store(self) -> S
        ensures { result ≡ self.store }
    {
        let RowStore { store, tables: _ } = self;
        store
    }
}

/// A crash at this moment, and an open after it: the rows are what the crash could leave, which is what was saved last
/// while the store is open. For tests, and for theorems that span a crash.
pub fn crash_and_reopen<S: Reopen>(rows: RowStore<S>) -> Result<RowStore<S>, S>
    ensures tables { IfOk result (λ again. again.tables ≡ rows.tables) }
    ensures found { IfOk result (λ again. IsClean (S.Store.view again.store) → S.Store.recovers rows.store (S.Store.view again.store).committed) }
    ensures durable { IfOk result (λ again. IsClean (S.Store.view again.store) → IsTrue (S.Store.view rows.store).is_open
        → (S.Store.view again.store).committed ≡ (S.Store.view rows.store).committed) }
    ensures clean { IfOk result (λ again. doubt (S.Store.view rows.store).is_clean ≤ doubt (S.Store.view again.store).is_clean) }
{
    let tables = rows.tables;
    let mut store = rows.into_store();
    match store.crash_and_reopen() {
        Ok(()) => RowStore::over(store, tables),
        Err(_) => Err(store),
    }
}

/// A save, a crash at any moment of it or after it, and an open: the rows are as they were, or as the changes make them.
pub fn save_and_crash<S: Reopen>(rows: RowStore<S>, changes: &[RowChange]) -> Result<RowStore<S>, S>
    requires { ChangesFit rows.tables changes.now }
    ensures old_or_new { IfOk result (λ again. IsClean (S.Store.view again.store) → S.Store.recovers rows.store (S.Store.view again.store).committed
        ⊎ ((S.Store.view again.store).committed ≡ after changes.now (S.Store.view rows.store).committed)) }
{
    let mut rows = rows;
    let _ = rows.save(changes);
    crash_and_reopen(rows)
}
