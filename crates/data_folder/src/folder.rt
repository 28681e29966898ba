//! One copy of the record of a service, in the file of a folder.

ghost use Rattle.std.specs.Prelude.{◌≡◌, IsTrue, IfOk, OnOk, OnErr, IsSomeAnd};
ghost use Rattle.sqlite_trees.specs.View.{IsClean};
ghost use Rattle.states.specs.State.{StateView, initial_state};
ghost use Rattle.item_rows.specs.Changed.{LeadTo};
ghost use Rattle.shelf.specs.InMemory.{items_in};
ghost use Rattle.data_folder.specs.Found.{SavedText, RowFits, HasCopy, HoldsSomeText, SavesText, MayFind, FindsOnly, FindsOldOr, FindsCopy};
ghost use Rattle.data_folder.specs.Items.{AreRowsOf, AreStatesTold, CrashLeaves, HasItemsOf, IsStateFound, OpensWith, LeavesRecord, LeavesOldOr};

use crate::fault::{DataFault, record_fault, store_fault};
use crate::found_copy::{FoundCopy, FoundProcess, Wanted, found_in};
use crate::save_copy::{CopyId, SaveCopy};
use crate::stored_record::StoredRecord;
use folders::SaveStamp;
use item_rows::{RowItems, changes_since};
use pages::Snapshot;
use proto::Fault;
use service::SaveFault;
use shelf::{SavedExtras, SavedProcess, Shelf};
use sqlite_trees::error::StoreError;
use sqlite_trees::store::Store;
use sqlite_value::value::Bytes;
use states::State;
use std::alloc::{AllocError, Global};
use token::PAGES;
use wire::Record;

/// A quarter of how many items there are, about: pages have keys at random, so one page tells of all. So many changes are
/// gathered in the file before they are written to rows.
fn quarter_of(pages: &Snapshot) -> usize {
    pages.len(0) as usize * (PAGES / 4)
}

/// A copy of the record of a service in a file, which `save_copy` alone changes.
pub struct DataFolder<S: Store> {
    shelf: Shelf<S>,
    /// The state whose items the file has.
    last: State,
    /// A read, a write or a sync failed: nothing more is saved.
    has_failed: bool,
    ghost kept: { IsClean (S.view shelf.rows.store) → IsTrue (S.view shelf.rows.store).is_open → HoldsSomeText (S.view shelf.rows.store).committed },
}

impl<S: Store + Drop> Drop for DataFolder<S> {
    fn drop(self) {
        let DataFolder {
            shelf: _,
            last: _,
            has_failed: _,
        } = self;
    }
}

/// What one save writes, and the state whose items the file has then.
#[derive(Drop)]
struct PreparedSave {
    extras: SavedExtras,
    changes: Vec<RowItems>,
    state: State,
}

/// The site as it is written: none if there is one folder.
fn site_bytes(alloc: Global, id: CopyId) -> Result<Bytes, AllocError> {
    let mut bytes = Vec::new(alloc);
    if id.folders != 1 {
        id.site.put(&mut bytes)?;
    }
    Bytes::from_slice(alloc, &bytes)
}

/// The row of a process.
fn saved_process(
    alloc: Global,
    id: CopyId,
    stamp: SaveStamp,
    text: &[u8],
) -> Result<SavedProcess, AllocError>
    ensures { IfOk result (λ saved. SavesText (record { stamp = stamp; text = text.now }) saved) }
{
    Ok(SavedProcess {
        stamp,
        site: site_bytes(alloc, id)?,
        folder: id.folder,
        folders: id.folders,
        text: Bytes::from_slice(alloc, text)?,
    })
}

/// What is saved beside items of a process, which has no long replies of its own.
fn saved_extras(
    alloc: Global,
    id: CopyId,
    stamp: SaveStamp,
    text: &[u8],
) -> Result<SavedExtras, AllocError>
    ensures { IfOk result (λ extras. IsSomeAnd extras.process (SavesText (record { stamp = stamp; text = text.now }))) }
{
    Ok(SavedExtras {
        process: Some(saved_process(alloc, id, stamp, text)?),
        replies: Vec::new(alloc),
    })
}

impl<S: Store + Drop> DataFolder<S> {
    /// The data of a store, whose first five trees are the tables, and what was saved last. The errors are those of
    /// `open`.
    pub fn over(
        alloc: Global,
        store: S,
        wanted: Wanted,
    ) -> Result<(DataFolder<S>, Option<FoundCopy>), DataFault>
        ensures finds { IfOk result (λ opened. FindsCopy (MayFind (S.view opened.0.shelf.rows.store) (S.recovers opened.0.shelf.rows.store)) opened.1) }
        ensures items { IfOk result (λ opened. OpensWith (CrashLeaves (S.view opened.0.shelf.rows.store) (S.recovers opened.0.shelf.rows.store))
            (HasItemsOf (S.view opened.0.shelf.rows.store) opened.0.shelf.waiting opened.0.last) opened.1) }
    {
        match Shelf::open(alloc, store) {
            Ok(shelf) => DataFolder::of_shelf(alloc, shelf, wanted),
            Err((store, fault)) => {
                drop(store);
                Err(fault.into())
            }
        }
    }

    fn of_shelf(
        alloc: Global,
        mut shelf: Shelf<S>,
        wanted: Wanted,
    ) -> Result<(DataFolder<S>, Option<FoundCopy>), DataFault>
        ensures finds { IfOk result (λ opened. FindsCopy (MayFind (S.view opened.0.shelf.rows.store) (S.recovers opened.0.shelf.rows.store)) opened.1) }
        ensures items { IfOk result (λ opened. OpensWith (CrashLeaves (S.view opened.0.shelf.rows.store) (S.recovers opened.0.shelf.rows.store))
            (HasItemsOf (S.view opened.0.shelf.rows.store) opened.0.shelf.waiting opened.0.last) opened.1) }
    {
        match found_in(alloc, &mut shelf, wanted) {
            Ok(found) => DataFolder::with_found(shelf, found),
            Err(fault) => Err(fault),
        }
    }

    /// The folder of which this was read, unless a read failed.
    fn with_found(
        shelf: Shelf<S>,
        found: FoundProcess,
    ) -> Result<(DataFolder<S>, Option<FoundCopy>), DataFault>
        requires copy { IsClean (S.view shelf.rows.store) → IsTrue (S.view shelf.rows.store).is_open → HasCopy (S.view shelf.rows.store).committed found.copy }
        requires state { IsStateFound found.copy found.state }
        requires items { IsClean (S.view shelf.rows.store) → IsTrue (S.view shelf.rows.store).is_open → AreStatesTold initial_state found.state
            → AreRowsOf (items_in (S.view shelf.rows.store).committed shelf.waiting) found.state.items }
        ensures finds { IfOk result (λ opened. FindsCopy (MayFind (S.view opened.0.shelf.rows.store) (S.recovers opened.0.shelf.rows.store)) opened.1) }
        ensures items { IfOk result (λ opened. OpensWith (CrashLeaves (S.view opened.0.shelf.rows.store) (S.recovers opened.0.shelf.rows.store))
            (HasItemsOf (S.view opened.0.shelf.rows.store) opened.0.shelf.waiting opened.0.last) opened.1) }
    {
        shelf.says();
        if shelf.is_shut() {
            return Err(DataFault::Disk);
        }
        let FoundProcess { state, copy } = found;
        let folder = DataFolder {
            shelf,
            last: state,
            has_failed: false,
        };
        Ok((folder, copy))
    }

    /// Whether the disk failed. Nothing more is saved then: the file has to be opened again.
    pub fn is_shut(&self) -> bool {
        self.has_failed || self.shelf.is_shut()
    }

    /// The store, as the last save left it.
    pub fn into_store(self) -> S
        ensures { result ≡ self.shelf.rows.store }
    {
        let DataFolder {
            shelf,
            last: _,
            has_failed: _,
        } = self;
        shelf.into_store()
    }

    /// All that a save of this record writes.
    fn prepared(
        &self,
        alloc: Global,
        id: CopyId,
        stamp: SaveStamp,
        stored: &StoredRecord,
    ) -> Result<PreparedSave, Fault>
        ensures extras { IfOk result (λ prepared. IsSomeAnd prepared.extras.process (SavesText (record { stamp = stamp; text = stored.now.text.items }))) }
        ensures state { IfOk result (λ prepared. prepared.state ≡ stored.now.state) }
        ensures changes { IfOk result (λ prepared. AreStatesTold self.now.last stored.now.state → LeadTo prepared.changes.items self.now.last.items stored.now.state.items) }
    {
        let extras = saved_extras(alloc, id, stamp, stored.text.as_slice())?;
        let changes = changes_since(alloc, self.last.pages(), stored.state.pages())?;
        Ok(PreparedSave {
            extras,
            changes,
            state: stored.state.share()?,
        })
    }

    /// Writes it. If it cannot be written the file is as it was, unless the disk failed.
    fn write(&mut self, alloc: Global, prepared: PreparedSave) -> Result<(), StoreError>
        requires open { IsClean (S.view self.old.shelf.rows.store) → IsTrue (S.view self.old.shelf.rows.store).is_open }
        requires fits { RowFits prepared.extras.process }
        ensures saved { (s : SavedText) → IsSomeAnd prepared.extras.process (SavesText s) → OnOk result (FindsOnly (MayFind (S.view self.new.shelf.rows.store) (S.recovers self.new.shelf.rows.store)) s) }
        ensures crash { (s : SavedText) → IsSomeAnd prepared.extras.process (SavesText s)
            → FindsOldOr (MayFind (S.view self.old.shelf.rows.store) (S.recovers self.old.shelf.rows.store)) (MayFind (S.view self.new.shelf.rows.store) (S.recovers self.new.shelf.rows.store)) s }
        ensures items { OnOk result ((s : SavedText) → IsSomeAnd prepared.extras.process (SavesText s) → (last : StateView)
            → HasItemsOf (S.view self.old.shelf.rows.store) self.old.shelf.waiting self.old.last last → LeadTo prepared.changes.items last.items prepared.state.items
            → LeavesRecord (CrashLeaves (S.view self.new.shelf.rows.store) (S.recovers self.new.shelf.rows.store))
            (HasItemsOf (S.view self.new.shelf.rows.store) self.new.shelf.waiting self.new.last) s prepared.state) }
        ensures left { (s : SavedText) → IsSomeAnd prepared.extras.process (SavesText s) → (last : StateView)
            → HasItemsOf (S.view self.old.shelf.rows.store) self.old.shelf.waiting self.old.last last → LeadTo prepared.changes.items last.items prepared.state.items
            → LeavesOldOr (CrashLeaves (S.view self.old.shelf.rows.store) (S.recovers self.old.shelf.rows.store)) (CrashLeaves (S.view self.new.shelf.rows.store) (S.recovers self.new.shelf.rows.store)) s prepared.state }
        ensures stays { OnErr result ((last : StateView) → HasItemsOf (S.view self.old.shelf.rows.store) self.old.shelf.waiting self.old.last last
            → HasItemsOf (S.view self.new.shelf.rows.store) self.new.shelf.waiting self.new.last last) }
    {
        let PreparedSave {
            extras,
            mut changes,
            state,
        } = prepared;
        let least = quarter_of(state.pages());
        self.shelf.save(alloc, &extras, &mut changes, least)?;
        self.last = state;
        Ok(())
    }

    /// Saves what is stored of a record, unless the disk has failed before.
    fn save_stored(
        &mut self,
        alloc: Global,
        id: CopyId,
        stamp: SaveStamp,
        stored: &StoredRecord,
    ) -> Result<(), SaveFault>
        ensures saved { OnOk result (FindsOnly (MayFind (S.view self.new.shelf.rows.store) (S.recovers self.new.shelf.rows.store)) (record { stamp = stamp; text = stored.now.text.items })) }
        ensures crash { FindsOldOr (MayFind (S.view self.old.shelf.rows.store) (S.recovers self.old.shelf.rows.store)) (MayFind (S.view self.new.shelf.rows.store) (S.recovers self.new.shelf.rows.store)) (record { stamp = stamp; text = stored.now.text.items }) }
        ensures items { OnOk result ((last : StateView)
            → HasItemsOf (S.view self.old.shelf.rows.store) self.old.shelf.waiting self.old.last last → AreStatesTold last stored.now.state
            → LeavesRecord (CrashLeaves (S.view self.new.shelf.rows.store) (S.recovers self.new.shelf.rows.store))
            (HasItemsOf (S.view self.new.shelf.rows.store) self.new.shelf.waiting self.new.last) (record { stamp = stamp; text = stored.now.text.items }) stored.now.state) }
        ensures left { (last : StateView)
            → HasItemsOf (S.view self.old.shelf.rows.store) self.old.shelf.waiting self.old.last last → AreStatesTold last stored.now.state
            → LeavesOldOr (CrashLeaves (S.view self.old.shelf.rows.store) (S.recovers self.old.shelf.rows.store)) (CrashLeaves (S.view self.new.shelf.rows.store) (S.recovers self.new.shelf.rows.store)) (record { stamp = stamp; text = stored.now.text.items }) stored.now.state }
        ensures stays { OnErr result ((last : StateView) → HasItemsOf (S.view self.old.shelf.rows.store) self.old.shelf.waiting self.old.last last
            → HasItemsOf (S.view self.new.shelf.rows.store) self.new.shelf.waiting self.new.last last) }
    {
        if self.has_failed || self.shelf.is_shut() {
            return Err(SaveFault::Disk);
        }
        match self.prepared(alloc, id, stamp, stored) {
            Ok(prepared) => self
                .write(alloc, prepared)
                .map_err(|error| store_fault(error)),
            Err(fault) => Err(record_fault(fault)),
        }
    }
}

impl<S: Store + Drop> SaveCopy for DataFolder<S> {
    ghost use Rattle.data_folder.specs.Found.{MayFind};
    ghost use Rattle.data_folder.specs.Items.{CrashLeaves, HasItemsOf};

    ghost may_find = { λ folder found. MayFind (S.view folder.shelf.rows.store) (S.recovers folder.shelf.rows.store) found };

    ghost may_leave = { λ folder db. CrashLeaves (S.view folder.shelf.rows.store) (S.recovers folder.shelf.rows.store) db };

    ghost has_items = { λ folder s. HasItemsOf (S.view folder.shelf.rows.store) folder.shelf.waiting folder.last s };

    /// Saves it: all of it, or nothing. After Ok a process that opens the folder later finds this record, also after a
    /// crash, until another one is saved. After an error the folder has what was saved before, unless the disk failed:
    /// then it has that or this.
    fn save_copy(
        &mut self,
        alloc: Global,
        id: CopyId,
        stamp: SaveStamp,
        stored: &StoredRecord,
    ) -> Result<(), SaveFault> {
        let saved = self.save_stored(alloc, id, stamp, stored);
        self.has_failed = saved == Err(SaveFault::Disk);
        saved
    }
}
