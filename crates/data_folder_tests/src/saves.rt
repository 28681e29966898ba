//! Saves in a folder, and which of them it is found with.

use crate::contents::content_of;
use crate::files::{made, opened};
use crate::services::Moment;
use data_folder::{CopyId, DataFault, DataFolder, FoundCopy, SaveCopy, StoredRecord, Wanted};
use disk_images::{Calls, DatabaseLayout, Images, MemoryStore};
use folders::SaveStamp;
use service::{SaveFault, ServiceRecord};
use sqlite_trees::error::StoreError;
use sqlite_trees::store::{Reopen, Store};
use std::alloc::Global;

/// A folder over files in memory.
pub type TestFolder = DataFolder<MemoryStore>;

/// The one folder of a service.
pub const ALONE: CopyId = CopyId {
    site: 0,
    folder: 0,
    folders: 1,
};

/// A folder of a service of one executor, with data or without.
pub const WANTED: Wanted = Wanted {
    is_new: false,
    u: 0,
    folders: 1,
};

/// The same, without data.
pub const NEW: Wanted = Wanted {
    is_new: true,
    u: 0,
    folders: 1,
};

/// What an open of a folder comes to.
#[derive(Clone, Copy, Debug, PartialEq, Eq)]
pub enum Opening {
    /// It is refused.
    Refused,
    /// The record of the save of this number is found, or no record, if it is 0.
    Save(usize),
    /// Another record is found, or an allocation failed when it was compared.
    Other,
}

/// Whether so many saves are found, or those and the next one.
pub fn is_old_or_new(opening: Opening, saved: usize) -> bool {
    opening == Opening::Save(saved) || opening == Opening::Save(saved.wrapping_add(1))
}

/// The stamp of the save of this number, from 1.
pub fn stamp_of(number: usize) -> SaveStamp {
    SaveStamp {
        start: 1,
        save: number as u64,
    }
}

/// The folder of a store without data. `None`: it cannot be opened.
fn folder_over<S: Store + Drop>(alloc: Global, store: S) -> Option<DataFolder<S>> {
    match DataFolder::over(alloc, store, NEW) {
        Ok((folder, found)) => {
            drop(found);
            Some(folder)
        }
        Err(_) => None,
    }
}

/// A folder without data. `None`: a file stopped before it was there.
pub fn new_folder(
    alloc: Global,
    layout: DatabaseLayout,
    calls: Calls,
) -> Result<Option<TestFolder>, DataFault> {
    match made(alloc, layout, calls)? {
        Some(store) => Ok(folder_over(alloc, store)),
        None => Ok(None),
    }
}

/// A folder without data, whose files do not stop.
pub fn good_folder(alloc: Global, layout: DatabaseLayout) -> Result<TestFolder, DataFault> {
    match new_folder(alloc, layout, Calls::ALL)? {
        Some(folder) => Ok(folder),
        None => Err(DataFault::Disk),
    }
}

/// Makes the save of this number.
pub fn save<F: SaveCopy>(
    alloc: Global,
    folder: &mut F,
    id: CopyId,
    number: usize,
    moment: &Moment,
) -> Result<(), SaveFault> {
    folder.save_copy(alloc, id, stamp_of(number), &moment.stored)
}

/// Makes save after save, until one fails: how many succeeded.
pub fn save_all<F: SaveCopy>(alloc: Global, folder: &mut F, moments: &[Moment]) -> usize {
    let mut count = 0usize;
    for moment in moments {
        let number = count.wrapping_add(1);
        if save(alloc, folder, ALONE, number, moment).is_err() {
            return count;
        }
        count = number;
    }
    count
}

/// Makes the save of this number: the store after it.
pub fn store_after<S: Store + Drop>(
    alloc: Global,
    folder: DataFolder<S>,
    id: CopyId,
    number: usize,
    moment: &Moment,
) -> Result<S, SaveFault> {
    let mut folder = folder;
    let saved = save(alloc, &mut folder, id, number, moment);
    let store = folder.into_store();
    match saved {
        Ok(()) => Ok(store),
        Err(fault) => {
            drop(store);
            Err(fault)
        }
    }
}

/// The machine stops, and the store is opened again.
pub fn crashed<S: Reopen + Drop>(store: S) -> Result<S, StoreError> {
    let mut store = store;
    match store.crash_and_reopen() {
        Ok(()) => Ok(store),
        Err(error) => {
            drop(store);
            Err(error)
        }
    }
}

/// Whether this record is the one that was saved: it has the text, and the items that the commands left. False also if an
/// allocation fails.
pub fn is_record(alloc: Global, kept: &ServiceRecord, moment: &Moment) -> bool {
    let Ok(again) = StoredRecord::of(alloc, kept) else {
        return false;
    };
    let is_text = again.text.as_slice() == moment.stored.text.as_slice();
    is_text && content_of(alloc, &again.state) == Ok(moment.content)
}

/// The moment of the save of this number.
fn moment_at(moments: &[Moment], number: usize) -> Option<&Moment> {
    moments.get(number.checked_sub(1)?)
}

/// Whether this is of the save of this number.
fn is_save(alloc: Global, found: &FoundCopy, moments: &[Moment], number: usize) -> bool {
    match moment_at(moments, number) {
        Some(moment) => {
            found.stamp == stamp_of(number) && is_record(alloc, &found.service, moment)
        }
        None => false,
    }
}

/// Which of these saves this is of.
fn opening_with(alloc: Global, found: &FoundCopy, moments: &[Moment]) -> Opening {
    match usize::try_from(found.stamp.save) {
        Ok(number) if is_save(alloc, found, moments, number) => Opening::Save(number),
        _ => Opening::Other,
    }
}

/// Which of these saves is found.
pub fn opening_of(alloc: Global, found: &Option<FoundCopy>, moments: &[Moment]) -> Opening {
    match found {
        Some(found) => opening_with(alloc, found, moments),
        None => Opening::Save(0),
    }
}

/// Which of these saves is found in a store that is opened.
pub fn opening_over<S: Store + Drop>(alloc: Global, store: S, moments: &[Moment]) -> Opening {
    match DataFolder::over(alloc, store, WANTED) {
        Ok((folder, found)) => {
            drop(folder);
            opening_of(alloc, &found, moments)
        }
        Err(_) => Opening::Refused,
    }
}

/// Which of these saves is found in files with this content.
pub fn opening_in(
    alloc: Global,
    images: &Images,
    layout: DatabaseLayout,
    moments: &[Moment],
) -> Result<Opening, DataFault> {
    match opened(alloc, images, layout)? {
        Some(store) => Ok(opening_over(alloc, store, moments)),
        None => Ok(Opening::Refused),
    }
}

/// Which of these saves is found in a folder after a crash.
pub fn opening_after_crash<S: Reopen + Drop>(
    alloc: Global,
    folder: DataFolder<S>,
    moments: &[Moment],
) -> Opening {
    match crashed(folder.into_store()) {
        Ok(store) => opening_over(alloc, store, moments),
        Err(_) => Opening::Refused,
    }
}
