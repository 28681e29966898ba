//! The file of a folder, opened.

ghost use Rattle.std.specs.Prelude.{IfOk};
ghost use Rattle.sqlite_store.specs.FileStore.{view, recovers};
ghost use Rattle.data_folder.specs.Found.{MayFind, FindsCopy};
ghost use Rattle.data_folder.specs.Items.{CrashLeaves, HasItemsOf, OpensWith};

use crate::fault::DataFault;
use crate::folder::DataFolder;
use crate::found_copy::{FoundCopy, Wanted};
use crate::tables::{has_tables, set_version};
use sqlite::{Alter, Connection, File, FileStore, Files, Options, Unknown};
use std::fs;
use std::hash::{BuildHasher, RandomState};
use unsynced::OptionalSync;

/// The file's name in its folder.
pub const FILE: &str = "eve.db";

/// The files of a folder: the database and its log.
pub const FILES: [&str; 2] = [FILE, "eve.db-wal"];

/// The disk of a folder, whose syncs may be turned off.
pub type FolderStore = FileStore<OptionalSync<File>>;

/// The database at this path, in which each page has a sum.
fn database_at(
    rt: &HostRuntime,
    path: &str,
    syncs: bool,
) -> Result<Connection<FolderStore>, DataFault> {
    let options = Options::new(RandomState::new(rt)?.hash_one(&0u8));
    let Files { log, db } = sqlite_std_file::open(rt, path, Unknown)?;
    let files = Files {
        log: OptionalSync::new(log, syncs),
        db: OptionalSync::new(db, syncs),
    };
    match Connection::open_files_with(rt.alloc(), files, options, true) {
        Ok(connection) => Ok(connection),
        Err((error, left)) => {
            drop(left);
            Err(error.into())
        }
    }
}

/// The store in a file that is there, or in a new one.
fn store_at(
    rt: &HostRuntime,
    path: &str,
    is_new: bool,
    syncs: bool,
) -> Result<FolderStore, DataFault> {
    let mut connection = database_at(rt, path, syncs)?;
    let has_tables = has_tables(&mut connection, is_new)?;
    let store = connection.into_store();
    if has_tables {
        return Ok(store);
    }
    if store.version() > 1 {
        Err(DataFault::LaterVersion)
    } else {
        Err(DataFault::OtherTables)
    }
}

/// The store, whose version is noted.
fn versioned(store: FolderStore) -> Result<FolderStore, DataFault> {
    let mut store = store;
    match set_version(&mut store) {
        Ok(()) => Ok(store),
        Err(fault) => Err(fault),
    }
}

impl DataFolder<FolderStore> {
    /// Opens the file `eve.db` in the folder, for this process alone: until the result is dropped every other open of it
    /// is refused. It gives what was saved last, if there is something. A folder without data needs `is_new`, and one
    /// with data refuses it: so a disk that is not mounted is not taken for an empty one. The folder has to be there.
    /// With `syncs` each save is synced. Else what was saved stays if the process ends, and not if the machine does.
    ///
    /// A file that was damaged is refused: its pages have sums, each row is as it was written or is refused, and the items
    /// are those of the state that was saved, since its token is made anew from them. That is not proved of an item that
    /// another program changed such that the token of the state stays the same, which nobody knows how to do.
    ///
    /// It takes some two seconds for a million items.
    pub fn open(
        rt: &HostRuntime,
        folder: &str,
        wanted: Wanted,
        syncs: bool,
    ) -> Result<(DataFolder<FolderStore>, Option<FoundCopy>), DataFault>
        ensures finds { IfOk result (λ opened. FindsCopy (MayFind (view opened.0.shelf.rows.store) (recovers opened.0.shelf.rows.store)) opened.1) }
        ensures items { IfOk result (λ opened. OpensWith (CrashLeaves (view opened.0.shelf.rows.store) (recovers opened.0.shelf.rows.store))
            (HasItemsOf (view opened.0.shelf.rows.store) opened.0.shelf.waiting opened.0.last) opened.1) }
    {
        let path = format!(in rt.alloc(); "{folder}/{FILE}")?;
        if !wanted.is_new && !fs::exists(rt, path.as_str())? {
            return Err(DataFault::NoData);
        }
        let store = store_at(rt, path.as_str(), wanted.is_new, syncs)?;
        let store = versioned(store)?;
        DataFolder::over(rt.alloc(), store, wanted)
    }
}
