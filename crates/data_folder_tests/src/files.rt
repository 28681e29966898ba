//! The database of a folder over files in memory.

use disk_images::{Calls, DatabaseLayout, Images, MemoryStore, table};
use sqlite_trees::error::StoreError;
use sqlite_trees::schema::Object;
use std::alloc::Global;

/// Small pages, few of them in memory. Some saves are copied into the file together.
pub const SMALL: DatabaseLayout = DatabaseLayout {
    page_bytes: 512,
    pages: 8,
    log_pages: 60,
    has_sums: true,
};

/// The same, and almost each save is copied into the file.
pub const COPIED: DatabaseLayout = DatabaseLayout {
    log_pages: 12,
    ..SMALL
};

/// The same, and no save is copied into the file.
pub const LOGGED: DatabaseLayout = DatabaseLayout {
    log_pages: 100_000,
    ..SMALL
};

/// The same, of pages without sums.
pub const UNSUMMED: DatabaseLayout = DatabaseLayout {
    has_sums: false,
    ..LOGGED
};

/// As in a folder, with fewer pages in memory: to make room for them takes time at each open.
pub const USUAL: DatabaseLayout = DatabaseLayout {
    page_bytes: 4096,
    pages: 16,
    log_pages: 1000,
    has_sums: true,
};

/// The tables of a folder.
fn tables() -> [Object<'static>; 5] {
    [
        table(
            "item",
            "CREATE TABLE item (place INTEGER PRIMARY KEY, key BLOB NOT NULL, flags INTEGER NOT NULL, due INTEGER, stamp INTEGER NOT NULL, data BLOB NOT NULL, more BLOB) STRICT",
        ),
        table(
            "change",
            "CREATE TABLE change (turn INTEGER PRIMARY KEY, items BLOB NOT NULL) STRICT",
        ),
        table(
            "process",
            "CREATE TABLE process (one INTEGER PRIMARY KEY, start INTEGER NOT NULL, turn INTEGER NOT NULL, site BLOB NOT NULL, folder INTEGER NOT NULL, folders INTEGER NOT NULL, text BLOB NOT NULL) STRICT",
        ),
        table(
            "reply",
            "CREATE TABLE reply (client INTEGER PRIMARY KEY, number INTEGER NOT NULL, text BLOB NOT NULL) STRICT",
        ),
        table(
            "parked",
            "CREATE TABLE parked (place INTEGER PRIMARY KEY, text BLOB NOT NULL) STRICT",
        ),
    ]
}

/// The empty database of a folder. `None`: a file stopped before it was made.
pub fn made(
    alloc: Global,
    layout: DatabaseLayout,
    calls: Calls,
) -> Result<Option<MemoryStore>, StoreError> {
    disk_images::made(alloc, layout, &tables(), calls)
}

/// The database of a folder in files with this content. `None`: the open is refused.
pub fn opened(
    alloc: Global,
    images: &Images,
    layout: DatabaseLayout,
) -> Result<Option<MemoryStore>, StoreError> {
    disk_images::opened(alloc, images, layout, &tables())
}
