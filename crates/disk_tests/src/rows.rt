//! The rows of a database over files in memory.

ghost use Rattle.std.specs.Prelude.{◌≡◌, IfOk, IfSome};

use disk_images::{Calls, DatabaseLayout, Images, MemoryStore, made, opened, table};
use row_store::RowStore;
use sqlite_trees::error::StoreError;
use sqlite_trees::schema::Object;
use std::alloc::Global;

/// The rows of such a database.
pub type TestRows = RowStore<MemoryStore>;

/// Small pages, few of them in memory. Some saves are copied into the file.
const LAYOUT: DatabaseLayout = DatabaseLayout {
    page_bytes: 512,
    pages: 8,
    log_pages: 6,
    has_sums: true,
};

/// Two tables, `item` and `process`.
fn tables() -> [Object<'static>; 2] {
    [
        table(
            "item",
            "CREATE TABLE item(place INTEGER PRIMARY KEY, key BLOB NOT NULL, flags INTEGER NOT NULL, due INTEGER, stamp INTEGER NOT NULL, data BLOB NOT NULL, more BLOB) STRICT",
        ),
        table(
            "process",
            "CREATE TABLE process(one INTEGER PRIMARY KEY, turn INTEGER NOT NULL) STRICT",
        ),
    ]
}

/// The rows of the two tables. `None`: the store is shut, or these are no tables.
fn rows_of(store: MemoryStore) -> Option<TestRows>
    ensures { IfSome result (λ rows. rows.tables ≡ 2) }
{
    match RowStore::over(store, 2) {
        Ok(rows) => Some(rows),
        Err(store) => {
            drop(store);
            None
        }
    }
}

/// The rows of an empty database. `None`: a file stopped before it was made.
pub fn made_rows(alloc: Global, calls: Calls) -> Result<Option<TestRows>, StoreError>
    ensures { IfOk result (λ made. IfSome made (λ rows. rows.tables ≡ 2)) }
{
    match made(alloc, LAYOUT, &tables(), calls)? {
        Some(store) => Ok(rows_of(store)),
        None => Ok(None),
    }
}

/// The rows of the database in files with this content. `None`: the open is refused.
pub fn opened_rows(alloc: Global, images: &Images) -> Result<Option<TestRows>, StoreError>
    ensures { IfOk result (λ opened. IfSome opened (λ rows. rows.tables ≡ 2)) }
{
    match opened(alloc, images, LAYOUT, &tables())? {
        Some(store) => Ok(rows_of(store)),
        None => Ok(None),
    }
}
