//! How a database over files in memory is made and opened.

ghost use Rattle.std.specs.Prelude.{◌≡◌, IsTrue, IfOk};
ghost use Rattle.sqlite_disk.specs.Memory.{memory_is_usable};
ghost use Rattle.sqlite_store.specs.Unopened.{AreUsable};

use crate::image::{DiskFile, Images, file_of};
use sqlite_disk::{Files, Fuse, Memory};
use sqlite_pager::{Options, Pager};
use sqlite_store::{FileStore, Unopened};
use sqlite_trees::error::StoreError;
use sqlite_trees::schema::Object;
use sqlite_trees::store::Shape;
use sqlite_wal::PageSize;
use std::alloc::Global;

/// A file in memory that may stop at some call.
pub type MemoryDisk = Fuse<Memory>;

/// A database over two such files.
pub type MemoryStore = FileStore<MemoryDisk>;

/// How a database is kept in its files.
#[derive(Clone, Copy)]
pub struct DatabaseLayout {
    /// How many bytes a page has: a power of two from 512 to 65,536.
    pub page_bytes: usize,
    /// How many pages that were read, and how many that were written, are in memory.
    pub pages: usize,
    /// After so many pages in the log they are copied into the file.
    pub log_pages: usize,
    /// Whether each page has a sum.
    pub has_sums: bool,
}

/// How many calls the files pass on, and fail after them.
#[derive(Clone, Copy)]
pub struct Calls {
    pub log: u64,
    pub db: u64,
}

impl Calls {
    /// No call fails.
    pub const ALL: Calls = Calls {
        log: u64::MAX,
        db: u64::MAX,
    };

    /// One file passes so many calls on, and the other one all of them.
    pub fn of(file: DiskFile, calls: u64) -> Calls {
        match file {
            DiskFile::Log => Calls {
                log: calls,
                ..Calls::ALL
            },
            DiskFile::Db => Calls {
                db: calls,
                ..Calls::ALL
            },
        }
    }
}

/// The table of this name, which this statement makes.
pub fn table(name: &'static str, sql: &'static str) -> Object<'static> {
    Object {
        shape: Shape::Table,
        kind: "table",
        name,
        table: name,
        reals: 0,
        sql: Some(sql),
    }
}

/// How the pages of such a layout are kept.
fn options_of(layout: DatabaseLayout) -> Options {
    let mut options = Options::new(7);
    options.cache_pages = layout.pages;
    options.spill_pages = layout.pages;
    options.checkpoint_frames = layout.log_pages;
    options
}

/// A database in these files, of which nothing is known yet.
fn unopened(
    alloc: Global,
    log: Memory,
    db: Memory,
    layout: DatabaseLayout,
    tables: &[Object<'_>],
    calls: Calls,
) -> Result<Unopened<MemoryDisk>, StoreError>
    requires log { IsTrue (memory_is_usable log) }
    requires db { IsTrue (memory_is_usable db) }
    ensures { IfOk result AreUsable }
{
    let size = PageSize::new(layout.page_bytes).ok_or(StoreError::Unstorable)?;
    let files = Files {
        log: Fuse::new(log, calls.log),
        db: Fuse::new(db, calls.db),
    };
    let pager = Pager::new(alloc, files, size, options_of(layout))?;
    Ok(Unopened::with_sums(alloc, pager, tables, layout.has_sums)?)
}

/// An empty database. `None`: a file stopped before it was made, or an allocation failed. `Unstorable`: no page has so many
/// bytes; the only other error is a failed allocation.
pub fn made(
    alloc: Global,
    layout: DatabaseLayout,
    tables: &[Object<'_>],
    calls: Calls,
) -> Result<Option<MemoryStore>, StoreError> {
    let (log, db) = (Memory::new(alloc), Memory::new(alloc));
    let unopened = unopened(alloc, log, db, layout, tables, calls)?;
    match unopened.create() {
        Ok(store) => Ok(Some(store)),
        Err((_, unopened)) => {
            drop(unopened);
            Ok(None)
        }
    }
}

/// The database in files with this content. `None`: the open is refused, or an allocation failed. The errors are those of
/// `made`.
pub fn opened(
    alloc: Global,
    images: &Images,
    layout: DatabaseLayout,
    tables: &[Object<'_>],
) -> Result<Option<MemoryStore>, StoreError> {
    let log = file_of(alloc, &images.log)?;
    let db = file_of(alloc, &images.db)?;
    let unopened = unopened(alloc, log, db, layout, tables, Calls::ALL)?;
    match unopened.open() {
        Ok(store) => Ok(Some(store)),
        Err((_, unopened)) => {
            drop(unopened);
            Ok(None)
        }
    }
}
