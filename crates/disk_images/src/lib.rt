//! Databases over files in memory, for tests: a file stops at the call of some number, and what is in the files can be
//! looked at, changed and opened again.
//!
//!     let store = made(alloc, layout, &tables, Calls::ALL)?;       // an empty database, unless a file stopped before
//!     let mut files = store.close();
//!     let mut images = images_of(alloc, &files)?;                  // what its files have now
//!     images.flip(DiskFile::Db, 700);                              // a bit of it is damaged
//!     let again = opened(alloc, &images, layout, &tables)?;        // the database in files with this content
//!
//! It is built on the kit's `sqlite_disk` (a file in memory, and one that stops) and `sqlite_store` (a database in two
//! files). `disk_tests` and `data_folder_tests` have a service or rows saved in such a database. They rest on `images_of`:
//! an image is of all bytes of its file. `Leftovers` has what a crash may leave: any blocks that were written since the
//! last sync may be on the disk.
#![tactic(auto)]

mod blocks;
mod database;
mod image;

pub use blocks::{Blocks, Leftovers, left_of};
pub use database::{Calls, DatabaseLayout, MemoryDisk, MemoryStore, made, opened, table};
pub use image::{DiskFile, Image, Images, images_of};
