//! The record of a service in several folders, a copy in each, of which more than half have to be read at a start.
//!
//!     let mut troubles = Vec::new(alloc);
//!     let opened = open_folders(&rt, &paths, options, &mut troubles)?;      // each folder, and what was read in it
//!     let (folders, found) = HostFolders::begin(&rt, alloc, opened)?;       // the newest record, if there is one
//!
//! It is built on `data_folder` (one copy in a folder, saved whole or not at all) and `folders` (which copy is the newest).
//! The layer above hands the folders to `server::serve_beside`, which saves before replies leave. Of `2d + 1` folders `d`
//! may be lost, damaged or old, at a start and while it runs.
//!
//! A save is made in each folder that is open, each in a thread of its own, with one stamp that rises from save to save. It
//! counts if it is made in more than half of all folders, those that are not open among them. What a later start may begin
//! with is said by `MayFindAmong`: it reads more than half of the folders and takes the newest copy. So `Save` holds of
//! several folders as of one.
//!
//! What is counted of each folder is shared with whoever shows it (`HostFolders::counts`).
#![tactic(auto)]

mod beginning;
mod copies;
mod counts;
mod fault;
mod host;
mod opened;
mod opening;
mod slot;

pub use copies::Copies;
pub use counts::{FolderCount, FolderCounts};
pub use fault::FoldersFault;
pub use host::HostFolders;
pub use opened::Opened;
pub use opening::{FolderTrouble, FoldersOptions, open_folders};
pub use slot::FolderSlot;
