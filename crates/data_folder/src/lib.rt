//! The record of a service in a folder: its items as rows of a database file, and beside them all else of its process.
//!
//!     let (mut folder, found) = HostFolder::open(&rt, "/var/lib/eve", wanted, true)?;   // what was saved last, if something was
//!     let stored = StoredRecord::of(alloc, &record)?;                                  // what is saved of a record
//!     folder.save_copy(alloc, id, stamp, &stored)?;                                    // then a crash leaves this one
//!
//! It is built on `shelf` (the rows of a file, saved together), `item_rows` (where the row of an item is), `process_text`
//! (the text of a process) and `process_parts` (a record of a process as such a text and one state, and back). The layer
//! above, `data_folders`, has several of these folders, and uses `SaveCopy` of each: after a save a crash leaves this record,
//! with its items, and during it this one or what it might leave before.
//!
//! A save writes the text of the process and the items that are not as they were in the last save. Those are found by
//! digests (`item_rows::changes_since`): what has the same digest is not looked at.
#![tactic(auto)]

mod fault;
mod folder;
mod found_copy;
mod host;
mod opening;
mod save_copy;
mod service_text;
mod stored_items;
mod stored_record;
mod tables;

pub use fault::DataFault;
pub use folder::DataFolder;
pub use found_copy::{FoundCopy, Wanted};
pub use host::HostFolder;
pub use opening::{FILE, FILES, FolderStore};
pub use save_copy::{CopyId, SaveCopy};
pub use stored_record::StoredRecord;
