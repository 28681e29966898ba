//! What a file has of a process: its items, what is known of the process, and long replies, saved together.
//!
//! It is built on `row_store` (a save of rows makes all of its changes, or none) and `item_rows` (the rows of items). The
//! layer above uses `Shelf::save`: after it answered Ok a crash leaves what it saved, and during it a crash leaves what
//! was there, or that with all that it saves. What `Shelf::items` reads is what the saves made, one after the other.
//!
//! A save writes one row with all items that it changes, and some rows of items that earlier saves changed, in the order
//! of their numbers: rows that are neighbours cost less to write than rows at random. A change row goes as soon as all its
//! items are in their rows.
#![tactic(auto)]

mod changes;
mod columns;
mod comparing;
mod planning;
mod process;
mod reading;
mod reply;
mod shelf;
mod waiting;

pub use comparing::are_all;
pub use planning::SavedExtras;
pub use process::SavedProcess;
pub use reading::FoundItems;
pub use reply::{LongReply, ReplyChange};
pub use shelf::{ReadFault, Shelf};
