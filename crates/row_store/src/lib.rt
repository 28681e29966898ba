//! Rows of tables that are changed together: a save makes all of its changes, or none.
//!
//! It is built on `sqlite_trees`, whose `Store` is a database file that sqlite3 reads, or memory. The layer above
//! uses `RowStore::save`: if it answers Ok, a crash leaves what it saved; during it a crash leaves the rows as they
//! were, or as the changes make them. `save_and_crash` says so as one call.
#![tactic(auto)]

mod change;
mod reading;
mod rows;
mod saving;

pub use change::RowChange;
pub use rows::{RowStore, crash_and_reopen, save_and_crash};
