//! Why a record of a service is not saved.

use thiserror::Error;

/// Why a record is not saved.
#[derive(Clone, Copy, Debug, PartialEq, Eq, Error)]
pub enum SaveFault {
    /// No room is left. What is saved is as it was, and the save may be tried again.
    #[error("no room is left")]
    Full,
    /// What is saved is as it was, and the save may be tried again.
    #[error("out of memory")]
    NoMemory,
    /// The record is none that can be stored. What is saved is as it was.
    #[error("the record cannot be stored")]
    Unstorable,
    /// The disk failed in this save or in an earlier one: nothing more is saved. Another process finds the record of the
    /// last save, or of the one that failed.
    #[error("a read, a write or a sync failed")]
    Disk,
}
