//! Why the data of several folders cannot be had.

use data_folder::DataFault;
use server::SaveFault;
use std::alloc::{AllocError, AllocFailed};
use thiserror::Error;

/// Why the data of several folders cannot be had.
#[derive(Clone, Copy, Debug, PartialEq, Eq, Error)]
pub enum FoldersFault {
    /// This is why the folder with this number, from 0, cannot be used.
    #[error("{1}")]
    At(usize, DataFault),
    /// So many folders have data that can be read, of so many: half of them or fewer.
    #[error("the data can be read in {readable} of {folders} folders, and more than half are needed")]
    TooFew { readable: usize, folders: usize },
    /// The start itself could not be saved in more than half of the folders.
    #[error("the start cannot be saved in more than half of the folders: {0}")]
    NotSaved(SaveFault),
    #[error("out of memory")]
    NoMemory,
}

impl From<AllocError> for FoldersFault {
    fn from(_: AllocError) -> FoldersFault {
        FoldersFault::NoMemory
    }
}

impl<T: Drop> From<AllocFailed<T>> for FoldersFault {
    fn from(_: AllocFailed<T>) -> FoldersFault {
        FoldersFault::NoMemory
    }
}
