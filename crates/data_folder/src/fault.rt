//! Why a folder cannot be opened, and why a record is not saved.

use proto::Fault;
use service::SaveFault;
use shelf::ReadFault;
use sqlite::ErrorCode;
use sqlite_std_file::OpenError;
use sqlite_trees::error::StoreError;
use std::alloc::{AllocError, AllocFailed};
use std::io;
use thiserror::Error;

/// Why the data of a folder cannot be had.
#[derive(Clone, Copy, Debug, PartialEq, Eq, Error)]
pub enum DataFault {
    /// There is no file, or no table in it.
    #[error("no data; start once with --new")]
    NoData,
    /// A new file was asked for, and there is one with data.
    #[error("has data already; start without --new")]
    HasData,
    /// The data is of a service of another number of nodes.
    #[error("made with --u {0}")]
    OtherU(u8),
    /// The file is of a later version of this program.
    #[error("made by a later version of this program")]
    LaterVersion,
    /// It is a database, and none that this program made.
    #[error("a database of another program")]
    OtherTables,
    /// The data is one of so many copies, in as many folders.
    #[error("made with {0} folders")]
    OtherFolders(u32),
    /// The data is of another site than that of the other folders.
    #[error("data of another site than that of the other folders")]
    OtherSite,
    /// A page, a row or the text is none that was written, or the items are not those of the state.
    #[error("damaged")]
    Damaged,
    /// Another process has the file open.
    #[error("in use by another process")]
    InUse,
    /// The folder or the file is missing, cannot be read or written, or is no plain file.
    #[error("cannot be opened or written")]
    CannotOpen,
    #[error("no room is left")]
    Full,
    /// The disk failed.
    #[error("a read, a write or a sync failed")]
    Disk,
    #[error("out of memory")]
    NoMemory,
}

impl From<AllocError> for DataFault {
    fn from(_: AllocError) -> DataFault {
        DataFault::NoMemory
    }
}

impl<T: Drop> From<AllocFailed<T>> for DataFault {
    fn from(_: AllocFailed<T>) -> DataFault {
        DataFault::NoMemory
    }
}

impl From<StoreError> for DataFault {
    fn from(error: StoreError) -> DataFault {
        match error {
            StoreError::OutOfMemory => DataFault::NoMemory,
            StoreError::Full => DataFault::Full,
            StoreError::Corrupt | StoreError::Unstorable => DataFault::Damaged,
            StoreError::Io | StoreError::Broken => DataFault::Disk,
        }
    }
}

impl From<ReadFault> for DataFault {
    fn from(fault: ReadFault) -> DataFault {
        match fault {
            ReadFault::Store(error) => error.into(),
            ReadFault::Damaged => DataFault::Damaged,
        }
    }
}

/// Of what is read again.
impl From<Fault> for DataFault {
    fn from(fault: Fault) -> DataFault {
        match fault {
            Fault::NoMemory => DataFault::NoMemory,
            _ => DataFault::Damaged,
        }
    }
}

/// Of an open and of tables that are made.
impl From<sqlite::Error> for DataFault {
    fn from(error: sqlite::Error) -> DataFault {
        match error {
            sqlite::Error::SqliteFailure(ErrorCode::OutOfMemory) => DataFault::NoMemory,
            sqlite::Error::SqliteFailure(ErrorCode::DatabaseBusy) => DataFault::InUse,
            sqlite::Error::SqliteFailure(ErrorCode::CannotOpen) => DataFault::CannotOpen,
            sqlite::Error::SqliteFailure(ErrorCode::DiskFull) => DataFault::Full,
            sqlite::Error::SqliteFailure(ErrorCode::SystemIoFailure | ErrorCode::Closed) =>
                DataFault::Disk,
            _ => DataFault::Damaged,
        }
    }
}

/// Of the files.
impl From<OpenError> for DataFault {
    fn from(error: OpenError) -> DataFault {
        match error {
            OpenError::OutOfMemory => DataFault::NoMemory,
            OpenError::Busy => DataFault::InUse,
            OpenError::HotJournal => DataFault::OtherTables,
            OpenError::Io(_) => DataFault::CannotOpen,
        }
    }
}

impl From<io::Error> for DataFault {
    fn from(_: io::Error) -> DataFault {
        DataFault::CannotOpen
    }
}

/// Why a save of rows failed.
pub fn store_fault(error: StoreError) -> SaveFault {
    match error {
        StoreError::OutOfMemory => SaveFault::NoMemory,
        StoreError::Full => SaveFault::Full,
        StoreError::Unstorable => SaveFault::Unstorable,
        StoreError::Io | StoreError::Corrupt | StoreError::Broken => SaveFault::Disk,
    }
}

/// Why a record was not written.
pub fn record_fault(fault: Fault) -> SaveFault {
    match fault {
        Fault::NoMemory => SaveFault::NoMemory,
        _ => SaveFault::Unstorable,
    }
}
