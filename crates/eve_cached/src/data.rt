//! The folders in which all that is answered is saved first.

use crate::{DISK_FAILED, IN_USE, NO_DATA, REFUSED};
use daemon::{DataSettings, NO_TARGET, Settings, Stamped, tell_trouble};
use data_folder::{DataFault, HostFolder};
use data_folders::{
    FolderCounts, FolderTrouble, FoldersFault, FoldersOptions, HostFolders, Opened, open_folders,
};
use log::error;
use server::{SaveFault, ServiceRecord};
use std::rt::Clock;
use std::sync::Arc;
use std::thread::Threads;

/// The status of a program one of whose folders cannot be used.
fn status_of_folder(fault: DataFault) -> u8 {
    match fault {
        DataFault::NoMemory => REFUSED,
        DataFault::InUse => IN_USE,
        DataFault::Disk => DISK_FAILED,
        _ => NO_DATA,
    }
}

/// The status of a program whose folders cannot be used.
fn status_of(fault: FoldersFault) -> u8 {
    match fault {
        FoldersFault::At(_, fault) => status_of_folder(fault),
        FoldersFault::TooFew { .. } => NO_DATA,
        FoldersFault::NotSaved(SaveFault::Disk) => DISK_FAILED,
        FoldersFault::NotSaved(SaveFault::NoMemory) => REFUSED,
        FoldersFault::NotSaved(_) => NO_DATA,
        FoldersFault::NoMemory => REFUSED,
    }
}

/// Where what is answered is saved.
#[derive(Drop)]
pub enum Data {
    Nowhere {
        /// What is counted of no folder.
        counts: Arc<FolderCounts>,
    },
    In {
        folders: HostFolders,
        /// What is counted of each of them.
        counts: Arc<FolderCounts>,
        /// What was saved there last.
        found: Option<ServiceRecord>,
    },
}

/// Tells why the folders cannot be used. The program's status.
fn refused<R: Clock + Eprint>(rt: &R, settings: &Settings, fault: FoldersFault) -> u8 {
    let path = match (fault, &settings.data) {
        (FoldersFault::At(at, _), Some(data)) => data.paths.get(at),
        _ => None,
    };
    match (path, fault) {
        (Some(path), FoldersFault::At(_, DataFault::OtherFolders(1))) =>
            error!(Stamped(rt); target: NO_TARGET, "{path}: made with 1 folder"),
        (Some(path), _) => error!(Stamped(rt); target: NO_TARGET, "{path}: {fault}"),
        (None, _) => error!(Stamped(rt); target: NO_TARGET, "{fault}"),
    }
    status_of(fault)
}

/// Tells that this folder could not be read as it was. Where others have the data one without needs no `--new`.
fn tell_of_one(rt: &HostRuntime, path: &str, trouble: &FolderTrouble) {
    let (fault, is_renewed) = (trouble.fault, trouble.is_renewed);
    match fault {
        DataFault::NoData => tell_trouble(&Stamped(rt), path, &"no data", is_renewed),
        DataFault::CannotOpen => tell_trouble(
            &Stamped(rt),
            path,
            &"missing, or cannot be opened or written",
            is_renewed,
        ),
        _ => tell_trouble(&Stamped(rt), path, &fault, is_renewed),
    }
}

/// Tells which folders could not be read as they were.
fn tell_troubles(rt: &HostRuntime, data: &DataSettings, troubles: &[FolderTrouble]) {
    for trouble in troubles {
        if let Some(path) = data.paths.get(trouble.folder) {
            tell_of_one(rt, path.as_str(), trouble);
        }
    }
}

/// Opens the folders. The log tells which cannot be read as they were.
fn open_all(
    rt: &HostRuntime,
    settings: &Settings,
    data: &DataSettings,
) -> Result<Opened<HostFolder>, u8> {
    let options = FoldersOptions {
        is_new: data.is_new,
        u: settings.u,
        syncs: data.syncs,
    };
    let mut troubles = Vec::new(rt.alloc());
    let opened = open_folders(rt, data.paths.as_slice(), options, &mut troubles);
    tell_troubles(rt, data, &troubles);
    match opened {
        Ok(opened) => Ok(opened),
        Err(fault) => Err(refused(rt, settings, fault)),
    }
}

/// The folders of the settings, opened, if they have some. If they cannot be used the log tells why.
pub fn open_data(rt: &HostRuntime, settings: &Settings) -> Result<Option<Opened<HostFolder>>, u8> {
    match &settings.data {
        Some(data) => Ok(Some(open_all(rt, settings, data)?)),
        None => Ok(None),
    }
}

/// There is no folder. If there is no memory to say so the log tells it.
fn nowhere<R: Clock + Eprint + AllocGlobal>(rt: &R, settings: &Settings) -> Result<Data, u8> {
    match Arc::new(rt.alloc(), FolderCounts::none(rt.alloc())) {
        Ok(counts) => Ok(Data::Nowhere { counts }),
        Err(_) => Err(refused(rt, settings, FoldersFault::NoMemory)),
    }
}

/// Begins with what was opened. If that cannot be done the log tells why.
pub fn begin_data<R: Threads + Clock + Eprint + AllocGlobal + Sync>(
    rt: &R,
    settings: &Settings,
    opened: Option<Opened<HostFolder>>,
) -> Result<Data, u8> {
    let Some(opened) = opened else {
        return nowhere(rt, settings);
    };
    match HostFolders::begin(rt, rt.alloc(), opened) {
        Ok((folders, found)) => match folders.counts() {
            Ok(counts) => Ok(Data::In {
                folders,
                counts,
                found,
            }),
            Err(_) => {
                drop(folders);
                drop(found);
                Err(refused(rt, settings, FoldersFault::NoMemory))
            }
        },
        Err(fault) => Err(refused(rt, settings, fault)),
    }
}
