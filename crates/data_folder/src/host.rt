//! A folder of the host's file system.

ghost use Rattle.std.specs.Prelude.{IfOk};
ghost use Rattle.data_folder.specs.Found.{FindsCopy};
ghost use Rattle.data_folder.specs.Items.{OpensWith};
ghost use Rattle.data_folder.specs.Host.{host_may_find, host_may_leave, host_has_items};

use crate::fault::DataFault;
use crate::folder::DataFolder;
use crate::found_copy::{FoundCopy, Wanted};
use crate::opening::FolderStore;
use crate::save_copy::{CopyId, SaveCopy};
use crate::stored_record::StoredRecord;
use folders::SaveStamp;
use service::SaveFault;
use std::alloc::Global;

/// A copy of the record of a service in a folder of the host's file system. It is a type without parameters, so that a
/// program that is generic over where it saves need not be proved over all that a file is made of.
pub struct HostFolder {
    folder: DataFolder<FolderStore>,
}

impl Drop for HostFolder {
    fn drop(self) {
        let HostFolder { folder: _ } = self;
    }
}

impl HostFolder {
    /// Opens the folder, as `DataFolder::open` does.
    pub fn open(
        rt: &HostRuntime,
        folder: &str,
        wanted: Wanted,
        syncs: bool,
    ) -> Result<(HostFolder, Option<FoundCopy>), DataFault>
        ensures finds { IfOk result (λ opened. FindsCopy (host_may_find opened.0) opened.1) }
        ensures items { IfOk result (λ opened. OpensWith (host_may_leave opened.0) (host_has_items opened.0) opened.1) }
    {
        match DataFolder::open(rt, folder, wanted, syncs) {
            Ok((folder, found)) => Ok((HostFolder { folder }, found)),
            Err(fault) => Err(fault),
        }
    }
}

impl SaveCopy for HostFolder {
    ghost may_find = { host_may_find };

    ghost may_leave = { host_may_leave };

    ghost has_items = { host_has_items };

    fn save_copy(
        &mut self,
        alloc: Global,
        id: CopyId,
        stamp: SaveStamp,
        stored: &StoredRecord,
    ) -> Result<(), SaveFault> {
        self.folder.save_copy(alloc, id, stamp, stored)
    }
}
