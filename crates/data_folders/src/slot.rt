//! One of several folders.

ghost use Rattle.std.specs.Prelude.{◌≡◌, true, false};
ghost use Rattle.data_folders.specs.Copies.{SlotSaves, is_current};
ghost use Rattle.data_folders.specs.CopyItems.{PlaceSavesItems};

use data_folder::{CopyId, SaveCopy, StoredRecord};
use folders::SaveStamp;
use server::SaveFault;
use std::alloc::Global;

/// One of several folders, and the copy that it has.
pub struct FolderSlot<F> {
    /// None: it could not be opened, and is not used before the next start.
    pub copy: Option<F>,
    /// Why it does not have the last save. None: it has it.
    pub fault: Option<SaveFault>,
    /// Saves of this start that were made in it.
    pub made: u64,
    /// Saves of this start that were not.
    pub failed: u64,
}

impl<F: Drop> Drop for FolderSlot<F> {
    fn drop(self) {
        let FolderSlot {
            copy: _,
            fault: _,
            made: _,
            failed: _,
        } = self;
    }
}

impl<F> FolderSlot<F> {
    /// Whether it has the last save.
    pub fn is_current(&self) -> bool
        ensures { result ≡ is_current self.now }
    {
        self.fault.is_none()
    }

    /// Whether a later save may succeed in it.
    pub fn is_usable(&self) -> bool {
        self.copy.is_some() && self.fault != Some(SaveFault::Disk)
    }
}

impl<F: SaveCopy> FolderSlot<F> {
    /// Saves it in this folder, if the folder is open, and counts whether it was made.
    pub fn save(&mut self, alloc: Global, id: CopyId, stamp: SaveStamp, stored: &StoredRecord)
        ensures saves { SlotSaves F.may_find (record { stamp = stamp; text = stored.now.text.items }) self.old self.new }
        ensures items { PlaceSavesItems F.may_leave F.has_items (record { stamp = stamp; text = stored.now.text.items }) stored.now.state self.old self.new }
        ensures made { is_current self.new ≡ false → self.new.made ≡ self.old.made }
        ensures failed { is_current self.new ≡ true → self.new.failed ≡ self.old.failed }
    {
        self.fault = match &mut self.copy {
            Some(copy) => copy.save_copy(alloc, id, stamp, stored).err(),
            None => Some(SaveFault::Disk),
        };
        let is_made = self.fault.is_none();
        self.made = self.made.saturating_add(u64::from(is_made));
        self.failed = self.failed.saturating_add(u64::from(!is_made));
    }
}
