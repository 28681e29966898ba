//! Folders of the host's file system.

ghost use Rattle.std.specs.Prelude.{◌≡◌, None, IfOk, IfSome, IfNone, All};
ghost use Rattle.data_folder.specs.Text.{TellsService};
ghost use Rattle.data_folder.specs.Host.{host_may_find, host_may_leave, host_has_items};
ghost use Rattle.data_folders.specs.Copies.{is_current, MayFindAmong, IsClaimed, IsNewestRecord};
ghost use Rattle.data_folders.specs.CopyItems.{SavesItems, ClaimsItems};

use crate::copies::{Copies, save_apart};
use crate::counts::FolderCounts;
use crate::fault::FoldersFault;
use crate::opened::Opened;
use data_folder::HostFolder;
use server::{Save, SaveFault, SaveFolders};
use service::ServiceRecord;
use std::alloc::{AllocError, Global};
use std::sync::Arc;
use std::thread::Threads;

/// The record of a service in folders of the host's file system, a copy in each. It is a type without parameters, so that
/// a program that is generic over where it saves need not be proved over all that a file is made of.
pub struct HostFolders {
    copies: Copies<HostFolder>,
    /// What is counted of each folder, for whoever shows it.
    counts: Arc<FolderCounts>,
}

impl Drop for HostFolders {
    fn drop(self) {
        let HostFolders {
            copies: _,
            counts: _,
        } = self;
    }
}

/// What is counted of so many folders.
fn counts_of(alloc: Global, folders: usize) -> Result<Arc<FolderCounts>, AllocError> {
    Ok(Arc::new(alloc, FolderCounts::new(alloc, folders)?)?)
}

impl HostFolders {
    /// Begins with what was opened: the newest copy, if copies were read in more than half of the folders; or nothing, if
    /// all are open and none has a copy. If there are several folders that is saved in them first.
    pub fn begin<R: Threads + Sync>(
        rt: &R,
        alloc: Global,
        opened: Opened<HostFolder>,
    ) -> Result<(HostFolders, Option<ServiceRecord>), FoldersFault>
        ensures newest { IfOk result (λ begun. IfSome begun.1 (IsNewestRecord opened.finds.items)) }
        ensures nothing { IfOk result (λ begun. IfNone begun.1 (All (λ found. found ≡ None) opened.finds.items)) }
        ensures claimed { IfOk result (λ begun. IfSome begun.1 (λ _. IsClaimed begun.0.copies.slots.items)) }
        ensures items { IfOk result (λ begun. IfSome begun.1 (λ found. ClaimsItems host_may_leave host_has_items found opened.slots.items begun.0.copies.slots.items)) }
        ensures empty { IfOk result (λ begun. IfNone begun.1 (begun.0.copies.slots ≡ opened.slots)) }
    {
        let counts = match counts_of(alloc, opened.slots.len()) {
            Ok(counts) => counts,
            Err(_) => {
                drop(opened);
                return Err(FoldersFault::NoMemory);
            }
        };
        match opened.begin(rt, alloc) {
            Ok((copies, found)) => {
                counts.note(copies.slots());
                Ok((HostFolders { copies, counts }, found))
            }
            Err(fault) => Err(fault),
        }
    }

    /// What is counted of each folder, also by later saves.
    pub fn counts(&self) -> Result<Arc<FolderCounts>, AllocError> {
        self.counts.clone()
    }
}

impl Save for HostFolders {
    ghost use denote.Param.Send.{IsSync};
    ghost use Rattle.std.specs.Prelude.{◌⊎◌, ℕ, List, Option, IsTrue, length, count_by};
    ghost use Rattle.folders.specs.Folders.{IsMajority};
    ghost use Rattle.server.specs.Durable.{IsFoundOf};

    ghost may_find = { λ f found. MayFindAmong host_may_find f.copies.first f.copies.slots.items found };

    ghost is_text = { TellsService };

    /// It saves records.
    fn keeps(&self) -> bool {
        true
    }

    /// Saves the record in each folder that is open. If it answers true more than half of all folders have it, and a
    /// later start that reads more than half of them begins with it, until another one is saved.
    ///
    /// Of each folder the clause `items` says which items its file has then, and what a crash leaves meanwhile.
    fn save<R: Threads + Sync>(&mut self, rt: &R, alloc: Global, kept: &ServiceRecord) -> bool
        requires { IsSync R.row }
        ensures saved { IsTrue result → (found : Option (List ℕ)) → MayFindAmong host_may_find self.new.copies.first self.new.copies.slots.items found → IsFoundOf TellsService kept.now found }
        ensures crash { (found : Option (List ℕ)) → MayFindAmong host_may_find self.new.copies.first self.new.copies.slots.items found
            → MayFindAmong host_may_find self.old.copies.first self.old.copies.slots.items found ⊎ IsFoundOf TellsService kept.now found }
        ensures most { IsTrue result → IsMajority (count_by is_current self.new.copies.slots.items) (length self.new.copies.slots.items) }
        ensures items { SavesItems host_may_leave host_has_items kept.now result self.old.copies.slots.items self.new.copies.slots.items }
    {
        let is_saved = self.copies.save(rt, alloc, kept);
        self.counts.note(self.copies.slots());
        is_saved
    }

    /// Saves it on other threads, if they can be made.
    fn save_beside<R: Threads + Sync, F: FnMut()>(
        &mut self,
        rt: &R,
        alloc: Global,
        kept: &mut ServiceRecord,
        work: &mut F,
    ) -> bool
        requires sync { IsSync R.row }
        requires pre { F.pre work.old }
        ensures worked { F.step work.old tt work.new }
        ensures saved { IsTrue result → (found : Option (List ℕ)) → MayFindAmong host_may_find self.new.copies.first self.new.copies.slots.items found → IsFoundOf TellsService kept.old found }
        ensures crash { (found : Option (List ℕ)) → MayFindAmong host_may_find self.new.copies.first self.new.copies.slots.items found
            → MayFindAmong host_may_find self.old.copies.first self.old.copies.slots.items found ⊎ IsFoundOf TellsService kept.old found }
        ensures most { IsTrue result → IsMajority (count_by is_current self.new.copies.slots.items) (length self.new.copies.slots.items) }
        ensures items { SavesItems host_may_leave host_has_items kept.old result self.old.copies.slots.items self.new.copies.slots.items }
    {
        let is_saved = save_apart(&mut self.copies, rt, alloc, kept, work);
        self.counts.note(self.copies.slots());
        is_saved
    }

    fn fault(&self) -> Option<SaveFault> {
        self.copies.fault()
    }

    fn folders(&self) -> SaveFolders {
        self.copies.folders()
    }
}
