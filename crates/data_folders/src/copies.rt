//! Copies of a record in several folders, saved together.

ghost use Rattle.std.specs.Prelude.{◌≡◌, ◌⊎◌, ℕ, List, Option, Some, IsTrue, IfSome, OnOk, All, length, count_by, is_ok, true, false};
ghost use denote.Param.Send.{IsSync};
ghost use Rattle.folders.specs.Folders.{is_later_save, IsMajority};
ghost use Rattle.server.specs.Durable.{IsFoundOf};
ghost use Rattle.data_folder.specs.Text.{TellsService};
ghost use Rattle.data_folders.specs.Copies.{is_current, MayFindAmong, IsBounded, AllSave};
ghost use Rattle.data_folders.specs.CopyItems.{AllSaveItems, SavesStored, SavesItems};

use crate::slot::FolderSlot;
use data_folder::{CopyId, SaveCopy, StoredRecord};
use folders::{SaveStamp, a_finished_save_is_found};
use server::{SaveFault, SaveFolders};
use service::ServiceRecord;
use std::alloc::Global;
use std::thread;
use std::thread::Threads;

/// Folders with a copy each of one record. A save is made in all that are open, and counts if it is made in more than half
/// of all.
pub struct Copies<F: SaveCopy> {
    /// At least one.
    slots: Vec<FolderSlot<F>>,
    /// Which site's data it is. 0 if there is one folder.
    site: u64,
    /// The stamp with which this start began. A folder that was not opened has no later save.
    first: SaveStamp,
    /// Of the last save, also if it failed.
    stamp: SaveStamp,
    /// Why the last save failed, if it did.
    fault: Option<SaveFault>,
    ghost bounded: { All (IsBounded F.may_find stamp) slots.items },
    ghost begun: { is_later_save first stamp ≡ false },
}

impl<F: SaveCopy + Drop> Drop for Copies<F> {
    fn drop(self) {
        let Copies {
            slots: _,
            site: _,
            first: _,
            stamp: _,
            fault: _,
        } = self;
    }
}

/// Whether the last save is in more than half of the folders.
pub fn is_saved<F>(slots: &[FolderSlot<F>]) -> bool
    ensures { IsTrue result → IsMajority (count_by is_current slots.now) (length slots.now) }
{
    let current = slots.iter().filter(|slot| slot.is_current()).count();
    slots.len() - current < current
}

/// Why a save failed that more than half of the folders do not have.
pub fn fault_of<F>(slots: &[FolderSlot<F>]) -> SaveFault {
    let usable = slots.iter().filter(|slot| slot.is_usable()).count();
    if usable <= slots.len() - usable {
        return SaveFault::Disk;
    }
    let lacks = |slot: &&FolderSlot<F>| slot.is_usable() && !slot.is_current();
    match slots.iter().find(lacks) {
        Some(slot) => slot.fault.unwrap_or(SaveFault::Disk),
        None => SaveFault::Disk,
    }
}

/// Saves it in each folder that is open, each in a thread of its own if threads can be made.
fn save_all<F: SaveCopy + Send, R: Threads + Sync>(
    rt: &R,
    alloc: Global,
    slots: &mut [FolderSlot<F>],
    site: u64,
    stamp: SaveStamp,
    stored: &StoredRecord,
)
    ensures saves { AllSave F.may_find (record { stamp = stamp; text = stored.now.text.items }) slots.old slots.new }
    ensures items { AllSaveItems F.may_leave F.has_items (record { stamp = stamp; text = stored.now.text.items }) stored.now.state slots.old slots.new }
{
    let folders = u32::try_from(slots.len()).unwrap_or(u32::MAX);
    let threads = slots.len().max(1);
    thread::for_each_mut(
        rt,
        slots,
        threads,
        &|at, slot| {
            let id = CopyId {
                site,
                folder: u32::try_from(at).unwrap_or(u32::MAX),
                folders,
            };
            slot.save(alloc, id, stamp, stored)
        },
    );
}

/// Saves it in each folder that is open.
pub fn save_each<F: SaveCopy + Send, R: Threads + Sync>(
    rt: &R,
    alloc: Global,
    slots: &mut Vec<FolderSlot<F>>,
    site: u64,
    stamp: SaveStamp,
    stored: &StoredRecord,
)
    ensures saves { AllSave F.may_find (record { stamp = stamp; text = stored.now.text.items }) slots.old.items slots.new.items }
    ensures items { AllSaveItems F.may_leave F.has_items (record { stamp = stamp; text = stored.now.text.items }) stored.now.state slots.old.items slots.new.items }
{
    save_all(rt, alloc, slots.as_mut_slice(), site, stamp, stored);
}

/// The first folder that does not have the last save, from 0, and why.
fn first_behind<F>(slots: &[FolderSlot<F>]) -> Option<(usize, SaveFault)> {
    for (at, slot) in slots.iter().enumerate() {
        if let Some(fault) = slot.fault {
            return Some((at, fault));
        }
    }
    None
}

/// The stamp of the next save.
fn next_stamp(stamp: SaveStamp) -> Option<SaveStamp>
    ensures { IfSome result (λ next. is_later_save next stamp ≡ true) }
{
    let save = stamp.save.checked_add(1)?;
    Some(SaveStamp {
        start: stamp.start,
        save,
    })
}

impl<F: SaveCopy> Copies<F> {
    /// The folders of a start that begins with this stamp. None of them has a later save.
    pub fn new(slots: Vec<FolderSlot<F>>, site: u64, first: SaveStamp) -> Copies<F>
        requires { All (IsBounded F.may_find first) slots.items }
        ensures { result.slots ≡ slots }
    {
        Copies {
            slots,
            site,
            first,
            stamp: first,
            fault: None,
        }
    }

    /// Why the last save failed. None: it did not, or nothing was saved yet. `Disk`: too few folders are left.
    pub fn fault(&self) -> Option<SaveFault> {
        self.fault
    }

    /// The folders.
    pub fn slots(&self) -> &[FolderSlot<F>] {
        &self.slots
    }

    /// In how many folders it is saved.
    pub fn folders(&self) -> SaveFolders {
        let current = self.slots.iter().filter(|slot| slot.is_current()).count();
        SaveFolders {
            all: self.slots.len() as u64,
            current: current as u64,
            behind: first_behind(&self.slots),
        }
    }
}

impl<F: SaveCopy + Send> Copies<F> {
    /// Saves this in each folder that is open: whether more than half of all have it then.
    fn save_stored<R: Threads + Sync>(
        &mut self,
        rt: &R,
        alloc: Global,
        stored: &StoredRecord,
    ) -> Result<(), SaveFault>
        ensures saved { OnOk result ((found : Option (List ℕ)) → MayFindAmong F.may_find self.new.first self.new.slots.items found → ∥ (found ≡ Some stored.now.text.items) ∥₁) }
        ensures crash { (found : Option (List ℕ)) → MayFindAmong F.may_find self.new.first self.new.slots.items found
            → MayFindAmong F.may_find self.old.first self.old.slots.items found ⊎ ∥ (found ≡ Some stored.now.text.items) ∥₁ }
        ensures most { OnOk result (IsMajority (count_by is_current self.new.slots.items) (length self.new.slots.items)) }
        ensures items { SavesStored F.may_leave F.has_items stored.now.text.items stored.now.state (is_ok result) self.old.slots.items self.new.slots.items }
    {
        let Some(stamp) = next_stamp(self.stamp) else {
            return Err(SaveFault::Unstorable);
        };
        save_each(rt, alloc, &mut self.slots, self.site, stamp, stored);
        self.stamp = stamp;
        a_finished_save_is_found();
        if is_saved(&self.slots) {
            Ok(())
        } else {
            Err(fault_of(&self.slots))
        }
    }

    /// Saves the record in each folder that is open, or says why more than half of all do not have it then.
    fn save_record<R: Threads + Sync>(
        &mut self,
        rt: &R,
        alloc: Global,
        kept: &ServiceRecord,
    ) -> Result<(), SaveFault>
        ensures saved { OnOk result ((found : Option (List ℕ)) → MayFindAmong F.may_find self.new.first self.new.slots.items found → IsFoundOf TellsService kept.now found) }
        ensures crash { (found : Option (List ℕ)) → MayFindAmong F.may_find self.new.first self.new.slots.items found
            → MayFindAmong F.may_find self.old.first self.old.slots.items found ⊎ IsFoundOf TellsService kept.now found }
        ensures most { OnOk result (IsMajority (count_by is_current self.new.slots.items) (length self.new.slots.items)) }
        ensures items { SavesItems F.may_leave F.has_items kept.now (is_ok result) self.old.slots.items self.new.slots.items }
    {
        match StoredRecord::of(alloc, kept) {
            Ok(stored) => self.save_stored(rt, alloc, &stored),
            Err(fault) => Err(fault),
        }
    }

    /// Saves the record in each folder that is open: whether more than half of all have it then.
    pub fn save<R: Threads + Sync>(&mut self, rt: &R, alloc: Global, kept: &ServiceRecord) -> bool
        ensures saved { IsTrue result → (found : Option (List ℕ)) → MayFindAmong F.may_find self.new.first self.new.slots.items found → IsFoundOf TellsService kept.now found }
        ensures crash { (found : Option (List ℕ)) → MayFindAmong F.may_find self.new.first self.new.slots.items found
            → MayFindAmong F.may_find self.old.first self.old.slots.items found ⊎ IsFoundOf TellsService kept.now found }
        ensures most { IsTrue result → IsMajority (count_by is_current self.new.slots.items) (length self.new.slots.items) }
        ensures items { SavesItems F.may_leave F.has_items kept.now result self.old.slots.items self.new.slots.items }
    {
        match self.save_record(rt, alloc, kept) {
            Ok(()) => {
                self.fault = None;
                true
            }
            Err(fault) => {
                self.fault = Some(fault);
                false
            }
        }
    }
}

/// Saves the record.
fn save_lent<F: SaveCopy + Send, R: Threads + Sync>(
    copies: &mut Copies<F>,
    rt: &R,
    alloc: Global,
    kept: &mut ServiceRecord,
) -> bool
    ensures saved { IsTrue result → (found : Option (List ℕ)) → MayFindAmong F.may_find copies.new.first copies.new.slots.items found → IsFoundOf TellsService kept.old found }
    ensures crash { (found : Option (List ℕ)) → MayFindAmong F.may_find copies.new.first copies.new.slots.items found
        → MayFindAmong F.may_find copies.old.first copies.old.slots.items found ⊎ IsFoundOf TellsService kept.old found }
    ensures most { IsTrue result → IsMajority (count_by is_current copies.new.slots.items) (length copies.new.slots.items) }
    ensures items { SavesItems F.may_leave F.has_items kept.old result copies.old.slots.items copies.new.slots.items }
{
    copies.save(rt, alloc, kept)
}

/// Saves the record on another thread, if one can be made, while this one does the work.
pub fn save_apart<F: SaveCopy + Send, R: Threads + Sync, W: FnMut()>(
    copies: &mut Copies<F>,
    rt: &R,
    alloc: Global,
    kept: &mut ServiceRecord,
    work: &mut W,
) -> bool
    requires sync { IsSync R.row }
    requires pre { W.pre work.old }
    ensures worked { W.step work.old tt work.new }
    ensures saved { IsTrue result → (found : Option (List ℕ)) → MayFindAmong F.may_find copies.new.first copies.new.slots.items found → IsFoundOf TellsService kept.old found }
    ensures crash { (found : Option (List ℕ)) → MayFindAmong F.may_find copies.new.first copies.new.slots.items found
        → MayFindAmong F.may_find copies.old.first copies.old.slots.items found ⊎ IsFoundOf TellsService kept.old found }
    ensures most { IsTrue result → IsMajority (count_by is_current copies.new.slots.items) (length copies.new.slots.items) }
    ensures items { SavesItems F.may_leave F.has_items kept.old result copies.old.slots.items copies.new.slots.items }
{
    let (is_saved, _) = thread::join_mut(
        rt,
        &mut || -> bool
            requires { IsSync R.row }
            ensures saved { IsTrue result → (found : Option (List ℕ)) → MayFindAmong F.may_find copies.exit.now.first copies.exit.now.slots.items found → IsFoundOf TellsService kept.entry.now found }
            ensures crash { (found : Option (List ℕ)) → MayFindAmong F.may_find copies.exit.now.first copies.exit.now.slots.items found
                → MayFindAmong F.may_find copies.entry.now.first copies.entry.now.slots.items found ⊎ IsFoundOf TellsService kept.entry.now found }
            ensures most { IsTrue result → IsMajority (count_by is_current copies.exit.now.slots.items) (length copies.exit.now.slots.items) }
            ensures items { SavesItems F.may_leave F.has_items kept.entry.now result copies.entry.now.slots.items copies.exit.now.slots.items }
        { save_lent(copies, rt, alloc, kept) },
        work,
    );
    is_saved
}
