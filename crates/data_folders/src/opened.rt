//! What a start has opened.

ghost use Rattle.std.specs.Prelude.{◌≡◌, ◌++◌, ◌∷◌, [], IsTrue, IfSome, IfOk, OnOk, Some, None, All};
ghost use Rattle.std.specs.List.{AllZip};
ghost use Rattle.data_folder.specs.Found.{FindsCopy};
ghost use Rattle.data_folder.specs.Items.{OpensWith};
ghost use Rattle.data_folders.specs.Copies.{OpensAs, IsFoundIn, found_stamp, stamps_in, IsNewestCopy};
ghost use Rattle.data_folders.specs.CopyItems.{OpensItems, HasItemsFound};

use crate::slot::FolderSlot;
use data_folder::{DataFault, FoundCopy, SaveCopy};
use folders::{SaveStamp, newest};
use server::SaveFault;
use std::alloc::{AllocError, Global};

/// The folders of a start, and what was found in each.
pub struct Opened<F: SaveCopy> {
    pub slots: Vec<FolderSlot<F>>,
    pub finds: Vec<Option<FoundCopy>>,
    /// Which site's data folders without a copy will have.
    pub site: u64,
    ghost pairs: { ∥ AllZip (OpensAs F.may_find) slots.items finds.items ∥₁ },
    ghost items: { ∥ AllZip (OpensItems F.may_leave F.has_items) slots.items finds.items ∥₁ },
}

impl<F: SaveCopy + Drop> Drop for Opened<F> {
    fn drop(self) {
        let Opened {
            slots: _,
            finds: _,
            site: _,
        } = self;
    }
}

/// When a copy was saved.
fn stamp_in(found: &Option<FoundCopy>) -> Option<SaveStamp>
    ensures { result ≡ found_stamp found.now }
{
    match found {
        Some(found) => Some(found.stamp),
        None => None,
    }
}

/// When each copy was saved.
fn stamps_of(
    alloc: Global,
    finds: &[Option<FoundCopy>],
) -> Result<Vec<Option<SaveStamp>>, AllocError>
    ensures { IfOk result (λ stamps. stamps.items ≡ stamps_in finds.now) }
{
    let mut stamps = Vec::with_capacity(alloc, finds.len())?;
    for found in finds {
        stamps.push(stamp_in(found))?;
    }
    Ok(stamps)
}

impl<F: SaveCopy + Drop> Opened<F> {
    /// None is opened yet. Folders without a copy will have this site's data.
    pub fn new(alloc: Global, site: u64) -> Opened<F>
        ensures { result.finds.items ≡ [] }
    {
        Opened {
            slots: Vec::new(alloc),
            finds: Vec::new(alloc),
            site,
        }
    }

    /// The folders, and what was found in each.
    pub fn into_parts(self) -> (Vec<FolderSlot<F>>, Vec<Option<FoundCopy>>)
        ensures slots { result.0 ≡ self.slots }
        ensures finds { result.1 ≡ self.finds }
    {
        let Opened {
            slots,
            finds,
            site: _,
        } = self;
        (slots, finds)
    }

    /// One more folder, and what was found in it. `None`: it is not open.
    pub fn push(&mut self, copy: Option<F>, found: Option<FoundCopy>) -> Result<(), AllocError>
        requires finds { IsFoundIn F.may_find copy found }
        requires items { HasItemsFound F.may_leave F.has_items copy found }
        ensures { OnOk result (self.new.finds.items ≡ self.old.finds.items ++ found ∷ []) }
    {
        self.slots.reserve(1)?;
        self.finds.reserve(1)?;
        let slot = FolderSlot {
            copy,
            fault: Some(SaveFault::Disk),
            made: 0,
            failed: 0,
        };
        self.slots.push_reserved(slot);
        self.finds.push_reserved(found);
        Ok(())
    }

    /// How many folders have a copy that was read.
    pub fn readable(&self) -> usize {
        self.finds.iter().filter(|found| found.is_some()).count()
    }

    /// Whether each folder is open, and none has a copy.
    pub fn is_empty(&self) -> bool
        ensures { IsTrue result → All (λ found. found ≡ None) self.now.finds.items }
    {
        self.finds.iter().all(|found| found.is_none())
            && self.slots.iter().all(|slot| slot.copy.is_some())
    }

    /// Which folder has the newest copy, if copies were read in more than half of them.
    pub fn newest(&self, alloc: Global) -> Result<Option<usize>, AllocError>
        ensures { IfOk result (λ found. IfSome found (λ at. IsNewestCopy self.now.finds.items at)) }
    {
        let stamps = stamps_of(alloc, &self.finds)?;
        Ok(newest(&stamps))
    }

    /// Whether all copies that were read are of this site.
    pub fn are_of_site(&self, site: u64) -> bool {
        self.finds.iter().flatten().all(|found| found.site == site)
    }

    /// Uses this folder, which is empty, in place of one that is not open.
    fn renew(&mut self, at: usize, copy: F)
        requires finds { IsFoundIn F.may_find (Some copy) None }
        requires items { HasItemsFound F.may_leave F.has_items (Some copy) None }
        ensures { self.new.finds ≡ self.old.finds }
    {
        if at < self.slots.len() && at < self.finds.len() && self.finds[at].is_none() {
            self.slots[at].copy = Some(copy);
        } else {
            drop(copy);
        }
    }

    /// Uses a folder that was made anew in place of one that is not open. `HasData`: it is not used, since a copy was found
    /// in it.
    pub fn renew_with(
        &mut self,
        at: usize,
        copy: F,
        found: Option<FoundCopy>,
    ) -> Result<(), DataFault>
        requires finds { FindsCopy (F.may_find copy) found }
        requires items { OpensWith (F.may_leave copy) (F.has_items copy) found }
        ensures { self.new.finds ≡ self.old.finds }
    {
        match found {
            None => {
                self.renew(at, copy);
                Ok(())
            }
            Some(found) => {
                drop(copy);
                drop(found);
                Err(DataFault::HasData)
            }
        }
    }
}
