//! What is counted of each folder, for whoever shows it.

use crate::slot::FolderSlot;
use std::alloc::{AllocError, Global};
use std::sync::atomic::{AtomicBool, AtomicU64, Ordering};

/// What is counted of one folder.
#[derive(Clone, Copy, Debug, PartialEq, Eq)]
pub struct FolderCount {
    /// Whether this start opened it. If not, nothing is saved in it before the next one.
    pub is_open: bool,
    /// Whether its copy is of the last save.
    pub is_current: bool,
    /// Saves of this start that were made in it.
    pub made: u64,
    /// Saves of this start that were not.
    pub failed: u64,
}

impl FolderCount {
    /// It is not open, and nothing was saved in it.
    pub const NONE: FolderCount = FolderCount {
        is_open: false,
        is_current: false,
        made: 0,
        failed: 0,
    };
}

/// The same, for threads that share it.
#[derive(Drop)]
struct SharedCount {
    is_open: AtomicBool,
    is_current: AtomicBool,
    made: AtomicU64,
    failed: AtomicU64,
}

/// What is counted of each folder. Other threads look at it while saves are made, and wait for none.
#[derive(Drop)]
pub struct FolderCounts {
    each: Vec<SharedCount>,
}

impl FolderCounts {
    /// Of no folder.
    pub fn none(alloc: Global) -> FolderCounts {
        FolderCounts {
            each: Vec::new(alloc),
        }
    }

    /// Of so many folders, none of which is open yet.
    pub fn new(alloc: Global, folders: usize) -> Result<FolderCounts, AllocError> {
        let mut each = Vec::with_capacity(alloc, folders)?;
        for _ in 0..folders {
            each.push(SharedCount {
                is_open: AtomicBool::new(false),
                is_current: AtomicBool::new(false),
                made: AtomicU64::new(0),
                failed: AtomicU64::new(0),
            })?;
        }
        Ok(FolderCounts { each })
    }

    /// Takes over what is counted of these folders.
    pub fn note<F>(&self, slots: &[FolderSlot<F>]) {
        for (count, slot) in self.each.iter().zip(slots) {
            count.is_open.store(slot.copy.is_some(), Ordering::SeqCst);
            count.is_current.store(slot.is_current(), Ordering::SeqCst);
            count.made.store(slot.made, Ordering::SeqCst);
            count.failed.store(slot.failed, Ordering::SeqCst);
        }
    }

    /// What is counted of the folder with this number, from 0, if there is one. Each number of it is that after the last
    /// save, or after the one before while that of the last one is taken over: no clause says so.
    pub fn count(&self, at: usize) -> Option<FolderCount> {
        let count = self.each.get(at)?;
        Some(FolderCount {
            is_open: count.is_open.load(Ordering::SeqCst),
            is_current: count.is_current.load(Ordering::SeqCst),
            made: count.made.load(Ordering::SeqCst),
            failed: count.failed.load(Ordering::SeqCst),
        })
    }
}
