//! What a crash may leave: of what was written since the last sync of a file, any blocks may be on the disk.

use crate::files::COPIED;
use crate::saves::{TestFolder, is_old_or_new, new_folder, opening_in, save_all};
use crate::services::{Moment, small_moments};
use data_folder::DataFault;
use disk_images::{Blocks, Calls, DiskFile, Leftovers, left_of};
use std::alloc::{AllocError, Global};
use std::process::Abort;
use std::test::Fail;

/// So many saves are made: what is small, and what is due. All of `SMALL_ITEMS` would take too long.
const SAVES: usize = 5;

/// No row has so many calls.
const MOST_ROWS: u64 = 10_000;

/// From row to row a file stops so many calls later.
const STEP: u64 = 3;

/// What a machine that stopped after so many saves left of both files.
struct Left {
    saved: usize,
    files: Leftovers,
}

impl Drop for Left {
    fn drop(self) {
        let Left { saved: _, files: _ } = self;
    }
}

/// What is left of a folder after save after save, until one fails.
fn left_after(alloc: Global, folder: TestFolder, moments: &[Moment]) -> Result<Left, AllocError> {
    let mut folder = folder;
    let saved = save_all(alloc, &mut folder, moments);
    let mut files = folder.into_store().close();
    Ok(Left {
        saved,
        files: left_of(alloc, &mut files)?,
    })
}

/// What is left if files stop at these calls. `None`: they stop before the folder is there.
fn left_at(alloc: Global, moments: &[Moment], calls: Calls) -> Result<Option<Left>, DataFault> {
    match new_folder(alloc, COPIED, calls)? {
        Some(folder) => Ok(Some(left_after(alloc, folder, moments)?)),
        None => Ok(None),
    }
}

fn open_with(
    rt: &impl Abort,
    alloc: Global,
    moments: &[Moment],
    left: &Left,
    blocks: Blocks,
) -> Result<(), DataFault> {
    let images = left.files.images(alloc, blocks)?;
    let found = opening_in(alloc, &images, COPIED, moments)?;
    assert!(rt;
        is_old_or_new(found, left.saved),
        "{blocks:?}: {} saves, {found:?}",
        left.saved
    );
    Ok(())
}

/// Opens what is left with each choice of this block.
fn open_block(
    rt: &impl Abort,
    alloc: Global,
    moments: &[Moment],
    left: &Left,
    block: usize,
) -> Result<(), DataFault> {
    for blocks in &Blocks::of(block) {
        open_with(rt, alloc, moments, left, *blocks)?;
    }
    Ok(())
}

/// Opens what is left with each choice of blocks. How many blocks differ.
fn open_each(
    rt: &impl Abort,
    alloc: Global,
    moments: &[Moment],
    left: &Left,
) -> Result<usize, DataFault> {
    let mut differing = 0usize;
    for block in 0..left.files.block_count() {
        if left.files.differs(block) {
            open_block(rt, alloc, moments, left, block)?;
            differing = differing.wrapping_add(1);
        }
    }
    Ok(differing)
}

/// The same. `None`: all was saved before the files stopped.
fn open_unless_done(
    rt: &impl Abort,
    alloc: Global,
    moments: &[Moment],
    left: &Left,
) -> Result<Option<usize>, DataFault> {
    if left.saved == moments.len() {
        return Ok(None);
    }
    Ok(Some(open_each(rt, alloc, moments, left)?))
}

/// Opens all that the files may have after they stopped at these calls. How many blocks differ; `None`: all was saved
/// before.
fn open_left(
    rt: &impl Abort,
    alloc: Global,
    moments: &[Moment],
    calls: Calls,
) -> Result<Option<usize>, DataFault> {
    match left_at(alloc, moments, calls)? {
        Some(left) => open_unless_done(rt, alloc, moments, &left),
        None => Ok(Some(0)),
    }
}

/// Stops each file at each `STEP`-th call, one at a time. How many blocks differ in all.
fn open_all_left(rt: &impl Abort, alloc: Global, moments: &[Moment]) -> Result<usize, DataFault> {
    let mut differing = 0usize;
    for row in 0..MOST_ROWS {
        let call = row.wrapping_mul(STEP);
        let of_log = open_left(rt, alloc, moments, Calls::of(DiskFile::Log, call))?;
        let of_db = open_left(rt, alloc, moments, Calls::of(DiskFile::Db, call))?;
        if of_log.is_none() && of_db.is_none() {
            return Ok(differing);
        }
        differing = differing
            .wrapping_add(of_log.unwrap_or(0))
            .wrapping_add(of_db.unwrap_or(0));
    }
    panic!(rt; "so many calls are not enough")
}

#[test]
fn a_crash_leaves_any_blocks_that_were_not_synced(rt: HostRuntime) -> Result<(), Fail> {
    let moments = small_moments(&rt, rt.alloc(), 0, SAVES)?;
    let differing = open_all_left(&rt, rt.alloc(), &moments)?;
    assert!(rt; differing > 30, "{differing}");
    Ok(())
}
