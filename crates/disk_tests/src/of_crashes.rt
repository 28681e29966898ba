//! A crash at each call of the disk.
//!
//! A machine that stops is a disk that fails from some call on, and then leaves something of what was written. So each
//! row of tests stops one of the two files, or both, at the call of each number, and looks at what is there afterwards:
//! what the saves that answered Ok have made, or that and the next one.

ghost use Rattle.std.specs.Prelude.{◌≡◌};

use crate::rows::{TestRows, made_rows, opened_rows};
use crate::saves::{Content, SAVES, content_after, content_of, save_all};
use disk_images::{Blocks, Calls, DiskFile, Leftovers, left_of};
use row_store::crash_and_reopen;
use std::alloc::Global;
use std::process::Abort;
use std::test::Fail;

/// Whether it is what so many saves leave, or those and the next one.
fn is_old_or_new(content: Option<Content>, saved: u8) -> bool {
    content == Some(content_after(saved)) || content == Some(content_after(saved.wrapping_add(1)))
}

/// Makes save after save, stops, and opens again: how many were saved, and what is there.
fn crashed(alloc: Global, mut rows: TestRows) -> (Option<u8>, Option<Content>)
    requires { rows.tables ≡ 2 }
{
    let saved = save_all(alloc, &mut rows);
    match crash_and_reopen(rows) {
        Ok(mut again) => (saved, content_of(alloc, &mut again)),
        Err(_) => (saved, None),
    }
}

/// Stops the files at these calls, and opens them again. Whether all saves were made before.
fn stopped_at(rt: &impl Abort, alloc: Global, calls: Calls) -> Result<bool, Fail> {
    let Some(rows) = made_rows(alloc, calls)? else {
        return Ok(false);
    };
    let (saved, content) = crashed(alloc, rows);
    let saved = saved.ok_or("no memory")?;
    assert!(rt;
        is_old_or_new(content, saved),
        "{} {}: {content:?}",
        calls.log,
        calls.db
    );
    Ok(saved == SAVES)
}

#[test]
fn a_crash_at_each_call_leaves_the_last_save_or_the_next(rt: HostRuntime) -> Result<(), Fail> {
    let alloc = rt.alloc();
    let (mut log_is_done, mut db_is_done) = (false, false);
    for calls in 0..2000 {
        if !log_is_done {
            log_is_done = stopped_at(&rt, alloc, Calls::of(DiskFile::Log, calls))?;
        }
        if !db_is_done {
            db_is_done = stopped_at(&rt, alloc, Calls::of(DiskFile::Db, calls))?;
        }
        if log_is_done && db_is_done {
            return Ok(());
        }
        let both = Calls {
            log: calls,
            db: calls,
        };
        stopped_at(&rt, alloc, both)?;
    }
    panic!(rt; "so many calls are not enough")
}

/// What a machine that stopped left, after so many saves.
struct Left {
    saved: u8,
    files: Leftovers,
}

impl Drop for Left {
    fn drop(self) {
        let Left { saved: _, files: _ } = self;
    }
}

fn left_at(alloc: Global, calls: Calls) -> Result<Option<Left>, Fail> {
    let Some(mut rows) = made_rows(alloc, calls)? else {
        return Ok(None);
    };
    let saved = save_all(alloc, &mut rows);
    let mut files = rows.into_store().close();
    Ok(Some(Left {
        saved: saved.ok_or("no memory")?,
        files: left_of(alloc, &mut files)?,
    }))
}

fn open_with(rt: &impl Abort, alloc: Global, left: &Left, blocks: Blocks) -> Result<(), Fail> {
    let images = left.files.images(alloc, blocks)?;
    match opened_rows(alloc, &images)? {
        Some(mut rows) => assert!(rt; is_old_or_new(content_of(alloc, &mut rows), left.saved)),
        None => panic!(rt; "it does not open again"),
    }
    Ok(())
}

/// Opens what is left with each choice of this block.
fn open_block(rt: &impl Abort, alloc: Global, left: &Left, block: usize) -> Result<(), Fail> {
    for blocks in &Blocks::of(block) {
        open_with(rt, alloc, left, *blocks)?;
    }
    Ok(())
}

/// Opens what is left with each choice of blocks. How many blocks differ.
fn open_each(rt: &impl Abort, alloc: Global, left: &Left) -> Result<usize, Fail> {
    let mut differing = 0usize;
    for block in 0..left.files.block_count() {
        if left.files.differs(block) {
            open_block(rt, alloc, left, block)?;
            differing = differing.wrapping_add(1);
        }
    }
    Ok(differing)
}

/// Opens all that the files may have after they stopped at these calls. How many blocks differ; `None`: all saves were
/// made before.
fn open_left(rt: &impl Abort, alloc: Global, calls: Calls) -> Result<Option<usize>, Fail> {
    match left_at(alloc, calls)? {
        Some(left) if left.saved == SAVES => Ok(None),
        Some(left) => Ok(Some(open_each(rt, alloc, &left)?)),
        None => Ok(Some(0)),
    }
}

#[test]
fn a_crash_leaves_any_blocks_that_were_not_synced(rt: HostRuntime) -> Result<(), Fail> {
    let alloc = rt.alloc();
    let mut differing = 0usize;
    for calls in 0..2000 {
        let of_log = open_left(&rt, alloc, Calls::of(DiskFile::Log, calls))?;
        let of_db = open_left(&rt, alloc, Calls::of(DiskFile::Db, calls))?;
        if of_log.is_none() && of_db.is_none() {
            assert!(rt; differing > 16);
            return Ok(());
        }
        differing = differing
            .wrapping_add(of_log.unwrap_or(0))
            .wrapping_add(of_db.unwrap_or(0));
    }
    panic!(rt; "so many calls are not enough")
}
