//! A crash at each call of the disk.
//!
//! A machine that stops is a disk that fails from some call on, and then loses what was not synced (`of_leftovers` has what
//! else it may leave). After the first call that fails a folder makes no more. So each row stops one of the two files at the
//! call of one number, and looks at what is there afterwards: what the last save that answered Ok has made, or the next one.

use crate::files::{SMALL, USUAL};
use crate::saves::{Opening, is_old_or_new, new_folder, opening_after_crash, save_all};
use crate::services::{Moment, large_moments, small_moments};
use data_folder::{DataFault, DataFolder};
use disk_images::{Calls, DatabaseLayout, DiskFile};
use sqlite_trees::store::Reopen;
use std::alloc::Global;
use std::process::Abort;
use std::test::Fail;

/// No row has so many calls.
const MOST_ROWS: u64 = 10_000;

/// How many saves succeed until a file stops, and what is found after the crash.
fn saved_and_found<S: Reopen + Drop>(
    alloc: Global,
    folder: DataFolder<S>,
    moments: &[Moment],
) -> (usize, Opening) {
    let mut folder = folder;
    let saved = save_all(alloc, &mut folder, moments);
    (saved, opening_after_crash(alloc, folder, moments))
}

/// The same if the files stop at these calls. `None`: they stop before the folder is there.
fn stopped_at(
    alloc: Global,
    moments: &[Moment],
    layout: DatabaseLayout,
    calls: Calls,
) -> Result<Option<(usize, Opening)>, DataFault> {
    match new_folder(alloc, layout, calls)? {
        Some(folder) => Ok(Some(saved_and_found(alloc, folder, moments))),
        None => Ok(None),
    }
}

/// Stops a file at this call, and looks what is found. Whether all was saved before.
fn is_done_before(
    rt: &impl Abort,
    alloc: Global,
    moments: &[Moment],
    layout: DatabaseLayout,
    stopped: DiskFile,
    call: u64,
) -> Result<bool, DataFault> {
    let calls = Calls::of(stopped, call);
    let Some((saved, found)) = stopped_at(alloc, moments, layout, calls)? else {
        return Ok(false);
    };
    assert!(rt;
        is_old_or_new(found, saved),
        "{stopped:?} {call}: {saved} saves, {found:?}"
    );
    Ok(saved == moments.len())
}

/// Stops a file at each call that is a multiple of `step`, until all is saved before. How many rows that were.
fn stop_at_each(
    rt: &impl Abort,
    alloc: Global,
    moments: &[Moment],
    layout: DatabaseLayout,
    stopped: DiskFile,
    step: u64,
) -> Result<u64, DataFault> {
    for row in 0..MOST_ROWS {
        let call = row.wrapping_mul(step);
        if is_done_before(rt, alloc, moments, layout, stopped, call)? {
            return Ok(row);
        }
    }
    panic!(rt; "{stopped:?}: so many calls are not enough")
}

/// Stops either file. There are more rows than these.
fn check(
    rt: &impl Abort,
    alloc: Global,
    moments: &[Moment],
    layout: DatabaseLayout,
    step: u64,
    least: (u64, u64),
) -> Result<(), DataFault> {
    let of_log = stop_at_each(rt, alloc, moments, layout, DiskFile::Log, step)?;
    let of_db = stop_at_each(rt, alloc, moments, layout, DiskFile::Db, step)?;
    assert!(rt; of_log > least.0 && of_db > least.1, "{of_log} {of_db}");
    Ok(())
}

#[test]
fn a_crash_at_each_call_leaves_the_last_save_or_the_next(rt: HostRuntime) -> Result<(), Fail> {
    let moments = small_moments(&rt, rt.alloc(), 0, 16)?;
    check(&rt, rt.alloc(), &moments, SMALL, 1, (150, 30))?;
    Ok(())
}

/// The items are large enough to be written to their rows.
#[test]
fn a_crash_while_items_come_into_their_rows(rt: HostRuntime) -> Result<(), Fail> {
    let moments = large_moments(&rt, rt.alloc())?;
    check(&rt, rt.alloc(), &moments, USUAL, 701, (2, 1))?;
    Ok(())
}
