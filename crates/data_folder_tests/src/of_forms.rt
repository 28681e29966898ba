//! States of each size, and what goes on from them. After each save there is a crash, and the folder is opened again for
//! the next one.

use crate::files::USUAL;
use crate::saves::{
    ALONE, Opening, WANTED, crashed, good_folder, opening_of, save_all, store_after,
};
use crate::services::{
    Moment, add_answer, few_moments, moments_behind, moments_shrinking, small_moments,
};
use data_folder::{DataFault, DataFolder, FoundCopy, Wanted};
use service::ServiceRecord;
use sqlite_trees::store::{Reopen, Store};
use std::alloc::Global;
use std::process::Abort;
use std::test::Fail;

/// A folder of a service of three executors.
const OF_THREE: Wanted = Wanted {
    is_new: false,
    u: 1,
    folders: 1,
};

/// The folder of a store that is opened, and which of these saves is found.
fn folder_of<S: Store + Drop>(
    alloc: Global,
    store: S,
    moments: &[Moment],
    wanted: Wanted,
) -> Result<(DataFolder<S>, Opening), DataFault> {
    match DataFolder::over(alloc, store, wanted) {
        Ok((folder, found)) => Ok((folder, opening_of(alloc, &found, moments))),
        Err(fault) => Err(fault),
    }
}

/// Makes the save of this number, crashes, and opens the folder again: the folder, and which save is found.
fn after_save<S: Reopen + Drop>(
    alloc: Global,
    folder: DataFolder<S>,
    moments: &[Moment],
    row: (usize, &Moment),
    wanted: Wanted,
) -> Result<(DataFolder<S>, Opening), Fail> {
    let (number, moment) = row;
    let store = store_after(alloc, folder, ALONE, number, moment)?;
    let store = crashed(store)?;
    Ok(folder_of(alloc, store, moments, wanted)?)
}

/// Makes each save, with a crash and an open after it.
fn save_and_crash<R: Abort, S: Reopen + Drop>(
    rt: &R,
    alloc: Global,
    folder: DataFolder<S>,
    moments: &[Moment],
    wanted: Wanted,
) -> Result<(), Fail> {
    let mut folder = folder;
    for (at, moment) in moments.iter().enumerate() {
        let number = at.wrapping_add(1);
        let (again, found) = after_save(alloc, folder, moments, (number, moment), wanted)?;
        folder = again;
        assert!(rt; found == Opening::Save(number), "{number}: {found:?}");
    }
    drop(folder);
    Ok(())
}

fn check_each<R: Abort>(
    rt: &R,
    alloc: Global,
    moments: &[Moment],
    wanted: Wanted,
) -> Result<(), Fail> {
    let folder = good_folder(alloc, USUAL)?;
    save_and_crash(rt, alloc, folder, moments, wanted)
}

#[test]
fn no_items_and_one_are_found(rt: HostRuntime) -> Result<(), Fail> {
    let moments = few_moments(&rt, rt.alloc())?;
    check_each(&rt, rt.alloc(), &moments, WANTED)
}

#[test]
fn each_save_is_found(rt: HostRuntime) -> Result<(), Fail> {
    let moments = small_moments(&rt, rt.alloc(), 0, 16)?;
    check_each(&rt, rt.alloc(), &moments, WANTED)
}

#[test]
fn each_save_of_three_executors_is_found(rt: HostRuntime) -> Result<(), Fail> {
    let moments = small_moments(&rt, rt.alloc(), 1, 16)?;
    check_each(&rt, rt.alloc(), &moments, OF_THREE)
}

#[test]
fn an_executor_that_is_behind_is_found_so(rt: HostRuntime) -> Result<(), Fail> {
    let moments = moments_behind(&rt, rt.alloc())?;
    check_each(&rt, rt.alloc(), &moments, OF_THREE)
}

/// The state of 1,025 items has another form than those before and after.
#[test]
fn a_state_that_shrinks_from_1025_items_is_found(rt: HostRuntime) -> Result<(), Fail> {
    let moments = moments_shrinking(&rt, rt.alloc(), 1025)?;
    check_each(&rt, rt.alloc(), &moments, WANTED)
}

fn record_of(found: Option<FoundCopy>) -> Result<ServiceRecord, DataFault> {
    match found {
        Some(found) => Ok(found.into_service()),
        None => Err(DataFault::NoData),
    }
}

/// The record that is found after all saves.
fn record_in<S: Store + Drop>(
    alloc: Global,
    folder: DataFolder<S>,
    moments: &[Moment],
) -> Result<ServiceRecord, DataFault> {
    let mut folder = folder;
    save_all(alloc, &mut folder, moments);
    match DataFolder::over(alloc, folder.into_store(), WANTED) {
        Ok((folder, found)) => {
            drop(folder);
            record_of(found)
        }
        Err(fault) => Err(fault),
    }
}

/// `b` was set with the flags 0 and `d` too, at last; `a` has 3,000 bytes, which are not asked for.
#[test]
fn a_service_goes_on_from_what_is_found(rt: HostRuntime) -> Result<(), Fail> {
    let alloc = rt.alloc();
    let moments = small_moments(&rt, alloc, 0, 16)?;
    let kept = record_in(alloc, good_folder(alloc, USUAL)?, &moments)?;
    let mut answer = Vec::new(alloc);
    add_answer(&rt, alloc, kept, b"get b c d\r\n", &mut answer)?;
    assert!(rt; answer.as_slice() == b"VALUE b 0 1\r\n9\r\nVALUE d 0 1\r\n8\r\nEND\r\n".as_slice());
    Ok(())
}
