//! What is asked of a folder, and what it has.

use crate::files::{USUAL, made};
use crate::saves::{ALONE, NEW, WANTED, good_folder, stamp_of, store_after};
use crate::services::{Moment, small_moments};
use data_folder::{CopyId, DataFault, DataFolder, FoundCopy, HostFolder, Wanted};
use disk_images::{Calls, MemoryStore};
use sqlite_trees::store::Store;
use std::alloc::Global;
use std::process::Abort;
use std::test::Fail;

/// The second of three folders with the data of a site.
const SECOND: CopyId = CopyId {
    site: 77,
    folder: 1,
    folders: 3,
};

fn wanted(is_new: bool, u: u8, folders: u32) -> Wanted {
    Wanted { is_new, u, folders }
}

/// How the folder was saved, what is asked of it, and what an open answers: the site that is found, or a fault.
type Row = (CopyId, (bool, u8, u32), Result<u64, DataFault>);

const ROWS: [Row; 8] = [
    (ALONE, (false, 0, 1), Ok(0)),
    (ALONE, (false, 1, 1), Err(DataFault::OtherU(0))),
    (ALONE, (false, 0, 3), Err(DataFault::OtherFolders(1))),
    (ALONE, (true, 0, 1), Err(DataFault::HasData)),
    (SECOND, (false, 0, 3), Ok(77)),
    (SECOND, (false, 3, 3), Err(DataFault::OtherU(0))),
    (SECOND, (false, 0, 1), Err(DataFault::OtherFolders(3))),
    (SECOND, (true, 0, 3), Err(DataFault::HasData)),
];

/// The store after one save.
fn saved(alloc: Global, id: CopyId, moment: &Moment) -> Result<MemoryStore, Fail> {
    let folder = good_folder(alloc, USUAL)?;
    Ok(store_after(alloc, folder, id, 1, moment)?)
}

/// The site of what was found. `NoData`: nothing was.
fn site_of(found: &Option<FoundCopy>) -> Result<u64, DataFault> {
    match found {
        Some(found) if found.stamp == stamp_of(1) => Ok(found.site),
        _ => Err(DataFault::NoData),
    }
}

/// What an open of the store answers.
fn site_in<S: Store + Drop>(alloc: Global, store: S, wanted: Wanted) -> Result<u64, DataFault> {
    match DataFolder::over(alloc, store, wanted) {
        Ok((folder, found)) => {
            drop(folder);
            site_of(&found)
        }
        Err(fault) => Err(fault),
    }
}

fn check_row(rt: &impl Abort, alloc: Global, moment: &Moment, row: &Row) -> Result<(), Fail> {
    let (id, (is_new, u, folders), expected) = *row;
    let store = saved(alloc, id, moment)?;
    let answer = site_in(alloc, store, wanted(is_new, u, folders));
    assert!(rt;
        answer == expected,
        "{id:?} {is_new} {u} {folders}: {answer:?}"
    );
    Ok(())
}

fn check_rows(rt: &impl Abort, alloc: Global, moments: &[Moment]) -> Result<(), Fail> {
    let first = moments.first().ok_or("no moment")?;
    for row in &ROWS {
        check_row(rt, alloc, first, row)?;
    }
    Ok(())
}

#[test]
fn each_folder_that_is_not_as_wanted_has_its_fault(rt: HostRuntime) -> Result<(), Fail> {
    let moments = small_moments(&rt, rt.alloc(), 0, 1)?;
    check_rows(&rt, rt.alloc(), &moments)
}

/// What an open of a store answers in which nothing was saved.
fn site_in_new(alloc: Global, wanted: Wanted) -> Result<u64, DataFault> {
    match made(alloc, USUAL, Calls::ALL)? {
        Some(store) => site_in(alloc, store, wanted),
        None => Err(DataFault::Disk),
    }
}

/// Until something was saved a folder may be opened as new or not, with any u.
#[test]
fn a_folder_in_which_nothing_was_saved_has_nothing(rt: HostRuntime) {
    for row in &[NEW, WANTED, wanted(false, 3, 5), wanted(true, 3, 5)] {
        let answer = site_in_new(rt.alloc(), *row);
        assert!(rt; answer == Err(DataFault::NoData), "{row:?}: {answer:?}");
    }
}

/// Why a folder of the file system is not opened.
fn fault_of(opened: Result<(HostFolder, Option<FoundCopy>), DataFault>) -> Option<DataFault> {
    match opened {
        Ok((folder, found)) => {
            drop(folder);
            drop(found);
            None
        }
        Err(fault) => Some(fault),
    }
}

#[test]
fn without_the_folder_there_is_no_data_and_no_new_file(rt: HostRuntime) {
    let old = fault_of(HostFolder::open(&rt, "no/such/folder", WANTED, true));
    assert!(rt; old == Some(DataFault::NoData));
    let new = fault_of(HostFolder::open(&rt, "no/such/folder", NEW, true));
    assert!(rt; new == Some(DataFault::CannotOpen));
}
