//! Copies in three folders, some of them of another site, or of an earlier save.

use crate::files::USUAL;
use crate::saves::{good_folder, is_record, store_after};
use crate::services::{Moment, small_moments};
use data_folder::{CopyId, DataFault, DataFolder, SaveCopy, Wanted};
use data_folders::{FolderCount, FolderCounts, FoldersFault, Opened};
use disk_images::MemoryStore;
use service::ServiceRecord;
use sqlite_trees::store::Store;
use std::alloc::Global;
use std::process::Abort;
use std::test::Fail;
use std::thread::Threads;

/// What is asked of each of three folders.
const OF_THREE: Wanted = Wanted {
    is_new: false,
    u: 0,
    folders: 3,
};

/// What one of three folders has.
#[derive(Clone, Copy, Debug)]
enum Has {
    /// It cannot be opened.
    NotOpen,
    /// It is open, and nothing was saved in it.
    Nothing,
    /// The save of this number.
    Save(usize),
    /// The save of this number, of another site.
    Other(usize),
}

/// The store of a folder after the save of this number.
fn saved(
    alloc: Global,
    at: usize,
    site: u64,
    number: usize,
    moments: &[Moment],
) -> Result<MemoryStore, Fail> {
    let id = CopyId {
        site,
        folder: u32::try_from(at).unwrap_or(0),
        folders: 3,
    };
    let moment = moments.get(number.wrapping_sub(1)).ok_or("no moment")?;
    let folder = good_folder(alloc, USUAL)?;
    Ok(store_after(alloc, folder, id, number, moment)?)
}

/// The store of a folder. `None`: it cannot be opened.
fn store_of(
    alloc: Global,
    at: usize,
    has: Has,
    moments: &[Moment],
) -> Result<Option<MemoryStore>, Fail> {
    match has {
        Has::NotOpen => Ok(None),
        Has::Nothing => Ok(Some(good_folder(alloc, USUAL)?.into_store())),
        Has::Save(number) => Ok(Some(saved(alloc, at, 7, number, moments)?)),
        Has::Other(number) => Ok(Some(saved(alloc, at, 8, number, moments)?)),
    }
}

/// Opens one more folder.
fn push_open<S: Store + Drop>(
    alloc: Global,
    opened: &mut Opened<DataFolder<S>>,
    store: S,
) -> Result<(), DataFault> {
    match DataFolder::over(alloc, store, OF_THREE) {
        Ok((folder, found)) => Ok(opened.push(Some(folder), found)?),
        Err(fault) => Err(fault),
    }
}

/// Opens one more folder, unless it cannot be opened.
fn push<S: Store + Drop>(
    alloc: Global,
    opened: &mut Opened<DataFolder<S>>,
    store: Option<S>,
) -> Result<(), DataFault> {
    match store {
        Some(store) => push_open(alloc, opened, store),
        None => Ok(opened.push(None, None)?),
    }
}

/// Opens each of three folders, whose stores these are.
fn push_each<S: Store + Drop, F: Fn(usize) -> Result<Option<S>, Fail>>(
    alloc: Global,
    opened: &mut Opened<DataFolder<S>>,
    store_at: &F,
) -> Result<(), Fail>
    requires { F.IsAlwaysCallable store_at.now }
{
    for at in 0..3usize {
        let store = store_at(at)?;
        push(alloc, opened, store)?;
    }
    Ok(())
}

/// Of which save this record is. 0: of none.
fn save_of(alloc: Global, kept: &Option<ServiceRecord>, moments: &[Moment]) -> usize {
    let Some(kept) = kept else {
        return 0;
    };
    for (at, moment) in moments.iter().enumerate() {
        if is_record(alloc, kept, moment) {
            return at.wrapping_add(1);
        }
    }
    0
}

/// From which save a start goes on that opened these folders. What is counted of each then is noted.
fn begun<F: SaveCopy + Send + Drop, R: Threads + Sync>(
    rt: &R,
    alloc: Global,
    opened: Opened<F>,
    moments: &[Moment],
    counts: &FolderCounts,
) -> Result<usize, FoldersFault> {
    match opened.begin(rt, alloc) {
        Ok((copies, record)) => {
            counts.note(copies.slots());
            drop(copies);
            Ok(save_of(alloc, &record, moments))
        }
        Err(fault) => Err(fault),
    }
}

/// The folders of a start whose stores these are, opened.
fn opened_of<S: Store + Drop, F: Fn(usize) -> Result<Option<S>, Fail>>(
    alloc: Global,
    store_at: &F,
) -> Result<Opened<DataFolder<S>>, Fail>
    requires { F.IsAlwaysCallable store_at.now }
{
    let mut opened = Opened::new(alloc, 7);
    push_each(alloc, &mut opened, store_at)?;
    Ok(opened)
}

/// From which save a start goes on with folders whose stores these are.
fn start_with<S: Store + Send + Drop, F: Fn(usize) -> Result<Option<S>, Fail>, R: Threads + Sync>(
    rt: &R,
    alloc: Global,
    moments: &[Moment],
    store_at: &F,
    counts: &FolderCounts,
) -> Result<Result<usize, FoldersFault>, Fail>
    requires { F.IsAlwaysCallable store_at.now }
{
    let opened = opened_of(alloc, store_at)?;
    Ok(begun(rt, alloc, opened, moments, counts))
}

/// From which save a start goes on whose folders have this.
fn start<R: Threads + Sync>(
    rt: &R,
    alloc: Global,
    moments: &[Moment],
    row: &[Has; 3],
    counts: &FolderCounts,
) -> Result<Result<usize, FoldersFault>, Fail> {
    let store_at = |at: usize| -> Result<Option<MemoryStore>, Fail> {
        store_of(alloc, at, row[at % 3], moments)
    };
    start_with(rt, alloc, moments, &store_at, counts)
}

fn check_row<R: Threads + Sync + Abort>(
    rt: &R,
    alloc: Global,
    moments: &[Moment],
    row: &[Has; 3],
    expected: Result<usize, FoldersFault>,
) -> Result<(), Fail> {
    let begun = start(rt, alloc, moments, row, &FolderCounts::none(alloc))?;
    assert!(rt; begun == expected, "{row:?}: {begun:?}");
    Ok(())
}

/// The folder with the newest save is of one site, and another one is not.
const OF_TWO_SITES: [([Has; 3], usize); 3] = [
    ([Has::Save(2), Has::Other(1), Has::Save(1)], 0),
    ([Has::Save(1), Has::Save(1), Has::Other(2)], 2),
    ([Has::NotOpen, Has::Other(1), Has::Save(1)], 1),
];

fn check_two_sites<R: Threads + Sync + Abort>(
    rt: &R,
    alloc: Global,
    moments: &[Moment],
) -> Result<(), Fail> {
    for (row, at) in &OF_TWO_SITES {
        let expected = Err(FoldersFault::At(*at, DataFault::OtherSite));
        check_row(rt, alloc, moments, row, expected)?;
    }
    Ok(())
}

#[test]
fn a_start_takes_copies_of_one_site_alone(rt: HostRuntime) -> Result<(), Fail> {
    let moments = small_moments(&rt, rt.alloc(), 0, 2)?;
    check_two_sites(&rt, rt.alloc(), &moments)
}

const CHOICES: [Has; 4] = [Has::NotOpen, Has::Nothing, Has::Save(1), Has::Save(2)];

/// In how many folders nothing was saved, in how many something was, and the last save in any of them.
fn counts_of(row: &[Has]) -> (usize, usize, usize) {
    let (mut empty, mut readable, mut last) = (0usize, 0usize, 0usize);
    for has in row {
        match has {
            Has::NotOpen => {}
            Has::Nothing => empty = empty.wrapping_add(1),
            Has::Save(number) | Has::Other(number) => {
                readable = readable.wrapping_add(1);
                last = last.max(*number);
            }
        }
    }
    (empty, readable, last)
}

/// Two of three have to be read, or all three are empty. The last save that is read is the one.
fn expected_of(row: &[Has]) -> Result<usize, FoldersFault> {
    let (empty, readable, last) = counts_of(row);
    if empty == 3 {
        Ok(0)
    } else if readable < 2 {
        Err(FoldersFault::TooFew {
            readable,
            folders: 3,
        })
    } else {
        Ok(last)
    }
}

/// What three folders have in the row of this number, from 0 to 63.
fn row_at(number: usize) -> [Has; 3] {
    [
        CHOICES[number % 4],
        CHOICES[number / 4 % 4],
        CHOICES[number / 16 % 4],
    ]
}

fn check_choices<R: Threads + Sync + Abort>(
    rt: &R,
    alloc: Global,
    moments: &[Moment],
) -> Result<(), Fail> {
    for number in 0..64usize {
        let row = row_at(number);
        check_row(rt, alloc, moments, &row, expected_of(&row))?;
    }
    Ok(())
}

#[test]
fn a_start_needs_two_of_three_folders(rt: HostRuntime) -> Result<(), Fail> {
    let moments = small_moments(&rt, rt.alloc(), 0, 2)?;
    check_choices(&rt, rt.alloc(), &moments)
}

/// It is open and has the save with which the start begins, or it is not open.
const OPEN: FolderCount = FolderCount {
    is_open: true,
    is_current: true,
    made: 1,
    failed: 0,
};

const NOT_OPEN: FolderCount = FolderCount {
    is_open: false,
    is_current: false,
    made: 0,
    failed: 1,
};

/// Whether these are the counts of three folders, of which the second one is not open.
fn are_counted(counts: &FolderCounts) -> bool {
    let wanted = [Some(OPEN), Some(NOT_OPEN), Some(OPEN), None];
    for (at, count) in wanted.iter().enumerate() {
        if counts.count(at) != *count {
            return false;
        }
    }
    true
}

/// Whether a start of three folders goes on from the save of one of them, and each is counted rightly.
fn is_counted<R: Threads + Sync>(
    rt: &R,
    alloc: Global,
    moments: &[Moment],
    counts: &FolderCounts,
) -> Result<bool, Fail> {
    let row = [Has::Save(2), Has::NotOpen, Has::Save(1)];
    let begun = start(rt, alloc, moments, &row, counts)?;
    Ok(begun == Ok(2) && are_counted(counts))
}

fn check_counts<R: Threads + Sync + Abort>(
    rt: &R,
    alloc: Global,
    moments: &[Moment],
) -> Result<(), Fail> {
    let counts = FolderCounts::new(alloc, 3)?;
    assert!(rt; is_counted(rt, alloc, moments, &counts)?);
    Ok(())
}

#[test]
fn a_start_is_counted_in_each_folder(rt: HostRuntime) -> Result<(), Fail> {
    let moments = small_moments(&rt, rt.alloc(), 0, 2)?;
    check_counts(&rt, rt.alloc(), &moments)
}
