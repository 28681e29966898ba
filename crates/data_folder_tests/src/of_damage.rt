//! A byte changed in one of the files of a folder: it is reported when they are opened or read, or the record of the last
//! save is found, or that of the one before.

use crate::files::{LOGGED, UNSUMMED};
use crate::saves::{
    ALONE, Opening, TestFolder, WANTED, good_folder, is_old_or_new, opening_in, save_all,
    store_after,
};
use crate::services::{Moment, small_moments};
use data_folder::{DataFault, DataFolder};
use disk_images::{DatabaseLayout, DiskFile, Images, MemoryStore, images_of};
use sqlite_trees::store::Store;
use std::alloc::Global;
use std::process::Abort;
use std::test::Fail;

/// So many bytes lie from one byte that is changed to the next.
const STEP: usize = 127;

/// The store after all these saves.
fn all_saved<S: Store + Drop>(
    alloc: Global,
    folder: DataFolder<S>,
    moments: &[Moment],
) -> Result<S, Fail> {
    let mut folder = folder;
    let saved = save_all(alloc, &mut folder, moments);
    let store = folder.into_store();
    if saved == moments.len() {
        Ok(store)
    } else {
        drop(store);
        Err("not all saves succeeded".into())
    }
}

/// The store, with an empty log.
fn settled(store: MemoryStore) -> Result<MemoryStore, DataFault> {
    let mut store = store;
    match store.checkpoint() {
        Ok(()) => Ok(store),
        Err(error) => Err(error.into()),
    }
}

/// A folder with the data of a store.
fn folder_of<S: Store + Drop>(alloc: Global, store: S) -> Result<DataFolder<S>, DataFault> {
    match DataFolder::over(alloc, store, WANTED) {
        Ok((folder, found)) => {
            drop(found);
            Ok(folder)
        }
        Err(fault) => Err(fault),
    }
}

/// A folder after these saves, with an empty log.
fn settled_folder(
    alloc: Global,
    layout: DatabaseLayout,
    moments: &[Moment],
) -> Result<TestFolder, Fail> {
    let store = all_saved(alloc, good_folder(alloc, layout)?, moments)?;
    let store = settled(store)?;
    Ok(folder_of(alloc, store)?)
}

/// The files after all saves, which are in the database alone.
fn settled_files(
    alloc: Global,
    layout: DatabaseLayout,
    moments: &[Moment],
) -> Result<Images, Fail> {
    let files = settled_folder(alloc, layout, moments)?.into_store().close();
    Ok(images_of(alloc, &files)?.shortened())
}

/// The files after all saves. The last one is in the log alone, and all others are in the database alone.
fn saved_files(alloc: Global, layout: DatabaseLayout, moments: &[Moment]) -> Result<Images, Fail> {
    let Some((last, others)) = moments.split_last() else {
        return Err("no saves".into());
    };
    let folder = settled_folder(alloc, layout, others)?;
    let store = store_after(alloc, folder, ALONE, moments.len(), last)?;
    let files = store.close();
    Ok(images_of(alloc, &files)?.shortened())
}

/// Whether what is found may be found after damage in this file: the last save, or of a damaged log also the one before.
fn may_be_found(opening: Opening, damaged: DiskFile, saves: usize) -> bool {
    match damaged {
        DiskFile::Log => is_old_or_new(opening, saves.wrapping_sub(1)),
        DiskFile::Db => opening == Opening::Save(saves),
    }
}

/// Whether it is reported that the byte at this place was changed. If not, what is found may be found.
fn is_told(
    rt: &impl Abort,
    alloc: Global,
    moments: &[Moment],
    images: &Images,
    damaged: DiskFile,
    at: usize,
) -> Result<bool, DataFault> {
    let opening = opening_in(alloc, images, LOGGED, moments)?;
    if opening == Opening::Refused {
        return Ok(true);
    }
    assert!(rt;
        may_be_found(opening, damaged, moments.len()),
        "{damaged:?} {at}: {opening:?}"
    );
    Ok(false)
}

/// Changes a bit in each `STEP`-th byte of a file, one at a time: how often that is reported, and how often not.
fn damage_each(
    rt: &impl Abort,
    alloc: Global,
    moments: &[Moment],
    images: &mut Images,
    damaged: DiskFile,
) -> Result<(u64, u64), DataFault> {
    let (mut told, mut untold) = (0u64, 0u64);
    for row in 0..images.used(damaged).div_ceil(STEP) {
        let at = row.wrapping_mul(STEP);
        images.flip(damaged, at);
        if is_told(rt, alloc, moments, images, damaged, at)? {
            told = told.wrapping_add(1);
        } else {
            untold = untold.wrapping_add(1);
        }
        images.flip(damaged, at);
    }
    Ok((told, untold))
}

/// Damages one of the files after all saves, so: how often that is reported, and how often not.
fn damage(
    rt: &impl Abort,
    alloc: Global,
    moments: &[Moment],
    damaged: DiskFile,
) -> Result<(u64, u64), Fail> {
    let mut images = saved_files(alloc, LOGGED, moments)?;
    Ok(damage_each(rt, alloc, moments, &mut images, damaged)?)
}

/// Whether some bytes from here on are this one.
fn has_run(bytes: &[u8], at: usize, byte: u8) -> bool {
    match bytes.get(at..at.saturating_add(3)) {
        Some(run) => run == [byte; 3].as_slice(),
        None => false,
    }
}

/// Changes a bit of a byte of the database, whose pages have no sums, and changes it back: it has to be reported.
fn damage_item(
    rt: &impl Abort,
    alloc: Global,
    moments: &[Moment],
    images: &mut Images,
    at: usize,
) -> Result<(), DataFault> {
    images.flip(DiskFile::Db, at);
    let opening = opening_in(alloc, images, UNSUMMED, moments)?;
    images.flip(DiskFile::Db, at);
    assert!(rt; opening == Opening::Refused, "{at}: {opening:?}");
    Ok(())
}

/// Changes a bit in each `STEP`-th byte of the database that lies in an item of many such bytes. How many they are.
fn damage_items(
    rt: &impl Abort,
    alloc: Global,
    moments: &[Moment],
    images: &mut Images,
    byte: u8,
) -> Result<u64, DataFault> {
    let mut count = 0u64;
    for row in 0..images.used(DiskFile::Db).div_ceil(STEP) {
        let at = row.wrapping_mul(STEP);
        if has_run(&images.db.bytes, at, byte) {
            damage_item(rt, alloc, moments, images, at)?;
            count = count.wrapping_add(1);
        }
    }
    Ok(count)
}

/// The pages have no sums: that the item is another one is seen by the token of the state.
#[test]
fn a_damaged_byte_of_an_item_is_told_without_sums(rt: HostRuntime) -> Result<(), Fail> {
    let moments = small_moments(&rt, rt.alloc(), 0, 6)?;
    let mut images = settled_files(rt.alloc(), UNSUMMED, &moments)?;
    let count = damage_items(&rt, rt.alloc(), &moments, &mut images, b'4')?;
    assert!(rt; count > 40, "{count}");
    Ok(())
}

/// Most bytes of the log belong to the last save: without it the one before is found.
#[test]
fn a_damaged_byte_of_the_log_leaves_the_last_save_or_the_one_before(
    rt: HostRuntime,
) -> Result<(), Fail> {
    let moments = small_moments(&rt, rt.alloc(), 0, 16)?;
    let (told, untold) = damage(&rt, rt.alloc(), &moments, DiskFile::Log)?;
    assert!(rt; untold > 20, "{told} {untold}");
    Ok(())
}

/// Most bytes of the database are reported.
#[test]
fn a_damaged_byte_of_the_database_is_told_or_leaves_the_last_save(
    rt: HostRuntime,
) -> Result<(), Fail> {
    let moments = small_moments(&rt, rt.alloc(), 0, 16)?;
    let (told, untold) = damage(&rt, rt.alloc(), &moments, DiskFile::Db)?;
    assert!(rt; told > 50, "{told} {untold}");
    Ok(())
}
