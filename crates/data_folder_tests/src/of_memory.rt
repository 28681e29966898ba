//! Each call that allocates: with ample memory it succeeds, and if an allocation fails the folder has the last save that
//! answered Ok. `rt try --test --fail-alloc N` has the N-th one fail.

use crate::contents::content_of;
use crate::files::USUAL;
use crate::saves::{ALONE, Opening, TestFolder, good_folder, opening_in, opening_over, save};
use crate::services::{Moment, small_moments};
use data_folder::{DataFolder, SaveCopy};
use disk_images::{Images, images_of};
use service::SaveFault;
use sqlite_trees::store::Store;
use std::alloc::{AllocError, Global};
use std::test::Fail;

/// Whether each moment has the items that the commands leave if no allocation fails.
fn are_as_commanded(alloc: Global, moments: &[Moment]) -> bool {
    for moment in moments {
        if content_of(alloc, &moment.stored.state) != Ok(moment.content) {
            return false;
        }
    }
    true
}

/// Makes all saves, also after one that failed. Which saves may be found then: the last that answered Ok, and besides it
/// the first that failed of the disk.
fn save_each<F: SaveCopy>(alloc: Global, folder: &mut F, moments: &[Moment]) -> (usize, usize) {
    let (mut old, mut new) = (0usize, 0usize);
    for (at, moment) in moments.iter().enumerate() {
        let number = at.wrapping_add(1);
        match save(alloc, folder, ALONE, number, moment) {
            Ok(()) => {
                old = number;
                new = number;
            }
            Err(SaveFault::Disk) if old == new => new = number,
            Err(_) => {}
        }
    }
    (old, new)
}

/// What is in the files of a folder, asked again if an allocation failed.
fn left_of(alloc: Global, folder: TestFolder) -> Result<Images, AllocError> {
    let files = folder.into_store().close();
    match images_of(alloc, &files) {
        Ok(images) => Ok(images),
        Err(_) => images_of(alloc, &files),
    }
}

/// Whether the save of this number is found in these files, or of that one. If an allocation failed it is asked again.
fn has_either(alloc: Global, left: &Images, moments: &[Moment], old: usize, new: usize) -> bool {
    for _ in 0..2usize {
        if let Ok(Opening::Save(number)) = opening_in(alloc, left, USUAL, moments) {
            return number == old || number == new;
        }
    }
    false
}

/// Whether all that is found after all saves may be found. `None`: an allocation failed before the folder was there.
fn finds_a_save(alloc: Global, moments: &[Moment]) -> Option<bool> {
    let mut folder = good_folder(alloc, USUAL).ok()?;
    let (old, new) = save_each(alloc, &mut folder, moments);
    let left = left_of(alloc, folder).ok()?;
    Some(has_either(alloc, &left, moments, old, new))
}

/// Whether each save succeeds, and the last one is found.
fn saves_each<S: Store + Drop>(alloc: Global, folder: DataFolder<S>, moments: &[Moment]) -> bool {
    let mut folder = folder;
    let count = moments.len();
    let saved = save_each(alloc, &mut folder, moments);
    let is_open = !folder.is_shut();
    let opening = opening_over(alloc, folder.into_store(), moments);
    saved == (count, count) && is_open && opening == Opening::Save(count)
}

#[test]
fn each_call_succeeds_with_ample_memory(rt: HostRuntime) -> Result<(), Fail> {
    let alloc = rt.alloc();
    let moments = small_moments(&rt, alloc, 0, 2)?;
    let folder = good_folder(alloc, USUAL)?;
    assert!(rt; saves_each(alloc, folder, &moments));
    assert!(rt; moments.len() == 2 && are_as_commanded(alloc, &moments));
    assert!(rt; finds_a_save(alloc, &moments) == Some(true));
    Ok(())
}

#[test]
fn a_refused_growth_leaves_the_last_save(rt: HostRuntime) {
    let Ok(moments) = small_moments(&rt, rt.alloc(), 0, 2) else {
        return;
    };
    if are_as_commanded(rt.alloc(), &moments) {
        assert!(rt; finds_a_save(rt.alloc(), &moments) != Some(false));
    }
}
