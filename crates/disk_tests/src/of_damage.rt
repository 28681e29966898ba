//! Damage at each byte of both files: it is reported when they are opened or read, or what is read is what some
//! save made.

use crate::rows::{made_rows, opened_rows};
use crate::saves::{SAVES, content_of, is_of_a_save, save_all};
use disk_images::{Calls, DiskFile, Images, images_of};
use std::alloc::Global;
use std::process::Abort;
use std::test::Fail;

/// The files after all saves.
fn written(alloc: Global) -> Result<Images, Fail> {
    let Some(mut rows) = made_rows(alloc, Calls::ALL)? else {
        return Err("it is not made".into());
    };
    let saved = save_all(alloc, &mut rows);
    let files = rows.into_store().close();
    if saved != Some(SAVES) {
        return Err("not all saves succeeded".into());
    }
    Ok(images_of(alloc, &files)?.shortened())
}

/// Whether damage was reported.
fn is_told(rt: &impl Abort, alloc: Global, images: &Images) -> Result<bool, Fail> {
    let Some(mut rows) = opened_rows(alloc, images)? else {
        return Ok(true);
    };
    match content_of(alloc, &mut rows) {
        Some(content) => {
            assert!(rt; is_of_a_save(content, SAVES));
            Ok(false)
        }
        None => Ok(true),
    }
}

/// Changes one byte after the other of a file, up to its zeros. How often that was reported.
fn damage_each(rt: &impl Abort, alloc: Global, file: DiskFile) -> Result<u64, Fail> {
    let mut images = written(alloc)?;
    let mut told = 0u64;
    for at in 0..images.used(file) {
        images.flip(file, at);
        told = told.wrapping_add(is_told(rt, alloc, &images)? as u64);
        images.flip(file, at);
    }
    Ok(told)
}

#[test]
fn a_damaged_byte_of_the_log_is_told_or_leaves_what_was_saved(rt: HostRuntime) -> Result<(), Fail> {
    damage_each(&rt, rt.alloc(), DiskFile::Log)?;
    Ok(())
}

#[test]
fn a_damaged_byte_of_the_file_is_told_or_leaves_what_was_saved(
    rt: HostRuntime,
) -> Result<(), Fail> {
    assert!(rt; damage_each(&rt, rt.alloc(), DiskFile::Db)? > 100);
    Ok(())
}
