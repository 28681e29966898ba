//! What files have.

ghost use Rattle.std.specs.Prelude.{◌≡◌, ◌≤◌, ◌<◌, ℕ, length, slice_index, IsTrue, IfOk, OnOk};
ghost use Rattle.sqlite_disk.specs.Disk.{Holds};
ghost use Rattle.sqlite_disk.specs.Fuse.{inner_of};
ghost use Rattle.sqlite_disk.specs.Memory.{memory_bytes, memory_is_usable};
ghost use Rattle.disk_images.specs.Image.{IsImageOf};

use crate::database::MemoryDisk;
use sqlite_disk::{Disk, Files, Memory};
use sqlite_trees::error::StoreError;
use std::alloc::{AllocError, Global};
use std::io;

/// Which of the two files of a database.
#[derive(Clone, Copy, Debug)]
pub enum DiskFile {
    Log,
    Db,
}

/// What a file has: bytes, and then zeros up to its length.
pub struct Image {
    pub bytes: Vec<u8>,
    pub len: usize,
}

impl Drop for Image {
    fn drop(self) {
        let Image { bytes: _, len: _ } = self;
    }
}

impl Image {
    /// The file with at most 4,096 zeros behind its bytes: an open of it takes less time.
    fn shortened(self) -> Image
        ensures bytes { result.bytes ≡ self.bytes }
        ensures len { result.len ≤ self.len }
    {
        let Image { bytes, len } = self;
        let used = bytes.len();
        Image {
            bytes,
            len: len.min(used.saturating_add(4096 - used % 4096)),
        }
    }

    /// Changes a bit of a byte, or changes it back.
    fn flip(&mut self, at: usize)
        ensures { self.new.len ≡ self.old.len }
    {
        if let Some(byte) = self.bytes.get_mut(at) {
            *byte ^= 0x40;
        }
    }
}

/// What the two files of a database have.
pub struct Images {
    pub log: Image,
    pub db: Image,
}

impl Drop for Images {
    fn drop(self) {
        let Images { log: _, db: _ } = self;
    }
}

impl Images {
    /// Both files with few zeros at their ends.
    pub fn shortened(self) -> Images
        ensures log { result.log.bytes ≡ self.log.bytes }
        ensures db { result.db.bytes ≡ self.db.bytes }
    {
        let Images { log, db } = self;
        Images {
            log: log.shortened(),
            db: db.shortened(),
        }
    }

    /// How many bytes a file has up to its zeros.
    pub fn used(&self, file: DiskFile) -> usize {
        match file {
            DiskFile::Log => self.log.bytes.len(),
            DiskFile::Db => self.db.bytes.len(),
        }
    }

    /// Changes a bit of a byte of a file, or changes it back. Its zeros stay as they are.
    pub fn flip(&mut self, file: DiskFile, at: usize) {
        match file {
            DiskFile::Log => self.log.flip(at),
            DiskFile::Db => self.db.flip(at),
        }
    }
}

/// How many bytes there are up to the last that is not zero.
fn used(bytes: &[u8]) -> usize
    ensures within { result ≤ length bytes.now }
    ensures zeros { (i : ℕ) → result ≤ i → i < length bytes.now → slice_index bytes.now i ≡ 0 }
{
    let mut end = 0usize;
    for (at, byte) in bytes.iter().enumerate() {
        if *byte != 0 {
            end = at + 1;
        }
    }
    end
}

/// What the file has now.
fn image_of(alloc: Global, disk: &MemoryDisk) -> Result<Image, AllocError>
    ensures { IfOk result (λ image. IsImageOf (memory_bytes (inner_of disk.now)) image) }
{
    let bytes = disk.inner().bytes();
    let used = used(bytes);
    Ok(Image {
        bytes: Vec::from_slice(alloc, &bytes[..used])?,
        len: bytes.len(),
    })
}

/// What both files have now. The only error is a failed allocation.
pub fn images_of(alloc: Global, files: &Files<MemoryDisk>) -> Result<Images, AllocError>
    ensures log { IfOk result (λ images. IsImageOf (memory_bytes (inner_of files.now.log)) images.log) }
    ensures db { IfOk result (λ images. IsImageOf (memory_bytes (inner_of files.now.db)) images.db) }
{
    let log = image_of(alloc, &files.log)?;
    let db = image_of(alloc, &files.db)?;
    Ok(Images { log, db })
}

/// Writes a file, and syncs it.
fn write(file: &mut Memory, image: &Image) -> io::Result<()>
    requires { IsTrue (memory_is_usable file.old) }
    ensures usable { OnOk result (IsTrue (memory_is_usable file.new)) }
    ensures bytes { OnOk result (0 < length image.now.bytes.items → Holds (memory_bytes file.new) 0 image.now.bytes.items) }
{
    file.set_len(image.len)?;
    file.write_at(0, &image.bytes)?;
    file.sync()
}

/// A file with this content, all of it synced. The only error is a failed allocation.
pub(crate) fn file_of(alloc: Global, image: &Image) -> Result<Memory, StoreError>
    ensures usable { IfOk result (λ file. IsTrue (memory_is_usable file)) }
    ensures bytes { IfOk result (λ file. 0 < length image.now.bytes.items → Holds (memory_bytes file) 0 image.now.bytes.items) }
{
    let mut file = Memory::new(alloc);
    match write(&mut file, image) {
        Ok(()) => Ok(file),
        Err(_) => Err(StoreError::OutOfMemory),
    }
}
