//! What a crash may leave: of what was written since the last sync of a file, any blocks may be on the disk.

ghost use Rattle.std.specs.Prelude.{◌≡◌, max, IfOk};
ghost use Rattle.sqlite_disk.specs.Fuse.{inner_of};
ghost use Rattle.sqlite_disk.specs.Memory.{memory_bytes};
ghost use Rattle.disk_images.specs.Image.{IsImageOf};

use crate::database::MemoryDisk;
use crate::image::{Image, Images, images_of};
use sqlite_disk::{Crash, Files};
use std::alloc::{AllocError, Global};

const BLOCK: usize = 512;

/// Which blocks of what was written are on the disk.
#[derive(Clone, Copy, Debug)]
pub enum Blocks {
    Before(usize),
    Only(usize),
    AllBut(usize),
}

impl Blocks {
    /// The choices of a block: those before it, it alone, and all but it.
    pub fn of(block: usize) -> [Blocks; 3] {
        [
            Blocks::Before(block),
            Blocks::Only(block),
            Blocks::AllBut(block),
        ]
    }

    fn has(self, block: usize) -> bool {
        match self {
            Blocks::Before(end) => block < end,
            Blocks::Only(one) => block == one,
            Blocks::AllBut(one) => block != one,
        }
    }
}

/// What a machine that stopped left of both files: as they were synced last, and as they were written.
pub struct Leftovers {
    pub synced: Images,
    pub written: Images,
}

impl Drop for Leftovers {
    fn drop(self) {
        let Leftovers {
            synced: _,
            written: _,
        } = self;
    }
}

/// What was not synced is lost.
fn crash(files: &mut Files<MemoryDisk>) {
    files.log.crash();
    files.db.crash();
}

/// What is left of these files, which are as they were synced then. The only error is a failed allocation.
pub fn left_of(alloc: Global, files: &mut Files<MemoryDisk>) -> Result<Leftovers, AllocError>
    ensures written_log { IfOk result (λ left. IsImageOf (memory_bytes (inner_of files.old.log)) left.written.log) }
    ensures written_db { IfOk result (λ left. IsImageOf (memory_bytes (inner_of files.old.db)) left.written.db) }
    ensures synced_log { IfOk result (λ left. IsImageOf (memory_bytes (inner_of files.new.log)) left.synced.log) }
    ensures synced_db { IfOk result (λ left. IsImageOf (memory_bytes (inner_of files.new.db)) left.synced.db) }
{
    let written = images_of(alloc, files)?;
    crash(files);
    let synced = images_of(alloc, files)?;
    Ok(Leftovers { synced, written })
}

/// How many bytes of a file may differ.
fn span(synced: &Image, written: &Image) -> usize {
    synced.bytes.len().max(written.bytes.len())
}

/// The bytes of a block, but for zeros at the end.
fn block_of(image: &Image, block: usize) -> &[u8] {
    let first = block.wrapping_mul(BLOCK).min(image.bytes.len());
    let end = first.saturating_add(BLOCK).min(image.bytes.len());
    match image.bytes.get(first..end) {
        Some(bytes) => bytes,
        None => &[],
    }
}

/// Whether the block was written since the last sync.
fn differs(synced: &Image, written: &Image, block: usize) -> bool {
    block_of(synced, block) != block_of(written, block)
}

/// Adds a block, with the zeros at its end.
fn push_block(bytes: &mut Vec<u8>, image: &Image, block: usize) -> Result<(), AllocError> {
    bytes.extend_from_slice(block_of(image, block))?;
    bytes.resize(block.wrapping_add(1).wrapping_mul(BLOCK), 0)
}

/// Adds each block of a file: some as they were written, and the others as they were synced before.
fn push_blocks(
    bytes: &mut Vec<u8>,
    synced: &Image,
    written: &Image,
    blocks: Blocks,
) -> Result<(), AllocError> {
    for block in 0..span(synced, written).div_ceil(BLOCK) {
        if blocks.has(block) {
            push_block(bytes, written, block)?;
        } else {
            push_block(bytes, synced, block)?;
        }
    }
    Ok(())
}

/// A file with some blocks as they were written, and the others as they were synced before. It is as long as the longer one.
fn mixed(
    alloc: Global,
    synced: &Image,
    written: &Image,
    blocks: Blocks,
) -> Result<Image, AllocError>
    ensures { IfOk result (λ image. image.len ≡ max synced.now.len written.now.len) }
{
    let mut bytes = Vec::new(alloc);
    push_blocks(&mut bytes, synced, written, blocks)?;
    bytes.truncate(span(synced, written));
    Ok(Image {
        bytes,
        len: synced.len.max(written.len),
    })
}

impl Leftovers {
    /// How many blocks of either file may differ.
    pub fn block_count(&self) -> usize {
        span(&self.synced.log, &self.written.log)
            .max(span(&self.synced.db, &self.written.db))
            .div_ceil(BLOCK)
    }

    /// Whether the block of this number was written since the last sync, in either file.
    pub fn differs(&self, block: usize) -> bool {
        differs(&self.synced.log, &self.written.log, block)
            || differs(&self.synced.db, &self.written.db, block)
    }

    /// What both files have if these blocks of them are on the disk. The only error is a failed allocation.
    pub fn images(&self, alloc: Global, blocks: Blocks) -> Result<Images, AllocError> {
        let log = mixed(alloc, &self.synced.log, &self.written.log, blocks)?;
        let db = mixed(alloc, &self.synced.db, &self.written.db, blocks)?;
        Ok(Images { log, db })
    }
}
