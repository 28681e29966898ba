ghost use Rattle.std.specs.Prelude.{OnOk};
ghost use Rattle.wire.specs.Record.{Always, Puts};
ghost use Rattle.wire.specs.Block.{block_text};
ghost use Rattle.wire.specs.BlockLaws.{block_prefix_free};

use crate::counted::put_count;
use crate::front::take_bytes;
use crate::record::Record;
use crate::sink::Sink;
use proto::{Block, Fault, MOST_BLOCK_BYTES};
use std::alloc::Global;

/// From how many bytes on a text shares the data of an item, and does not copy it. To share it makes
/// a piece of the few bytes before it too, which takes two allocations: to copy fewer bytes than
/// these costs less.
pub const LEAST_SHARED_BYTES: usize = 4096;

/// Writes the bytes of a block, without their length. Those of a large block are shared.
pub(crate) fn put_data<S: Sink>(block: &Block, sink: &mut S) -> Result<(), S::Refusal>
    ensures { OnOk result (Puts S.holds block.now sink.old sink.new) }
{
    if block.len() < LEAST_SHARED_BYTES {
        sink.put(block.as_slice())
    } else {
        sink.share(block.as_piece())
    }
}

impl Record for Block {
    ghost fits = { Always };

    ghost encoding = { block_text };

    fn put<S: Sink>(&self, sink: &mut S) -> Result<(), S::Refusal> {
        put_count(self.len(), sink)?;
        put_data(self, sink)
    }

    fn take<'b>(alloc: Global, bytes: &'b [u8]) -> Result<(Block, &'b [u8]), Fault> {
        let (size, rest) = u32::take(alloc, bytes)?;
        if MOST_BLOCK_BYTES < size as usize {
            return Err(Fault::BadRecord);
        }
        let (text, rest) = take_bytes(rest, size as usize)?;
        Ok((Block::from_slice(alloc, text)?, rest))
    }

    ghost prefix_free = { block_prefix_free };
}
