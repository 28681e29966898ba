ghost use Rattle.std.specs.Prelude.{◌≡◌, ◌++◌, ◌∷◌, OnOk};
ghost use Rattle.std.specs.Int.{w32, w64, to_be_bytes};
ghost use Rattle.wire.specs.Record.{Always, Puts};
ghost use Rattle.wire.specs.Number.{num};
ghost use Rattle.wire.specs.Field.{option_text};
ghost use Rattle.wire.specs.Item.{item_text};
ghost use Rattle.wire.specs.ItemLaws.{item_prefix_free};

use crate::block::put_data;
use crate::record::Record;
use crate::sink::Sink;
use items::Item;
use proto::{Block, Fault};
use std::alloc::Global;

/// The fields of an item that is never due, and the length of its data.
fn lasting_fields(flags: u32, unique: u64, len: u32) -> [u8; 17]
    ensures { result ≡ to_be_bytes w32 flags ++ 0 ∷ to_be_bytes w64 unique ++ to_be_bytes w32 len }
{
    let [a, b, c, d] = flags.to_be_bytes();
    let [e, f, g, h, i, j, k, l] = unique.to_be_bytes();
    let [m, n, o, p] = len.to_be_bytes();
    [a, b, c, d, 0, e, f, g, h, i, j, k, l, m, n, o, p]
}

/// The fields of an item that is due at a time, and the length of its data.
fn passing_fields(flags: u32, due: u64, unique: u64, len: u32) -> [u8; 25]
    ensures { result ≡ to_be_bytes w32 flags ++ 1 ∷ to_be_bytes w64 due ++ to_be_bytes w64 unique ++ to_be_bytes w32 len }
{
    let [a, b, c, d] = flags.to_be_bytes();
    let [e, f, g, h, i, j, k, l] = due.to_be_bytes();
    let [m, n, o, p, q, r, s, t] = unique.to_be_bytes();
    let [u, v, w, x] = len.to_be_bytes();
    [
        a, b, c, d, 1, e, f, g, h, i, j, k, l, m, n, o, p, q, r, s, t, u, v, w, x,
    ]
}

/// Writes all that is before the data, as one piece.
fn put_fields<S: Sink>(
    flags: u32,
    due: Option<u64>,
    unique: u64,
    len: u32,
    sink: &mut S,
) -> Result<(), S::Refusal>
    ensures { OnOk result (Puts S.holds
        (num w32 flags ++ option_text (num w64) due ++ num w64 unique ++ num w32 len) sink.old sink.new) }
{
    match due {
        None => sink.put(&lasting_fields(flags, unique, len)),
        Some(due) => sink.put(&passing_fields(flags, due, unique, len)),
    }
}

impl Record for Item {
    ghost fits = { Always };

    ghost encoding = { item_text };

    fn put<S: Sink>(&self, sink: &mut S) -> Result<(), S::Refusal> {
        let len = self.block.len() as u32;
        put_fields(self.flags, self.due, self.unique, len, sink)?;
        put_data(&self.block, sink)
    }

    fn take<'b>(alloc: Global, bytes: &'b [u8]) -> Result<(Item, &'b [u8]), Fault> {
        let (row, rest) = <(((u32, Option<u64>), u64), Block)>::take(alloc, bytes)?;
        let (((flags, due), unique), block) = row;
        let item = Item {
            block,
            flags,
            due,
            unique,
        };
        Ok((item, rest))
    }

    ghost prefix_free = { item_prefix_free };
}
