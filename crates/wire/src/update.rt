ghost use Rattle.std.specs.Prelude.{◌≡◌, ◌∷◌, ◌++◌, OnOk};
ghost use Rattle.std.specs.Int.{w32};
ghost use Rattle.proto.specs.declared.command.StoreVerb.TheVariants.{Set, Add, Replace, Append, Prepend};
ghost use Rattle.wire.specs.Record.{Always, Takes, Puts};
ghost use Rattle.wire.specs.Number.{num, num_signed};
ghost use Rattle.wire.specs.Block.{block_text};
ghost use Rattle.wire.specs.Key.{key_text};
ghost use Rattle.wire.specs.Command.{verb_mark, update_text};
ghost use Rattle.wire.specs.CommandLaws.{update_prefix_free};

use crate::front::take_first;
use crate::record::Record;
use crate::sink::Sink;
use proto::{Block, Fault, Key, StoreVerb, Update};
use std::alloc::Global;

fn mark_of(verb: StoreVerb) -> u8
    ensures { result ≡ verb_mark verb }
{
    match verb {
        StoreVerb::Set => 2,
        StoreVerb::Add => 3,
        StoreVerb::Replace => 4,
        StoreVerb::Append => 5,
        StoreVerb::Prepend => 6,
    }
}

/// Writes what every storage line has.
fn put_store<S: Sink>(
    key: &Key,
    flags: u32,
    exptime: i32,
    block: &Block,
    sink: &mut S,
) -> Result<(), S::Refusal>
    ensures { OnOk result (Puts S.holds
        (key_text key.now ++ num w32 flags ++ num_signed exptime ++ block_text block.now)
        sink.old sink.new) }
{
    key.put(sink)?;
    flags.put(sink)?;
    exptime.put(sink)?;
    block.put(sink)
}

fn take_store(alloc: Global, verb: StoreVerb, bytes: &[u8]) -> Result<(Update, &[u8]), Fault>
    ensures { Takes Always update_text (verb_mark verb ∷ bytes.now) result }
{
    let (row, rest) = <(((Key, u32), i32), Block)>::take(alloc, bytes)?;
    let (((key, flags), exptime), block) = row;
    let update = Update::Store {
        verb,
        key,
        flags,
        exptime,
        block,
    };
    Ok((update, rest))
}

fn take_cas(alloc: Global, bytes: &[u8]) -> Result<(Update, &[u8]), Fault>
    ensures { Takes Always update_text (7 ∷ bytes.now) result }
{
    let (row, rest) = <((((Key, u32), i32), Block), u64)>::take(alloc, bytes)?;
    let ((((key, flags), exptime), block), unique) = row;
    let update = Update::Cas {
        key,
        flags,
        exptime,
        block,
        unique,
    };
    Ok((update, rest))
}

fn take_delete(alloc: Global, bytes: &[u8]) -> Result<(Update, &[u8]), Fault>
    ensures { Takes Always update_text (8 ∷ bytes.now) result }
{
    let (key, rest) = Key::take(alloc, bytes)?;
    Ok((Update::Delete { key }, rest))
}

fn take_touch(alloc: Global, bytes: &[u8]) -> Result<(Update, &[u8]), Fault>
    ensures { Takes Always update_text (9 ∷ bytes.now) result }
{
    let (row, rest) = <(Key, i32)>::take(alloc, bytes)?;
    let (key, exptime) = row;
    Ok((Update::Touch { key, exptime }, rest))
}

fn take_incr(alloc: Global, bytes: &[u8]) -> Result<(Update, &[u8]), Fault>
    ensures { Takes Always update_text (10 ∷ bytes.now) result }
{
    let (row, rest) = <(Key, u64)>::take(alloc, bytes)?;
    let (key, delta) = row;
    Ok((Update::Incr { key, delta }, rest))
}

fn take_decr(alloc: Global, bytes: &[u8]) -> Result<(Update, &[u8]), Fault>
    ensures { Takes Always update_text (11 ∷ bytes.now) result }
{
    let (row, rest) = <(Key, u64)>::take(alloc, bytes)?;
    let (key, delta) = row;
    Ok((Update::Decr { key, delta }, rest))
}

/// The update behind this mark.
pub fn take_marked(alloc: Global, mark: u8, bytes: &[u8]) -> Result<(Update, &[u8]), Fault>
    ensures { Takes Always update_text (mark ∷ bytes.now) result }
{
    match mark {
        2 => take_store(alloc, StoreVerb::Set, bytes),
        3 => take_store(alloc, StoreVerb::Add, bytes),
        4 => take_store(alloc, StoreVerb::Replace, bytes),
        5 => take_store(alloc, StoreVerb::Append, bytes),
        6 => take_store(alloc, StoreVerb::Prepend, bytes),
        7 => take_cas(alloc, bytes),
        8 => take_delete(alloc, bytes),
        9 => take_touch(alloc, bytes),
        10 => take_incr(alloc, bytes),
        11 => take_decr(alloc, bytes),
        _ => Err(Fault::BadRecord),
    }
}

impl Record for Update {
    ghost fits = { Always };

    ghost encoding = { update_text };

    fn put<S: Sink>(&self, sink: &mut S) -> Result<(), S::Refusal> {
        match self {
            Update::Store {
                verb,
                key,
                flags,
                exptime,
                block,
            } => {
                sink.put(&[mark_of(*verb)])?;
                put_store(key, *flags, *exptime, block, sink)
            }
            Update::Cas {
                key,
                flags,
                exptime,
                block,
                unique,
            } => {
                sink.put(&[7u8])?;
                put_store(key, *flags, *exptime, block, sink)?;
                unique.put(sink)
            }
            Update::Delete { key } => {
                sink.put(&[8u8])?;
                key.put(sink)
            }
            Update::Touch { key, exptime } => {
                sink.put(&[9u8])?;
                key.put(sink)?;
                exptime.put(sink)
            }
            Update::Incr { key, delta } => {
                sink.put(&[10u8])?;
                key.put(sink)?;
                delta.put(sink)
            }
            Update::Decr { key, delta } => {
                sink.put(&[11u8])?;
                key.put(sink)?;
                delta.put(sink)
            }
        }
    }

    fn take<'b>(alloc: Global, bytes: &'b [u8]) -> Result<(Update, &'b [u8]), Fault> {
        let (mark, rest) = take_first(bytes)?;
        take_marked(alloc, mark, rest)
    }

    ghost prefix_free = { update_prefix_free };
}
