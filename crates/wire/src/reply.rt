ghost use Rattle.std.specs.Prelude.{◌≡◌, ◌∷◌};
ghost use Rattle.wire.specs.Record.{Always, Takes};
ghost use Rattle.wire.specs.Reply.{found_text, values_text, reply_record};
ghost use Rattle.wire.specs.ReplyLaws.{found_prefix_free, values_prefix_free, reply_prefix_free};

use crate::counted::{Counted, put_list};
use crate::front::take_first;
use crate::record::Record;
use crate::sink::Sink;
use proto::{Block, Fault, Found, Key, MOST_KEYS, Reply, Values};
use std::alloc::Global;

impl Record for Found {
    ghost fits = { Always };

    ghost encoding = { found_text };

    fn put<S: Sink>(&self, sink: &mut S) -> Result<(), S::Refusal> {
        self.key.put(sink)?;
        self.flags.put(sink)?;
        self.block.put(sink)?;
        self.unique.put(sink)
    }

    fn take<'b>(alloc: Global, bytes: &'b [u8]) -> Result<(Found, &'b [u8]), Fault> {
        let (row, rest) = <(((Key, u32), Block), Option<u64>)>::take(alloc, bytes)?;
        let (((key, flags), block), unique) = row;
        let found = Found {
            key,
            flags,
            block,
            unique,
        };
        Ok((found, rest))
    }

    ghost prefix_free = { found_prefix_free };
}

impl Record for Values {
    ghost fits = { Always };

    ghost encoding = { values_text };

    fn put<S: Sink>(&self, sink: &mut S) -> Result<(), S::Refusal> {
        put_list(self.as_slice(), sink)
    }

    fn take<'b>(alloc: Global, bytes: &'b [u8]) -> Result<(Values, &'b [u8]), Fault> {
        let (listed, rest) = Counted::<Found>::take(alloc, bytes)?;
        let found = listed.into_vec();
        if MOST_KEYS < found.len() {
            return Err(Fault::BadRecord);
        }
        Ok((Values::new(found), rest))
    }

    ghost prefix_free = { values_prefix_free };
}

fn take_number(alloc: Global, bytes: &[u8]) -> Result<(Reply, &[u8]), Fault>
    ensures { Takes Always reply_record (6 ∷ bytes.now) result }
{
    let (number, rest) = u64::take(alloc, bytes)?;
    Ok((Reply::Number(number), rest))
}

fn take_values(alloc: Global, bytes: &[u8]) -> Result<(Reply, &[u8]), Fault>
    ensures { Takes Always reply_record (7 ∷ bytes.now) result }
{
    let (values, rest) = Values::take(alloc, bytes)?;
    Ok((Reply::Values(values), rest))
}

/// The reply behind this mark.
fn take_marked(alloc: Global, mark: u8, bytes: &[u8]) -> Result<(Reply, &[u8]), Fault>
    ensures { Takes Always reply_record (mark ∷ bytes.now) result }
{
    match mark {
        0 => Ok((Reply::Stored, bytes)),
        1 => Ok((Reply::NotStored, bytes)),
        2 => Ok((Reply::Exists, bytes)),
        3 => Ok((Reply::NotFound, bytes)),
        4 => Ok((Reply::Deleted, bytes)),
        5 => Ok((Reply::Touched, bytes)),
        6 => take_number(alloc, bytes),
        7 => take_values(alloc, bytes),
        8 => Ok((Reply::TooLarge, bytes)),
        9 => Ok((Reply::NotNumber, bytes)),
        _ => Err(Fault::BadRecord),
    }
}

impl Record for Reply {
    ghost fits = { Always };

    ghost encoding = { reply_record };

    fn put<S: Sink>(&self, sink: &mut S) -> Result<(), S::Refusal> {
        match self {
            Reply::Stored => sink.put(&[0u8]),
            Reply::NotStored => sink.put(&[1u8]),
            Reply::Exists => sink.put(&[2u8]),
            Reply::NotFound => sink.put(&[3u8]),
            Reply::Deleted => sink.put(&[4u8]),
            Reply::Touched => sink.put(&[5u8]),
            Reply::Number(number) => {
                sink.put(&[6u8])?;
                number.put(sink)
            }
            Reply::Values(values) => {
                sink.put(&[7u8])?;
                values.put(sink)
            }
            Reply::TooLarge => sink.put(&[8u8]),
            Reply::NotNumber => sink.put(&[9u8]),
        }
    }

    fn take<'b>(alloc: Global, bytes: &'b [u8]) -> Result<(Reply, &'b [u8]), Fault> {
        let (mark, rest) = take_first(bytes)?;
        take_marked(alloc, mark, rest)
    }

    ghost prefix_free = { reply_prefix_free };
}
